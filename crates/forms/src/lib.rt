// Forms of text, on the lines of `lines`: what is written of a value, and what is read of a text at a place, with the law that each is the other's way back (specs/Form.antt).
// A form is put together of smaller ones, and its law with it. Settings use them, saved state and monthly figures will (requests C-13, C-18, C-19, C-23); nothing here knows of monitors.
#![tactic(auto)]

pub mod chain;
