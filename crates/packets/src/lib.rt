// MQTT 3.1.1 packets into messages (request C-11): `read_packet` looks at a whole packet, `message_at` hands out its messages one by one. Nothing is copied: a message says where its topic and its
// payload stand in the lent bytes.
#![tactic(auto)]

mod bodies;
mod connect;
mod fields;
mod filters;
mod header;
pub mod messages;
pub mod packet;
mod piece;
mod publish;
pub mod refusal;
