// The readers. What is asked, with its arguments in order:
//     find_byte AT [TEXT], for the first `=` · span_at AT [TEXT] · span_from AT [TEXT]
//     line_at KEY AT [TEXT] · number_field KEY AT LOW HIGH [TEXT] · word_field KEY AT WORDS [TEXT] · hex_field KEY AT ROOM [TEXT] · text_end AT [TEXT]
//     starts_with KEY [VALUE] · decimal LOW HIGH [VALUE] · word WORDS [VALUE] · hex ROOM [VALUE]
// ROOM is the size of the buffer for the bytes, at most 8; it is written out after the read, and a `.` is a byte that stayed.
use crate::parts::text;
use crate::say::{say, say_buffer, say_field, say_flag, say_number, say_unknown};
use cut::args::{arg, number, place, size};
use lines::held::Span;
use lines::value::Number;
use lines::{held, read, value};
use slices::bytes::{find_byte, starts_with};

// Where a line stands.
fn say_span(s: Span) {
    say_flag(b"whole", s.whole);
    say_number(b"from", s.from as u64);
    say_number(b"to", s.to as u64);
}

// What a value spells.
fn say_spelled(n: Number) {
    match n {
        Number::Value(v) => say_number(b"value", v),
        Number::Bad => say(b" bad"),
    }
}

// Hex as a value: the answer, and what `room` then holds.
fn say_hex(q: &[u8], room: &mut [u8]) {
    say_number(b"number", u64::from(value::hex(text(q), room)));
    say_buffer(room);
}

// Hex as a line, likewise.
fn say_hex_field(q: &[u8], room: &mut [u8]) {
    say_field(read::hex_field(text(q), place(q, 2), arg(q, 1), room));
    say_buffer(room);
}

// A question about places in a text.
fn ask_place(name: &[u8], q: &[u8]) {
    match name {
        b"find_byte" => say_number(b"at", find_byte(text(q), place(q, 1), b'=') as u64),
        b"span_at" => say_span(held::span_at(text(q), place(q, 1))),
        b"span_from" => say_span(held::span_from(text(q), place(q, 1))),
        b"text_end" => say_number(b"number", u64::from(read::text_end(text(q), place(q, 1)))),
        _ => say_unknown(),
    }
}

// A question about a value.
fn ask_value(name: &[u8], q: &[u8]) {
    let mut room = [b'.'; 8];
    let n = size(q, 1, &room);
    match name {
        b"starts_with" => say_flag(b"yes", starts_with(text(q), arg(q, 1))),
        b"decimal" => say_spelled(value::decimal(text(q), number(q, 1), number(q, 2))),
        b"word" => say_spelled(value::word(arg(q, 1), text(q))),
        b"hex" => say_hex(q, &mut room[..n]),
        _ => ask_place(name, q),
    }
}

// A question about a line, or any other.
pub fn ask(name: &[u8], q: &[u8]) {
    let t = text(q);
    let at = place(q, 2);
    let key = arg(q, 1);
    let mut room = [b'.'; 8];
    let n = size(q, 3, &room);
    match name {
        b"line_at" => say_field(read::line_at(t, at, key)),
        b"number_field" => say_field(read::number_field(t, at, key, number(q, 3), number(q, 4))),
        b"word_field" => say_field(read::word_field(t, at, key, arg(q, 3))),
        b"hex_field" => say_hex_field(q, &mut room[..n]),
        _ => ask_value(name, q),
    }
}
