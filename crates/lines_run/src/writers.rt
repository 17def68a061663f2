// The writers. What is asked, with its arguments in order:
//     put_byte SIZE AT [BYTE] · put_bytes SIZE AT [BYTES] · put_decimal SIZE AT NUMBER · put_hex SIZE AT [BYTES] · put_flag SIZE AT 0|1 · put_word SIZE AT WORDS PLACE
//     put_number_line SIZE AT KEY NUMBER · put_hex_line SIZE AT KEY [BYTES] · put_flag_line SIZE AT KEY 0|1 · put_word_line SIZE AT KEY WORDS PLACE
//     put_seconds_line SIZE AT KEY NUMBER
// SIZE is that of the buffer, at most 64. It is written out after the write, and a `.` is a byte that stayed; `next` is the place that the writer hands back, and
// `len` the length that `lengths` says beforehand, where it has a function for it.
use crate::parts::{text, text_byte};
use crate::say::{say_buffer, say_number, say_unknown};
use cut::args::{arg, flag, number, place, size};
use lines::{lengths, put};

// A value.
fn put_value(name: &[u8], q: &[u8], out: &mut [u8]) -> usize {
    let at = place(q, 2);
    match name {
        b"put_byte" => put::put_byte(out, at, text_byte(q)),
        b"put_bytes" => put::put_bytes(out, at, text(q)),
        b"put_decimal" => {
            let n = number(q, 3);
            say_number(b"len", lengths::decimal_len(n) as u64);
            put::put_decimal(out, at, n)
        }
        b"put_hex" => put::put_hex(out, at, text(q)),
        b"put_flag" => put::put_flag(out, at, flag(q, 3)),
        b"put_word" => put::put_word(out, at, arg(q, 3), place(q, 4)),
        _ => {
            say_unknown();
            at
        }
    }
}

// A line, or a value.
fn put_line(name: &[u8], q: &[u8], out: &mut [u8]) -> usize {
    let at = place(q, 2);
    let key = arg(q, 3);
    match name {
        b"put_number_line" => {
            let n = number(q, 4);
            say_number(b"len", lengths::number_line_len(key, n) as u64);
            put::put_number_line(out, at, key, n)
        }
        b"put_hex_line" => {
            say_number(b"len", lengths::hex_line_len(key, text(q)) as u64);
            put::put_hex_line(out, at, key, text(q))
        }
        b"put_flag_line" => {
            say_number(b"len", lengths::flag_line_len(key) as u64);
            put::put_flag_line(out, at, key, flag(q, 4))
        }
        b"put_word_line" => {
            let words = arg(q, 4);
            let k = place(q, 5);
            say_number(b"len", lengths::word_line_len(key, words, k) as u64);
            put::put_word_line(out, at, key, words, k)
        }
        b"put_seconds_line" => put::put_seconds_line(out, at, key, number(q, 4)),
        _ => put_value(name, q, out),
    }
}

// The write, the place after it, and what `out` then holds.
fn write(name: &[u8], q: &[u8], out: &mut [u8]) {
    say_number(b"next", put_line(name, q, out) as u64);
    say_buffer(out);
}

// A question, whose argument 1 is the buffer's size.
pub fn ask(name: &[u8], q: &[u8]) {
    let mut out = [b'.'; 64];
    let n = size(q, 1, &out);
    write(name, q, &mut out[..n]);
}
