// Asks every reader and writer of `lines` what stands in standard input, one question to a line, and writes the answer beside it. A question is `NAME ARG.. [TEXT]`: the
// function's name, its arguments in the order that `readers` and `writers` give, and its text or value, in which `;` stands for an LF and `~` for a CR, so that places
// can be counted by eye. An argument `-` is empty. A line that begins with `#` is a heading. The file `stdout` has the answers of document 01, "The trace".
#![tactic(auto)]

mod parts;
mod readers;
mod say;
mod writers;

use crate::say::say;
use cut::args::arg;
use cut::swap::swap;
use cut::{after, before, upto};
use lines::put;

const STDIN_FILENO: i32 = 0;

// A question: of a writer or of a reader.
fn ask(q: &[u8]) {
    let name = arg(q, 0);
    if name.starts_with(b"put_") {
        writers::ask(name, q);
    } else {
        readers::ask(name, q);
    }
}

// A line, and the answer beside it.
fn answer(line: &[u8]) {
    say(line);
    if line.starts_with(b"#") {
        return;
    }
    say(b" ->");
    let mut q = [0u8; 256];
    let n = put::put_bytes(&mut q, 0, line);
    swap(&mut q, n, b';', b'\n');
    swap(&mut q, n, b'~', b'\r');
    ask(upto(&q, n));
}

// Line by line.
fn run(text: &[u8]) {
    let mut left = text;
    while !left.is_empty() {
        answer(before(left, b'\n'));
        say(b"\n");
        left = after(left, b'\n');
    }
}

fn main() {
    let mut text = io::large_buffer();
    let n = io::read_full(STDIN_FILENO, &mut text);
    run(&text[..n]);
}
