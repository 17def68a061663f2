// Asks the port what the Rust original was asked, and compares. A line of standard input is one question with the answer recorded from the original, whose buckets are those
// of request C-17 (oracle/record): a kind, fields with single blanks between, and the answer; `-` is a field with nothing. `leaves` has the questions on matching and hashes,
// `traces` those on whole traces. The file `stdout` has what must come out: how many lines of each kind there are, so that none goes missing, and no line that differs.
#![tactic(auto)]

mod leaves;
mod say;
mod traces;

ghost use Rattle.std.specs.Prelude.{◌≡◌, length};

use crate::say::{say_all, say_differs, say_unknown};
use cut::args::rest;
use cut::{after, before, upto};
use slices::bytes::{find_byte, same_bytes};

const STDIN_FILENO: i32 = 0;

// The kind of a line: its first field, if that is one byte.
fn kind_of(line: &[u8]) -> u8 {
    match before(line, b' ') {
        [kind] => *kind,
        _ => b'?',
    }
}

// How many fields of a kind are the question.
fn asks(kind: u8) -> usize {
    match kind {
        b'm' => 2,
        b't' => 2,
        b'h' => 2,
        b'o' => 3,
        b'l' => 4,
        _ => 1,
    }
}

// What the port says to a line's fields; its length, or 0 where they are not understood.
fn answer(kind: u8, fields: &[u8], text: &mut [u8], out: &mut [u8]) -> usize {
    match kind {
        b'm' => leaves::answer_match(fields, out),
        b't' => traces::answer(kind, fields, text, out),
        b'h' => traces::answer(kind, fields, text, out),
        b'o' => traces::answer(kind, fields, text, out),
        b'l' => traces::answer(kind, fields, text, out),
        _ => leaves::answer_one(kind, fields, out),
    }
}

// 1 where the port answers a line otherwise or does not understand it, and says so; else 0.
fn judged(number: u64, line: &[u8], text: &mut [u8], out: &mut [u8]) -> u64 {
    let kind = kind_of(line);
    let fields = after(line, b' ');
    let k = answer(kind, fields, text, out);
    if k == 0 {
        say_unknown(number);
        return 1;
    }
    let original = rest(fields, asks(kind));
    let port = upto(out, k);
    if same_bytes(original, port) {
        return 0;
    }
    say_differs(number, original, port);
    1
}

// The place of a kind among the counts; the last is for all that are none.
fn place_of(kind: u8) -> usize {
    find_byte(b"mfdscpvrbx$thlo", 0, kind)
}

// `n` more at place `k`.
fn add(counts: &mut [u64; 16], k: usize, n: u64) {
    if k < 16 {
        counts[k] = counts[k].wrapping_add(n);
    }
}

// Line by line, with room for the longest trace and for its answer.
fn replay(questions: &[u8], text: &mut [u8], out: &mut [u8]) {
    let mut asked = [0u64; 16];
    let mut differ = [0u64; 16];
    let mut number: u64 = 0;
    let mut left = questions;
    while !left.is_empty() {
        number += 1;
        let line = before(left, b'\n');
        let k = place_of(kind_of(line));
        add(&mut asked, k, 1);
        add(&mut differ, k, judged(number, line, text, out));
        left = after(left, b'\n');
    }
    say_all(&asked, &differ);
}

// Room for all questions.
fn question_buffer() -> [u8; 524288]
    ensures { 524288 ≡ length result }
{
    [0; 524288]
}

// Room for one byte more than the longest trace has.
fn text_buffer() -> [u8; 65537]
    ensures { 65537 ≡ length result }
{
    [0; 65537]
}

// Room for the answer to any trace, and for how it ended.
fn answer_buffer() -> [u8; 786500]
    ensures { 786500 ≡ length result }
{
    [0; 786500]
}

fn main() {
    let mut questions = question_buffer();
    let n = io::read_full(STDIN_FILENO, &mut questions);
    let mut text = text_buffer();
    let mut out = answer_buffer();
    replay(&questions[..n], &mut text, &mut out);
}
