// Readers of `key=value` lines (document 01, "The trace"). `line_at` finds a line and its key and decides 26 and 21;
// each kind of field then reads the value, the bytes from the key to the LF.
ghost use Rattle.std.specs.Prelude.{◌≡◌, length};
ghost use Rattle.lines.specs.Field.{Within, refused as refused_as, read as read_as, answered as answered_by};
ghost use Rattle.lines.specs.Field.{line_at, number_field, word_field, hex_field, hex_kept, text_end};

use crate::value::Number;
use crate::{held, value};
use slices::bytes::starts_with;

// What one line gave. number: 0 read, 26 no LF before the end, 21 wrong key, 22 bad number or range, 23 bad word,
// 24 bad hex, 25 hex too long. from..to is the value's part of the text, and next is the place after the LF.
// Refused: value is 0, and from, to and next all stand where the line begins, or at the text's end where the place is past it.
#[derive(Clone, Copy, Debug, PartialEq, Eq)]
pub struct Field {
    pub number: u32,
    pub value: u64,
    pub from: usize,
    pub to: usize,
    pub next: usize,
}

// A line refused at its beginning.
fn refused(number: u32, at: usize) -> Field
    ensures { result ≡ refused_as number at }
{
    Field {
        number,
        value: 0,
        from: at,
        to: at,
        next: at,
    }
}

// The line at `at` with its key: 26 without an LF, 21 without the key.
pub fn line_at(text: &[u8], at: usize, key: &[u8]) -> Field
    ensures value { result ≡ line_at text.now at key.now }
    ensures within { Within text.now result }
{
    let line = held::span_from(text, at);
    if !line.whole {
        return refused(26, line.from);
    }
    if !starts_with(&text[line.from..line.to], key) {
        return refused(21, line.from);
    }
    Field {
        number: 0,
        value: 0,
        from: line.from + key.len(),
        to: line.to,
        next: line.to + 1,
    }
}

// A line that was read, with the number that its value gave.
fn read_as(line: Field, value: u64) -> Field
    ensures { result ≡ read_as line value }
{
    Field {
        number: 0,
        value,
        ..line
    }
}

// A line that was read, answered by the number that its value gave: none is refused, at the line's beginning.
fn answered(line: Field, at: usize, number: u32, n: Number) -> Field
    ensures { result ≡ answered_by line at number n }
{
    match n {
        Number::Value(v) => read_as(line, v),
        Number::Bad => refused(number, at),
    }
}

// The line at `at` as a number in low..high: 22 where its value is none.
pub fn number_field(text: &[u8], at: usize, key: &[u8], low: u64, high: u64) -> Field
    ensures value { result ≡ number_field text.now at key.now low high }
    ensures within { Within text.now result }
{
    let line = line_at(text, at, key);
    if line.number != 0 {
        return line;
    }
    let number = value::decimal(&text[line.from..line.to], low, high);
    answered(line, at, 22, number)
}

// The line at `at` as one of the words `words`, by its place in that list: 23 where its value is none.
pub fn word_field(text: &[u8], at: usize, key: &[u8], words: &[u8]) -> Field
    ensures value { result ≡ word_field text.now at key.now words.now }
    ensures within { Within text.now result }
{
    let line = line_at(text, at, key);
    if line.number != 0 {
        return line;
    }
    let place = value::word(words, &text[line.from..line.to]);
    answered(line, at, 23, place)
}

// The line at `at` as hex, its bytes to the beginning of `out`: 24 or 25 where its value is none, and then `out` stays.
pub fn hex_field(text: &[u8], at: usize, key: &[u8], out: &mut [u8]) -> Field
    ensures value { result ≡ hex_field text.now at key.now (length out.old) }
    ensures within { Within text.now result }
    ensures kept { out.new ≡ hex_kept text.now at key.now out.old }
{
    let line = line_at(text, at, key);
    if line.number != 0 {
        return line;
    }
    let number = value::hex(&text[line.from..line.to], out);
    if number != 0 {
        return refused(number, at);
    }
    read_as(line, ((line.to - line.from) / 2) as u64)
}

// The test at the end of a text: 0 at its end, 21 where one line more stands there, 26 where that line has no LF.
pub fn text_end(text: &[u8], at: usize) -> u32
    ensures { result ≡ text_end text.now at }
{
    if text.len() <= at {
        return 0;
    }
    if held::span_from(text, at).whole {
        21
    } else {
        26
    }
}
