// Whole traces. The first field is the trace's name, which only helps a reader; then comes its text, on one line with `;` for each LF. `h` has the text in hex, where it
// holds bytes that a line cannot; `l` has a length, a beginning and a part that comes again and again up to that length; `o` has the room that is lent. The answer is
// the lent bytes, `;` for each LF, up to the length that was handed back (for `o` all of the room, which was full of dots), and then number, line and length.
use cut::args::{Bytes, arg, field, size, unhex};
use cut::swap::swap;
use cut::upto;
use lines::put;
use trace::run;
use trace::run::TraceEnd;

// Each byte from `from` up to `to` becomes the one that stands `back` places before it.
fn repeat(s: &mut [u8], from: usize, to: usize, back: usize) {
    if from < back {
        return;
    }
    for i in from..to.min(s.len()) {
        s[i] = s[i - back];
    }
}

// The text of an `l`: its length, its beginning, its part.
fn put_long(fields: &[u8], text: &mut [u8]) -> usize {
    let n = size(fields, 1, text);
    let part = field(fields, 3);
    let head = put::put_bytes(text, 0, arg(fields, 2));
    let once = put::put_bytes(text, head, part);
    repeat(text, once, n, part.len());
    n
}

// The text of a question that spells it, still with `;`.
fn put_spelled(kind: u8, fields: &[u8], text: &mut [u8]) -> usize {
    match kind {
        b'l' => put_long(fields, text),
        b'o' => put::put_bytes(text, 0, arg(fields, 2)),
        _ => put::put_bytes(text, 0, arg(fields, 1)),
    }
}

// The text of any question, to the beginning of `text`.
fn put_text(kind: u8, fields: &[u8], text: &mut [u8]) -> Bytes {
    if kind == b'h' {
        return unhex(fields, 1, text);
    }
    let count = put_spelled(kind, fields, text);
    swap(text, count, b';', b'\n');
    Bytes { good: true, count }
}

// A blank and a number.
fn put_number(out: &mut [u8], at: usize, n: u64) -> usize {
    let blank = put::put_byte(out, at, b' ');
    put::put_decimal(out, blank, n)
}

// The lent bytes up to `to` as recorded, and behind them how the trace ended; the place after that.
fn put_end(out: &mut [u8], to: usize, end: TraceEnd) -> usize {
    swap(out, to, b'\n', b';');
    let number = put_number(out, to, u64::from(end.number));
    let line = put_number(out, number, end.line);
    put_number(out, line, end.length as u64)
}

// What the port says to a text with all the room there is.
fn answer_text(text: &[u8], out: &mut [u8]) -> usize {
    let end = run::run_trace(text, out);
    put_end(out, end.length, end)
}

// What the port says to a text in a room of so many bytes, all of which are shown.
fn answer_in_room(text: &[u8], fields: &[u8], out: &mut [u8]) -> usize {
    out.fill(b'.');
    let room = size(fields, 1, out);
    let end = run::run_trace(text, &mut out[..room]);
    put_end(out, room, end)
}

// What the port says to a question's trace, as recorded, to the beginning of `out`; its length, or 0 where the question is not understood.
pub fn answer(kind: u8, fields: &[u8], text: &mut [u8], out: &mut [u8]) -> usize {
    let got = put_text(kind, fields, text);
    if !got.good {
        return 0;
    }
    if kind == b'o' {
        return answer_in_room(upto(text, got.count), fields, out);
    }
    answer_text(upto(text, got.count), out)
}
