// The lines of where the limit stands: a name in hex and as a person reads it, from when on a message passes, and a topic with all of it.
ghost use Rattle.std.specs.Prelude.{◌≡◌, ◌≤◌, length, Ok};
ghost use Rattle.lines.specs.Wrote.{Wrote};
ghost use Rattle.tables.specs.declared.standing.Opening.TheVariants.{Never, From};
ghost use Rattle.monitor.specs.Standing.{told_outlook, told_left};
ghost use Rattle.trace.specs.Standing.{name_text, opening_text, tokens_of, topic_text};

use lines::put::{put_byte, put_bytes, put_hex_line, put_number_line, put_seconds_line};
use monitor::standing::{Left, Outlook};
use rules_text::shown::put_shown;
use tables::standing::Opening;

// A name's two lines: in hex after its key, and as a person reads it.
pub(crate) fn put_name(out: &mut [u8], at: usize, key: &[u8], topic: &[u8]) -> usize
    ensures { Wrote out.old out.new at (name_text key.now topic.now) result }
{
    let after_hex = put_hex_line(out, at, key, topic);
    let after_key = put_bytes(out, after_hex, b"text=");
    let end = put_shown(out, after_key, topic);
    put_byte(out, end, b'\n')
}

// A time's two lines: the time after its key, and the wait for it.
fn put_from(out: &mut [u8], at: usize, key: &[u8], last: u64, time: u64) -> usize
    ensures text { Wrote out.old out.new at (opening_text key.now last (From time)) result }
    ensures short { length key.now ≤ 5 → length (opening_text key.now last (From time)) ≤ 53 }
{
    let wait = time.saturating_sub(last);
    let after_time = put_number_line(out, at, key, time);
    put_seconds_line(out, after_time, b"wait=", wait)
}

// The two lines of a time that never comes.
fn put_never(out: &mut [u8], at: usize, key: &[u8], last: u64) -> usize
    ensures { Wrote out.old out.new at (opening_text key.now last Never) result }
{
    let after_key = put_bytes(out, at, key);
    let after_time = put_bytes(out, after_key, b"never\n");
    put_bytes(out, after_time, b"wait=never\n")
}

// From when on a message passes, and the wait for it.
pub(crate) fn put_opening(
    out: &mut [u8],
    at: usize,
    key: &[u8],
    last: u64,
    opening: Opening,
) -> usize
    ensures text { Wrote out.old out.new at (opening_text key.now last opening) result }
    ensures short { length key.now ≤ 5 → length (opening_text key.now last opening) ≤ 53 }
{
    match opening {
        Opening::Never => put_never(out, at, key, last),
        Opening::From(time) => put_from(out, at, key, last, time),
    }
}

// How many messages of a topic would pass at that time.
fn tokens_of(left: &Left) -> u64
    ensures { (result ≡ tokens_of (told_left (Ok left.now))) × (result ≤ 65536) }
{
    if left.kind == 0 {
        return u64::from(left.tokens) + 1;
    }
    0
}

// A topic's lines: its name, rate, tokens, the kind that denies it, and from when on it passes.
pub(crate) fn put_topic(
    out: &mut [u8],
    at: usize,
    topic: &[u8],
    outlook: &Outlook,
    left: &Left,
    last: u64,
) -> usize
    ensures text { Wrote out.old out.new at (topic_text topic.now (told_outlook (Ok outlook.now)) (told_left (Ok left.now)) last) result }
    ensures short { length topic.now ≤ 128 → length (topic_text topic.now (told_outlook (Ok outlook.now)) (told_left (Ok left.now)) last) ≤ 490 }
{
    let rate = outlook.rate;
    let kind = outlook.kind;
    let tokens = tokens_of(left);
    let after_name = put_name(out, at, b"topic=", topic);
    let after_rate = put_number_line(out, after_name, b"rate=", u64::from(rate));
    let after_tokens = put_number_line(out, after_rate, b"tokens=", tokens);
    let after_kind = put_number_line(out, after_tokens, b"kind=", u64::from(kind));
    put_opening(out, after_kind, b"from=", last, outlook.opening)
}
