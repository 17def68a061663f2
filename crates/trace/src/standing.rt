// Where the limit stands after a trace, as text (docs/STANDING.md). A pass writes the lines, or only counts them, so that a buffer that is too short is refused before anything is written. Each group
// of lines is made in a small buffer of its own, and goes out from there.
ghost use Rattle.std.specs.Prelude.{true, Ok, ◌++◌, ◌≡◌, ◌+◌, ◌-◌, ◌*◌, ◌<◌, ◌≤◌, length};
ghost use Rattle.slices.specs.Bytes.{bytes};
ghost use Rattle.lines.specs.Line.{number_line};
ghost use Rattle.tables.specs.Standing.{oldest_first};
ghost use Rattle.monitor.specs.Standing.{told_outlook, told_left};
ghost use Rattle.trace.specs.Seen.{sent_from};
ghost use Rattle.trace.specs.Standing.{name_text, opening_text, places_text, topic_text, message_text, topics_text, standing_lines, standing_text, standing_end, standing_kept};
ghost use Rattle.trace.specs.Trace.{enough, put_if};

use crate::groups::read_message;
use crate::run::{TraceEnd, buffer_128, buffer_256};
use crate::seen::{Seen, find_named, is_named, is_publish, see_all};
use crate::standing_lines::{put_name, put_opening, put_topic};
use lines::put::{put_bytes, put_number_line};
use monitor::message::MqttPacketType;
use monitor::standing::{Left, Outlook};
use monitor::state::MqttMonitor;
use tables::buckets::{BUCKETS, RateBucket};
use tables::standing::{Opening, oldest_live, opening_new, taken};
use topics::matching::Matching;

// Room for the lines of any one group.
const GROUP: usize = 512;

fn group_buffer() -> [u8; GROUP]
    ensures { length result ≡ 512 }
{
    [0; GROUP]
}

// Lines at a place of the buffer, or only their length.
fn pass_lines(out: &mut [u8], at: usize, lines: &[u8], write: bool) -> usize
    requires small { at ≤ 1000000 }
    requires short { length lines.now ≤ 512 }
    requires room { write ≡ true → at + length lines.now ≤ length out.old }
    ensures next { result ≡ at + length lines.now }
    ensures bytes { out.new ≡ put_if write out.old at lines.now }
{
    if !write {
        return at + lines.len();
    }
    put_bytes(out, at, lines)
}

// The head: the time of the last message, and how many places are taken.
fn pass_head(out: &mut [u8], at: usize, last: u64, count: usize, write: bool) -> usize
    requires small { at ≤ 1000000 }
    requires room { write ≡ true → at + length (number_line (bytes "last=") last ++ number_line (bytes "taken=") count) ≤ length out.old }
    ensures next { (result ≡ at + length (number_line (bytes "last=") last ++ number_line (bytes "taken=") count)) × (result ≤ at + 53) }
    ensures bytes { out.new ≡ put_if write out.old at (number_line (bytes "last=") last ++ number_line (bytes "taken=") count) }
{
    let mut lines = group_buffer();
    let after_last = put_number_line(&mut lines, 0, b"last=", last);
    let n = put_number_line(&mut lines, after_last, b"taken=", count as u64);
    pass_lines(out, at, &lines[..n], write)
}

// A place that is taken.
fn pass_place(out: &mut [u8], at: usize, name: &[u8], write: bool) -> usize
    requires small { at ≤ 1000000 }
    requires short { length name.now ≤ 128 }
    requires room { write ≡ true → at + length (name_text (bytes "place=") name.now) ≤ length out.old }
    ensures next { (result ≡ at + length (name_text (bytes "place=") name.now)) × (result ≤ at + 397) }
    ensures bytes { out.new ≡ put_if write out.old at (name_text (bytes "place=") name.now) }
{
    let mut lines = group_buffer();
    let n = put_name(&mut lines, 0, b"place=", name);
    pass_lines(out, at, &lines[..n], write)
}

// From when on a new topic passes.
fn pass_new(out: &mut [u8], at: usize, last: u64, opening: Opening, write: bool) -> usize
    requires small { at ≤ 1000000 }
    requires room { write ≡ true → at + length (opening_text (bytes "new=") last opening) ≤ length out.old }
    ensures next { (result ≡ at + length (opening_text (bytes "new=") last opening)) × (result ≤ at + 53) }
    ensures bytes { out.new ≡ put_if write out.old at (opening_text (bytes "new=") last opening) }
{
    let mut lines = group_buffer();
    let n = put_opening(&mut lines, 0, b"new=", last, opening);
    pass_lines(out, at, &lines[..n], write)
}

// A topic's lines.
fn pass_topic(
    out: &mut [u8],
    at: usize,
    topic: &[u8],
    outlook: &Outlook,
    left: &Left,
    last: u64,
    write: bool,
) -> usize
    requires small { at ≤ 1000000 }
    requires short { length topic.now ≤ 128 }
    requires room { write ≡ true → at + length (topic_text topic.now (told_outlook (Ok outlook.now)) (told_left (Ok left.now)) last) ≤ length out.old }
    ensures next { (result ≡ at + length (topic_text topic.now (told_outlook (Ok outlook.now)) (told_left (Ok left.now)) last)) × (result ≤ at + 490) }
    ensures bytes { out.new ≡ put_if write out.old at (topic_text topic.now (told_outlook (Ok outlook.now)) (told_left (Ok left.now)) last) }
{
    let mut lines = group_buffer();
    let n = put_topic(&mut lines, 0, topic, outlook, left, last);
    pass_lines(out, at, &lines[..n], write)
}

// The places that are taken, the oldest first: what was told is freed in a copy of the table.
fn pass_places(
    text: &[u8],
    first: usize,
    buckets: &[RateBucket; BUCKETS],
    out: &mut [u8],
    at: usize,
    write: bool,
) -> usize
    requires small { at ≤ 1000 }
    requires room { write ≡ true → at + length (places_text (sent_from text.now first) (oldest_first 32 buckets.now)) ≤ length out.old }
    ensures next { (result ≡ at + length (places_text (sent_from text.now first) (oldest_first 32 buckets.now))) × (result ≤ at + 12704) }
    ensures bytes { out.new ≡ put_if write out.old at (places_text (sent_from text.now first) (oldest_first 32 buckets.now)) }
{
    let mut rest = *buckets;
    let mut name = buffer_128();
    let mut p = at;
    for _turn in 0..BUCKETS {
        let Some(oldest) = oldest_live(&rest) else {
            return p;
        };
        let n = find_named(text, first, &rest[oldest].id, &mut name);
        p = pass_place(out, p, &name[..n], write);
        rest[oldest] = RateBucket::FREE;
    }
    p
}

// The lines of a message's topic, where it reached the limiter and no later one names it.
fn pass_message(
    text: &[u8],
    next: usize,
    m: &MqttMonitor,
    packet_type: MqttPacketType,
    topic: &[u8],
    last: u64,
    out: &mut [u8],
    at: usize,
    write: bool,
) -> usize
    requires small { at ≤ 1000000 }
    requires short { length topic.now ≤ 128 }
    requires room { write ≡ true → at + length (message_text m.now last packet_type topic.now (sent_from text.now next)) ≤ length out.old }
    ensures next { (result ≡ at + length (message_text m.now last packet_type topic.now (sent_from text.now next))) × (result ≤ at + 490) }
    ensures bytes { out.new ≡ put_if write out.old at (message_text m.now last packet_type topic.now (sent_from text.now next)) }
{
    if !is_publish(packet_type) {
        return at;
    }
    let Ok(outlook) = m.standing(topic) else {
        return at;
    };
    if outlook.rate == 0 {
        return at;
    }
    if is_named(text, next, topic) {
        return at;
    }
    // A topic that the limiter counts is not refused here either.
    let Ok(left) = m.tokens_left(topic, last) else {
        return at;
    };
    pass_topic(out, at, topic, &outlook, &left, last, write)
}

// The topics that reached the limiter.
fn pass_topics(
    text: &[u8],
    first: usize,
    m: &MqttMonitor,
    last: u64,
    out: &mut [u8],
    at: usize,
    write: bool,
) -> usize
    requires small { at ≤ 20000 }
    requires short { first < length text.now → length text.now ≤ 65536 }
    requires room { write ≡ true → at + length (topics_text m.now last (sent_from text.now first)) ≤ length out.old }
    ensures next { (result ≡ at + length (topics_text m.now last (sent_from text.now first))) × (result ≤ at + 729900) }
    ensures bytes { out.new ≡ put_if write out.old at (topics_text m.now last (sent_from text.now first)) }
{
    let mut topic = buffer_128();
    let mut payload = buffer_256();
    let mut p = at;
    let mut q = first;
    while q < text.len() {
        let group = read_message(text, q, &mut topic, &mut payload);
        if group.number != 0 {
            return p;
        }
        p = pass_message(
            text,
            group.next,
            m,
            group.msg.packet_type,
            group.topic(&topic),
            last,
            out,
            p,
            write,
        );
        q = group.next;
    }
    p
}

// All lines, written from the buffer's beginning on, or only counted.
fn pass(text: &[u8], seen: &Seen, out: &mut [u8], write: bool) -> usize
    requires short { seen.now.first < length text.now → length text.now ≤ 65536 }
    requires room { write ≡ true → length (standing_lines seen.now.monitor seen.now.last (sent_from text.now seen.now.first)) ≤ length out.old }
    ensures next { (result ≡ length (standing_lines seen.now.monitor seen.now.last (sent_from text.now seen.now.first))) × (result ≤ enough) }
    ensures bytes { out.new ≡ put_if write out.old 0 (standing_lines seen.now.monitor seen.now.last (sent_from text.now seen.now.first)) }
{
    let buckets = &seen.monitor.rate_buckets;
    let last = seen.last;
    let first = seen.first;
    let places = pass_head(out, 0, last, taken(buckets), write);
    let new = pass_places(text, first, buckets, out, places, write);
    let topics = pass_new(out, new, last, opening_new(buckets), write);
    pass_topics(text, first, &seen.monitor, last, out, topics, write)
}

// Where the limit stands after a trace, into a lent buffer: 28, with nothing written, where the buffer is shorter than all lines, which a buffer of `enough` bytes never is.
pub fn write_standing(text: &[u8], matching: Matching, out: &mut [u8]) -> TraceEnd
    ensures end { result ≡ standing_end matching (length out.old) text.now }
    ensures bytes { out.new ≡ standing_kept matching out.old text.now }
    ensures enough { length (standing_text matching text.now) ≤ enough }
{
    let seen = see_all(text, matching);
    let mut unused = [0u8; 1];
    let length = pass(text, &seen, &mut unused, false);
    if out.len() < length {
        return TraceEnd {
            number: 28,
            line: 0,
            length: 0,
        };
    }
    pass(text, &seen, out, true);
    TraceEnd {
        number: seen.number,
        line: seen.line,
        length,
    }
}
