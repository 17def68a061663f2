// What the messages of a trace came to: the state that they leave, the time of the last of them, and who named what (docs/STANDING.md). Nothing is written. It is the support desk's call and not the
// part's: each message is inspected by the plain call, and a search reads the text again.
ghost use Rattle.std.specs.Prelude.{◌&&◌, ◌≡◌, ◌≤◌, eqb, length, take};
ghost use Rattle.slices.specs.Bytes.{same};
ghost use Rattle.monitor.specs.Message.{type_number};
ghost use Rattle.trace.specs.Seen.{sent_from, seen_in, named_by, is_named};

use crate::groups::read_message;
use crate::run::{buffer_128, buffer_256, load};
use monitor::message::{MqttPacketType, TOPIC_MAX};
use monitor::state::MqttMonitor;
use slices::bytes::same_bytes;
use tables::identity::Id;
use tables::rules::TopicAction;
use topics::matching::Matching;

// How a trace ended, the place of its first message, the time of its last, and the state after all of them. Where the opening or a rule was refused there is no message, and the place is the
// text's end. A `Result` would be no plainer: state, time and place stand whether the trace is whole or not.
#[derive(Clone, Copy, Debug, PartialEq, Eq)]
pub struct Seen {
    pub number: u32,
    pub line: u64,
    pub first: usize,
    pub last: u64,
    pub monitor: MqttMonitor,
}

// All messages of a trace, inspected.
pub fn see_all(text: &[u8], matching: Matching) -> Seen
    ensures { result ≡ seen_in matching text.now }
{
    let mut m = MqttMonitor::fresh(matching, TopicAction::Allow);
    let start = match load(text, matching, &mut m) {
        Ok(start) => start,
        Err(stop) => {
            return Seen {
                number: stop.number,
                line: stop.line,
                first: text.len(),
                last: 0,
                monitor: m,
            };
        }
    };
    let first = start.next;
    let mut line = start.line;
    let mut topic = buffer_128();
    let mut payload = buffer_256();
    let mut at = first;
    let mut last = 0;
    while at < text.len() {
        let group = read_message(text, at, &mut topic, &mut payload);
        if group.number != 0 {
            let ended = line + 1 + u64::from(group.line);
            return Seen {
                number: group.number,
                line: ended,
                first,
                last,
                monitor: m,
            };
        }
        let _inspected = m.inspect(&group.msg, group.topic(&topic), group.payload(&payload));
        last = group.msg.timestamp_us;
        at = group.next;
        line += 7;
    }
    Seen {
        number: 0,
        line,
        first,
        last,
        monitor: m,
    }
}

// The topic of the first message from a place on that has an identity, at the beginning of a lent buffer, and its length; 0 where none has.
pub(crate) fn find_named(text: &[u8], at: usize, held: &Id, name: &mut [u8; TOPIC_MAX]) -> usize
    ensures named { take result name.new ≡ named_by (sent_from text.now at) held.now }
    ensures short { result ≤ 128 }
    ensures long { length name.old ≡ 128 → length name.new ≡ 128 }
{
    let mut topic = buffer_128();
    let mut payload = buffer_256();
    let mut p = at;
    while p < text.len() {
        let group = read_message(text, p, &mut topic, &mut payload);
        if group.number != 0 {
            return 0;
        }
        if held.is_of(&Id::of(group.topic(&topic))) {
            *name = topic;
            return usize::from(group.msg.topic_len);
        }
        p = group.next;
    }
    0
}

// It is a Publish.
pub(crate) fn is_publish(packet_type: MqttPacketType) -> bool
    ensures { result ≡ eqb (type_number packet_type) 3 }
{
    matches!(packet_type, MqttPacketType::Publish)
}

// A Publish of a topic.
fn names(packet_type: MqttPacketType, name: &[u8], topic: &[u8]) -> bool
    ensures { result ≡ (eqb (type_number packet_type) 3 && same topic.now name.now) }
{
    is_publish(packet_type) && same_bytes(topic, name)
}

// Whether a Publish names a topic from a place on.
pub(crate) fn is_named(text: &[u8], at: usize, topic: &[u8]) -> bool
    ensures { result ≡ is_named (sent_from text.now at) topic.now }
{
    let mut name = buffer_128();
    let mut payload = buffer_256();
    let mut p = at;
    while p < text.len() {
        let group = read_message(text, p, &mut name, &mut payload);
        if group.number != 0 {
            return false;
        }
        if names(group.msg.packet_type, group.topic(&name), topic) {
            return true;
        }
        p = group.next;
    }
    false
}
