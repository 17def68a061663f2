// The groups of lines that a trace is made of beside its rules: the opening's two, a message's seven (document 01, "The trace"). A rule's four are read by `rules_text`.
ghost use Rattle.std.specs.Prelude.{◌≡◌, ◌≤◌};
ghost use Rattle.trace.specs.Groups.{opening_stopped, opening_of, OpeningIn, message_stopped, message_at, topic_kept, payload_kept, MessageIn};

use lines::read::{Field, hex_field, number_field, word_field};
use monitor::message::{MqttMessage, MqttPacketType, PAYLOAD_MAX, TOPIC_MAX, type_at};
use tables::rules::{MqttQoS, TopicAction, action_at, qos_at};

// What an opening's two lines gave. Refused: the number, and which line of the group it is, the first being 0; `next` is the place after the last line read.
#[derive(Clone, Copy, Debug, PartialEq, Eq)]
pub struct OpeningLines {
    pub number: u32,
    pub line: u32,
    pub next: usize,
    pub default_action: TopicAction,
    pub rules: u64,
}

// What a message's seven lines gave; the hex of topic and payload stands at its from..to of the text, the bytes in lent buffers.
#[derive(Clone, Copy, Debug, PartialEq, Eq)]
pub struct MessageLines {
    pub number: u32,
    pub line: u32,
    pub next: usize,
    pub msg: MqttMessage,
    pub topic_from: usize,
    pub topic_to: usize,
    pub payload_from: usize,
    pub payload_to: usize,
}

impl MessageLines {
    ghost use Rattle.std.specs.Prelude.{take};

    // The message's topic, which its lines left at the beginning of a buffer.
    pub(crate) fn topic<'a>(&self, buffer: &'a [u8; TOPIC_MAX]) -> &'a [u8]
        requires { self.now.msg.topic_len ≤ 128 }
        ensures { result.now ≡ take self.now.msg.topic_len buffer.now }
    {
        &buffer[..usize::from(self.msg.topic_len)]
    }

    // Its payload, in the same way.
    pub(crate) fn payload<'a>(&self, buffer: &'a [u8; PAYLOAD_MAX]) -> &'a [u8]
        requires { self.now.msg.payload_inspectable_len ≤ 256 }
        ensures { result.now ≡ take self.now.msg.payload_inspectable_len buffer.now }
    {
        &buffer[..usize::from(self.msg.payload_inspectable_len)]
    }
}

// An opening that stopped at a line.
fn opening_stopped(field: Field, line: u32) -> OpeningLines
    ensures { result ≡ opening_stopped field line }
{
    OpeningLines {
        number: field.number,
        line,
        next: field.next,
        default_action: TopicAction::Allow,
        rules: 0,
    }
}

// The opening, `default=` and `rules=`, from the text's beginning.
pub fn read_opening(text: &[u8]) -> OpeningLines
    ensures value { result ≡ opening_of text.now }
    ensures within { OpeningIn text.now result }
{
    let default = word_field(text, 0, b"default=", b"allow|block");
    if default.number != 0 {
        return opening_stopped(default, 0);
    }
    let rules = number_field(text, default.next, b"rules=", 0, 32);
    if rules.number != 0 {
        return opening_stopped(rules, 1);
    }
    OpeningLines {
        number: 0,
        line: 1,
        next: rules.next,
        default_action: action_at(default.value),
        rules: rules.value,
    }
}

// A message that stopped at a line.
fn message_stopped(field: Field, line: u32) -> MessageLines
    ensures { result ≡ message_stopped field line }
{
    MessageLines {
        number: field.number,
        line,
        next: field.next,
        msg: MqttMessage {
            packet_type: MqttPacketType::Connect,
            topic_len: 0,
            qos: MqttQoS::AtMostOnce,
            payload_len: 0,
            payload_inspectable_len: 0,
            timestamp_us: 0,
            timestamp_ok: true,
        },
        topic_from: 0,
        topic_to: 0,
        payload_from: 0,
        payload_to: 0,
    }
}

// The message at a place of the text: `at=`, `clock=`, `type=`, `qos=`, `topic=`, `size=` and `payload=`; the bytes of topic and payload go to lent buffers.
pub fn read_message(
    text: &[u8],
    at: usize,
    topic: &mut [u8; TOPIC_MAX],
    payload: &mut [u8; PAYLOAD_MAX],
) -> MessageLines
    ensures value { result ≡ message_at text.now at }
    ensures within { MessageIn text.now result }
    ensures topic { topic.new ≡ topic_kept text.now at topic.old }
    ensures payload { payload.new ≡ payload_kept text.now at payload.old }
{
    let time = number_field(text, at, b"at=", 0, 18446744073709551615);
    if time.number != 0 {
        return message_stopped(time, 0);
    }
    let clock = word_field(text, time.next, b"clock=", b"ok|bad");
    if clock.number != 0 {
        return message_stopped(clock, 1);
    }
    let kind = number_field(text, clock.next, b"type=", 1, 15);
    if kind.number != 0 {
        return message_stopped(kind, 2);
    }
    let qos = number_field(text, kind.next, b"qos=", 0, 2);
    if qos.number != 0 {
        return message_stopped(qos, 3);
    }
    let name = hex_field(text, qos.next, b"topic=", topic);
    if name.number != 0 {
        return message_stopped(name, 4);
    }
    let size = number_field(text, name.next, b"size=", 0, 65535);
    if size.number != 0 {
        return message_stopped(size, 5);
    }
    let data = hex_field(text, size.next, b"payload=", payload);
    if data.number != 0 {
        return message_stopped(data, 6);
    }
    MessageLines {
        number: 0,
        line: 6,
        next: data.next,
        msg: MqttMessage {
            packet_type: type_at(kind.value),
            topic_len: name.value as u8,
            qos: qos_at(qos.value),
            payload_len: size.value as u16,
            payload_inspectable_len: data.value as u16,
            timestamp_us: time.value,
            timestamp_ok: clock.value == 0,
        },
        topic_from: name.from,
        topic_to: name.to,
        payload_from: data.from,
        payload_to: data.to,
    }
}
