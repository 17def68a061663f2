// The seven lines of a message, written, and how many bytes they are.
ghost use Rattle.std.specs.Prelude.{◌≡◌, ◌≤◌, length};
ghost use Rattle.lines.specs.Wrote.{Wrote};
ghost use Rattle.packets_text.specs.MessageText.{clock_number, message_text};

use lines::lengths::{hex_line_len, number_line_len, word_line_len};
use lines::put::{put_hex_line, put_number_line, put_word_line};
use monitor::message::{MqttMessage, type_number};
use tables::rules::qos_number;

// The place of the clock's word in `ok|bad`.
fn clock_number(ok: bool) -> usize
    ensures { result ≡ clock_number ok }
{
    if ok { 0 } else { 1 }
}

// A message's lines, from `at` on.
pub(crate) fn put_message(
    out: &mut [u8],
    at: usize,
    msg: &MqttMessage,
    topic: &[u8],
    payload: &[u8],
) -> usize
    ensures { Wrote out.old out.new at (message_text msg.now topic.now payload.now) result }
{
    let kind = u64::from(type_number(msg.packet_type));
    let qos = u64::from(qos_number(msg.qos));
    let clock = clock_number(msg.timestamp_ok);
    let a = put_number_line(out, at, b"at=", msg.timestamp_us);
    let b = put_word_line(out, a, b"clock=", b"ok|bad", clock);
    let c = put_number_line(out, b, b"type=", kind);
    let d = put_number_line(out, c, b"qos=", qos);
    let e = put_hex_line(out, d, b"topic=", topic);
    let f = put_number_line(out, e, b"size=", u64::from(msg.payload_len));
    put_hex_line(out, f, b"payload=", payload)
}

// How many bytes they are.
pub(crate) fn message_len(msg: &MqttMessage, topic: &[u8], payload: &[u8]) -> usize
    requires topic { length topic.now ≤ 128 }
    requires payload { length payload.now ≤ 256 }
    ensures value { result ≡ length (message_text msg.now topic.now payload.now) }
    ensures short { result ≤ 843 }
{
    let kind = u64::from(type_number(msg.packet_type));
    let qos = u64::from(qos_number(msg.qos));
    let clock = clock_number(msg.timestamp_ok);
    let a = number_line_len(b"at=", msg.timestamp_us);
    let b = word_line_len(b"clock=", b"ok|bad", clock);
    let c = number_line_len(b"type=", kind);
    let d = number_line_len(b"qos=", qos);
    let e = hex_line_len(b"topic=", topic);
    let f = number_line_len(b"size=", u64::from(msg.payload_len));
    let g = hex_line_len(b"payload=", payload);
    a + b + c + d + e + f + g
}
