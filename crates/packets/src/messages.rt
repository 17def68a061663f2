// The messages of a packet, one at a step (request C-11).
ghost use Rattle.std.specs.Prelude.{◌≡◌, ◌+◌, ◌-◌, ◌≤◌, length, Some, Ok};
ghost use Rattle.monitor.specs.Message.{type_number};
ghost use Rattle.packets.specs.Header.{header_told};
ghost use Rattle.packets.specs.Messages.{Placed, message_told, sent_from, message_for, message_at};
ghost use Rattle.packets.specs.Piece.{piece_told};

use crate::bodies::piece_at;
use crate::header::{Header, read_header};
use crate::piece::Piece;
use crate::refusal::PacketRefusal;
use monitor::message::{MqttMessage, PAYLOAD_MAX, TOPIC_MAX};
use tables::rules::qos_at;

/// A message of a packet: the message as the monitor takes it; the places of its topic and of the inspected part of its payload in the bytes; and the step of the next one.
// Places, not slices: `Within` (specs/Taken.antt) promises of `message_at` where they stand in the bytes.
#[derive(Clone, Copy, Debug, PartialEq, Eq)]
pub struct PacketMessage {
    pub msg: MqttMessage,
    pub topic_from: usize,
    pub topic_to: usize,
    pub payload_from: usize,
    pub payload_to: usize,
    pub next: usize,
}

// The message of a piece of the packet at a place, whose body stands at from..to of the packet.
fn sent_from(h: Header, place: usize, now_us: u64, ok: bool, p: Piece) -> PacketMessage
    requires { Placed (header_told (Ok h)) place (piece_told (Some p)) }
    ensures { message_told (Ok result) ≡ sent_from (type_number h.packet_type) (h.to - h.from) (place + h.from) now_us ok (piece_told (Some p)) }
{
    let base = place + h.from;
    let size = h.to - h.from - p.rest;
    let inspected = size.min(PAYLOAD_MAX);
    PacketMessage {
        msg: MqttMessage {
            packet_type: h.packet_type,
            topic_len: (p.to - p.from) as u8,
            qos: qos_at(u64::from(p.qos)),
            payload_len: size.min(65535) as u16,
            payload_inspectable_len: inspected as u16,
            timestamp_us: now_us,
            timestamp_ok: ok,
        },
        topic_from: base + p.from,
        topic_to: base + p.to,
        payload_from: base + p.rest,
        payload_to: base + p.rest + inspected,
        next: p.next,
    }
}

// The message at a step of the packet that some bytes, which stand at a place, begin with.
#[tactic(auto, using(crate::proofs::messages::MessageLaws::message_err, crate::proofs::messages::MessageLaws::piece_err))]
fn message_for(
    s: &[u8],
    place: usize,
    step: usize,
    now_us: u64,
    ok: bool,
) -> Result<PacketMessage, PacketRefusal>
    requires { place + length s.now ≤ 18446744073709551615 }
    ensures { message_told result ≡ message_for s.now place step now_us ok }
{
    let h = read_header(s)?;
    let Some(p) = piece_at(h.packet_type, h.flags, &s[h.from..h.to], step) else {
        return Err(PacketRefusal::Malformed);
    };
    if TOPIC_MAX < p.to - p.from {
        return Err(PacketRefusal::TooLong);
    }
    Ok(sent_from(h, place, now_us, ok, p))
}

/// The message at a step of the packet at a place; any place, and any step. The steps are those that `read_packet` and this call hand out. What `read_packet` tested is not tested again: ask it first,
/// since of a packet that it refuses this may hand out a message all the same.
pub fn message_at(
    bytes: &[u8],
    place: usize,
    step: usize,
    now_us: u64,
    ok: bool,
) -> Result<PacketMessage, PacketRefusal>
    ensures { message_told result ≡ message_at bytes.now place step now_us ok }
{
    if bytes.len() <= place {
        return Err(PacketRefusal::Incomplete);
    }
    message_for(&bytes[place..], place, step, now_us, ok)
}
