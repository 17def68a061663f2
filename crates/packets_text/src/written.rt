// The lines of a whole packet, into a lent buffer: all of them or none.
ghost use Rattle.std.specs.Prelude.{◌≡◌, ◌≤◌, length, Ok, IsOk, IsOkAnd};
ghost use Rattle.std.proofs.lemmas.List.Edits.{sets};
ghost use Rattle.lines.specs.Wrote.{Wrote};
ghost use Rattle.packets.specs.Messages.{message_told};
ghost use Rattle.packets.specs.Packet.{packet_told, packet_at};
ghost use Rattle.packets.specs.Taken.{Within};
ghost use Rattle.packets_text.specs.PacketText.{text_of, packet_text, lines_told, lines_end, lines_kept};

use crate::message::{message_len, put_message};
use crate::refusal::LinesRefusal;
use packets::messages::{PacketMessage, message_at};
use packets::packet::{Packet, read_packet};
use packets::refusal::PacketRefusal;

// How many bytes the lines of a message of some bytes are.
fn text_len(bytes: &[u8], place: usize, m: &PacketMessage) -> usize
    requires { Within bytes.now place (message_told (Ok m.now)) }
    ensures value { result ≡ length (text_of bytes.now (message_told (Ok m.now))) }
    ensures short { result ≤ 843 }
{
    let topic = &bytes[m.topic_from..m.topic_to];
    let payload = &bytes[m.payload_from..m.payload_to];
    message_len(&m.msg, topic, payload)
}

// A message's lines, from `at` on.
fn put_text(out: &mut [u8], at: usize, bytes: &[u8], place: usize, m: &PacketMessage) -> usize
    requires { Within bytes.now place (message_told (Ok m.now)) }
    ensures { Wrote out.old out.new at (text_of bytes.now (message_told (Ok m.now))) result }
{
    let topic = &bytes[m.topic_from..m.topic_to];
    let payload = &bytes[m.payload_from..m.payload_to];
    put_message(out, at, &m.msg, topic, payload)
}

// How many bytes the lines of a packet are that is not refused; no message of such a packet is.
fn texts_len(
    bytes: &[u8],
    place: usize,
    packet: Packet,
    now_us: u64,
    ok: bool,
) -> Result<usize, PacketRefusal>
    requires { packet_told (Ok packet) ≡ packet_at bytes.now place }
    ensures { IsOkAnd result (λ n. n ≡ length (packet_text bytes.now place now_us ok)) }
{
    let mut step = packet.first;
    let mut n: usize = 0;
    for _ in 0..packet.messages {
        let m = message_at(bytes, place, step, now_us, ok)?;
        n += text_len(bytes, place, &m);
        step = m.next;
    }
    Ok(n)
}

// Those lines, at the beginning of a buffer.
fn put_texts(
    out: &mut [u8],
    bytes: &[u8],
    place: usize,
    packet: Packet,
    now_us: u64,
    ok: bool,
) -> Result<(), PacketRefusal>
    requires { packet_told (Ok packet) ≡ packet_at bytes.now place }
    ensures taken { IsOk result }
    ensures bytes { out.new ≡ sets out.old 0 (packet_text bytes.now place now_us ok) }
{
    let mut step = packet.first;
    let mut at: usize = 0;
    for _ in 0..packet.messages {
        let m = message_at(bytes, place, step, now_us, ok)?;
        at = put_text(out, at, bytes, place, &m);
        step = m.next;
    }
    Ok(())
}

/// The lines of the packet at a place, at the beginning of a lent buffer, whose other bytes stay: how many bytes they are. Where they are refused all bytes of the buffer stay.
pub fn packet_lines(
    bytes: &[u8],
    place: usize,
    now_us: u64,
    ok: bool,
    out: &mut [u8],
) -> Result<usize, LinesRefusal>
    ensures answer { lines_told result ≡ lines_end bytes.now place now_us ok (length out.old) }
    ensures buffer { out.new ≡ lines_kept bytes.now place now_us ok out.old }
    ensures within { (lines_told result).length ≤ length out.old }
{
    let packet = read_packet(bytes, place)?;
    let need = texts_len(bytes, place, packet, now_us, ok)?;
    if out.len() < need {
        return Err(LinesRefusal::NoRoom);
    }
    put_texts(out, bytes, place, packet, now_us, ok)?;
    Ok(need)
}
