// A packet looked at, and its messages as the lines of a trace.
ghost use Rattle.std.specs.Prelude.{◌≡◌, length};
ghost use Rattle.packets.specs.Packet.{packet_at};
ghost use Rattle.packets_text.specs.PacketText.{lines_end, lines_kept};
ghost use Rattle.jack.specs.Sized.{sized_of, lines_of};

use packets::packet::read_packet;
use packets_text::written::packet_lines;

// What a packet is to a caller that does not step through its messages: 0 or the number that refuses it, its length, and how many messages it has. A number beside values, since C reads it.
#[repr(C)]
#[derive(Clone, Copy, Debug, PartialEq, Eq)]
pub struct PacketSize {
    pub number: u32,
    pub length: usize,
    pub messages: usize,
}

// How a packet's lines were written: 0, or the number that refused them, which is the packet's own or 28; the line is 0; and how many bytes were written, none where a number refused them. A number
// beside values, since C reads it.
#[repr(C)]
#[derive(Clone, Copy, Debug, PartialEq, Eq)]
pub struct PacketLines {
    pub number: u32,
    pub line: u64,
    pub length: usize,
}

// The packet at a place, any place: 31 where no byte stands there.
pub fn hub_packet(bytes: &[u8], place: usize) -> PacketSize
    ensures { result ≡ sized_of (packet_at bytes.now place) }
{
    match read_packet(bytes, place) {
        Ok(p) => PacketSize {
            number: 0,
            length: p.length,
            messages: p.messages,
        },
        Err(why) => PacketSize {
            number: why.number(),
            length: 0,
            messages: 0,
        },
    }
}

// Its messages as the lines of a trace, into the caller's buffer: all of them, or none where a number refuses them.
pub fn hub_packet_lines(
    bytes: &[u8],
    place: usize,
    at: u64,
    clock_ok: bool,
    out: &mut [u8],
) -> PacketLines
    ensures answer { result ≡ lines_of (lines_end bytes.now place at clock_ok (length out.old)) }
    ensures buffer { out.new ≡ lines_kept bytes.now place at clock_ok out.old }
{
    match packet_lines(bytes, place, at, clock_ok, out) {
        Ok(length) => PacketLines {
            number: 0,
            line: 0,
            length,
        },
        Err(why) => PacketLines {
            number: why.number(),
            line: 0,
            length: 0,
        },
    }
}
