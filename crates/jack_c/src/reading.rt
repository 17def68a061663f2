// A packet looked at, and its messages as the lines of a trace.
ghost use Rattle.std.specs.Prelude.{◌≡◌, length};
ghost use Rattle.packets.specs.Packet.{packet_at};
ghost use Rattle.packets_text.specs.PacketText.{lines_end, lines_kept};
ghost use Rattle.jack.specs.Sized.{sized_of, lines_of};

use jack::reading::{PacketLines, PacketSize};

// The packet at a place, any place: 31 where no byte stands there.
#[unsafe(no_mangle)]
pub extern "C" fn hub_packet(bytes: &[u8], place: usize) -> PacketSize
    ensures { result ≡ sized_of (packet_at bytes.now place) }
{
    jack::reading::hub_packet(bytes, place)
}

// Its messages as the lines of a trace, into the caller's buffer: all of them, or none where a number refuses them.
#[unsafe(no_mangle)]
pub extern "C" fn hub_packet_lines(
    bytes: &[u8],
    place: usize,
    at: u64,
    clock_ok: bool,
    out: &mut [u8],
) -> PacketLines
    ensures answer { result ≡ lines_of (lines_end bytes.now place at clock_ok (length out.old)) }
    ensures buffer { out.new ≡ lines_kept bytes.now place at clock_ok out.old }
{
    jack::reading::hub_packet_lines(bytes, place, at, clock_ok, out)
}
