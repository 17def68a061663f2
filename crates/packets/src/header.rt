// The fixed header of a packet (MQTT 3.1.1, section 2.2).
ghost use Rattle.std.specs.Prelude.{◌≡◌, ◌<◌};
ghost use Rattle.packets.specs.Header.{byte_at, length_told, length_at, header_told, header_of, type_of, LengthSmall, HeaderIn};

use crate::refusal::PacketRefusal;
use monitor::message::{MqttPacketType, type_at};

// A length field: how many bytes it has, and the number that they say.
#[derive(Clone, Copy, Debug, PartialEq, Eq)]
pub struct Length {
    pub bytes: usize,
    pub value: usize,
}

// A header: the packet's type, of which `Auth` is what MQTT 3.1.1 reserves, by either of its numbers, 0 and 15; its flags; and its body, which stands at from..to, from the packet's first byte.
// Places, not a slice, as in the message that is made of it (`Within`, specs/Taken.antt).
#[derive(Clone, Copy, Debug, PartialEq, Eq)]
pub struct Header {
    pub packet_type: MqttPacketType,
    pub flags: u8,
    pub from: usize,
    pub to: usize,
}

// The byte at a place, 0 where there is none.
fn byte_at(s: &[u8], at: usize) -> u8
    ensures { result ≡ byte_at s.now at }
{
    s.get(at).copied().unwrap_or(0)
}

// The length field at a place. A byte that is not there ends it, so that the places behind it are never asked for. There is none where a fourth byte says that one more follows.
#[tactic(auto, unfolding(crate::specs::Header::length_at))]
fn length_at(s: &[u8], at: usize) -> Option<Length>
    ensures value { length_told result ≡ length_at s.now at }
    ensures small { LengthSmall (length_told result) }
{
    let a = byte_at(s, at);
    let one = usize::from(a % 128);
    if a < 128 {
        return Some(Length {
            bytes: 1,
            value: one,
        });
    }
    let b = byte_at(s, at + 1);
    let two = one + usize::from(b % 128) * 128;
    if b < 128 {
        return Some(Length {
            bytes: 2,
            value: two,
        });
    }
    let c = byte_at(s, at + 2);
    let three = two + usize::from(c % 128) * 16384;
    if c < 128 {
        return Some(Length {
            bytes: 3,
            value: three,
        });
    }
    let d = byte_at(s, at + 3);
    let four = three + usize::from(d % 128) * 2097152;
    if d < 128 {
        return Some(Length {
            bytes: 4,
            value: four,
        });
    }
    None
}

// The header that some bytes begin with.
#[tactic(auto, unfolding(crate::specs::Header::header_of, crate::specs::Header::header_refusal))]
pub fn read_header(s: &[u8]) -> Result<Header, PacketRefusal>
    ensures value { header_told result ≡ header_of s.now }
    ensures within { HeaderIn s.now (header_told result) }
    ensures typed { type_of s.now < 16 }
{
    let length = length_at(s, 1).ok_or(PacketRefusal::Malformed)?;
    let from = 1 + length.bytes;
    let to = from + length.value;
    if s.len() < to {
        return Err(PacketRefusal::Incomplete);
    }
    Ok(Header {
        packet_type: type_at(u64::from(s[0] / 16)),
        flags: s[0] % 16,
        from,
        to,
    })
}
