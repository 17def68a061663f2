// Why no lines of a packet are written.
ghost use Rattle.std.specs.Prelude.{◌≡◌};
ghost use Rattle.packets_text.specs.Refusal.{lines_number};
ghost use Rattle.packets_text.specs.declared.refusal.LinesRefusal.TheVariants.{Packet};

use packets::refusal::PacketRefusal;

/// Why no lines of a packet are written.
#[derive(Clone, Copy, Debug, PartialEq, Eq)]
pub enum LinesRefusal {
    /// The packet is refused.
    Packet(PacketRefusal),
    /// The buffer is shorter than the lines.
    NoRoom,
}

impl LinesRefusal {
    /// The number that a person is told (docs/NUMBERS.md).
    pub fn number(self) -> u32
        ensures { result ≡ lines_number self }
    {
        match self {
            LinesRefusal::Packet(why) => why.number(),
            LinesRefusal::NoRoom => 28,
        }
    }
}

impl From<PacketRefusal> for LinesRefusal {
    ghost from_gives = { λ why refusal. refusal ≡ Packet why };

    fn from(why: PacketRefusal) -> LinesRefusal {
        LinesRefusal::Packet(why)
    }
}
