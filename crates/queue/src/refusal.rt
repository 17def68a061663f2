// Why a run of packets ended.
ghost use Rattle.std.specs.Prelude.{◌≡◌};
ghost use Rattle.queue.specs.Refusal.{queue_number};
ghost use Rattle.queue.specs.declared.refusal.QueueRefusal.TheVariants.{BadPacket};

use packets::refusal::PacketRefusal;

/// Why a run ended before the end of its bytes.
#[derive(Clone, Copy, Debug, PartialEq, Eq)]
pub enum QueueRefusal {
    /// The state is one that no call hands out.
    BadState,
    /// The records of the packet's messages do not fit.
    NoRoom,
    /// The packet is refused for itself.
    BadPacket(PacketRefusal),
}

impl QueueRefusal {
    /// The number that a person is told (docs/NUMBERS.md).
    pub fn number(self) -> u32
        ensures { result ≡ queue_number self }
    {
        match self {
            QueueRefusal::BadState => 10,
            QueueRefusal::NoRoom => 28,
            QueueRefusal::BadPacket(refusal) => refusal.number(),
        }
    }
}

impl From<PacketRefusal> for QueueRefusal {
    ghost from_gives = { λ packet refusal. refusal ≡ BadPacket packet };

    fn from(refusal: PacketRefusal) -> QueueRefusal {
        QueueRefusal::BadPacket(refusal)
    }
}
