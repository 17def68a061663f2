// Why bytes are no packet, or a packet has no message at a step.
ghost use Rattle.std.specs.Prelude.{◌≡◌};
ghost use Rattle.packets.specs.Refusal.{refusal_number};

/// Why there is no packet at a place, or no message at its step.
#[derive(Clone, Copy, Debug, PartialEq, Eq)]
pub enum PacketRefusal {
    /// Bytes are missing.
    Incomplete = 31,
    /// MQTT 3.1.1 does not know such a packet.
    Malformed = 32,
    /// A topic, a filter or a client id has over 128 bytes.
    TooLong = 33,
}

impl PacketRefusal {
    /// The number that a person is told (docs/NUMBERS.md).
    pub fn number(self) -> u32
        ensures { result ≡ refusal_number self }
    {
        self as u32
    }
}
