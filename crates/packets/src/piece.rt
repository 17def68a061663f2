// What of a packet's body becomes one message.
ghost use Rattle.std.specs.Prelude.{◌≡◌, Some};
ghost use Rattle.packets.specs.Piece.{piece_told, plain_piece};

// A piece of a body: the topic is at from..to, the payload begins at `rest`, and the next piece at `next`. Places, not slices, as in the message that is made of it (`Within`, specs/Taken.antt).
#[derive(Clone, Copy, Debug, PartialEq, Eq)]
pub struct Piece {
    pub qos: u8,
    pub from: usize,
    pub to: usize,
    pub rest: usize,
    pub next: usize,
}

// A body that is one piece without a topic, a QoS or a payload.
pub fn plain_piece(b: &[u8]) -> Piece
    ensures { piece_told (Some result) ≡ plain_piece b.now }
{
    Piece {
        qos: 0,
        from: 0,
        to: 0,
        rest: b.len(),
        next: b.len(),
    }
}
