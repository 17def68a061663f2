// The body of a PUBLISH (MQTT 3.1.1, section 3.3), and the test of a packet identifier.
ghost use Rattle.std.specs.Prelude.{◌≡◌, Some};
ghost use Rattle.packets.specs.Fields.{field_told};
ghost use Rattle.packets.specs.Piece.{piece_told};
ghost use Rattle.packets.specs.Publish.{publish_flags, identified, publish_built, publish_piece};

use crate::fields::{Field, begin_at, data_field, number_if};
use crate::piece::Piece;

// QoS 0 to 2, and DUP only above 0.
#[tactic(auto, unfolding(crate::specs::Publish::publish_flags))]
fn publish_flags(flags: u8) -> bool
    ensures { result ≡ publish_flags flags }
{
    flags / 2 % 4 != 3 && (flags / 2 % 4 != 0 || flags / 8 % 2 == 0)
}

// A packet identifier, where one is due, that is not 0.
#[tactic(auto, unfolding(crate::specs::Publish::identified))]
pub fn is_identified(due: bool, f: Field) -> bool
    ensures { result ≡ identified due (field_told (Some f)) }
{
    !due || 0 < f.value
}

// The checks of section 3.3, but for the topic's own.
#[tactic(auto, using(crate::proofs::fields::FieldLaws::number_if_broken), unfolding(crate::specs::Publish::publish_built, crate::specs::Publish::identified))]
pub fn publish_built(flags: u8, b: &[u8]) -> bool
    ensures { result ≡ publish_built flags b.now }
{
    if !publish_flags(flags) {
        return false;
    }
    let Some(topic) = data_field(b, begin_at(0)) else {
        return false;
    };
    let due = flags / 2 % 4 != 0;
    match number_if(due, b, topic) {
        Some(id) => is_identified(due, id),
        None => false,
    }
}

// The topic, the QoS, and where the payload begins.
#[tactic(auto, using(crate::proofs::fields::FieldLaws::number_if_broken), unfolding(crate::specs::Publish::publish_piece))]
pub fn publish_piece(flags: u8, b: &[u8]) -> Option<Piece>
    ensures { piece_told result ≡ publish_piece flags b.now }
{
    let topic = data_field(b, begin_at(0))?;
    let qos = flags / 2 % 4;
    let id = number_if(qos != 0, b, topic)?;
    Some(Piece {
        qos,
        from: topic.from,
        to: topic.next,
        rest: id.next,
        next: b.len(),
    })
}
