// The bodies of a SUBSCRIBE and of an UNSUBSCRIBE (MQTT 3.1.1, sections 3.8 and 3.10).
ghost use Rattle.std.specs.Prelude.{◌≡◌, Some};
ghost use Rattle.packets.specs.Fields.{field_told};
ghost use Rattle.packets.specs.Filters.{list_built, request_fine, filter_at, FilterIn};
ghost use Rattle.packets.specs.Piece.{piece_told};

use crate::fields::{Field, begin_at, byte_if, data_field, number_field};
use crate::piece::Piece;
use crate::publish::is_identified;

// The flags, the packet identifier, and that a filter follows.
#[tactic(auto, unfolding(crate::specs::Filters::list_built, crate::specs::Publish::identified))]
pub fn list_built(flags: u8, b: &[u8]) -> bool
    ensures { result ≡ list_built flags b.now }
{
    if flags != 2 {
        return false;
    }
    let Some(id) = number_field(b, begin_at(0)) else {
        return false;
    };
    is_identified(true, id) && 2 < b.len()
}

// A requested QoS, the last field of a filter, is 0 to 2.
#[tactic(auto, unfolding(crate::specs::Filters::request_fine))]
fn request_fine(q: Field) -> bool
    ensures { result ≡ request_fine (field_told (Some q)) }
{
    q.value < 3
}

// The filter at a place: in a SUBSCRIBE the requested QoS follows it.
#[tactic(auto, using(crate::proofs::fields::FieldLaws::byte_if_broken), unfolding(crate::specs::Filters::filter_at, crate::specs::Filters::filter_from, crate::specs::Filters::request_fine))]
pub fn filter_at(subscribe: bool, b: &[u8], at: usize) -> Option<Piece>
    ensures value { piece_told result ≡ filter_at subscribe b.now at }
    ensures within { FilterIn b.now at (piece_told result) }
{
    let f = data_field(b, begin_at(at))?;
    let q = byte_if(subscribe, b, f)?;
    if !request_fine(q) {
        return None;
    }
    Some(Piece {
        qos: q.value as u8,
        from: f.from,
        to: f.next,
        rest: b.len(),
        next: q.next,
    })
}
