// The body of a CONNECT (MQTT 3.1.1, section 3.1).
ghost use Rattle.std.specs.Prelude.{◌≡◌, Some};
ghost use Rattle.packets.specs.Fields.{field_told};
ghost use Rattle.packets.specs.Piece.{piece_told};
ghost use Rattle.packets.specs.Connect.{connect_head, will_flags, password_flag, client_named, connect_tail, connect_built, connect_piece};

use crate::fields::{Field, begin_at, data_field, data_if, ends_behind, string_if};
use crate::piece::Piece;
use slices::bytes::starts_with;

// The level of MQTT 3.1.1.
const LEVEL: u8 = 4;

// The ten bytes of the variable header, but for the connect flags and the keep alive time.
#[tactic(auto, unfolding(crate::specs::Connect::connect_head))]
fn connect_head(level: u8, b: &[u8]) -> bool
    ensures { result ≡ connect_head level b.now }
{
    10 <= b.len() && starts_with(b, b"\x00\x04MQTT") && b[6] == level
}

// The reserved flag and those of the will.
#[tactic(auto, unfolding(crate::specs::Connect::will_flags))]
fn will_flags(f: u8) -> bool
    ensures { result ≡ will_flags f }
{
    f % 2 == 0 && f / 8 % 4 != 3 && (f / 4 % 2 == 1 || f / 8 % 8 == 0)
}

// No password without a user name.
#[tactic(auto, unfolding(crate::specs::Connect::password_flag))]
fn password_flag(f: u8) -> bool
    ensures { result ≡ password_flag f }
{
    f / 128 % 2 == 1 || f / 64 % 2 != 1
}

// An empty client id only with a clean session.
#[tactic(auto, unfolding(crate::specs::Connect::client_named))]
fn client_named(f: u8, client: Field) -> bool
    ensures { result ≡ client_named f (field_told (Some client)) }
{
    f / 2 % 2 == 1 || client.from < client.next
}

// What follows the client id, as the flags say.
#[tactic(auto, using(crate::proofs::fields::FieldLaws::data_if_broken, crate::proofs::fields::FieldLaws::string_if_broken), unfolding(crate::specs::Connect::connect_tail))]
fn connect_tail(f: u8, b: &[u8], client: Field) -> Option<Field>
    ensures { field_told result ≡ connect_tail f b.now (field_told (Some client)) }
{
    let topic = string_if(f / 4 % 2 == 1, b, client)?;
    let message = data_if(f / 4 % 2 == 1, b, topic)?;
    let user = string_if(f / 128 % 2 == 1, b, message)?;
    data_if(f / 64 % 2 == 1, b, user)
}

// The checks of section 3.1, but for the client id's own.
#[tactic(auto, using(crate::proofs::connect::ConnectLaws::head_long, crate::proofs::connect::ConnectLaws::no_tail), unfolding(crate::specs::Connect::connect_built, crate::specs::Fields::ends_behind))]
pub fn connect_built(flags: u8, b: &[u8]) -> bool
    ensures { result ≡ connect_built flags b.now }
{
    if flags != 0 || !connect_head(LEVEL, b) {
        return false;
    }
    let f = b[7];
    if !will_flags(f) || !password_flag(f) {
        return false;
    }
    let Some(client) = data_field(b, begin_at(10)) else {
        return false;
    };
    if !client_named(f, client) {
        return false;
    }
    match connect_tail(f, b, client) {
        Some(last) => ends_behind(b, last),
        None => false,
    }
}

// The client id as the topic of its message.
#[tactic(auto, unfolding(crate::specs::Connect::connect_piece))]
pub fn connect_piece(b: &[u8]) -> Option<Piece>
    ensures { piece_told result ≡ connect_piece b.now }
{
    let client = data_field(b, begin_at(10))?;
    Some(Piece {
        qos: 0,
        from: client.from,
        to: client.next,
        rest: b.len(),
        next: b.len(),
    })
}
