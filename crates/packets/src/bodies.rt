// A packet's body by its type: the checks on it, and its pieces.
ghost use Rattle.std.specs.Prelude.{◌≡◌, ◌<◌};
ghost use Rattle.monitor.specs.Message.{type_number};
ghost use Rattle.packets.specs.Bodies.{is_list, body_built, piece_at, first_step, pieces_of, looked_on, looked_first, looked_at};
ghost use Rattle.packets.specs.Filters.{filters_of};
ghost use Rattle.packets.specs.Piece.{PieceIn, good_piece, is_long, piece_told};

use crate::connect::{connect_built, connect_piece};
use crate::fields::is_string;
use crate::filters::{filter_at, list_built};
use crate::piece::{Piece, plain_piece};
use crate::publish::{publish_built, publish_piece};
use monitor::message::{MqttPacketType, TOPIC_MAX};

// What a look at all pieces of a body gave: whether each was read and has a string for its topic, whether one has a topic of over 128 bytes, and how many there are.
// Two tests and no refusal: 32 comes before 33, whichever piece shows it.
#[derive(Clone, Copy, Debug, PartialEq, Eq)]
pub struct Looked {
    pub sound: bool,
    pub long: bool,
    pub count: usize,
}

// SUBSCRIBE and UNSUBSCRIBE.
fn is_list(packet_type: MqttPacketType) -> bool
    ensures { result ≡ is_list (type_number packet_type) }
{
    matches!(
        packet_type,
        MqttPacketType::Subscribe | MqttPacketType::Unsubscribe
    )
}

// The checks on a body, but for those of its pieces. `Auth` is reserved (2.2.1).
#[tactic(auto, unfolding(crate::specs::Bodies::body_built))]
pub fn body_built(packet_type: MqttPacketType, flags: u8, b: &[u8]) -> bool
    ensures { result ≡ body_built (type_number packet_type) flags b.now }
{
    match packet_type {
        MqttPacketType::Connect => connect_built(flags, b),
        MqttPacketType::Publish => publish_built(flags, b),
        MqttPacketType::Subscribe | MqttPacketType::Unsubscribe => list_built(flags, b),
        MqttPacketType::Auth => false,
        _ => true,
    }
}

// The piece at a step.
#[tactic(auto, unfolding(crate::specs::Bodies::piece_at))]
pub fn piece_at(packet_type: MqttPacketType, flags: u8, b: &[u8], step: usize) -> Option<Piece>
    ensures value { piece_told result ≡ piece_at (type_number packet_type) flags b.now step }
    ensures within { PieceIn b.now (piece_told result) }
{
    match packet_type {
        MqttPacketType::Connect => connect_piece(b),
        MqttPacketType::Publish => publish_piece(flags, b),
        MqttPacketType::Subscribe => filter_at(true, b, step),
        MqttPacketType::Unsubscribe => filter_at(false, b, step),
        _ => Some(plain_piece(b)),
    }
}

// The step of the first piece.
pub fn first_step(packet_type: MqttPacketType) -> usize
    ensures { result ≡ first_step (type_number packet_type) }
{
    if is_list(packet_type) { 2 } else { 0 }
}

// The piece was read, and its topic is a string.
#[tactic(auto, unfolding(crate::specs::Piece::good_piece))]
fn is_good(b: &[u8], piece: Option<Piece>) -> bool
    requires { PieceIn b.now (piece_told piece) }
    ensures { result ≡ good_piece b.now (piece_told piece) }
{
    match piece {
        Some(p) => is_string(&b[p.from..p.to]),
        None => false,
    }
}

// The topic of a piece has over 128 bytes.
fn is_long(piece: Option<Piece>) -> bool
    ensures { result ≡ is_long (piece_told piece) }
{
    match piece {
        Some(p) => TOPIC_MAX < p.to.saturating_sub(p.from),
        None => false,
    }
}

// A look at one piece more.
#[tactic(auto, unfolding(crate::specs::Bodies::looked_on))]
fn look_on(b: &[u8], seen: Looked, piece: Option<Piece>) -> Looked
    requires piece_in { PieceIn b.now (piece_told piece) }
    requires count_bound { seen.count < 18446744073709551615 }
    ensures { result ≡ looked_on b.now seen (piece_told piece) }
{
    Looked {
        sound: seen.sound && is_good(b, piece),
        long: seen.long || is_long(piece),
        count: seen.count + 1,
    }
}

// Before the first look.
fn look_first() -> Looked
    ensures { result ≡ looked_first }
{
    Looked {
        sound: true,
        long: false,
        count: 0,
    }
}

// A look at all filters of a body; behind one that could not be read there is none.
// Each filter says where the next one begins, so there is no range to go over.
fn look_at_filters(subscribe: bool, b: &[u8]) -> Looked
    ensures { result ≡ looked_at b.now (filters_of subscribe b.now) }
{
    let mut seen = look_first();
    let mut at: usize = 2;
    while at < b.len() {
        let filter = filter_at(subscribe, b, at);
        seen = look_on(b, seen, filter);
        let Some(p) = filter else {
            return seen;
        };
        at = p.next;
    }
    seen
}

// A look at all pieces of a body.
#[tactic(auto, unfolding(crate::specs::Bodies::pieces_of))]
pub fn look_at(packet_type: MqttPacketType, flags: u8, b: &[u8]) -> Looked
    ensures { result ≡ looked_at b.now (pieces_of (type_number packet_type) flags b.now) }
{
    if is_list(packet_type) {
        return look_at_filters(matches!(packet_type, MqttPacketType::Subscribe), b);
    }
    look_on(b, look_first(), piece_at(packet_type, flags, b, 0))
}
