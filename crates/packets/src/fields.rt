// The fields of a packet's body, one after the other (MQTT 3.1.1, section 1.5). One that does not fit, or is no string where a string must stand, is not there.
ghost use Rattle.std.specs.Prelude.{◌≡◌, ◌≤◌, Some};
ghost use Rattle.packets.specs.Fields.{Inside, is_string, field_told, begin, room_behind, byte_field, number_field, data_field, string_field, byte_if, number_if, data_if, string_if, ends_behind};

use slices::bytes::has_byte;
use topics::utf8::is_utf8;

// A field: its number, for one that is a number; its bytes are from..next, and the next field begins at `next`. Places, not slices, as in the message that is made of it (`Within`, specs/Taken.antt).
#[derive(Clone, Copy, Debug, PartialEq, Eq)]
pub struct Field {
    pub value: usize,
    pub from: usize,
    pub next: usize,
}

// The bytes are a string of MQTT.
#[tactic(auto, unfolding(crate::specs::Fields::is_string))]
pub fn is_string(s: &[u8]) -> bool
    ensures { result ≡ is_string s.now }
{
    is_utf8(s) && !has_byte(s, 0)
}

// What a chain begins with.
pub fn begin_at(at: usize) -> Field
    ensures { field_told (Some result) ≡ begin at }
{
    Field {
        value: 0,
        from: at,
        next: at,
    }
}

// `n` bytes more stand behind a field. The sum of place and number may not fit, so the number is taken from the length.
#[tactic(auto, using(crate::proofs::fields::FieldLaws::leb_less), unfolding(crate::specs::Fields::room_behind))]
fn has_room_behind(b: &[u8], f: Field, n: usize) -> bool
    ensures { result ≡ room_behind b.now (field_told (Some f)) n }
{
    n <= b.len() && f.next <= b.len() - n
}

// One byte.
#[tactic(auto, unfolding(crate::specs::Fields::byte_field, crate::specs::Fields::room_behind))]
fn byte_field(b: &[u8], f: Field) -> Option<Field>
    ensures { field_told result ≡ byte_field b.now (field_told (Some f)) }
{
    if !has_room_behind(b, f, 1) {
        return None;
    }
    Some(Field {
        value: usize::from(b[f.next]),
        from: f.next,
        next: f.next + 1,
    })
}

// A number of two bytes, the greater first.
#[tactic(auto, unfolding(crate::specs::Fields::number_field, crate::specs::Fields::room_behind))]
pub fn number_field(b: &[u8], f: Field) -> Option<Field>
    ensures { field_told result ≡ number_field b.now (field_told (Some f)) }
{
    if !has_room_behind(b, f, 2) {
        return None;
    }
    Some(Field {
        value: usize::from(b[f.next]) * 256 + usize::from(b[f.next + 1]),
        from: f.next,
        next: f.next + 2,
    })
}

// A length of two bytes, and so many bytes.
#[tactic(auto, unfolding(crate::specs::Fields::data_field, crate::specs::Fields::data_of, crate::specs::Fields::room_behind))]
pub fn data_field(b: &[u8], f: Field) -> Option<Field>
    ensures value { field_told result ≡ data_field b.now (field_told (Some f)) }
    ensures inside { Inside b.now (field_told result) }
{
    let length = number_field(b, f)?;
    if !has_room_behind(b, length, length.value) {
        return None;
    }
    Some(Field {
        value: 0,
        from: length.next,
        next: length.next + length.value,
    })
}

// Such bytes that are a string.
#[tactic(auto, unfolding(crate::specs::Fields::string_field, crate::specs::Fields::string_of))]
fn string_field(b: &[u8], f: Field) -> Option<Field>
    ensures { field_told result ≡ string_field b.now (field_told (Some f)) }
{
    let data = data_field(b, f)?;
    if !is_string(&b[data.from..data.next]) {
        return None;
    }
    Some(data)
}

// A byte, where one is wanted.
pub fn byte_if(wanted: bool, b: &[u8], f: Field) -> Option<Field>
    ensures { field_told result ≡ byte_if wanted b.now (field_told (Some f)) }
{
    if wanted {
        return byte_field(b, f);
    }
    Some(f)
}

// A number, where one is wanted.
pub fn number_if(wanted: bool, b: &[u8], f: Field) -> Option<Field>
    ensures { field_told result ≡ number_if wanted b.now (field_told (Some f)) }
{
    if wanted {
        return number_field(b, f);
    }
    Some(f)
}

// Bytes, where some are wanted.
pub fn data_if(wanted: bool, b: &[u8], f: Field) -> Option<Field>
    ensures { field_told result ≡ data_if wanted b.now (field_told (Some f)) }
{
    if wanted {
        return data_field(b, f);
    }
    Some(f)
}

// A string, where one is wanted.
pub fn string_if(wanted: bool, b: &[u8], f: Field) -> Option<Field>
    ensures { field_told result ≡ string_if wanted b.now (field_told (Some f)) }
{
    if wanted {
        return string_field(b, f);
    }
    Some(f)
}

// The body ends behind a field.
#[tactic(auto, unfolding(crate::specs::Fields::ends_behind))]
pub fn ends_behind(b: &[u8], f: Field) -> bool
    ensures { result ≡ ends_behind b.now (field_told (Some f)) }
{
    b.len() <= f.next
}
