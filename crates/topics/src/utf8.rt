// The test of strings that MQTT 3.1.1 section 1.5.3 asks for: UTF-8, by decoding each character. No table is kept; U+0000 is the caller's to look for.
ghost use Rattle.std.specs.Prelude.{◌≡◌, ◌<◌, ◌≤◌, length};
ghost use Rattle.topics.specs.Utf8.{is_scalar, broken, between, inside, begun, continues, ended, added, taken, is_utf8, ascii_end};

// Where a decoder stands: inside a character, `left` bytes of which are to come, `value` being its number so far and `least` the least number that needs so
// many bytes; between two characters, with `left` 0; or past a byte that is no UTF-8, not `fine`.
// One record and no enum: the laws of decoding (proofs/utf8) speak of its fields.
#[derive(Clone, Copy, Debug, PartialEq, Eq)]
pub struct Decoding {
    pub fine: bool,
    pub left: u8,
    pub value: u32,
    pub least: u32,
}

fn broken() -> Decoding
    ensures { result ≡ broken }
{
    Decoding {
        fine: false,
        left: 0,
        value: 0,
        least: 0,
    }
}

fn between() -> Decoding
    ensures { result ≡ between }
{
    Decoding {
        fine: true,
        left: 0,
        value: 0,
        least: 0,
    }
}

fn inside(left: u8, value: u32, least: u32) -> Decoding
    ensures { result ≡ inside left value least }
{
    Decoding {
        fine: true,
        left,
        value,
        least,
    }
}

// A character's first byte.
#[tactic(auto, unfolding(crate::specs::Utf8::begun))]
fn begin(b: u8) -> Decoding
    ensures { result ≡ begun b }
{
    match b {
        0..=0x7F => between(),
        0xC0..=0xDF => inside(1, u32::from(b - 0xC0), 0x80),
        0xE0..=0xEF => inside(2, u32::from(b - 0xE0), 0x800),
        0xF0..=0xF7 => inside(3, u32::from(b - 0xF0), 0x1_0000),
        _ => broken(),
    }
}

// A number that a character may have.
fn is_scalar(v: u32) -> bool
    ensures { result ≡ is_scalar v }
{
    matches!(v, 0..=0xD7FF | 0xE000..=0x10_FFFF)
}

// A character all of whose bytes are there.
#[tactic(auto, unfolding(crate::specs::Utf8::ended))]
fn end(value: u32, least: u32) -> Decoding
    ensures { result ≡ ended value least }
{
    if least <= value && is_scalar(value) {
        between()
    } else {
        broken()
    }
}

// A byte that continues a character.
fn continues(b: u8) -> bool
    ensures { result ≡ continues b }
{
    matches!(b, 0x80..=0xBF)
}

// A character's next byte. A number has at most 15 bits before its last six.
#[tactic(auto, unfolding(crate::specs::Utf8::added))]
fn add(d: Decoding, b: u8) -> Decoding
    requires { d.value < 0x8000 }
    ensures { result ≡ added d b }
{
    if !continues(b) {
        return broken();
    }
    let value = d.value * 64 + u32::from(b - 0x80);
    if 1 < d.left {
        inside(d.left - 1, value, d.least)
    } else {
        end(value, d.least)
    }
}

// One byte more.
#[tactic(auto, unfolding(crate::specs::Utf8::taken))]
fn take(d: Decoding, b: u8) -> Decoding
    requires { d.value < 0x8000 }
    ensures { result ≡ taken d b }
{
    if !d.fine {
        broken()
    } else if d.left == 0 {
        begin(b)
    } else {
        add(d, b)
    }
}

// The same as `is_utf8`, which passes over ASCII first.
#[tactic(auto, unfolding(crate::specs::Utf8::is_utf8))]
fn decodes(s: &[u8]) -> bool
    ensures { result ≡ is_utf8 s.now }
{
    let mut d = between();
    for b in s {
        d = take(d, *b);
    }
    d.fine && d.left == 0
}

// How many bytes stand before the first that is not ASCII.
fn ascii_end(s: &[u8]) -> usize
    ensures value { result ≡ ascii_end s.now }
    ensures within { result ≤ length s.now }
{
    s.iter().position(|b| !b.is_ascii()).unwrap_or(s.len())
}

// Whether the bytes are UTF-8: well formed, no overlong form, no surrogate, nothing above 10FFFF, no character cut off. A pattern is tested at every call that takes a
// state, and most have ASCII alone.
pub fn is_utf8(s: &[u8]) -> bool
    ensures { result ≡ is_utf8 s.now }
{
    let from = ascii_end(s);
    decodes(&s[from..])
}
