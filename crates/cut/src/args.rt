// The parts of a line `NAME ARG..`, with single blanks between: fields as they are, and arguments, of which `-` is an empty one. What is missing or spells nothing
// counts as empty, 0 or no, so that a program's own `stdout` shows it and no line stops it.
ghost use Rattle.std.specs.Prelude.{◌≤◌, ◌≡◌, length, take};
ghost use Rattle.lines.specs.ReadHex.{hex_into};
ghost use Rattle.cut.specs.Args.{rest_of, field_of, is_one_of, arg_of, number_in, flag_of, size_of, bytes_of};

use crate::{after, before, upto};
use lines::value;
use lines::value::Number;

// Whether an argument is there and spells bytes, and how many: they are the first `count` of a buffer.
#[derive(Clone, Copy, Debug, PartialEq, Eq)]
pub struct Bytes {
    pub good: bool,
    pub count: usize,
}

// What stands after the first `k` fields.
pub fn rest(q: &[u8], k: usize) -> &[u8]
    ensures { result.now ≡ rest_of k q.now }
{
    let mut left = q;
    for _ in 0..k {
        left = after(left, b' ');
    }
    left
}

// The field at place `k`; the name is at 0.
#[tactic(auto, unfolding(crate::specs::Args::field_of))]
pub fn field(q: &[u8], k: usize) -> &[u8]
    ensures { result.now ≡ field_of k q.now }
{
    before(rest(q, k), b' ')
}

// Whether `s` is a word of `words`, which has a bar between them.
#[tactic(auto, unfolding(crate::specs::Args::is_one_of))]
pub fn is(s: &[u8], words: &[u8]) -> bool
    ensures { result ≡ is_one_of words.now s.now }
{
    matches!(value::word(words, s), Number::Value(_))
}

// The argument at place `k`.
#[tactic(auto, unfolding(crate::specs::Args::arg_of))]
pub fn arg(q: &[u8], k: usize) -> &[u8]
    ensures { result.now ≡ arg_of k q.now }
{
    let found = field(q, k);
    if is(found, b"-") {
        upto(found, 0)
    } else {
        found
    }
}

// An argument that is a number.
#[tactic(auto, unfolding(crate::specs::Args::number_in))]
pub fn number(q: &[u8], k: usize) -> u64
    ensures { result ≡ number_in k q.now }
{
    match value::decimal(arg(q, k), 0, u64::MAX) {
        Number::Value(n) => n,
        Number::Bad => 0,
    }
}

// An argument that is a place or a count.
pub fn place(q: &[u8], k: usize) -> usize
    ensures { result ≡ number_in k q.now }
{
    number(q, k) as usize
}

// An argument that is a flag, 0 or 1.
pub fn flag(q: &[u8], k: usize) -> bool
    ensures { result ≡ flag_of k q.now }
{
    number(q, k) == 1
}

// An argument that is the size of a part of `buf`, from its beginning: all of it where it is shorter.
pub fn size(q: &[u8], k: usize, buf: &[u8]) -> usize
    ensures value { result ≡ size_of k q.now (length buf.now) }
    ensures counts { (result ≤ length buf.now) × (result ≡ length (take result buf.now)) }
{
    place(q, k).min(buf.len())
}

// The bytes of an argument in hex, to the beginning of `out`.
#[tactic(auto, unfolding(crate::specs::Args::bytes_of))]
pub fn unhex(q: &[u8], k: usize, out: &mut [u8]) -> Bytes
    ensures value { result ≡ bytes_of k q.now (length out.old) }
    ensures kept { out.new ≡ hex_into out.old (arg_of k q.now) }
{
    let digits = arg(q, k);
    if value::hex(digits, out) != 0 {
        return Bytes {
            good: false,
            count: 0,
        };
    }
    Bytes {
        good: !field(q, k).is_empty(),
        count: digits.len() / 2,
    }
}
