// Does an earlier pattern match every name that a later one matches (request C-20)? A few names of the later one, tried with the matcher, decide it: specs/Covering.antt says which, and
// specs/Covered.antt that they are enough.
ghost use Rattle.std.specs.Prelude.{◌≡◌, ◌-◌, ◌≤◌, length, take, if◌then◌else◌, nat_eq};
ghost use Rattle.std.proofs.lemmas.List.Edits.{sets};
ghost use Rattle.topics.specs.Covering.{only_later, sample, first_cut, tried_with, witness, covers, as_witness};

use crate::matching::matches_with;
use crate::patterns::PATTERN_MAX;
use slices::bytes::padded;

// A name that only the later of two patterns matches, zeros after it; `len` is 0 where there is none.
#[derive(Clone, Copy, Debug, PartialEq, Eq)]
pub struct Witness {
    pub name: [u8; 128],
    pub len: usize,
}

// Only the later pattern matches a topic.
#[tactic(auto, unfolding(crate::specs::Covering::only_later))]
fn only_later(topic: &[u8], earlier: &[u8], later: &[u8], empty_last: bool, dollar: bool) -> bool
    ensures { result ≡ only_later empty_last dollar earlier.now later.now topic.now }
{
    !topic.is_empty()
        && matches_with(topic, later, empty_last, dollar)
        && !matches_with(topic, earlier, empty_last, dollar)
}

// How long the first of a name's five tries is that only the later pattern matches; 0 for none. The shortest comes first.
fn first_cut(name: &[u8], earlier: &[u8], later: &[u8], empty_last: bool, dollar: bool) -> usize
    ensures cut { take result name.now ≡ first_cut (only_later empty_last dollar earlier.now later.now) 5 name.now }
    ensures within { result ≤ length name.now }
{
    for longer in 0..5 {
        let k = name.len().saturating_sub(4 - longer);
        if only_later(&name[..k], earlier, later, empty_last, dollar) {
            return k;
        }
    }
    0
}

// A byte of a sample: a letter for a `+`.
fn sampled(c: u8, letter: u8) -> u8
    ensures { result ≡ (if nat_eq c 43 then letter else c) }
{
    if c == b'+' { letter } else { c }
}

// The longest name to try, put at the beginning of a buffer: its length.
fn put_sample(pattern: &[u8], letter: u8, out: &mut [u8; 128]) -> usize
    requires { length pattern.now ≤ 64 }
    ensures count { result ≡ length (sample letter pattern.now) }
    ensures bytes { out.new ≡ sets out.old 0 (sample letter pattern.now) }
{
    for (i, c) in pattern.iter().enumerate() {
        if *c == b'#' {
            out[i] = letter;
            out[i + 1] = b'/';
            out[i + 2] = letter;
            return i + 3;
        }
        out[i] = sampled(*c, letter);
    }
    pattern.len()
}

// A name as it is handed back.
#[tactic(auto, unfolding(crate::specs::Covering::as_witness))]
fn as_witness(name: &[u8]) -> Witness
    ensures { result ≡ as_witness name.now }
{
    Witness {
        name: padded(name),
        len: name.len(),
    }
}

// The first try with one letter that only the later pattern matches.
fn tried_with(letter: u8, earlier: &[u8], later: &[u8], empty_last: bool, dollar: bool) -> Witness
    ensures { result ≡ as_witness (tried_with letter empty_last dollar earlier.now later.now) }
{
    let n = later.len().min(PATTERN_MAX);
    let mut bytes = [0u8; 128];
    let len = put_sample(&later[..n], letter, &mut bytes);
    let k = first_cut(&bytes[..len], earlier, later, empty_last, dollar);
    as_witness(&bytes[..k])
}

// A name that the later pattern matches and the earlier does not, or none.
pub fn find_witness(earlier: &[u8], later: &[u8], empty_last: bool, dollar: bool) -> Witness
    ensures { result ≡ as_witness (witness empty_last dollar earlier.now later.now) }
{
    let first = tried_with(b'a', earlier, later, empty_last, dollar);
    if first.len != 0 {
        return first;
    }
    tried_with(b'b', earlier, later, empty_last, dollar)
}

// The earlier pattern matches every name that the later one matches.
pub fn covers(earlier: &[u8], later: &[u8], empty_last: bool, dollar: bool) -> bool
    ensures { result ≡ covers empty_last dollar earlier.now later.now }
{
    find_witness(earlier, later, empty_last, dollar).len == 0
}
