// Tests and searches on bytes: equal, begins with, has, how often, where. One function for each, and every one answers for all bytes. Bytes with zeros after them too.
ghost use Rattle.std.specs.Prelude.{◌≡◌, ◌≤◌, ◌-◌, ◌++◌, length, take, replicate};
ghost use Rattle.slices.specs.Bytes.{same, begins, has, count_of, to_byte, place_in, find_byte};

// Equal bytes, equally many.
// It stays beside `==` as a word with a promise of its own (docs/BY-FUNCTION.md).
#[tactic(auto, using(crate::proofs::bytes::StdLaws::same_eq))]
pub fn same_bytes(a: &[u8], b: &[u8]) -> bool
    ensures { result ≡ same a.now b.now }
{
    a == b
}

// Whether `s` begins with `key`.
#[tactic(auto, using(crate::proofs::bytes::StdLaws::begins_starts))]
pub fn starts_with(s: &[u8], key: &[u8]) -> bool
    ensures { result ≡ begins key.now s.now }
{
    s.starts_with(key)
}

// The byte `c` stands somewhere in `s`.
pub fn has_byte(s: &[u8], c: u8) -> bool
    ensures { result ≡ has c s.now }
{
    s.iter().any(|b| *b == c)
}

// How often the byte `c` stands in `s`.
#[tactic(auto, using(crate::proofs::bytes::StdLaws::count_by_of))]
pub fn count_byte(s: &[u8], c: u8) -> usize
    ensures { result ≡ count_of c s.now }
{
    s.iter().filter(|b| **b == c).count()
}

// How many bytes stand before the first `c`.
fn bytes_before(s: &[u8], c: u8) -> usize
    ensures { result ≡ to_byte c s.now }
{
    s.iter().position(|b| *b == c).unwrap_or(s.len())
}

// The place of the first `c` at or after `at`, or the slice's end.
pub fn find_byte(s: &[u8], at: usize, c: u8) -> usize
    ensures value { result ≡ find_byte c s.now at }
    ensures within { (place_in s.now at ≤ result) × (result ≤ length s.now) }
{
    let from = at.min(s.len());
    from + bytes_before(&s[from..], c)
}

// The first `N` bytes, with zeros after them where there are fewer.
pub fn padded<const N: usize>(bytes: &[u8]) -> [u8; N]
    ensures { result ≡ take N bytes.now ++ replicate (N - length bytes.now) 0 }
{
    let n = bytes.len().min(N);
    let mut out = [0u8; N];
    out[..n].copy_from_slice(&bytes[..n]);
    out
}
