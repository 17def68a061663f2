// Parts of a text, for the programs that read questions: what stands before and after the first of a byte, and the first few bytes. With LF it takes a text apart into lines,
// with a blank a line into fields. Every function answers for every text.
#![tactic(auto)]

pub mod args;
pub mod swap;

ghost use Rattle.std.specs.Prelude.{◌+◌, ◌-◌, ◌≤◌, ◌≡◌, length, take, drop};
ghost use Rattle.slices.specs.Bytes.{find_byte};

use slices::bytes::find_byte;

// What stands before the first `b`: all of `s` where there is none.
pub fn before(s: &[u8], b: u8) -> &[u8]
    ensures { result.now ≡ take (find_byte b s.now 0) s.now }
{
    let to = find_byte(s, 0, b);
    &s[..to]
}

// What stands after the first `b`: nothing where there is none. It is shorter than `s`, so that a loop over such parts ends.
pub fn after(s: &[u8], b: u8) -> &[u8]
    ensures value { result.now ≡ drop (find_byte b s.now 0 + 1) s.now }
    ensures shorter { length result.now ≤ length s.now - 1 }
{
    let from = find_byte(s, 0, b).saturating_add(1).min(s.len());
    &s[from..]
}

// The first `k` bytes: all of `s` where there are fewer.
pub fn upto(s: &[u8], k: usize) -> &[u8]
    ensures { result.now ≡ take k s.now }
{
    &s[..k.min(s.len())]
}
