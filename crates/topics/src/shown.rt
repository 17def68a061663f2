// A topic as a person reads it: whether it can be shown as it is, and each of its bytes.
ghost use Rattle.std.specs.Prelude.{◌≡◌};
ghost use Rattle.topics.specs.Shown.{fine, fine_after, readable, shown_byte};

use crate::utf8::is_utf8;

// The byte ends no control character, as it follows another in a UTF-8 text.
fn is_fine(before: u8, b: u8) -> bool
    ensures { result ≡ fine before b }
{
    32 <= b && b != 127 && !(before == 194 && b < 160)
}

// No control character is among the bytes of a UTF-8 text.
fn all_fine(s: &[u8]) -> bool
    ensures { result ≡ fine_after 0 s.now }
{
    let mut before = 0;
    for b in s {
        if !is_fine(before, *b) {
            return false;
        }
        before = *b;
    }
    true
}

// Whether a text can be shown as it is: it is UTF-8, and no control character is in it.
#[tactic(auto, unfolding(crate::specs::Shown::readable))]
pub fn is_readable(s: &[u8]) -> bool
    ensures { result ≡ readable s.now }
{
    is_utf8(s) && all_fine(s)
}

// A byte as it is shown, of a text that can be shown as it is or not.
pub fn shown_byte(whole: bool, b: u8) -> u8
    ensures { result ≡ shown_byte whole b }
{
    if whole || matches!(b, 32..=126) {
        b
    } else {
        b'.'
    }
}
