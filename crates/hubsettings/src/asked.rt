// What the program is asked for, by the word behind its name: what a text sets, the text in a form (request C-18), its rules that can never speak, or two of its rules (request C-20).
ghost use Rattle.std.specs.Prelude.{◌≡◌};
ghost use Rattle.hubsettings.specs.Asked.{asked_pair, asked_numbers, asked_by};

use lines::value::{Number, decimal};
use slices::bytes::{find_byte, same_bytes, starts_with};
use std::rt::Env;
use streams::words::{is_there, word_at};

// What a text sets; the text in a form; its rules that can never speak; a later and an earlier rule, by their numbers; or a word that the program does not know.
#[derive(Clone, Copy, Debug, PartialEq, Eq)]
pub enum Asked {
    Tell,
    To(u32),
    Dead,
    Pair(u64, u64),
    Unknown,
}

// The largest number that is read. No rule has it, and two of them with all else fit into the buffer for a word, so a word that is longer than that is not known.
const NUMBER_MAX: u64 = 9999999999;

// Two rules, where both are numbers.
fn pair(later: Number, earlier: Number) -> Asked
    ensures { result ≡ asked_pair later earlier }
{
    let Number::Value(a) = later else {
        return Asked::Unknown;
    };
    let Number::Value(b) = earlier else {
        return Asked::Unknown;
    };
    Asked::Pair(a, b)
}

// Two decimals with a comma between them.
fn by_numbers(s: &[u8]) -> Asked
    ensures { result ≡ asked_numbers s.now }
{
    let comma = find_byte(s, 0, b',');
    if comma == s.len() {
        return Asked::Unknown;
    }
    let next = comma + 1;
    let later = decimal(&s[..comma], 0, NUMBER_MAX);
    let earlier = decimal(&s[next..], 0, NUMBER_MAX);
    pair(later, earlier)
}

// What a word asks for.
pub fn by_word(word: &[u8]) -> Asked
    ensures { result ≡ asked_by word.now }
{
    if same_bytes(b"--to=1", word) {
        return Asked::To(1);
    }
    if same_bytes(b"--to=2", word) {
        return Asked::To(2);
    }
    if same_bytes(b"--dead", word) {
        return Asked::Dead;
    }
    if !starts_with(word, b"--dead=") {
        return Asked::Unknown;
    }
    by_numbers(&word[7..])
}

// What the program is asked for: without a word, what a text sets.
pub fn by_words<R: Env>(rt: &R) -> Asked {
    if !is_there(rt, 1) {
        return Asked::Tell;
    }
    if is_there(rt, 2) {
        return Asked::Unknown;
    }
    let mut word = [0u8; 32];
    let n = word_at(rt, 1, &mut word);
    by_word(&word[..n])
}
