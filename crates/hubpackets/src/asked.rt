// What the program is asked for, by the words behind its name: which time and which verdict the messages of a capture get, and whether they are inspected.
ghost use Rattle.std.specs.Prelude.{◌≡◌};
ghost use Rattle.hubpackets.specs.Asked.{asked_first, asked_with};

use lines::value::{Number, decimal};
use slices::bytes::{same_bytes, starts_with};
use std::rt::Env;
use streams::words::{is_there, word_at};

// The time and the verdict, and whether the messages are inspected under settings.
#[derive(Clone, Copy, Debug, PartialEq, Eq)]
pub struct Asked {
    pub at: u64,
    pub ok: bool,
    pub inspect: bool,
}

// Without a word: time 0, the clock is right, and nothing is inspected.
fn first() -> Asked
    ensures { result ≡ asked_first }
{
    Asked {
        at: 0,
        ok: true,
        inspect: false,
    }
}

// What one word more asks for: `--clock=ok`, `--clock=bad`, `--inspect`, or `--at=` and a decimal of 64 bits; nothing, if the word is not known.
#[tactic(auto, unfolding(crate::specs::Asked::asked_with))]
pub fn with_word(asked: Asked, word: &[u8]) -> Option<Asked>
    ensures { result ≡ asked_with asked word.now }
{
    if same_bytes(b"--clock=ok", word) {
        return Some(Asked { ok: true, ..asked });
    }
    if same_bytes(b"--clock=bad", word) {
        return Some(Asked { ok: false, ..asked });
    }
    if same_bytes(b"--inspect", word) {
        return Some(Asked {
            inspect: true,
            ..asked
        });
    }
    if !starts_with(word, b"--at=") {
        return None;
    }
    match decimal(&word[5..], 0, u64::MAX) {
        Number::Value(at) => Some(Asked { at, ..asked }),
        Number::Bad => None,
    }
}

// What the program is asked for; nothing, if a word is not known.
pub fn by_words<R: Env>(rt: &R) -> Option<Asked> {
    let mut asked = first();
    for i in 1..usize::MAX {
        if !is_there(rt, i) {
            break;
        }
        let mut word = [0u8; 32];
        let n = word_at(rt, i, &mut word);
        asked = with_word(asked, &word[..n])?;
    }
    Some(asked)
}
