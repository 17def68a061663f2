// What the program is asked for, by the words behind its name: the matcher of the rules (request C-15), and then whether it is to say where the limit stands.
ghost use Rattle.std.specs.Prelude.{◌≡◌};
ghost use Rattle.hubtrace.specs.Asked.{asked_by, asked_beside, asked_too};

use slices::bytes::same_bytes;
use std::rt::Env;
use streams::words::{is_there, word_at};
use topics::matching::Matching;

// A matcher; a matcher, and where the limit stands; or a word that the program does not know.
#[derive(Clone, Copy, Debug, PartialEq, Eq)]
pub enum Asked {
    For(Matching),
    Standing(Matching),
    Unknown,
}

// What a first word asks for.
pub fn by_word(word: &[u8]) -> Asked
    ensures { result ≡ asked_by word.now }
{
    if same_bytes(b"--match=port", word) {
        return Asked::For(Matching::Port);
    }
    if same_bytes(b"--match=standard", word) {
        return Asked::For(Matching::Standard);
    }
    Asked::Unknown
}

// What a word asks for beside a matcher.
fn beside(matching: Matching, word: &[u8]) -> Asked
    ensures { result ≡ asked_beside matching word.now }
{
    if same_bytes(b"--standing", word) {
        return Asked::Standing(matching);
    }
    Asked::Unknown
}

// What a second word asks for beside the first.
pub fn too(asked: Asked, word: &[u8]) -> Asked
    ensures { result ≡ asked_too asked word.now }
{
    match asked {
        Asked::For(matching) => beside(matching, word),
        Asked::Standing(_) | Asked::Unknown => Asked::Unknown,
    }
}

// What the first word asks for.
fn by_first<R: Env>(rt: &R) -> Asked {
    let mut word = [0u8; 32];
    let n = word_at(rt, 1, &mut word);
    by_word(&word[..n])
}

// What the program is asked for: without a word, what document 01 has.
pub fn by_words<R: Env>(rt: &R) -> Asked {
    if !is_there(rt, 1) {
        return Asked::For(Matching::Port);
    }
    if is_there(rt, 3) {
        return Asked::Unknown;
    }
    let asked = by_first(rt);
    if !is_there(rt, 2) {
        return asked;
    }
    let mut word = [0u8; 32];
    let n = word_at(rt, 2, &mut word);
    too(asked, &word[..n])
}
