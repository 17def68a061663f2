// Which patterns a rule may have (document 01, `add_rule`; 000 `validate_mqtt_wildcard` and the tests of `add_rule`).
ghost use Rattle.std.specs.Prelude.{◌≡◌, ◌&&◌, drop};
ghost use Rattle.topics.specs.Levels.{level_ends};
ghost use Rattle.laws.specs.Refusals.{refusal};
ghost use Rattle.topics.specs.Patterns.{valid_wildcards, pattern_refusal, pattern_number};

use crate::utf8::is_utf8;
use slices::bytes::{count_byte, has_byte};

// A level ends before this place: at the pattern's end or at a slash.
fn level_ends(pattern: &[u8], i: usize) -> bool
    ensures { result ≡ level_ends (drop i pattern.now) }
{
    match pattern.get(i) {
        None => true,
        Some(c) => *c == b'/',
    }
}

// A `+` is alone in its level, where `fresh` says that a level begins with it and `next` is the place behind it.
fn is_alone(pattern: &[u8], next: usize, fresh: bool) -> bool
    ensures { result ≡ (fresh && level_ends (drop next pattern.now)) }
{
    fresh && level_ends(pattern, next)
}

// `#` last and alone in its level, `+` alone in its level; an empty pattern is refused.
pub fn validate_mqtt_wildcard(pattern: &[u8]) -> bool
    ensures { result ≡ valid_wildcards pattern.now }
{
    if pattern.is_empty() {
        return false;
    }
    let mut fresh = true;
    for (i, c) in pattern.iter().enumerate() {
        let next = i + 1;
        if *c == b'#' {
            return fresh && next == pattern.len();
        }
        if *c == b'+' && !is_alone(pattern, next, fresh) {
            return false;
        }
        fresh = *c == b'/';
    }
    true
}

// How long a pattern may be, and how many `+` it may have.
pub const PATTERN_MAX: usize = 64;

const PLUS_MAX: usize = 3;

/// Why a pattern is not taken.
#[derive(Clone, Copy, Debug, PartialEq, Eq)]
pub enum PatternRefusal {
    /// Not 1 to 64 bytes, a zero byte, more than three `+`, or a wildcard out of place.
    BadPattern = 9,
    /// Not UTF-8 (request C-16).
    NotUtf8 = 36,
}

impl PatternRefusal {
    ghost use Rattle.topics.specs.Patterns.{pattern_number};

    /// The number that a person is told (docs/NUMBERS.md).
    pub fn number(self) -> u32
        ensures { result ≡ pattern_number self }
    {
        self as u32
    }
}

/// Whether a pattern is one that a rule may have: what `add_rule`, number 10 and the standard matcher's domain go by.
#[tactic(auto, unfolding(crate::specs::Patterns::pattern_refusal))]
pub fn check_pattern(pattern: &[u8]) -> Result<(), PatternRefusal>
    ensures { refusal pattern_number result ≡ pattern_refusal pattern.now }
{
    if pattern.is_empty() {
        return Err(PatternRefusal::BadPattern);
    }
    if PATTERN_MAX < pattern.len() {
        return Err(PatternRefusal::BadPattern);
    }
    if has_byte(pattern, 0) {
        return Err(PatternRefusal::BadPattern);
    }
    if !is_utf8(pattern) {
        return Err(PatternRefusal::NotUtf8);
    }
    if PLUS_MAX < count_byte(pattern, b'+') {
        return Err(PatternRefusal::BadPattern);
    }
    if !validate_mqtt_wildcard(pattern) {
        return Err(PatternRefusal::BadPattern);
    }
    Ok(())
}
