// The two matchers (document 01, "Topics, level by level"; 000 `topic_matches`; request C-15). One function serves both by two flags: `empty_last`, under which a `+` takes an empty
// level that is the topic's last, and `dollar`, under which a leading wildcard takes no name that begins with a dollar sign. The port has neither, the standard both.
// Two flags and not one choice: `covers` is proved exact for all four (specs/Covered.antt).
ghost use Rattle.std.specs.Prelude.{◌≡◌, ◌+◌, ◌-◌, ◌≤◌, ◌&&◌, length, drop};
ghost use Rattle.topics.specs.Matching.{starts_wild, dollar_apart, takes_none, takes_end, match_bytes, matches_with, is_standard, matches_by, port_matches, standard_matches, match_number};

use crate::names::starts_with_dollar;
use crate::patterns::check_pattern;
use slices::bytes::find_byte;

// Which of the two a monitor takes for its rules: as the Rust answers, or as MQTT 3.1.1 section 4.7 does.
#[derive(Clone, Copy, Debug, PartialEq, Eq)]
pub enum Matching {
    Port,
    Standard,
}

// What the standard matcher answers. Three cases by name, not `Option<bool>`: `match_number` and the claims on it (theorems/specs/Corners.antt, ShutOut.antt) read them.
#[derive(Clone, Copy, Debug, PartialEq, Eq)]
pub enum StandardMatch {
    Yes,
    No,
    OutsideDomain,
}

// The rest of a pattern takes no further byte.
#[tactic(auto, unfolding(crate::specs::Matching::takes_none))]
fn takes_none(rest: &[u8]) -> bool
    ensures { result ≡ takes_none rest.now }
{
    matches!(rest, [] | [b'#', ..] | [b'/', b'#', ..])
}

// The rest of a pattern behind a `+` that takes the empty level at the topic's end, where it does.
#[tactic(auto, unfolding(crate::specs::Matching::takes_end))]
fn past_plus(rest: &[u8], empty_last: bool) -> &[u8]
    ensures { takes_none result.now ≡ takes_end empty_last rest.now }
{
    match rest {
        [b'+', after @ ..] if empty_last => after,
        _ => rest,
    }
}

// The rest of the pattern at the topic's end. `takes_none` is asked in one place: a second would make the whole matcher too long to stand in a loop over rules.
fn takes_end(rest: &[u8], empty_last: bool) -> bool
    ensures { result ≡ takes_end empty_last rest.now }
{
    takes_none(past_plus(rest, empty_last))
}

// The walk over both: `#` takes the rest, `+` goes to the end of the topic's level, any other byte takes an equal one; at the topic's end `takes_end` decides.
// The Rust looks ahead after a `+`; the next turns answer the same. Two places that move apart: a chain is no plainer.
fn walk(topic: &[u8], pattern: &[u8], empty_last: bool) -> bool
    ensures { result ≡ match_bytes empty_last topic.now pattern.now }
{
    let mut ti = 0;
    let mut pi = 0;
    while ti < topic.len() {
        if pi == pattern.len() {
            return false;
        }
        let c = pattern[pi];
        if c == b'#' {
            return true;
        }
        if c == b'+' {
            ti = find_byte(topic, ti, b'/');
        } else if c == topic[ti] {
            ti += 1;
        } else {
            return false;
        }
        pi += 1;
    }
    takes_end(&pattern[pi..], empty_last)
}

// A pattern that begins with a wildcard.
fn starts_wild(pattern: &[u8]) -> bool
    ensures { result ≡ starts_wild pattern.now }
{
    matches!(pattern, [b'#' | b'+', ..])
}

// A name that MQTT 3.1.1 section 4.7.2 keeps apart from a pattern, where that is asked.
fn kept_apart(topic: &[u8], pattern: &[u8], dollar: bool) -> bool
    ensures { result ≡ (dollar && dollar_apart topic.now pattern.now) }
{
    dollar && starts_with_dollar(topic) && starts_wild(pattern)
}

// A topic under a pattern, by both flags: the crates above choose them. The walk comes first: of many rules most end it at once, and then nothing is asked of dollars.
pub fn matches_with(topic: &[u8], pattern: &[u8], empty_last: bool, dollar: bool) -> bool
    ensures { result ≡ matches_with empty_last dollar topic.now pattern.now }
{
    walk(topic, pattern, empty_last) && !kept_apart(topic, pattern, dollar)
}

// Both flags of a choice.
pub fn is_standard(matching: Matching) -> bool
    ensures { result ≡ is_standard matching }
{
    matching == Matching::Standard
}

// A topic under a rule's pattern, by the matcher that was chosen for the rules.
pub fn matches_by(topic: &[u8], pattern: &[u8], matching: Matching) -> bool
    ensures { result ≡ matches_by matching topic.now pattern.now }
{
    let standard = is_standard(matching);
    matches_with(topic, pattern, standard, standard)
}

// The port: as the Rust answers, on any pattern. Its `+` refuses an empty level that is the topic's last.
pub fn topic_matches(topic: &[u8], pattern: &[u8]) -> bool
    ensures { result ≡ port_matches topic.now pattern.now }
{
    matches_with(topic, pattern, false, false)
}

// The standard: MQTT 3.1.1 section 4.7, for a pattern that `add_rule` takes and a name of at least 1 byte.
#[tactic(auto, unfolding(crate::specs::Matching::standard_matches))]
pub fn standard_matches(name: &[u8], pattern: &[u8]) -> StandardMatch
    ensures { result ≡ standard_matches name.now pattern.now }
{
    if check_pattern(pattern).is_err() {
        return StandardMatch::OutsideDomain;
    }
    if name.is_empty() {
        return StandardMatch::OutsideDomain;
    }
    if matches_with(name, pattern, true, true) {
        StandardMatch::Yes
    } else {
        StandardMatch::No
    }
}

// The number of each answer, for callers to whom an enum does not pass.
pub fn match_number(answer: StandardMatch) -> u32
    ensures { result ≡ match_number answer }
{
    match answer {
        StandardMatch::No => 0,
        StandardMatch::Yes => 1,
        StandardMatch::OutsideDomain => 9,
    }
}
