// Which rules can never speak (request C-20): for each the first earlier one that matches every name that it matches, and for two rules a name that only the later one matches.
ghost use Rattle.std.specs.Prelude.{◌≡◌, ◌≤◌, length};
ghost use Rattle.tables.specs.Covers.{rule_covers, rule_witness, first_number, cover_report};

use crate::rules::{RULES, TopicRule, places};
use topics::covering::{Witness, covers, find_witness};
use topics::matching::{Matching, is_standard};

// A name that only the later rule matches.
#[tactic(auto, unfolding(crate::specs::Covers::rule_witness))]
pub fn rule_witness(later: &TopicRule, earlier: &TopicRule, matching: Matching) -> Witness
    ensures { result ≡ rule_witness matching later.now earlier.now }
{
    let standard = is_standard(matching);
    find_witness(earlier.pattern(), later.pattern(), standard, standard)
}

// The earlier rule matches every name that the later one matches.
#[tactic(auto, unfolding(crate::specs::Covers::rule_covers))]
fn rule_covers(later: &TopicRule, earlier: &TopicRule, matching: Matching) -> bool
    ensures { result ≡ rule_covers matching later.now earlier.now }
{
    let standard = is_standard(matching);
    covers(earlier.pattern(), later.pattern(), standard, standard)
}

// The number, from 1, of the first earlier rule that covers one; 0 for none.
fn first_cover(earlier: &[TopicRule], later: &TopicRule, matching: Matching) -> u8
    requires { length earlier.now ≤ 32 }
    ensures { result ≡ first_number (rule_covers matching later.now) earlier.now }
{
    match earlier
        .iter()
        .position(|rule| rule_covers(later, rule, matching))
    {
        Some(at) => at as u8 + 1,
        None => 0,
    }
}

// For each rule the number, from 1, of the first before it that covers it; 0 for none, and for the places past the count: a person counts so, and the claims read these numbers
// (monitor/specs/Covered.antt).
pub fn cover_report(rules: &[TopicRule; RULES], count: usize, matching: Matching) -> [u8; RULES]
    ensures { result ≡ cover_report matching rules.now count }
{
    let mut numbers = [0u8; RULES];
    for (at, later) in rules[..places(count)].iter().enumerate() {
        numbers[at] = first_cover(&rules[..at], later, matching);
    }
    numbers
}
