// The lines that tell a person which rules can never speak, and what stands between two rules (request C-20). Each writer also says how long its lines are at most, so that there is room for
// all of them.
ghost use Rattle.std.specs.Prelude.{◌≡◌, ℕ, ◌+◌, ◌<◌, ◌≤◌, length, get_or};
ghost use Rattle.lines.specs.Wrote.{Wrote};
ghost use Rattle.tables.specs.Rules.{pattern_of};
ghost use Rattle.settings.specs.Dead.{two_rules, two_rules_most, shown_line, dead_told, deads_told, report_told, between_told};

use lines::put::{put_bytes, put_decimal, put_hex_line, put_number_line};
use rules_text::shown::put_shown;
use slices::bytes::count_byte;
use tables::rules::{RULES, TopicRule, used};
use topics::covering::Witness;

// A sentence on two rules.
fn put_two_rules(
    out: &mut [u8],
    at: usize,
    start: &[u8],
    one: u64,
    middle: &[u8],
    other: u64,
    end: &[u8],
) -> usize
    ensures text { Wrote out.old out.new at (two_rules start.now one middle.now other end.now) result }
    ensures short { length (two_rules start.now one middle.now other end.now) ≤ two_rules_most start.now middle.now end.now }
{
    let after_start = put_bytes(out, at, start);
    let after_one = put_decimal(out, after_start, one);
    let after_middle = put_bytes(out, after_one, middle);
    let after_other = put_decimal(out, after_middle, other);
    put_bytes(out, after_other, end)
}

// A topic or a pattern as text.
fn put_shown_line(out: &mut [u8], at: usize, key: &[u8], t: &[u8]) -> usize
    ensures text { Wrote out.old out.new at (shown_line key.now t.now) result }
    ensures short { length (shown_line key.now t.now) ≡ length key.now + length t.now + 1 }
{
    let after_key = put_bytes(out, at, key);
    let after_text = put_shown(out, after_key, t);
    put_bytes(out, after_text, b"\n")
}

// A rule's pattern as text.
fn put_pattern_line(out: &mut [u8], at: usize, key: &[u8], rule: &TopicRule) -> usize
    ensures text { Wrote out.old out.new at (shown_line key.now (pattern_of rule.now)) result }
    ensures short { length (shown_line key.now (pattern_of rule.now)) ≤ length key.now + 65 }
{
    put_shown_line(out, at, key, &rule.pattern[..used(rule.pattern_len)])
}

// A rule and the rule that hides it, by their numbers; nothing where that number is 0.
fn put_dead(
    out: &mut [u8],
    at: usize,
    rules: &[TopicRule; RULES],
    rule: usize,
    cover: usize,
) -> usize
    requires rule_in { (1 ≤ rule) × (rule ≤ 32) }
    requires cover_bound { cover ≤ 32 }
    ensures text { Wrote out.old out.new at (dead_told rules.now rule cover) result }
    ensures short { length (dead_told rules.now rule cover) ≤ 300 }
{
    if cover == 0 {
        return at;
    }
    let after_sentence = put_two_rules(
        out,
        at,
        b"Rule ",
        rule as u64,
        b" can never speak: rule ",
        cover as u64,
        b" comes first, and matches every topic that it matches\n",
    );
    let after_text = put_pattern_line(out, after_sentence, b"   text=", &rules[rule - 1]);
    put_pattern_line(out, after_text, b"   hidden by=", &rules[cover - 1])
}

// All that a report says.
fn put_deads(out: &mut [u8], at: usize, rules: &[TopicRule; RULES], covers: &[u8; RULES]) -> usize
    requires { (i : ℕ) → i < 32 → get_or covers.now i 0 ≤ 32 }
    ensures text { Wrote out.old out.new at (deads_told rules.now 1 covers.now) result }
    ensures short { length (deads_told rules.now 1 covers.now) ≤ 9600 }
{
    let mut p = at;
    for (i, &cover) in covers.iter().enumerate() {
        p = put_dead(out, p, rules, i + 1, usize::from(cover));
    }
    p
}

// How many rules can never speak, and each of them.
pub(crate) fn put_report(
    out: &mut [u8],
    at: usize,
    rules: &[TopicRule; RULES],
    covers: &[u8; RULES],
) -> usize
    requires { (i : ℕ) → i < 32 → get_or covers.now i 0 ≤ 32 }
    ensures text { Wrote out.old out.new at (report_told rules.now covers.now) result }
    ensures short { length (report_told rules.now covers.now) ≤ 9650 }
{
    let silent = RULES - count_byte(covers, 0);
    let after_count = put_number_line(out, at, b"Rules that can never speak: ", silent as u64);
    put_deads(out, after_count, rules, covers)
}

// What was found between two rules, by their numbers.
pub(crate) fn put_between(
    out: &mut [u8],
    at: usize,
    later: u64,
    earlier: u64,
    witness: &Witness,
) -> usize
    requires { witness.now.len ≤ 128 }
    ensures text { Wrote out.old out.new at (between_told later earlier witness.now) result }
    ensures short { length (between_told later earlier witness.now) ≤ 600 }
{
    if witness.len == 0 {
        return put_two_rules(
            out,
            at,
            b"Rule ",
            earlier,
            b" matches every topic that rule ",
            later,
            b" matches\n",
        );
    }
    let name = &witness.name[..witness.len];
    let after_sentence = put_two_rules(
        out,
        at,
        b"Rule ",
        later,
        b" matches this topic, and rule ",
        earlier,
        b" does not\n",
    );
    let after_text = put_shown_line(out, after_sentence, b"   text=", name);
    put_hex_line(out, after_text, b"   topic=", name)
}
