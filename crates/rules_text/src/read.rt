// The four lines of a rule, read at a place of a text.
ghost use Rattle.std.specs.Prelude.{◌≡◌};
ghost use Rattle.rules_text.specs.RuleGroup.{rule_stopped, rule_at, pattern_kept, RuleIn};

use lines::read::{Field, hex_field, number_field, word_field};
use tables::rules::{QosPolicy, TopicAction, action_at, policy_at};

// How many bytes of a pattern a text may give: 25 refuses more, as in a topic. That a rule takes 64 at most is for the pattern's own test.
pub const PATTERN_ROOM: usize = 128;

// What a rule's four lines gave; the pattern's hex stands at pattern_from..pattern_to of the text, its bytes in a lent buffer.
#[derive(Clone, Copy, Debug, PartialEq, Eq)]
pub struct RuleLines {
    pub number: u32,
    pub line: u32,
    pub next: usize,
    pub pattern_from: usize,
    pub pattern_to: usize,
    pub action: TopicAction,
    pub qos_policy: QosPolicy,
    pub rate: u16,
}

// A rule that stopped at a line.
fn rule_stopped(field: Field, line: u32) -> RuleLines
    ensures { result ≡ rule_stopped field line }
{
    RuleLines {
        number: field.number,
        line,
        next: field.next,
        pattern_from: 0,
        pattern_to: 0,
        action: TopicAction::Allow,
        qos_policy: QosPolicy::Any,
        rate: 0,
    }
}

// The rule at a place of the text: `pattern=`, whose bytes go to a lent buffer, `action=`, `qos=` and `rate=`.
pub fn read_rule(text: &[u8], at: usize, pattern: &mut [u8; PATTERN_ROOM]) -> RuleLines
    ensures value { result ≡ rule_at text.now at }
    ensures within { RuleIn text.now result }
    ensures kept { pattern.new ≡ pattern_kept text.now at pattern.old }
{
    let hex = hex_field(text, at, b"pattern=", pattern);
    if hex.number != 0 {
        return rule_stopped(hex, 0);
    }
    let action = word_field(text, hex.next, b"action=", b"allow|block");
    if action.number != 0 {
        return rule_stopped(action, 1);
    }
    let qos = word_field(
        text,
        action.next,
        b"qos=",
        b"any|min0|min1|min2|only0|only1|only2",
    );
    if qos.number != 0 {
        return rule_stopped(qos, 2);
    }
    let rate = number_field(text, qos.next, b"rate=", 0, 65535);
    if rate.number != 0 {
        return rule_stopped(rate, 3);
    }
    RuleLines {
        number: 0,
        line: 3,
        next: rate.next,
        pattern_from: hex.from,
        pattern_to: hex.to,
        action: action_at(action.value),
        qos_policy: policy_at(qos.value),
        rate: rate.value as u16,
    }
}
