// The four lines of a rule, written, and how many bytes they are.
ghost use Rattle.std.specs.Prelude.{◌≡◌, ◌≤◌, length};
ghost use Rattle.lines.specs.Wrote.{Wrote};
ghost use Rattle.rules_text.specs.RuleText.{rule_text};

use lines::lengths::{hex_line_len, number_line_len, word_line_len};
use lines::put::{put_hex_line, put_number_line, put_word_line};
use tables::rules::{TopicRule, action_number, policy_number, used};

// A rule's lines, from `at` on.
pub fn put_rule(out: &mut [u8], at: usize, rule: &TopicRule) -> usize
    ensures { Wrote out.old out.new at (rule_text rule.now) result }
{
    let action = usize::from(action_number(rule.action));
    let policy = usize::from(policy_number(rule.qos_policy));
    let a = put_hex_line(out, at, b"pattern=", rule.pattern());
    let b = put_word_line(out, a, b"action=", b"allow|block", action);
    let c = put_word_line(
        out,
        b,
        b"qos=",
        b"any|min0|min1|min2|only0|only1|only2",
        policy,
    );
    put_number_line(out, c, b"rate=", u64::from(rule.max_rate_per_sec))
}

// How many bytes they are.
pub fn rule_len(rule: &TopicRule) -> usize
    ensures value { result ≡ length (rule_text rule.now) }
    ensures short { result ≤ 171 }
{
    let n = used(rule.pattern_len);
    let action = usize::from(action_number(rule.action));
    let policy = usize::from(policy_number(rule.qos_policy));
    let a = hex_line_len(b"pattern=", &rule.pattern[..n]);
    let b = word_line_len(b"action=", b"allow|block", action);
    let c = word_line_len(b"qos=", b"any|min0|min1|min2|only0|only1|only2", policy);
    let d = number_line_len(b"rate=", u64::from(rule.max_rate_per_sec));
    a + b + c + d
}
