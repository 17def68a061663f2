// The lines that tell a person what a settings text sets. Each writer also says how long its lines are at most, so that there is room for all of them.
ghost use Rattle.std.specs.Prelude.{map, ◌*◌, ◌≤◌, length};
ghost use Rattle.lines.specs.Wrote.{Wrote};
ghost use Rattle.rules_text.specs.RuleText.{rule_in};
ghost use Rattle.settings.specs.Told.{closing_told, connect_told, head_told, rate_told, ruling_told, pattern_told, rule_told, rules_told};

use crate::head::HeadValues;
use crate::matcher::matching_number;
use lines::put::{
    put_bytes, put_decimal, put_hex_line, put_number_line, put_seconds_line, put_word,
    put_word_line,
};
use rules_text::shown::put_shown;
use tables::rules::{QosPolicy, TopicAction, TopicRule, action_number, policy_number};

// How a text ended, and at which line.
pub(crate) fn put_closing(out: &mut [u8], at: usize, number: u32, line: u64) -> usize
    ensures text { Wrote out.old out.new at (closing_told number line) result }
    ensures short { length (closing_told number line) ≤ 60 }
{
    let after_end = put_number_line(out, at, b"end=", u64::from(number));
    put_number_line(out, after_end, b"line=", line)
}

// When a CONNECT is denied.
fn put_connect(out: &mut [u8], at: usize, threshold: u8, window: u64) -> usize
    ensures text { Wrote out.old out.new at (connect_told threshold window) result }
    ensures short { length (connect_told threshold window) ≤ 150 }
{
    let after_words = put_bytes(out, at, b"A CONNECT that makes ");
    let after_count = put_decimal(out, after_words, u64::from(threshold));
    put_seconds_line(
        out,
        after_count,
        b" or more of one client is denied; they are counted over this many seconds: ",
        window,
    )
}

// All but the rules.
pub(crate) fn put_head_told(out: &mut [u8], at: usize, head: &HeadValues) -> usize
    requires { head.now.rules ≤ 32 }
    ensures text { Wrote out.old out.new at
        (head_told head.now.form head.now.default_action head.now.matching head.now.threshold head.now.window head.now.rules)
        result }
    ensures short { length (head_told head.now.form head.now.default_action head.now.matching head.now.threshold head.now.window head.now.rules) ≤ 390 }
{
    let action = usize::from(action_number(head.default_action));
    let matcher = usize::from(matching_number(head.matching));
    let after_form = put_number_line(out, at, b"A settings text of form ", u64::from(head.form));
    let after_default = put_word_line(
        out,
        after_form,
        b"A topic that no rule matches is ",
        b"allowed|blocked",
        action,
    );
    let after_matching = put_word_line(
        out,
        after_default,
        b"Rules match ",
        b"as in the Rust original (port)|as MQTT 3.1.1 says (standard)",
        matcher,
    );
    let after_connect = put_connect(out, after_matching, head.threshold, head.window);
    put_number_line(
        out,
        after_connect,
        b"Rules, of which the first that matches decides: ",
        u64::from(head.rules),
    )
}

// A rule's rate.
fn put_rate(out: &mut [u8], at: usize, rate: u16) -> usize
    ensures text { Wrote out.old out.new at (rate_told rate) result }
    ensures short { length (rate_told rate) ≤ 40 }
{
    if rate == 0 {
        return put_bytes(out, at, b", no rate limit\n");
    }
    let after_words = put_bytes(out, at, b", at most ");
    let after_rate = put_decimal(out, after_words, u64::from(rate));
    put_bytes(out, after_rate, b" a second for each topic\n")
}

// Its place, and what it does.
fn put_ruling(
    out: &mut [u8],
    at: usize,
    place: u64,
    action: TopicAction,
    policy: QosPolicy,
    rate: u16,
) -> usize
    ensures text { Wrote out.old out.new at (ruling_told place action policy rate) result }
    ensures short { length (ruling_told place action policy rate) ≤ 90 }
{
    let action_place = usize::from(action_number(action));
    let policy_place = usize::from(policy_number(policy));
    let after_place = put_decimal(out, at, place);
    let after_action = put_word(out, after_place, b". allow|. block", action_place);
    let after_policy = put_word(
        out,
        after_action,
        b", any QoS|, alert below QoS 0|, alert below QoS 1|, alert below QoS 2|, alert unless QoS 0|, alert unless QoS 1|, alert unless QoS 2",
        policy_place,
    );
    put_rate(out, after_policy, rate)
}

// Its pattern, as a person reads it and in hex.
fn put_pattern(out: &mut [u8], at: usize, pattern: &[u8]) -> usize
    ensures text { Wrote out.old out.new at (pattern_told pattern.now) result }
    ensures short { length pattern.now ≤ 64 → length (pattern_told pattern.now) ≤ 230 }
{
    let after_key = put_bytes(out, at, b"   text=");
    let after_text = put_shown(out, after_key, pattern);
    put_hex_line(out, after_text, b"\n   pattern=", pattern)
}

// All of a rule.
fn put_rule_told(out: &mut [u8], at: usize, place: u64, rule: &TopicRule) -> usize
    ensures text { Wrote out.old out.new at (rule_told place (rule_in rule.now)) result }
    ensures short { length (rule_told place (rule_in rule.now)) ≤ 320 }
{
    let after_ruling = put_ruling(
        out,
        at,
        place,
        rule.action,
        rule.qos_policy,
        rule.max_rate_per_sec,
    );
    put_pattern(out, after_ruling, rule.pattern())
}

// Rules, by their numbers from 1.
pub(crate) fn put_rules_told(out: &mut [u8], at: usize, rules: &[TopicRule]) -> usize
    requires { length rules.now ≤ 32 }
    ensures text { Wrote out.old out.new at (rules_told 1 (map rule_in rules.now)) result }
    ensures short { length (rules_told 1 (map rule_in rules.now)) ≤ length rules.now * 320 }
{
    let mut p = at;
    for (i, rule) in rules.iter().enumerate() {
        p = put_rule_told(out, p, i as u64 + 1, rule);
    }
    p
}
