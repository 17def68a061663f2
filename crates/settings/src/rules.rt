// The rules of a settings text, read into a table and written from one.
ghost use Rattle.std.specs.Prelude.{◌≡◌, [], map, ◌*◌, ◌≤◌, length, take};
ghost use Rattle.lines.specs.Wrote.{Wrote};
ghost use Rattle.forms.specs.Form.{read_all, text_all};
ghost use Rattle.rules_text.specs.RuleText.{rule_form, rule_in};
ghost use Rattle.settings.specs.Kept.{rules_read};
ghost use Rattle.settings.specs.Refused.{rules_told};

use crate::refusal::{Refused, SettingsRefusal, check_line};
use monitor::state::free_rules;
use rules_text::put::{put_rule, rule_len};
use rules_text::read::{PATTERN_ROOM, read_rule};
use tables::rules::{RULES, TopicRule, plan_rule};

// What they gave: the table, the lines read so far and the place after them.
#[derive(Clone, Copy, Debug, PartialEq, Eq)]
pub(crate) struct RulesFound {
    pub line: u64,
    pub next: usize,
    pub rules: [TopicRule; RULES],
}

// A buffer for a pattern.
fn pattern_buffer() -> [u8; PATTERN_ROOM]
    ensures { length result ≡ 128 }
{
    [0; PATTERN_ROOM]
}

// So many rules from a place on, after so many lines. A pattern's own number and 35 stand at its rule's last line, before the rule is stored.
pub(crate) fn read_rules(
    text: &[u8],
    from: usize,
    lines: u64,
    count: u16,
) -> Result<RulesFound, Refused>
    requires few { count ≤ 32 }
    requires short { lines ≤ 1000 }
    ensures { rules_told count result ≡ rules_read (read_all rule_form count [] text.now from lines) }
{
    let mut rules = free_rules();
    let mut pattern = pattern_buffer();
    let mut at = from;
    for taken in 0..count {
        let line = lines + 4 * u64::from(taken);
        let last = line + 4;
        let rule = read_rule(text, at, &mut pattern);
        check_line(rule.number, line + 1 + u64::from(rule.line))?;
        let n = (rule.pattern_to - rule.pattern_from) / 2;
        let planned = plan_rule(
            &rules,
            taken,
            &pattern[..n],
            rule.action,
            rule.qos_policy,
            rule.rate,
        );
        let placement = match planned {
            Ok(placement) => placement,
            Err(refusal) => {
                return Err(Refused {
                    refusal: SettingsRefusal::from(refusal),
                    line: last,
                });
            }
        };
        if placement.at < usize::from(taken) {
            return Err(Refused {
                refusal: SettingsRefusal::GivenTwice,
                line: last,
            });
        }
        rules[placement.at] = placement.rule;
        at = rule.next;
    }
    Ok(RulesFound {
        line: lines + 4 * u64::from(count),
        next: at,
        rules,
    })
}

// The rules of a table that count.
pub(crate) fn counted(rules: &[TopicRule; RULES], count: u16) -> &[TopicRule]
    requires { count ≤ 32 }
    ensures value { result.now ≡ take count rules.now }
    ensures many { length result.now ≡ count }
{
    &rules[..usize::from(count)]
}

// Rules, written into a lent buffer from `at` on.
pub(crate) fn put_rules(out: &mut [u8], at: usize, rules: &[TopicRule]) -> usize
    ensures { Wrote out.old out.new at (text_all rule_form [] (map rule_in rules.now)) result }
{
    let mut p = at;
    for rule in rules {
        p = put_rule(out, p, rule);
    }
    p
}

// How many bytes they are.
pub(crate) fn rules_len(rules: &[TopicRule]) -> usize
    requires { length rules.now ≤ 32 }
    ensures value { result ≡ length (text_all rule_form [] (map rule_in rules.now)) }
    ensures short { result ≤ length rules.now * 171 }
{
    let mut sum = 0;
    for rule in rules {
        sum += rule_len(rule);
    }
    sum
}
