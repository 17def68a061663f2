// Topic rules (document 01, "Numbers handed back", "Order inside one inspection"; 000 `TopicRule`, `check_qos_policy`, `add_rule`, `validate_rules`).
ghost use Rattle.std.specs.Prelude.{◌&&◌, ◌≡◌, ◌≤◌, ◌<◌, min, IfOk};
ghost use Rattle.slices.specs.Bytes.{same};
ghost use Rattle.topics.specs.Matching.{matches_by, port_matches};
ghost use Rattle.tables.specs.Numbers.{qos_number, qos_at, action_number, action_at, policy_number, policy_at};
ghost use Rattle.tables.specs.Rules.{qos_ok, pattern_of, rule_fine, equal_rule, shadowed, shadow_count};
ghost use Rattle.tables.specs.Rules.{rule_plan, told_plan};
ghost use Rattle.tables.specs.Scan.{placed};

use slices::bytes::padded;
use topics::matching::{Matching, matches_by};
use topics::patterns::{PATTERN_MAX, PatternRefusal, check_pattern};

// How many rules a monitor holds.
pub const RULES: usize = 32;

#[derive(Clone, Copy, Debug, PartialEq, Eq, PartialOrd, Ord)]
pub enum MqttQoS {
    AtMostOnce,
    AtLeastOnce,
    ExactlyOnce,
}

#[derive(Clone, Copy, Debug, PartialEq, Eq)]
pub enum QosPolicy {
    Any,
    MinQoS(MqttQoS),
    ExactQoS(MqttQoS),
}

#[derive(Clone, Copy, Debug, PartialEq, Eq)]
pub enum TopicAction {
    Allow,
    Block,
}

// `active` and the length beside the pattern stay: `calls` sets and shows records that are not live (`rule_live`, crates/calls/stdin), which an `Option` cannot hold, and
// number 10 refuses states with a length over 64, which a type would exclude.
#[derive(Clone, Copy, Debug, PartialEq, Eq)]
pub struct TopicRule {
    pub pattern: [u8; PATTERN_MAX],
    pub pattern_len: u8,
    pub action: TopicAction,
    pub qos_policy: QosPolicy,
    pub max_rate_per_sec: u16,
    pub active: bool,
}

// A QoS level's number.
pub fn qos_number(qos: MqttQoS) -> u8
    ensures value { result ≡ qos_number qos }
    ensures small { result ≤ 2 }
{
    match qos {
        MqttQoS::AtMostOnce => 0,
        MqttQoS::AtLeastOnce => 1,
        MqttQoS::ExactlyOnce => 2,
    }
}

// The QoS level of a number: promised for every number, so no `TryFrom`.
pub fn qos_at(k: u64) -> MqttQoS
    ensures { result ≡ qos_at k }
{
    match k {
        0 => MqttQoS::AtMostOnce,
        1 => MqttQoS::AtLeastOnce,
        _ => MqttQoS::ExactlyOnce,
    }
}

// An action's place in `allow|block`.
pub fn action_number(action: TopicAction) -> u8
    ensures { result ≡ action_number action }
{
    match action {
        TopicAction::Allow => 0,
        TopicAction::Block => 1,
    }
}

// The action at its place in `allow|block`, promised for every number.
pub fn action_at(k: u64) -> TopicAction
    ensures { result ≡ action_at k }
{
    match k {
        0 => TopicAction::Allow,
        _ => TopicAction::Block,
    }
}

// A policy's place in `any|min0|min1|min2|only0|only1|only2`.
// A policy has a level in it, so no cast.
pub fn policy_number(policy: QosPolicy) -> u8
    ensures { result ≡ policy_number policy }
{
    match policy {
        QosPolicy::Any => 0,
        QosPolicy::MinQoS(least) => 1 + qos_number(least),
        QosPolicy::ExactQoS(exact) => 4 + qos_number(exact),
    }
}

// The policy at its place in `any|min0|min1|min2|only0|only1|only2`, promised for every number.
pub fn policy_at(k: u64) -> QosPolicy
    ensures { result ≡ policy_at k }
{
    match k {
        0 => QosPolicy::Any,
        1 => QosPolicy::MinQoS(MqttQoS::AtMostOnce),
        2 => QosPolicy::MinQoS(MqttQoS::AtLeastOnce),
        3 => QosPolicy::MinQoS(MqttQoS::ExactlyOnce),
        4 => QosPolicy::ExactQoS(MqttQoS::AtMostOnce),
        5 => QosPolicy::ExactQoS(MqttQoS::AtLeastOnce),
        _ => QosPolicy::ExactQoS(MqttQoS::ExactlyOnce),
    }
}

impl QosPolicy {
    // A message's QoS is one that the policy takes.
    #[tactic(auto, unfolding(crate::specs::Rules::qos_ok))]
    pub fn takes(self, actual: MqttQoS) -> bool
        ensures { result ≡ qos_ok self actual }
    {
        match self {
            QosPolicy::Any => true,
            QosPolicy::MinQoS(least) => least <= actual,
            QosPolicy::ExactQoS(exact) => actual == exact,
        }
    }
}

// How many bytes a pattern has: a state that is handed in may claim more than there are.
pub fn used(pattern_len: u8) -> usize
    ensures { result ≡ min pattern_len 64 }
{
    usize::from(pattern_len).min(PATTERN_MAX)
}

// How many places of the table count, likewise.
pub fn places(count: usize) -> usize
    ensures { result ≡ min count 32 }
{
    count.min(RULES)
}

impl TopicRule {
    // A free place of the table.
    pub const FREE: TopicRule = TopicRule {
        pattern: [0; PATTERN_MAX],
        pattern_len: 0,
        action: TopicAction::Allow,
        qos_policy: QosPolicy::Any,
        max_rate_per_sec: 0,
        active: false,
    };

    // The bytes of the pattern.
    pub fn pattern(&self) -> &[u8]
        ensures { result.now ≡ pattern_of self.now }
    {
        &self.pattern[..used(self.pattern_len)]
    }

    // A live rule takes a topic, by the matcher that was chosen.
    pub fn takes(&self, topic: &[u8], matching: Matching) -> bool
        ensures { result ≡ (self.now.active && matches_by matching topic.now (pattern_of self.now)) }
    {
        self.active && matches_by(topic, self.pattern(), matching)
    }

    // Whether `add_rule` could have left such a rule: number 10 refuses a state with any other.
    #[tactic(auto, unfolding(crate::specs::Rules::rule_fine))]
    pub fn is_fine(&self) -> bool
        ensures { result ≡ rule_fine self.now }
    {
        self.active
            && usize::from(self.pattern_len) <= PATTERN_MAX
            && check_pattern(self.pattern()).is_ok()
    }

    // A live rule has just this pattern.
    #[tactic(auto, unfolding(slices::specs::Bytes::same))]
    fn has(&self, pattern: &[u8]) -> bool
        ensures { result ≡ (self.now.active && same (pattern_of self.now) pattern.now) }
    {
        self.active && self.pattern() == pattern
    }

    // A live rule takes another's pattern, read as a topic: as the Rust has it, whatever matcher a monitor chose for its rules.
    fn shadows(&self, later: &TopicRule) -> bool
        ensures { result ≡ (self.now.active && port_matches (pattern_of later.now) (pattern_of self.now)) }
    {
        self.takes(later.pattern(), Matching::Port)
    }
}

// The rule with an equal pattern, which `add_rule` overwrites: its place.
pub fn equal_rule(rules: &[TopicRule; RULES], count: usize, pattern: &[u8]) -> Option<usize>
    ensures { result ≡ placed (min count 32) (equal_rule pattern.now rules.now count) }
{
    rules[..places(count)]
        .iter()
        .position(|rule| rule.has(pattern))
}

// Why a rule is refused: 32 are held, or its pattern is not taken.
#[derive(Clone, Copy, Debug, PartialEq, Eq)]
pub enum RuleRefusal {
    TableFull = 6,
    BadPattern = 9,
    NotUtf8 = 36,
}

impl RuleRefusal {
    ghost use Rattle.tables.specs.Rules.{rule_number};

    // The number that a person is told (docs/NUMBERS.md).
    pub fn number(self) -> u32
        ensures { result ≡ rule_number self }
    {
        self as u32
    }
}

impl From<PatternRefusal> for RuleRefusal {
    ghost use Rattle.std.specs.Prelude.{◌≡◌};
    ghost use Rattle.tables.specs.Rules.{rule_number};
    ghost use Rattle.topics.specs.Patterns.{pattern_number};

    ghost from_gives = { λ pattern rule. rule_number rule ≡ pattern_number pattern };

    fn from(refusal: PatternRefusal) -> RuleRefusal {
        match refusal {
            PatternRefusal::BadPattern => RuleRefusal::BadPattern,
            PatternRefusal::NotUtf8 => RuleRefusal::NotUtf8,
        }
    }
}

// Where a rule goes: `rule` then stands at `at`, and `count` are held.
#[derive(Clone, Copy, Debug, PartialEq, Eq)]
pub struct Placement {
    pub at: usize,
    pub rule: TopicRule,
    pub count: u16,
}

// The pattern's own number comes first; an equal pattern is overwritten in place, even in a full table; a new rule comes last (document 01, `add_rule`).
#[tactic(auto, unfolding(crate::specs::Rules::rule_plan))]
pub fn plan_rule(
    rules: &[TopicRule; RULES],
    rule_count: u16,
    pattern: &[u8],
    action: TopicAction,
    qos_policy: QosPolicy,
    max_rate_per_sec: u16,
) -> Result<Placement, RuleRefusal>
    ensures plan { told_plan rule_count result ≡ rule_plan rules.now rule_count pattern.now action qos_policy max_rate_per_sec }
    ensures within { IfOk result (λ placement. placement.at < 32) }
{
    check_pattern(pattern)?;
    let count = usize::from(rule_count);
    if let Some(at) = equal_rule(rules, count, pattern) {
        let rule = TopicRule {
            action,
            qos_policy,
            max_rate_per_sec,
            ..rules[at]
        };
        return Ok(Placement {
            at,
            rule,
            count: rule_count,
        });
    }
    if count >= RULES {
        return Err(RuleRefusal::TableFull);
    }
    let rule = TopicRule {
        pattern: padded(pattern),
        pattern_len: pattern.len() as u8,
        action,
        qos_policy,
        max_rate_per_sec,
        active: true,
    };
    Ok(Placement {
        at: count,
        rule,
        count: rule_count + 1,
    })
}

// A rule is live and an earlier one shadows it.
fn is_shadowed(later: &TopicRule, earlier: &[TopicRule]) -> bool
    ensures { result ≡ (later.now.active && shadowed (pattern_of later.now) earlier.now) }
{
    later.active && earlier.iter().any(|rule| rule.shadows(later))
}

// How many rules an earlier one shadows: each counts once (document 01, `add_rule`).
pub fn shadow_count(rules: &[TopicRule; RULES], count: usize) -> u16
    ensures { result ≡ shadow_count rules.now count }
{
    let mut shadowed = 0;
    for (at, later) in rules[..places(count)].iter().enumerate() {
        if is_shadowed(later, &rules[..at]) {
            shadowed += 1;
        }
    }
    shadowed
}
