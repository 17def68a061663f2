// The gate: what rules, message and topic alone decide (document 01, "Order inside one inspection"). It asks no table.
ghost use Rattle.std.specs.Prelude.{not, ◌&&◌, ◌≡◌, min, eqb};
ghost use Rattle.topics.specs.Matching.{matches_by};
ghost use Rattle.topics.specs.Names.{is_broad, starts_with_dollar, bad_publish};
ghost use Rattle.tables.specs.Rules.{first_rule};
ghost use Rattle.tables.specs.Scan.{placed};
ghost use Rattle.monitor.specs.Message.{type_number};
ghost use Rattle.monitor.specs.Gate.{is_block, ruled_by, ruled_by_default, stage_of, ends_early, denied_by, goes_on, gate_after, is_topical};

use crate::message::{MqttMessage, MqttPacketType};
use crate::state::MqttMonitor;
use tables::rules::{QosPolicy, RULES, TopicAction, TopicRule, places};
use topics::matching::Matching;
use topics::names::{
    contains_invalid_publish_char, is_broad_wildcard_subscribe, starts_with_dollar,
};

// How far a message came in the order of one inspection: it ended before rule choice, no rule took its topic, or the rule at a place did.
// Three ends, and only one has a place: no `Option`.
#[derive(Clone, Copy, Debug, PartialEq, Eq)]
pub enum Stage {
    Early,
    NoRule,
    Rule(usize),
}

// What the first matching rule says; where there is none, the default with any QoS and no rate.
#[derive(Clone, Copy, Debug, PartialEq, Eq)]
pub struct Ruling {
    pub found: bool,
    pub at: usize,
    pub action: TopicAction,
    pub qos_policy: QosPolicy,
    pub rate: u16,
}

// `denial`: the kind that denies, 0 for none. `rate` above 0: the limiter is asked. `feeds`: the tracker is.
#[derive(Clone, Copy, Debug, PartialEq, Eq)]
pub struct Gate {
    pub stage: Stage,
    pub denial: u32,
    pub broad: bool,
    pub qos: bool,
    pub rate: u16,
    pub feeds: bool,
}

fn ruled_by(rule: &TopicRule, at: usize) -> Ruling
    ensures { result ≡ ruled_by rule.now at }
{
    Ruling {
        found: true,
        at,
        action: rule.action,
        qos_policy: rule.qos_policy,
        rate: rule.max_rate_per_sec,
    }
}

fn ruled_by_default(action: TopicAction, at: usize) -> Ruling
    ensures { result ≡ ruled_by_default action at }
{
    Ruling {
        found: false,
        at,
        action,
        qos_policy: QosPolicy::Any,
        rate: 0,
    }
}

// The place of the first rule that takes a topic.
fn first_rule(
    rules: &[TopicRule; RULES],
    count: usize,
    topic: &[u8],
    matching: Matching,
) -> Option<usize>
    ensures { result ≡ placed (min count 32) (first_rule (matches_by matching) topic.now rules.now count) }
{
    rules[..places(count)]
        .iter()
        .position(|rule| rule.takes(topic, matching))
}

fn is_block(action: TopicAction) -> bool
    ensures { result ≡ is_block action }
{
    action == TopicAction::Block
}

fn stage_of(ruling: &Ruling) -> Stage
    ensures { result ≡ stage_of ruling.now }
{
    if ruling.found {
        Stage::Rule(ruling.at)
    } else {
        Stage::NoRule
    }
}

fn ends_early(denial: u32) -> Gate
    ensures { result ≡ ends_early denial }
{
    Gate {
        stage: Stage::Early,
        denial,
        broad: false,
        qos: false,
        rate: 0,
        feeds: false,
    }
}

fn denied_by(denial: u32, broad: bool, ruling: &Ruling) -> Gate
    ensures { result ≡ denied_by denial broad ruling.now }
{
    Gate {
        stage: stage_of(ruling),
        denial,
        broad,
        qos: false,
        rate: 0,
        feeds: false,
    }
}

// Types whose topic is looked at.
fn is_topical(packet_type: MqttPacketType) -> bool
    ensures { result ≡ is_topical (type_number packet_type) }
{
    matches!(
        packet_type,
        MqttPacketType::Publish | MqttPacketType::Subscribe | MqttPacketType::Unsubscribe
    )
}

// Kind 9.
fn is_bad_publish(packet_type: MqttPacketType, topic: &[u8]) -> bool
    ensures { result ≡ (eqb (type_number packet_type) 3 && bad_publish topic.now) }
{
    packet_type == MqttPacketType::Publish && contains_invalid_publish_char(topic)
}

// Kind 11.
fn is_broad_subscribe(packet_type: MqttPacketType, topic: &[u8]) -> bool
    ensures { result ≡ (eqb (type_number packet_type) 8 && is_broad topic.now) }
{
    packet_type == MqttPacketType::Subscribe && is_broad_wildcard_subscribe(topic)
}

// A rule takes the topic and allows it.
fn is_allowed(ruling: &Ruling) -> bool
    ensures { result ≡ (ruling.now.found && not (is_block ruling.now.action)) }
{
    ruling.found && !is_block(ruling.action)
}

// Kind 10: a Subscribe with a leading dollar and no matching Allow rule.
fn is_reserved(packet_type: MqttPacketType, topic: &[u8], ruling: &Ruling) -> bool
    ensures { result ≡ (eqb (type_number packet_type) 8 && starts_with_dollar topic.now && not (ruling.now.found && not (is_block ruling.now.action))) }
{
    packet_type == MqttPacketType::Subscribe && starts_with_dollar(topic) && !is_allowed(ruling)
}

// Not denied by rules: a Publish asks the limiter for the rule's rate, and with a payload feeds the tracker.
fn goes_on(msg: &MqttMessage, broad: bool, ruling: &Ruling) -> Gate
    ensures { result ≡ goes_on msg.now broad ruling.now }
{
    let publishes = msg.packet_type == MqttPacketType::Publish;
    Gate {
        stage: stage_of(ruling),
        denial: 0,
        broad,
        qos: !ruling.qos_policy.takes(msg.qos),
        rate: if publishes { ruling.rate } else { 0 },
        feeds: publishes && msg.payload_len > 0,
    }
}

// After rule choice, in the document's order: 11 and on, 10, 3, then what is asked of the tables.
#[tactic(auto, unfolding(crate::specs::Gate::gate_after))]
fn gate_after(msg: &MqttMessage, topic: &[u8], ruling: &Ruling) -> Gate
    ensures { result ≡ gate_after msg.now topic.now ruling.now }
{
    let broad = is_broad_subscribe(msg.packet_type, topic);
    if is_reserved(msg.packet_type, topic, ruling) {
        return denied_by(10, broad, ruling);
    }
    if is_block(ruling.action) {
        return denied_by(3, broad, ruling);
    }
    goes_on(msg, broad, ruling)
}

impl MqttMonitor {
    ghost use Rattle.monitor.specs.Gate.{ruling_of};
    ghost use Rattle.monitor.specs.Plan.{gate_in};
    ghost use Rattle.monitor.specs.State.{matcher_of};

    // The first matching rule, else the default.
    #[tactic(auto, unfolding(crate::specs::Gate::ruling_of))]
    fn ruling_for(&self, topic: &[u8]) -> Ruling
        ensures { result ≡ ruling_of (matcher_of self.now) self.now.rules self.now.rule_count self.now.default_action topic.now }
    {
        let count = usize::from(self.rule_count);
        match first_rule(&self.rules, count, topic, self.matching) {
            Some(at) => ruled_by(&self.rules[at], at),
            None => ruled_by_default(self.default_action, places(count)),
        }
    }

    /// The gate of a message with its used topic, in the document's order: other types end; an empty topic is 2; a Publish with zero, `+` or `#` is 9; then the rules decide.
    #[tactic(auto, unfolding(crate::specs::Gate::gate_of))]
    pub fn gate_for(&self, msg: &MqttMessage, topic: &[u8]) -> Gate
        ensures { result ≡ gate_in (matcher_of self.now) self.now msg.now topic.now }
    {
        if !is_topical(msg.packet_type) {
            return ends_early(0);
        }
        if topic.is_empty() {
            return ends_early(2);
        }
        if is_bad_publish(msg.packet_type, topic) {
            return ends_early(9);
        }
        gate_after(msg, topic, &self.ruling_for(topic))
    }
}
