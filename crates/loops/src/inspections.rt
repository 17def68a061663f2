// One loop owns the monitor and inspects message after message: each is planned and what was decided is stored in place. Rules and times
// are made from numbers, so that the Rust can be given the same; topics are lent, since what the compiler knows of them it computes beforehand.
ghost use Rattle.std.specs.Prelude.{true, cond, ◌≡◌, ◌+◌, ◌-◌, ◌≤◌, min, max};
ghost use Rattle.monitor.specs.Alerts.{counted};
ghost use Rattle.monitor.specs.State.{well_formed};
ghost use Rattle.loops.specs.Inspections.{pattern_at, next_from, loop_message, with_pattern, readied, loop_allowed};

use monitor::alerts::count_on;
use monitor::message::{MqttMessage, MqttPacketType, TOPIC_MAX};
use monitor::state::MqttMonitor;
use tables::rules::{MqttQoS, QosPolicy, RULES, TopicAction, plan_rule};
use topics::matching::Matching;

// A number of rules brought into 1 to 32, and one less: how many stand before the last.
fn others_of(rules: u32) -> u32
    ensures { result ≡ min (max rules 1) 32 - 1 }
{
    rules.clamp(1, RULES as u32) - 1
}

// A pattern that takes no topic below `site/+/lamp`.
fn pattern_at(k: u32) -> [u8; 15]
    ensures { result ≡ pattern_at k }
{
    let mut pattern = *b"site/+/room-?/#";
    pattern[12] = b'0' + (k % 32) as u8;
    pattern
}

// Where the next topic begins, in a text of topics of one width: after the last comes the first.
fn next_from(length: usize, width: usize, from: usize) -> usize
    requires { from + width ≤ length }
    ensures { result ≡ next_from length width from }
{
    if length - from - width < width {
        return 0;
    }
    from + width
}

// The k-th message, 10,000 microseconds after the one before it.
fn loop_message(topic_len: u8, size: u16, k: u32) -> MqttMessage
    ensures { result ≡ loop_message topic_len size k }
{
    MqttMessage {
        packet_type: MqttPacketType::Publish,
        topic_len,
        qos: MqttQoS::AtLeastOnce,
        payload_len: size,
        payload_inspectable_len: 2,
        timestamp_us: u64::from(k) * 10_000,
        timestamp_ok: true,
    }
}

// One rule more, which limits; a refused one leaves the monitor as it was, and `hub_loop_rules` tells how many it has. By `plan_rule`, not by `add_rule`, which would test the whole state and count
// shadows at each rule.
fn add_pattern(m: &mut MqttMonitor, pattern: &[u8])
    requires { well_formed m.old ≡ true }
    ensures { m.new ≡ with_pattern m.old pattern.now }
{
    let policy = QosPolicy::MinQoS(MqttQoS::AtLeastOnce);
    let planned = plan_rule(
        &m.rules,
        m.rule_count,
        pattern,
        TopicAction::Allow,
        policy,
        65535,
    );
    if let Ok(placement) = planned {
        m.rules[placement.at] = placement.rule;
        m.rule_count = placement.count;
    }
}

// The monitor that blocks by default and has so many rules that take no topic below `site/+/lamp`, and one last that takes them all.
#[tactic(auto, unfolding(crate::specs::Inspections::ruled))]
fn readied(others: u32) -> MqttMonitor
    ensures { result ≡ readied others }
{
    let mut m = MqttMonitor::fresh(Matching::Port, TopicAction::Block);
    for k in 0..others {
        add_pattern(&mut m, &pattern_at(k));
    }
    add_pattern(&mut m, b"site/+/lamp/+");
    m
}

// One more where a message is allowed.
fn count_if(n: u64, allowed: bool) -> u64
    ensures { result ≡ cond allowed (counted n) n }
{
    if allowed { count_on(n) } else { n }
}

// How many rules the loop's monitor has, by which a host sees that none was refused. It also gives `readied` a second caller: so it stays a call, and its stack is not the loop's.
pub fn hub_loop_rules(rules: u32) -> u16
    ensures { result ≡ (readied (min (max rules 1) 32 - 1)).rule_count }
{
    let m = readied(others_of(rules));
    m.rule_count
}

// How many of so many messages of one size are allowed, under 1 to 32 rules and on lent topics of one width in turn; 0 where a topic has more than 128 bytes or none is lent whole.
#[tactic(auto, unfolding(crate::specs::Inspections::loop_allowed, crate::specs::Inspections::from_at, crate::specs::Inspections::state_after, crate::specs::Inspections::allowed_after))]
pub fn hub_loop(rules: u32, topics: &[u8], width: u8, size: u16, messages: u32) -> u64
    ensures { result ≡ loop_allowed (min (max rules 1) 32 - 1) topics.now width size messages }
{
    let wide = usize::from(width);
    if wide > TOPIC_MAX || topics.len() < wide {
        return 0;
    }
    let mut m = readied(others_of(rules));
    let mut allowed = 0;
    let mut from = 0;
    for k in 0..messages {
        let msg = loop_message(width, size, k);
        let plan = m.plan_for(&msg, &topics[from..from + wide], b"on");
        m.apply(&plan);
        allowed = count_if(allowed, plan.allowed);
        from = next_from(topics.len(), wide, from);
    }
    allowed
}
