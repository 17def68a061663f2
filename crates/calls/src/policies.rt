// A rule's action and QoS policy, and a message's QoS, as the trace writes them.
use crate::say::Line;
use cut::args::{arg, number};
use tables::rules::{MqttQoS, QosPolicy, TopicAction, qos_at, qos_number};

// An argument that is a level, 0 to 2.
pub fn qos(q: &[u8], k: usize) -> MqttQoS {
    qos_at(number(q, k))
}

// An argument that is an action.
pub fn action(q: &[u8], k: usize) -> TopicAction {
    match arg(q, k) {
        b"block" => TopicAction::Block,
        _ => TopicAction::Allow,
    }
}

// An argument that is a policy.
pub fn policy(q: &[u8], k: usize) -> QosPolicy {
    match arg(q, k) {
        b"min0" => QosPolicy::MinQoS(MqttQoS::AtMostOnce),
        b"min1" => QosPolicy::MinQoS(MqttQoS::AtLeastOnce),
        b"min2" => QosPolicy::MinQoS(MqttQoS::ExactlyOnce),
        b"only0" => QosPolicy::ExactQoS(MqttQoS::AtMostOnce),
        b"only1" => QosPolicy::ExactQoS(MqttQoS::AtLeastOnce),
        b"only2" => QosPolicy::ExactQoS(MqttQoS::ExactlyOnce),
        _ => QosPolicy::Any,
    }
}

// A policy: its kind, and the level that it names.
pub fn put_policy(line: &mut Line, policy: QosPolicy) {
    match policy {
        QosPolicy::Any => line.text(b" any"),
        QosPolicy::MinQoS(least) => line.number(b"min", u64::from(qos_number(least))),
        QosPolicy::ExactQoS(exact) => line.number(b"only", u64::from(qos_number(exact))),
    }
}
