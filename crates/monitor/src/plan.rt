// The plan: what each table that is asked decides from its own old value, and the alerts of the message (document 01, "Order inside one inspection"). A table that is
// not asked has the place past its end. The identity and the payload hash are made only where they are wanted. Nothing is stored: `apply` does that.
ghost use Rattle.std.specs.Prelude.{cond, ◌||◌, ◌≡◌, eqb, ltb, replicate};
ghost use Rattle.topics.specs.Payload.{payload_hash};
ghost use Rattle.monitor.specs.Light.{light_plan};
ghost use Rattle.monitor.specs.Plan.{id_for, limiter_kind, plan_from};

use crate::alerts::{Findings, MqttInspectResult, Raised, raise_all};
use crate::gate::{Gate, Stage};
use crate::message::{MqttMessage, MqttPacketType};
use crate::state::MqttMonitor;
use tables::buckets::{BUCKETS, RateBucket, RateCheckResult, RateDecision, rate_limit_check};
use tables::identity::Id;
use tables::trackers::{EwmaTracker, TRACKERS, TrackerDecision, ewma_update};
use tables::windows::{ClientStormEntry, ConnectDecision, WINDOWS, record_connect};
use topics::hashes::client_hashes;
use topics::payload::compute_payload_hash;

// What is to be stored where, and the message's result.
#[derive(Clone, Copy, Debug, PartialEq, Eq)]
pub struct Plan {
    pub stage: Stage,
    pub seen: ConnectDecision,
    pub spent: RateDecision,
    pub fed: TrackerDecision,
    pub allowed: bool,
    pub raised: Raised,
}

impl Plan {
    ghost use Rattle.monitor.specs.Inspect.{result_of};

    /// The message's result.
    pub fn result(&self) -> MqttInspectResult
        ensures { result ≡ result_of self.now }
    {
        MqttInspectResult {
            allowed: self.allowed,
            alert_count: self.raised.count,
            alerts: self.raised.alerts,
        }
    }
}

/// What each table decided on one message: what `seen_for`, `spent_for` and `fed_for` hand out, and any other three as well.
#[derive(Clone, Copy, Debug, PartialEq, Eq)]
pub struct Decided {
    pub seen: ConnectDecision,
    pub spent: RateDecision,
    pub fed: TrackerDecision,
}

// No window is asked.
const NOT_CONNECTED: ConnectDecision = ConnectDecision {
    at: WINDOWS,
    entry: ClientStormEntry::FREE,
    storm: false,
};

// The limiter is not asked.
const NOT_LIMITED: RateDecision = RateDecision {
    at: BUCKETS,
    bucket: RateBucket::FREE,
    result: RateCheckResult::Allowed,
};

// The tracker is not fed.
const NOT_FED: TrackerDecision = TrackerDecision {
    at: TRACKERS,
    tracker: EwmaTracker::FREE,
    alert: false,
};

// The kind by which the limiter denies, 0 for none.
pub(crate) fn limiter_kind(checked: RateCheckResult) -> u32
    ensures { result ≡ limiter_kind checked }
{
    match checked {
        RateCheckResult::Allowed => 0,
        RateCheckResult::Limited => 5,
        RateCheckResult::EvictedAndDenied => 6,
    }
}

// The one kind that denies, 0 for none.
fn denial_for(storm: bool, denial: u32, checked: RateCheckResult) -> u32
    ensures { result ≡ cond storm 1 (cond (ltb 0 denial) denial (limiter_kind checked)) }
{
    if storm {
        1
    } else if denial > 0 {
        denial
    } else {
        limiter_kind(checked)
    }
}

// The payload hash, where an alert of kind 3 or 7 carries it.
fn hash_for(denial: u32, anomaly: bool, payload: &[u8]) -> [u8; 32]
    ensures { result ≡ cond (eqb denial 3 || eqb denial 7 || anomaly) (payload_hash payload.now) (replicate 32 0) }
{
    if denial == 3 || denial == 7 || anomaly {
        compute_payload_hash(payload)
    } else {
        [0; 32]
    }
}

/// The topic's identity, where the limiter or the tracker is asked.
#[tactic(auto, unfolding(crate::specs::Plan::id_for))]
pub fn id_for(gate: &Gate, topic: &[u8]) -> Id
    ensures { result ≡ id_for gate.now topic.now }
{
    if gate.rate > 0 || gate.feeds {
        Id::of(topic)
    } else {
        Id::EMPTY
    }
}

/// The plan from what was decided, with the message's alerts: for any gate, not only for one that `gate_for` hands out.
pub fn plan_from(
    gate: &Gate,
    decided: Decided,
    msg: &MqttMessage,
    payload: &[u8],
    next_id: u64,
    total: u64,
) -> Plan
    ensures { result ≡ plan_from next_id total msg.now payload.now gate.now decided.seen decided.spent decided.fed }
{
    let denial = denial_for(decided.seen.storm, gate.denial, decided.spent.result);
    let found = Findings {
        clock: !msg.timestamp_ok,
        broad: gate.broad,
        qos: gate.qos,
        denial,
        anomaly: decided.fed.alert,
    };
    let hash = hash_for(denial, found.anomaly, payload);
    Plan {
        stage: gate.stage,
        seen: decided.seen,
        spent: decided.spent,
        fed: decided.fed,
        allowed: denial == 0,
        raised: raise_all(&found, &hash, msg.timestamp_us, next_id, total),
    }
}

// The plan of a message that is neither a CONNECT nor a Publish: no table is asked.
#[tactic(auto, unfolding(crate::specs::Light::light_plan))]
pub fn plan_light(gate: Gate, msg: &MqttMessage, payload: &[u8], next_id: u64, total: u64) -> Plan
    ensures { result ≡ light_plan next_id total msg.now payload.now gate }
{
    let decided = Decided {
        seen: NOT_CONNECTED,
        spent: NOT_LIMITED,
        fed: NOT_FED,
    };
    plan_from(&gate, decided, msg, payload, next_id, total)
}

impl MqttMonitor {
    ghost use Rattle.monitor.specs.Plan.{seen_of, spent_of, fed_of, plan_of};
    ghost use Rattle.monitor.specs.State.{matcher_of};

    /// What the CONNECT windows decide.
    #[tactic(auto, unfolding(crate::specs::Plan::seen_of))]
    pub fn seen_for(&self, msg: &MqttMessage, topic: &[u8]) -> ConnectDecision
        ensures { result ≡ seen_of self.now.connect_windows self.now.connect_storm_threshold self.now.connect_storm_window_us msg.now topic.now }
    {
        if msg.packet_type != MqttPacketType::Connect {
            return NOT_CONNECTED;
        }
        record_connect(
            &self.connect_windows,
            client_hashes(topic),
            msg.timestamp_us,
            self.connect_storm_threshold,
            self.connect_storm_window_us,
        )
    }

    /// What the limiter decides, at a gate's rate.
    #[tactic(auto, unfolding(crate::specs::Plan::spent_of))]
    pub fn spent_for(&self, rate: u16, id: &Id, time: u64) -> RateDecision
        ensures { result ≡ spent_of self.now.rate_buckets rate id.now time }
    {
        if rate == 0 {
            return NOT_LIMITED;
        }
        rate_limit_check(&self.rate_buckets, id, rate, time)
    }

    /// What the payload trackers decide, where a gate feeds them.
    #[tactic(auto, unfolding(crate::specs::Plan::fed_of))]
    pub fn fed_for(&self, feeds: bool, id: &Id, msg: &MqttMessage) -> TrackerDecision
        ensures { result ≡ fed_of self.now.ewma_trackers feeds id.now msg.now.payload_len msg.now.timestamp_us }
    {
        if !feeds {
            return NOT_FED;
        }
        ewma_update(&self.ewma_trackers, id, msg.payload_len, msg.timestamp_us)
    }

    /// The plan of a message with its used topic and payload: nothing is stored, `apply` does that.
    pub fn plan_for(&self, msg: &MqttMessage, topic: &[u8], payload: &[u8]) -> Plan
        ensures { result ≡ plan_of (matcher_of self.now) self.now msg.now topic.now payload.now }
    {
        let gate = self.gate_for(msg, topic);
        let id = id_for(&gate, topic);
        let decided = Decided {
            seen: self.seen_for(msg, topic),
            spent: self.spent_for(gate.rate, &id, msg.timestamp_us),
            fed: self.fed_for(gate.feeds, &id, msg),
        };
        plan_from(
            &gate,
            decided,
            msg,
            payload,
            self.next_alert_id,
            self.total_alerts,
        )
    }
}
