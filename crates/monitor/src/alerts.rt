// Alerts (document 01, "Order inside one inspection"; 000 `MqttInspectResult`, `push_alert`, `next_alert_id`; 002 `SecurityAlert`, `AlertSeverity`).
ghost use mathlib.Core.List.{foldl};
ghost use Rattle.std.specs.Prelude.{◌≡◌, replicate};
ghost use Rattle.monitor.specs.Alerts.{severity_number, severity_of, hash_of, kinds_of, id_after, counted, alert_of, no_alert, raise_all};

// How many alerts a message can raise.
pub const ALERTS: usize = 4;

// Each with its number (002).
#[derive(Clone, Copy, Debug, PartialEq, Eq)]
pub enum AlertSeverity {
    Info = 0,
    Low = 1,
    Medium = 2,
    High = 3,
    Critical = 4,
}

// `source_id` is the alert's kind, 1 to 11; a number, since `severity_of` and a trace's record are promised for every number.
#[derive(Clone, Copy, Debug, PartialEq, Eq)]
pub struct SecurityAlert {
    pub id: u64,
    pub timestamp_us: u64,
    pub payload_hash: [u8; 32],
    pub severity: AlertSeverity,
    pub source_id: u32,
}

// The count stands beside the alerts: `write_record` of `trace` takes any such record, and refuses by number 10 a count over 4, which a type would exclude.
#[derive(Clone, Copy, Debug, PartialEq, Eq)]
pub struct MqttInspectResult {
    pub allowed: bool,
    pub alert_count: u8,
    pub alerts: [SecurityAlert; ALERTS],
}

// The alerts of one message, and the counters after them.
// The count stands beside the alerts as in `MqttInspectResult`, which is made of them.
#[derive(Clone, Copy, Debug, PartialEq, Eq)]
pub struct Raised {
    pub count: u8,
    pub alerts: [SecurityAlert; ALERTS],
    pub next_id: u64,
    pub total: u64,
}

// What was found of one message; `denial` is the kind that denies it, 0 for none.
#[derive(Clone, Copy, Debug, PartialEq, Eq)]
pub struct Findings {
    pub clock: bool,
    pub broad: bool,
    pub qos: bool,
    pub denial: u32,
    pub anomaly: bool,
}

// A severity's number (002).
pub fn severity_number(severity: AlertSeverity) -> u64
    ensures { result ≡ severity_number severity }
{
    severity as u64
}

// By the kind alone: High are a CONNECT storm, a replaced bucket and a Publish with a zero, `+` or `#`; Low are QoS, payload and clock.
// Promised for every number, so no enum of kinds.
#[tactic(auto, unfolding(crate::specs::Alerts::severity_of))]
pub fn severity_of(kind: u32) -> AlertSeverity
    ensures { result ≡ severity_of kind }
{
    match kind {
        1 | 6 | 9 => AlertSeverity::High,
        4 | 7 | 8 => AlertSeverity::Low,
        _ => AlertSeverity::Medium,
    }
}

// Block and payload alerts carry the payload hash, all others 32 zero bytes.
#[tactic(auto, unfolding(crate::specs::Alerts::hash_of))]
fn hash_of(hash: &[u8; 32], kind: u32) -> [u8; 32]
    ensures { result ≡ hash_of hash.now kind }
{
    match kind {
        3 | 7 => *hash,
        _ => [0; 32],
    }
}

// Ids count on and skip 0 at the wrap.
fn id_after(id: u64) -> u64
    ensures { result ≡ id_after id }
{
    match id.wrapping_add(1) {
        0 => 1,
        next => next,
    }
}

// Totals stop at 2^64 - 1.
pub fn count_on(total: u64) -> u64
    ensures { result ≡ counted total }
{
    total.saturating_add(1)
}

impl SecurityAlert {
    // What stands in a place past the alert count.
    const NONE: SecurityAlert = SecurityAlert {
        id: 0,
        timestamp_us: 0,
        payload_hash: [0; 32],
        severity: AlertSeverity::Info,
        source_id: 0,
    };
}

// An alert of a kind, with all that goes by the kind.
fn alert_of(hash: &[u8; 32], timestamp_us: u64, id: u64, kind: u32) -> SecurityAlert
    ensures { result ≡ alert_of hash.now timestamp_us id kind }
{
    SecurityAlert {
        id,
        timestamp_us,
        payload_hash: hash_of(hash, kind),
        severity: severity_of(kind),
        source_id: kind,
    }
}

// The places of a message's alerts, none of them taken.
pub(crate) fn no_alerts() -> [SecurityAlert; ALERTS]
    ensures { result ≡ replicate 4 no_alert }
{
    [SecurityAlert::NONE; ALERTS]
}

impl Raised {
    ghost use Rattle.monitor.specs.Alerts.{none_raised, raise, when};

    // Where a message's alerts begin.
    fn none(next_id: u64, total: u64) -> Raised
        ensures { result ≡ none_raised next_id total }
    {
        Raised {
            count: 0,
            alerts: no_alerts(),
            next_id,
            total,
        }
    }

    // One alert more, where there is room (000 `push_alert`).
    #[tactic(auto, unfolding(crate::specs::Alerts::raise))]
    fn raise(&mut self, hash: &[u8; 32], timestamp_us: u64, kind: u32)
        ensures { self.new ≡ raise hash.now timestamp_us self.old kind }
    {
        let at = usize::from(self.count);
        if at < ALERTS {
            self.alerts[at] = alert_of(hash, timestamp_us, self.next_id, kind);
            self.count += 1;
            self.next_id = id_after(self.next_id);
            self.total = count_on(self.total);
        }
    }

    // One alert more, or none, as a finding says.
    fn raise_if(&mut self, found: bool, hash: &[u8; 32], timestamp_us: u64, kind: u32)
        ensures { self.new ≡ foldl (raise hash.now timestamp_us) self.old (when found kind) }
    {
        if found {
            self.raise(hash, timestamp_us, kind);
        }
    }
}

/// All alerts of a message, in the order of one inspection.
pub fn raise_all(
    found: &Findings,
    hash: &[u8; 32],
    timestamp_us: u64,
    next_id: u64,
    total: u64,
) -> Raised
    ensures { result ≡ raise_all hash.now timestamp_us next_id total (kinds_of found.now) }
{
    let mut raised = Raised::none(next_id, total);
    raised.raise_if(found.clock, hash, timestamp_us, 8);
    raised.raise_if(found.broad, hash, timestamp_us, 11);
    raised.raise_if(found.qos, hash, timestamp_us, 4);
    raised.raise_if(found.denial > 0, hash, timestamp_us, found.denial);
    raised.raise_if(found.anomaly, hash, timestamp_us, 7);
    raised
}
