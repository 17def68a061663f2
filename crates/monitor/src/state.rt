// The monitor's state, as in the Rust, with a live flag in each record where it has an `Option` (000 `MqttMonitor`). Fields are public, so any state can be
// handed in: number 10 refuses those that no call hands out.
ghost use Rattle.std.specs.Prelude.{◌≡◌, cond, Result, Ok, Err, replicate};
ghost use Rattle.laws.specs.Lists.{every};
ghost use Rattle.tables.specs.Buckets.{bucket_fine};
ghost use Rattle.tables.specs.Rules.{rule_fine, empty_rule};
ghost use Rattle.tables.specs.Trackers.{tracker_fine};
ghost use Rattle.tables.specs.Windows.{window_fine};

use crate::refusal::Refusal;
use tables::buckets::{BUCKETS, RateBucket};
use tables::rules::{RULES, TopicAction, TopicRule};
use tables::trackers::{EwmaTracker, TRACKERS};
use tables::windows::{ClientStormEntry, WINDOWS};
use topics::matching::Matching;

// `matching` is the matcher that the rules are chosen by. The Rust has no such field: its own is `Port` (request C-15). A constructor sets it, and no call changes it.
// `rule_count` stands beside the rules: number 10 refuses counts that a type would exclude (`well_formed`).
#[derive(Clone, Copy, Debug, PartialEq, Eq)]
pub struct MqttMonitor {
    pub rules: [TopicRule; RULES],
    pub rule_count: u16,
    pub rate_buckets: [RateBucket; BUCKETS],
    pub connect_windows: [ClientStormEntry; WINDOWS],
    pub connect_storm_threshold: u8,
    pub connect_storm_window_us: u64,
    pub default_action: TopicAction,
    pub matching: Matching,
    pub ewma_trackers: [EwmaTracker; TRACKERS],
    pub next_alert_id: u64,
    pub total_inspected: u64,
    pub total_alerts: u64,
}

// The next four are chains of one line: a trait with four impls, each with its definition, would be longer than they are.
// All of these rules are such as `add_rule` leaves.
fn rules_fine(rules: &[TopicRule]) -> bool
    ensures { result ≡ every rule_fine rules.now }
{
    rules.iter().all(|rule| rule.is_fine())
}

// No live bucket has a prefix length over 32 or a remainder over 999,999.
fn buckets_fine(buckets: &[RateBucket]) -> bool
    ensures { result ≡ every bucket_fine buckets.now }
{
    buckets.iter().all(|bucket| bucket.is_fine())
}

// No live window has a count over 16.
fn windows_fine(clients: &[ClientStormEntry]) -> bool
    ensures { result ≡ every window_fine clients.now }
{
    clients.iter().all(|entry| entry.is_fine())
}

// No live tracker has a prefix length over 32.
fn trackers_fine(trackers: &[EwmaTracker]) -> bool
    ensures { result ≡ every tracker_fine trackers.now }
{
    trackers.iter().all(|tracker| tracker.is_fine())
}

impl MqttMonitor {
    ghost use Rattle.monitor.specs.State.{well_formed};

    /// The test behind number 10, with which every call but the counters begins (document 01, "Numbers handed back").
    #[tactic(auto, unfolding(crate::specs::State::well_formed))]
    pub fn is_well_formed(&self) -> bool
        ensures { result ≡ well_formed self.now }
    {
        let count = usize::from(self.rule_count);
        count <= RULES
            && rules_fine(&self.rules[..count])
            && buckets_fine(&self.rate_buckets)
            && windows_fine(&self.connect_windows)
            && trackers_fine(&self.ewma_trackers)
    }

    // 10, where the test fails.
    pub(crate) fn checked(&self) -> Result<(), Refusal>
        ensures { result ≡ cond (well_formed self.now) (Ok tt) (Err Refusal.Malformed) }
    {
        if self.is_well_formed() {
            Ok(())
        } else {
            Err(Refusal::Malformed)
        }
    }
}

// A table without rules.
pub fn free_rules() -> [TopicRule; RULES]
    ensures { result ≡ replicate 32 empty_rule }
{
    [TopicRule::FREE; RULES]
}
