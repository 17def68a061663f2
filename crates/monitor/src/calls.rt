// Constructors, counters, CONNECT settings, removals and reset (document 01, "What the hub takes over", 5; 000, the same names).
ghost use Rattle.std.specs.Prelude.{◌≡◌};

use crate::refusal::Refusal;
use crate::state::{MqttMonitor, free_rules};
use tables::buckets::{BUCKETS, RateBucket, removed_bucket};
use tables::identity::Id;
use tables::rules::TopicAction;
use tables::trackers::{EwmaTracker, TRACKERS, removed_tracker};
use tables::windows::{ClientStormEntry, WINDOWS};
use topics::matching::Matching;

impl MqttMonitor {
    ghost use Rattle.monitor.specs.Calls.{fresh};

    // A monitor without rules, all places free, CONNECT threshold 5 in 60 seconds, ids from 1. It is for callers to whom matcher and default are values, as they are to a trace: choosing
    // among the four constructors below would keep as many states on the stack.
    #[tactic(auto, unfolding(crate::specs::Calls::fresh))]
    pub fn fresh(matching: Matching, default_action: TopicAction) -> Self
        ensures { result ≡ fresh matching default_action }
    {
        MqttMonitor {
            rules: free_rules(),
            rule_count: 0,
            rate_buckets: [RateBucket::FREE; BUCKETS],
            connect_windows: [ClientStormEntry::FREE; WINDOWS],
            connect_storm_threshold: 5,
            connect_storm_window_us: 60_000_000,
            default_action,
            matching,
            ewma_trackers: [EwmaTracker::FREE; TRACKERS],
            next_alert_id: 1,
            total_inspected: 0,
            total_alerts: 0,
        }
    }

    // A topic that no rule takes is allowed. Its rules are matched as the Rust does; so are those of the next.
    pub fn new() -> Self
        ensures { result ≡ fresh Matching.Port TopicAction.Allow }
    {
        MqttMonitor::fresh(Matching::Port, TopicAction::Allow)
    }

    // A topic that no rule takes is blocked.
    pub fn new_deny_default() -> Self
        ensures { result ≡ fresh Matching.Port TopicAction.Block }
    {
        MqttMonitor::fresh(Matching::Port, TopicAction::Block)
    }

    // As `new`, with rules that are matched as MQTT 3.1.1 section 4.7 has it (request C-15).
    pub fn new_standard() -> Self
        ensures { result ≡ fresh Matching.Standard TopicAction.Allow }
    {
        MqttMonitor::fresh(Matching::Standard, TopicAction::Allow)
    }

    // As `new_deny_default`, with such rules.
    pub fn new_standard_deny_default() -> Self
        ensures { result ≡ fresh Matching.Standard TopicAction.Block }
    {
        MqttMonitor::fresh(Matching::Standard, TopicAction::Block)
    }
}

impl MqttMonitor {
    // How many messages were inspected since the last reset. This and the next two answer for any state.
    pub fn total_inspected(&self) -> u64
        ensures { result ≡ self.now.total_inspected }
    {
        self.total_inspected
    }

    // How many alerts were raised since then.
    pub fn total_alerts(&self) -> u64
        ensures { result ≡ self.now.total_alerts }
    {
        self.total_alerts
    }

    // How many rules are held.
    pub fn rule_count(&self) -> usize
        ensures { result ≡ self.now.rule_count }
    {
        usize::from(self.rule_count)
    }
}

impl MqttMonitor {
    ghost use Rattle.monitor.specs.Calls.{set_storm, remove_bucket, remove_tracker, reset_state};
    ghost use Rattle.monitor.specs.Ended.{told_done};

    // Sets threshold and window, each clamped (document 01, "CONNECT windows and payload trackers").
    #[tactic(auto, unfolding(crate::specs::Calls::set_storm))]
    pub fn set_connect_storm_params(&mut self, threshold: u8, window_us: u64) -> Result<(), Refusal>
        ensures outcome { told_done result ≡ (set_storm self.old threshold window_us).outcome }
        ensures state { self.new ≡ (set_storm self.old threshold window_us).monitor }
    {
        self.checked()?;
        self.connect_storm_threshold = threshold.clamp(2, 16);
        self.connect_storm_window_us = window_us.clamp(1_000_000, 600_000_000);
        Ok(())
    }

    // Frees a topic's bucket; its identity is tested without the suffix hash (document 01, "Hashes").
    #[tactic(auto, unfolding(crate::specs::Calls::remove_bucket))]
    pub fn remove_rate_bucket(&mut self, topic: &[u8]) -> Result<(), Refusal>
        ensures outcome { told_done result ≡ (remove_bucket self.old topic.now).outcome }
        ensures state { self.new ≡ (remove_bucket self.old topic.now).monitor }
    {
        self.checked()?;
        let at = removed_bucket(&self.rate_buckets, &Id::of(topic)).ok_or(Refusal::NotHeld)?;
        self.rate_buckets[at] = RateBucket::FREE;
        Ok(())
    }

    // Frees a topic's tracker, likewise.
    #[tactic(auto, unfolding(crate::specs::Calls::remove_tracker))]
    pub fn remove_ewma_tracker(&mut self, topic: &[u8]) -> Result<(), Refusal>
        ensures outcome { told_done result ≡ (remove_tracker self.old topic.now).outcome }
        ensures state { self.new ≡ (remove_tracker self.old topic.now).monitor }
    {
        self.checked()?;
        let at = removed_tracker(&self.ewma_trackers, &Id::of(topic)).ok_or(Refusal::NotHeld)?;
        self.ewma_trackers[at] = EwmaTracker::FREE;
        Ok(())
    }

    // Rules, default, matcher and CONNECT settings stay.
    #[tactic(auto, unfolding(crate::specs::Calls::reset_state))]
    pub fn reset_state(&mut self) -> Result<(), Refusal>
        ensures outcome { told_done result ≡ (reset_state self.old).outcome }
        ensures state { self.new ≡ (reset_state self.old).monitor }
    {
        self.checked()?;
        self.rate_buckets = [RateBucket::FREE; BUCKETS];
        self.connect_windows = [ClientStormEntry::FREE; WINDOWS];
        self.ewma_trackers = [EwmaTracker::FREE; TRACKERS];
        self.next_alert_id = 1;
        self.total_inspected = 0;
        self.total_alerts = 0;
        Ok(())
    }
}
