// What a script may look at, to compare next states:
//     state · rules · buckets · trackers · windows · all
// `state` is what stands in no table. Of a table each record that is not as a free place's has a line of its own, live or not, with every field; bytes are in hex up to
// the last that is not zero. `all` is all of that.
use crate::policies::put_policy;
use crate::say::{Line, say, say_unknown};
use monitor::state::MqttMonitor;
use tables::buckets::RateBucket;
use tables::identity::Id;
use tables::rules::{TopicAction, TopicRule};
use tables::trackers::EwmaTracker;
use tables::windows::ClientStormEntry;
use topics::matching::Matching;

// The bytes up to the last that is not zero.
pub fn used(s: &[u8]) -> &[u8] {
    for n in (0..s.len()).rev() {
        if s[n] != 0 {
            return &s[..n + 1];
        }
    }
    &s[..0]
}

fn put_id(line: &mut Line, id: &Id) {
    line.number(b"hash", u64::from(id.hash));
    line.number(b"hash2", u64::from(id.hash2));
    line.number(b"len", u64::from(id.len));
    line.number(b"suffix", u64::from(id.suffix_hash));
    line.number(b"first", u64::from(id.prefix_len));
    line.hex(b"bytes", used(&id.prefix));
}

fn put_action(line: &mut Line, action: TopicAction) {
    match action {
        TopicAction::Allow => line.text(b" action=allow"),
        TopicAction::Block => line.text(b" action=block"),
    }
}

fn put_matching(line: &mut Line, matching: Matching) {
    match matching {
        Matching::Port => line.text(b" match=port"),
        Matching::Standard => line.text(b" match=standard"),
    }
}

fn say_rule(at: usize, rule: &TopicRule) {
    if *rule == TopicRule::FREE {
        return;
    }
    let mut line = Line::new();
    line.place(at);
    line.number(b"live", u64::from(rule.active));
    line.hex(b"pattern", used(&rule.pattern));
    line.number(b"length", u64::from(rule.pattern_len));
    put_action(&mut line, rule.action);
    put_policy(&mut line, rule.qos_policy);
    line.number(b"rate", u64::from(rule.max_rate_per_sec));
    line.say();
}

fn say_bucket(at: usize, bucket: &RateBucket) {
    if *bucket == RateBucket::FREE {
        return;
    }
    let mut line = Line::new();
    line.place(at);
    line.number(b"live", u64::from(bucket.active));
    line.number(b"tokens", u64::from(bucket.tokens));
    line.number(b"capacity", u64::from(bucket.capacity));
    line.number(b"remainder", u64::from(bucket.remainder));
    line.number(b"at", bucket.last_refill_us);
    put_id(&mut line, &bucket.id);
    line.say();
}

fn say_tracker(at: usize, tracker: &EwmaTracker) {
    if *tracker == EwmaTracker::FREE {
        return;
    }
    let mut line = Line::new();
    line.place(at);
    line.number(b"live", u64::from(tracker.active));
    line.number(b"mean", u64::from(tracker.mean_x256));
    line.number(b"samples", u64::from(tracker.sample_count));
    line.number(b"at", tracker.last_update_us);
    put_id(&mut line, &tracker.id);
    line.say();
}

fn say_window(at: usize, entry: &ClientStormEntry) {
    if *entry == ClientStormEntry::FREE {
        return;
    }
    let mut line = Line::new();
    line.place(at);
    line.number(b"live", u64::from(entry.active));
    line.number(b"count", u64::from(entry.count));
    line.number(b"next", u64::from(entry.write_idx));
    line.number(b"at", entry.last_seen_us);
    line.number(b"hash", u64::from(entry.client_hash));
    line.number(b"hash2", u64::from(entry.client_hash2));
    line.text(b" stamps");
    for stamp in &entry.timestamps {
        line.text(b" ");
        line.decimal(*stamp);
    }
    line.say();
}

fn say_rules(m: &MqttMonitor) {
    for (at, rule) in m.rules.iter().enumerate() {
        say_rule(at, rule);
    }
}

fn say_buckets(m: &MqttMonitor) {
    for (at, bucket) in m.rate_buckets.iter().enumerate() {
        say_bucket(at, bucket);
    }
}

fn say_trackers(m: &MqttMonitor) {
    for (at, tracker) in m.ewma_trackers.iter().enumerate() {
        say_tracker(at, tracker);
    }
}

fn say_windows(m: &MqttMonitor) {
    for (at, entry) in m.connect_windows.iter().enumerate() {
        say_window(at, entry);
    }
}

// What stands in no table.
fn say_state(m: &MqttMonitor) {
    let mut line = Line::new();
    put_action(&mut line, m.default_action);
    put_matching(&mut line, m.matching);
    line.number(b"threshold", u64::from(m.connect_storm_threshold));
    line.number(b"window", m.connect_storm_window_us);
    line.number(b"next_id", m.next_alert_id);
    line.number(b"inspected", m.total_inspected);
    line.number(b"alerts", m.total_alerts);
    line.number(b"rules", u64::from(m.rule_count));
    line.say();
}

// All of it, each table under its name.
fn say_all(m: &MqttMonitor) {
    say_state(m);
    say(b"\n  rules");
    say_rules(m);
    say(b"\n  buckets");
    say_buckets(m);
    say(b"\n  trackers");
    say_trackers(m);
    say(b"\n  windows");
    say_windows(m);
}

// A look at the state.
pub fn ask(m: &MqttMonitor, name: &[u8]) {
    match name {
        b"state" => say_state(m),
        b"rules" => say_rules(m),
        b"buckets" => say_buckets(m),
        b"trackers" => say_trackers(m),
        b"windows" => say_windows(m),
        b"all" => say_all(m),
        _ => say_unknown(),
    }
}
