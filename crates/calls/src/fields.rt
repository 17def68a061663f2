// Fields that a script may set, for states that no call hands out or that it would take too many calls to reach:
//     next_id N · total_inspected N · total_alerts N · threshold N · window N · rule_count N
//     rule_live PLACE 0|1 · rule_pattern PLACE PATTERN · rule_length PLACE N
//     bucket_prefix PLACE N · bucket_live PLACE 0|1 · tokens PLACE N · remainder PLACE N
//     tracker_prefix PLACE N · tracker_live PLACE 0|1 · mean PLACE N · samples PLACE N
//     window_count PLACE N · window_next PLACE N
use crate::looks;
use crate::parts::{number8, number16, number32};
use cut::args::{flag, number, place, unhex};
use monitor::state::MqttMonitor;
use tables::buckets::RateBucket;
use tables::rules::TopicRule;
use tables::trackers::EwmaTracker;
use tables::windows::ClientStormEntry;

// A rule's bytes as they are, or its flag, or its length.
fn set_rule(rule: &mut TopicRule, name: &[u8], q: &[u8]) {
    match name {
        b"rule_live" => rule.active = flag(q, 2),
        b"rule_length" => rule.pattern_len = number8(q, 2),
        _ => {
            rule.pattern = [0; 64];
            let n = unhex(q, 2, &mut rule.pattern).count;
            rule.pattern_len = u8::try_from(n).unwrap_or(0);
        }
    }
}

fn set_bucket(bucket: &mut RateBucket, name: &[u8], q: &[u8]) {
    match name {
        b"bucket_live" => bucket.active = flag(q, 2),
        b"tokens" => bucket.tokens = number16(q, 2),
        b"remainder" => bucket.remainder = number32(q, 2),
        _ => bucket.id.prefix_len = number8(q, 2),
    }
}

fn set_tracker(tracker: &mut EwmaTracker, name: &[u8], q: &[u8]) {
    match name {
        b"tracker_live" => tracker.active = flag(q, 2),
        b"mean" => tracker.mean_x256 = number32(q, 2),
        b"samples" => tracker.sample_count = number8(q, 2),
        _ => tracker.id.prefix_len = number8(q, 2),
    }
}

// Only of a client that is there: the Rust has no others.
fn set_window(entry: &mut ClientStormEntry, name: &[u8], q: &[u8]) {
    if !entry.active {
        return;
    }
    match name {
        b"window_count" => entry.count = number8(q, 2),
        _ => entry.write_idx = number8(q, 2),
    }
}

// A field of a rule or a bucket.
fn set_at_32(m: &mut MqttMonitor, name: &[u8], q: &[u8]) {
    let at = place(q, 1);
    if 32 <= at {
        return;
    }
    match name {
        b"rule_live" | b"rule_pattern" | b"rule_length" => set_rule(&mut m.rules[at], name, q),
        _ => set_bucket(&mut m.rate_buckets[at], name, q),
    }
}

// A field of a tracker or a window.
fn set_at_16(m: &mut MqttMonitor, name: &[u8], q: &[u8]) {
    let at = place(q, 1);
    if 16 <= at {
        return;
    }
    match name {
        b"window_count" | b"window_next" => set_window(&mut m.connect_windows[at], name, q),
        _ => set_tracker(&mut m.ewma_trackers[at], name, q),
    }
}

// A field, or any other line.
pub fn ask(m: &mut MqttMonitor, name: &[u8], q: &[u8]) {
    match name {
        b"next_id" => m.next_alert_id = number(q, 1),
        b"total_inspected" => m.total_inspected = number(q, 1),
        b"total_alerts" => m.total_alerts = number(q, 1),
        b"threshold" => m.connect_storm_threshold = number8(q, 1),
        b"window" => m.connect_storm_window_us = number(q, 1),
        b"rule_count" => m.rule_count = number16(q, 1),
        b"rule_live" | b"rule_pattern" | b"rule_length" => set_at_32(m, name, q),
        b"bucket_prefix" | b"bucket_live" | b"tokens" | b"remainder" => set_at_32(m, name, q),
        b"tracker_prefix" | b"tracker_live" | b"mean" | b"samples" => set_at_16(m, name, q),
        b"window_count" | b"window_next" => set_at_16(m, name, q),
        _ => looks::ask(m, name),
    }
}
