// Constructors, counters, CONNECT settings, removals and reset:
//     new · new_deny_default · new_standard · new_standard_deny_default · counters · set_connect_storm_params THRESHOLD WINDOW
//     remove_rate_bucket TOPIC · remove_ewma_tracker TOPIC · reset_state
use crate::messages;
use crate::parts::number8;
use crate::say::{say_done, say_number};
use cut::args::{number, unhex};
use cut::upto;
use monitor::message::TOPIC_MAX;
use monitor::state::MqttMonitor;

// The three counters.
fn say_counters(m: &MqttMonitor) {
    say_number(b"inspected", m.total_inspected());
    say_number(b"alerts", m.total_alerts());
    say_number(b"rules", m.rule_count() as u64);
}

// One of these, or any other.
pub fn ask(m: &mut MqttMonitor, name: &[u8], q: &[u8]) {
    let mut topic = [0u8; TOPIC_MAX];
    let n = unhex(q, 1, &mut topic).count;
    match name {
        b"new" => *m = MqttMonitor::new(),
        b"new_deny_default" => *m = MqttMonitor::new_deny_default(),
        b"new_standard" => *m = MqttMonitor::new_standard(),
        b"new_standard_deny_default" => *m = MqttMonitor::new_standard_deny_default(),
        b"counters" => say_counters(m),
        b"set_connect_storm_params" => say_done(m.set_connect_storm_params(
            number8(q, 1),
            number(q, 2),
        )),
        b"remove_rate_bucket" => say_done(m.remove_rate_bucket(upto(&topic, n))),
        b"remove_ewma_tracker" => say_done(m.remove_ewma_tracker(upto(&topic, n))),
        b"reset_state" => say_done(m.reset_state()),
        _ => messages::ask(m, name, q),
    }
}
