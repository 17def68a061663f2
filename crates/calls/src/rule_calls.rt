// Calls on the rules:
//     add_rule PATTERN allow|block any|min0..|only2 RATE · remove_rule PLACE · swap_rules PLACE PLACE · clear_rules · validate_rules
use crate::covers;
use crate::parts::number16;
use crate::policies::{action, policy};
use crate::say::{say_done, say_outcome};
use cut::args::{place, unhex};
use cut::upto;
use monitor::message::TOPIC_MAX;
use monitor::refusal::Refusal;
use monitor::state::MqttMonitor;

// Patterns of up to 128 bytes can be asked for, as in a trace.
fn add_rule(m: &mut MqttMonitor, q: &[u8]) -> Result<u16, Refusal> {
    let mut pattern = [0u8; TOPIC_MAX];
    let n = unhex(q, 1, &mut pattern).count;
    m.add_rule(
        upto(&pattern, n),
        action(q, 2),
        policy(q, 3),
        number16(q, 4),
    )
}

// A call on the rules, or any other.
pub fn ask(m: &mut MqttMonitor, name: &[u8], q: &[u8]) {
    match name {
        b"add_rule" => say_outcome(add_rule(m, q)),
        b"remove_rule" => say_done(m.remove_rule(place(q, 1))),
        b"swap_rules" => say_done(m.swap_rules(place(q, 1), place(q, 2))),
        b"clear_rules" => say_done(m.clear_rules()),
        b"validate_rules" => say_outcome(m.validate_rules()),
        _ => covers::ask(m, name, q),
    }
}
