// Rules that can never speak:
//     covered_rules · later_name PLACE PLACE
use crate::say::{Line, say, say_refused};
use crate::state_calls;
use cut::args::place;
use cut::upto;
use monitor::refusal::Refusal;
use monitor::state::MqttMonitor;
use tables::rules::RULES;
use topics::covering::Witness;

// The number of each place, or how it was refused.
fn say_covers(covers: Result<[u8; RULES], Refusal>) {
    let covers = match covers {
        Ok(covers) => covers,
        Err(refusal) => return say_refused(refusal),
    };
    let mut line = Line::new();
    for cover in &covers {
        line.text(b" ");
        line.decimal(u64::from(*cover));
    }
    line.say();
}

// The name, that there is none, or how it was refused.
fn say_name(found: Result<Witness, Refusal>) {
    match found {
        Ok(witness) if witness.len == 0 => say(b" none"),
        Ok(witness) => {
            let mut line = Line::new();
            line.hex(b"name", upto(&witness.name, witness.len));
            line.say();
        }
        Err(refusal) => say_refused(refusal),
    }
}

// One of the two, or any other line.
pub fn ask(m: &mut MqttMonitor, name: &[u8], q: &[u8]) {
    match name {
        b"covered_rules" => say_covers(m.covered_rules()),
        b"later_name" => say_name(m.later_name(place(q, 1), place(q, 2))),
        _ => state_calls::ask(m, name, q),
    }
}
