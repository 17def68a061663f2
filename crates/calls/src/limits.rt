// Where the limit stands for a topic, of up to 256 bytes, so that one can be too long:
//     standing TOPIC · tokens_left TOPIC AT
use crate::reload;
use crate::say::{say, say_number, say_refused};
use cut::args::{number, unhex};
use cut::upto;
use monitor::refusal::Refusal;
use monitor::standing::{Left, Outlook};
use monitor::state::MqttMonitor;
use tables::standing::Opening;

fn say_outlook(outlook: Result<Outlook, Refusal>) {
    match outlook {
        Ok(outlook) => {
            say_number(b"kind", u64::from(outlook.kind));
            say_number(b"rate", u64::from(outlook.rate));
            match outlook.opening {
                Opening::Never => say(b" from=never"),
                Opening::From(time) => say_number(b"from", time),
            }
        }
        Err(refusal) => say_refused(refusal),
    }
}

fn say_left(left: Result<Left, Refusal>) {
    match left {
        Ok(left) => {
            say_number(b"kind", u64::from(left.kind));
            say_number(b"rate", u64::from(left.rate));
            say_number(b"tokens", u64::from(left.tokens));
        }
        Err(refusal) => say_refused(refusal),
    }
}

// One of the two, or any other line.
pub fn ask(m: &mut MqttMonitor, name: &[u8], q: &[u8]) {
    let mut topic = [0u8; 256];
    let n = unhex(q, 1, &mut topic).count;
    match name {
        b"standing" => say_outlook(m.standing(upto(&topic, n))),
        b"tokens_left" => say_left(m.tokens_left(upto(&topic, n), number(q, 2))),
        _ => reload::ask(m, name, q),
    }
}
