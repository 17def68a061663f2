// Settings as text in a form, and back, as after a power cut (requests C-13, C-18):
//     reload FORM
// The answer has the text. The state is then the one that the text loads to; a state that is refused stays, and so does one that has no text in this form or whose text is refused.
use crate::parts::number32;
use crate::runs;
use crate::say::{say_lines, say_number};
use cut::upto;
use monitor::state::MqttMonitor;
use settings::load::load_settings;
use settings::write::write_settings;

// The longest text has 5,547 bytes, and some more where settings are set by hand.
fn reload(m: &mut MqttMonitor, form: u32) {
    let mut room = [0u8; 6144];
    let length = match write_settings(m, form, &mut room) {
        Ok(length) => length,
        Err(refusal) => return say_number(b"refused", u64::from(refusal.number())),
    };
    let text = upto(&room, length);
    let loaded = load_settings(text);
    match loaded.outcome {
        Ok(_) => {
            say_number(b"done", loaded.line);
            say_number(b"length", length as u64);
            *m = loaded.monitor;
        }
        Err(refusal) => {
            say_number(b"refused", u64::from(refusal.number()));
            say_number(b"line", loaded.line);
        }
    }
    say_lines(text);
}

// It, or any other line.
pub fn ask(m: &mut MqttMonitor, name: &[u8], q: &[u8]) {
    match name {
        b"reload" => reload(m, number32(q, 1)),
        _ => runs::ask(m, name, q),
    }
}
