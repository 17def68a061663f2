// A message:
//     inspect AT ok|bad TYPE QOS TOPIC SIZE PAYLOAD
//     inspect_claimed AT ok|bad TYPE QOS TOPIC SIZE PAYLOAD CLAIMED CLAIMED
// as a trace has it, or with claimed lengths that are not those of the lent topic and payload. Each alert has a line of its own.
use crate::limits;
use crate::parts::{number8, number16};
use crate::policies::qos;
use crate::say::{Line, say_number, say_refused};
use cut::args::{arg, is, number, unhex};
use cut::upto;
use monitor::alerts::{MqttInspectResult, SecurityAlert, severity_number};
use monitor::inspection::Inspection;
use monitor::message::{MqttMessage, PAYLOAD_MAX, TOPIC_MAX, type_at};
use monitor::refusal::Refusal;
use monitor::state::MqttMonitor;

// Inspects the message of a line.
fn inspect(m: &mut MqttMonitor, q: &[u8], claimed: bool) -> Result<Inspection, Refusal> {
    let mut topic = [0u8; TOPIC_MAX];
    let topic_len = unhex(q, 5, &mut topic).count;
    let mut payload = [0u8; PAYLOAD_MAX];
    let payload_len = unhex(q, 7, &mut payload).count;
    let msg = MqttMessage {
        packet_type: type_at(number(q, 3)),
        topic_len: if claimed {
            number8(q, 8)
        } else {
            u8::try_from(topic_len).unwrap_or(0)
        },
        qos: qos(q, 4),
        payload_len: number16(q, 6),
        payload_inspectable_len: if claimed {
            number16(q, 9)
        } else {
            u16::try_from(payload_len).unwrap_or(0)
        },
        timestamp_us: number(q, 1),
        timestamp_ok: is(arg(q, 2), b"ok"),
    };
    m.inspect(&msg, upto(&topic, topic_len), upto(&payload, payload_len))
}

// An alert.
fn say_alert(at: usize, alert: &SecurityAlert) {
    let mut line = Line::new();
    line.place(at);
    line.number(b"id", alert.id);
    line.number(b"kind", u64::from(alert.source_id));
    line.number(b"severity", severity_number(alert.severity));
    line.number(b"at", alert.timestamp_us);
    line.hex(b"hash", &alert.payload_hash);
    line.say();
}

// What an inspection found.
fn say_result(found: &MqttInspectResult) {
    say_number(b"allowed", u64::from(found.allowed));
    say_number(b"alerts", u64::from(found.alert_count));
    for (at, alert) in found.alerts.iter().enumerate() {
        if at < usize::from(found.alert_count) {
            say_alert(at, alert);
        }
    }
}

// What an inspection found, or that it was refused.
fn say_inspected(inspected: Result<Inspection, Refusal>) {
    match inspected {
        Ok(inspection) => say_result(&inspection.result),
        Err(refusal) => say_refused(refusal),
    }
}

// A message, or any other line.
pub fn ask(m: &mut MqttMonitor, name: &[u8], q: &[u8]) {
    match name {
        b"inspect" => say_inspected(inspect(m, q, false)),
        b"inspect_claimed" => say_inspected(inspect(m, q, true)),
        _ => limits::ask(m, name, q),
    }
}
