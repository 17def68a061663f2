// One message's lines, from `n=` on, and the closing lines (document 01, "The trace"). Writing a record is a call apart from inspecting.
ghost use Rattle.std.specs.Prelude.{◌≡◌, ◌≤◌, length, take};
ghost use Rattle.lines.specs.Wrote.{Wrote};
ghost use Rattle.trace.specs.Record.{alert_text, alerts_text, record_text, closing_lines, record_written, record_kept, written_by};

use lines::lengths::{flag_line_len, hex_line_len, number_line_len};
use lines::put::{put_flag_line, put_hex_line, put_number_line};
use monitor::alerts::{ALERTS, MqttInspectResult, SecurityAlert, severity_number};

/// Why a record is not written: there are more than four alerts, or the buffer is shorter than the record.
#[derive(Clone, Copy, Debug, PartialEq, Eq)]
pub enum RecordRefusal {
    BadState = 10,
    TooShort = 28,
}

/// What the closing lines say: how the trace ended, with its last or refused line, and how many messages and alerts there were.
/// A number, since `put_closing` is promised for every one.
#[derive(Clone, Copy, Debug, PartialEq, Eq)]
pub struct Closing {
    pub number: u32,
    pub line: u64,
    pub inspected: u64,
    pub total: u64,
}

// The alerts of a result: the first places of its array.
fn first_alerts(alerts: &[SecurityAlert; ALERTS], count: u8) -> &[SecurityAlert]
    ensures first { result.now ≡ take count alerts.now }
    ensures few { length result.now ≤ 4 }
{
    &alerts[..usize::from(count).min(ALERTS)]
}

// An alert's four lines.
fn put_alert(out: &mut [u8], at: usize, alert: &SecurityAlert) -> usize
    ensures { Wrote out.old out.new at (alert_text alert.now) result }
{
    let number = severity_number(alert.severity);
    let after_id = put_number_line(out, at, b"id=", alert.id);
    let after_kind = put_number_line(out, after_id, b"kind=", u64::from(alert.source_id));
    let after_severity = put_number_line(out, after_kind, b"severity=", number);
    put_hex_line(out, after_severity, b"hash=", &alert.payload_hash)
}

// Alerts, one after the other.
fn put_alerts(out: &mut [u8], at: usize, alerts: &[SecurityAlert]) -> usize
    ensures { Wrote out.old out.new at (alerts_text alerts.now) result }
{
    let mut p = at;
    for alert in alerts {
        p = put_alert(out, p, alert);
    }
    p
}

/// A message's lines: its ordinal, whether it is allowed, how many alerts, and each of them.
pub fn put_record(out: &mut [u8], at: usize, n: u64, inspected: &MqttInspectResult) -> usize
    ensures { Wrote out.old out.new at (record_text n inspected.now) result }
{
    let count = inspected.alert_count;
    let after_n = put_number_line(out, at, b"n=", n);
    let after_allowed = put_flag_line(out, after_n, b"allowed=", inspected.allowed);
    let after_count = put_number_line(out, after_allowed, b"alerts=", u64::from(count));
    put_alerts(out, after_count, first_alerts(&inspected.alerts, count))
}

/// The closing lines: end number, last or refused line, messages, alerts.
pub fn put_closing(out: &mut [u8], at: usize, closing: &Closing) -> usize
    ensures { Wrote out.old out.new at (closing_lines closing.now) result }
{
    let after_end = put_number_line(out, at, b"end=", u64::from(closing.number));
    let after_line = put_number_line(out, after_end, b"line=", closing.line);
    let after_inspected = put_number_line(out, after_line, b"inspected=", closing.inspected);
    put_number_line(out, after_inspected, b"total=", closing.total)
}

// The length of an alert's four lines.
fn alert_len(alert: &SecurityAlert) -> usize
    ensures { (result ≡ length (alert_text alert.now)) × (result ≤ 121) }
{
    let number = severity_number(alert.severity);
    let id = number_line_len(b"id=", alert.id);
    let kind = number_line_len(b"kind=", u64::from(alert.source_id));
    let level = number_line_len(b"severity=", number);
    let hash = hex_line_len(b"hash=", &alert.payload_hash);
    id + kind + level + hash
}

// The length of up to four alerts.
fn alerts_len(alerts: &[SecurityAlert]) -> usize
    requires { length alerts.now ≤ 4 }
    ensures { (result ≡ length (alerts_text alerts.now)) × (result ≤ 484) }
{
    let mut sum = 0;
    for alert in alerts {
        sum += alert_len(alert);
    }
    sum
}

/// The length of a message's lines.
pub fn record_len(n: u64, inspected: &MqttInspectResult) -> usize
    ensures { (result ≡ length (record_text n inspected.now)) × (result ≤ 528) }
{
    let count = inspected.alert_count;
    let ordinal = number_line_len(b"n=", n);
    let allowed = flag_line_len(b"allowed=");
    let number = number_line_len(b"alerts=", u64::from(count));
    let each = alerts_len(first_alerts(&inspected.alerts, count));
    ordinal + allowed + number + each
}

/// The length of the closing lines.
pub fn closing_len(closing: &Closing) -> usize
    ensures { (result ≡ length (closing_lines closing.now)) × (result ≤ 109) }
{
    let end = number_line_len(b"end=", u64::from(closing.number));
    let last = number_line_len(b"line=", closing.line);
    let messages = number_line_len(b"inspected=", closing.inspected);
    let alerts = number_line_len(b"total=", closing.total);
    end + last + messages + alerts
}

/// A record at the beginning of a lent buffer, and its length; a refusal writes nothing.
pub fn write_record(
    out: &mut [u8],
    n: u64,
    inspected: &MqttInspectResult,
) -> Result<usize, RecordRefusal>
    ensures answer { written_by result ≡ record_written (length out.old) n inspected.now }
    ensures buffer { out.new ≡ record_kept out.old n inspected.now }
{
    if usize::from(inspected.alert_count) > ALERTS {
        return Err(RecordRefusal::BadState);
    }
    if out.len() < record_len(n, inspected) {
        return Err(RecordRefusal::TooShort);
    }
    Ok(put_record(out, 0, n, inspected))
}
