// A whole trace: text in, text out (document 01, "The trace"). The rules are loaded into a table; then one loop owns the monitor that has them and takes message after
// message.
ghost use Rattle.std.specs.Prelude.{true, ◌&&◌, ◌≡◌, ◌+◌, ◌*◌, ◌≤◌, leb, length};
ghost use Rattle.monitor.specs.State.{well_formed};
ghost use Rattle.rules_text.specs.RuleGroup.{rule_at};
ghost use Rattle.trace.specs.Record.{record_text, closing_lines};
ghost use Rattle.trace.specs.Trace.{loaded_as, rule_into, loaded, trace_text, enough, put_if, whole_end, trace_end, trace_kept};

use crate::groups::{read_message, read_opening};
use crate::reading::{Place, Stop};
use crate::record::{Closing, closing_len, put_closing, put_record, record_len};
use monitor::alerts::MqttInspectResult;
use monitor::message::{PAYLOAD_MAX, TOPIC_MAX};
use monitor::state::MqttMonitor;
use rules_text::read::read_rule;
use tables::rules::{TopicAction, plan_rule};
use topics::matching::Matching;

// How long a text may be.
const TEXT_MAX: usize = 65536;

// How a trace ended: 0 is whole, else the number that refused it, with the last or refused line and how many bytes were written; 28 writes nothing. C reads it (include/hub.h).
#[repr(C)]
#[derive(Clone, Copy, Debug, PartialEq, Eq)]
pub struct TraceEnd {
    pub number: u32,
    pub line: u64,
    pub length: usize,
}

// A buffer for a pattern or a topic.
pub(crate) fn buffer_128() -> [u8; TOPIC_MAX]
    ensures { length result ≡ 128 }
{
    [0; TOPIC_MAX]
}

// A buffer for a payload.
pub(crate) fn buffer_256() -> [u8; PAYLOAD_MAX]
    ensures { length result ≡ 256 }
{
    [0; PAYLOAD_MAX]
}

// The rule at a place of the text, into a monitor; the place after it. A rule that is refused changes nothing: its number stands at its line, or at its last where the table does not take it.
fn load_rule(text: &[u8], start: Place, m: &mut MqttMonitor) -> Result<Place, Stop>
    requires formed { well_formed m.old ≡ true }
    requires few { start.line ≤ 130 }
    ensures { loaded_as result m.new ≡ rule_into m.old text.now start.line (rule_at text.now start.next) }
{
    let mut pattern = buffer_128();
    let rule = read_rule(text, start.next, &mut pattern);
    if rule.number != 0 {
        return Err(Stop {
            number: rule.number,
            line: start.line + 1 + u64::from(rule.line),
            next: rule.next,
        });
    }
    let n = (rule.pattern_to - rule.pattern_from) / 2;
    let planned = plan_rule(
        &m.rules,
        m.rule_count,
        &pattern[..n],
        rule.action,
        rule.qos_policy,
        rule.rate,
    );
    let line = start.line + 4;
    match planned {
        Ok(placement) => {
            m.rules[placement.at] = placement.rule;
            m.rule_count = placement.count;
            Ok(Place {
                next: rule.next,
                line,
            })
        }
        Err(refusal) => Err(Stop {
            number: refusal.number(),
            line,
            next: rule.next,
        }),
    }
}

/// The opening and its rules: a fresh monitor that has them, and where its messages begin. 27 is tested first; where a rule is refused the rules before it stay.
pub fn load(text: &[u8], matching: Matching, m: &mut MqttMonitor) -> Result<Place, Stop>
    ensures { loaded_as result m.new ≡ loaded matching text.now }
{
    *m = MqttMonitor::fresh(matching, TopicAction::Allow);
    if text.len() > TEXT_MAX {
        return Err(Stop {
            number: 27,
            line: 0,
            next: 0,
        });
    }
    let opening = read_opening(text);
    m.default_action = opening.default_action;
    if opening.number != 0 {
        return Err(Stop {
            number: opening.number,
            line: 1 + u64::from(opening.line),
            next: opening.next,
        });
    }
    let mut place = Place {
        next: opening.next,
        line: 2,
    };
    for _rule in 0..opening.rules {
        place = load_rule(text, place, m)?;
    }
    Ok(place)
}

// A message's lines at a place of the buffer, or only their length.
fn pass_record(
    out: &mut [u8],
    at: usize,
    n: u64,
    inspected: &MqttInspectResult,
    write: bool,
) -> usize
    requires small { at ≤ enough }
    requires room { write ≡ true → at + length (record_text n inspected.now) ≤ length out.old }
    ensures next { result ≡ at + length (record_text n inspected.now) }
    ensures bytes { out.new ≡ put_if write out.old at (record_text n inspected.now) }
{
    if !write {
        return at + record_len(n, inspected);
    }
    put_record(out, at, n, inspected)
}

// The closing lines at a place of the buffer, or only their length; and how the trace ended.
fn pass_closing(out: &mut [u8], at: usize, closing: &Closing, write: bool) -> TraceEnd
    requires small { at ≤ enough }
    requires room { write ≡ true → at + length (closing_lines closing.now) ≤ length out.old }
    ensures next { result ≡ record { number = closing.now.number; line = closing.now.line; length = at + length (closing_lines closing.now) } }
    ensures bytes { out.new ≡ put_if write out.old at (closing_lines closing.now) }
{
    let mut end = TraceEnd {
        number: closing.number,
        line: closing.line,
        length: at,
    };
    if !write {
        end.length += closing_len(closing);
        return end;
    }
    end.length = put_closing(out, at, closing);
    end
}

// What the closing lines say of a monitor after its last message.
fn closing_of(m: &MqttMonitor, number: u32, line: u64) -> Closing
    ensures { result ≡ record { number = number; line = line; inspected = m.now.total_inspected; total = m.now.total_alerts } }
{
    Closing {
        number,
        line,
        inspected: m.total_inspected,
        total: m.total_alerts,
    }
}

// One pass over a trace, which writes its text from the buffer's beginning on, or only counts it. The loop owns the monitor: of each message it makes the plan, does the stores, and lets the lines
// go out.
fn pass(text: &[u8], matching: Matching, out: &mut [u8], write: bool) -> TraceEnd
    requires { write ≡ true → length (trace_text matching text.now) ≤ length out.old }
    ensures end { result ≡ whole_end matching text.now }
    ensures bytes { out.new ≡ put_if write out.old 0 (trace_text matching text.now) }
{
    let mut m = MqttMonitor::fresh(matching, TopicAction::Allow);
    let start = match load(text, matching, &mut m) {
        Ok(start) => start,
        Err(stop) => {
            return pass_closing(out, 0, &closing_of(&m, stop.number, stop.line), write);
        }
    };
    let mut at = start.next;
    let mut line = start.line;
    let mut topic = buffer_128();
    let mut payload = buffer_256();
    let mut n: u64 = 1;
    let mut p: usize = 0;
    while at < text.len() {
        let group = read_message(text, at, &mut topic, &mut payload);
        if group.number != 0 {
            let stopped = line + 1 + u64::from(group.line);
            return pass_closing(out, p, &closing_of(&m, group.number, stopped), write);
        }
        let plan = m.plan_for(&group.msg, group.topic(&topic), group.payload(&payload));
        m.apply(&plan);
        p = pass_record(out, p, n, &plan.result(), write);
        at = group.next;
        line += 7;
        n += 1;
    }
    pass_closing(out, p, &closing_of(&m, 0, line), write)
}

// How a trace ends where there is room for all its lines, and how many bytes they take: the room that `run_trace_by` needs.
pub fn trace_length_by(text: &[u8], matching: Matching) -> TraceEnd
    ensures { result ≡ whole_end matching text.now }
{
    let mut unused = [0u8; 1];
    pass(text, matching, &mut unused, false)
}

// The same for `run_trace`.
pub fn trace_length(text: &[u8]) -> TraceEnd
    ensures { result ≡ whole_end Matching.Port text.now }
{
    trace_length_by(text, Matching::Port)
}

// Whether a room is enough for what any text of so many bytes prints: 12 bytes for each of them, and 109 at least.
fn ample(bytes: usize, room: usize) -> bool
    ensures { result ≡ (leb 109 room && leb (12 * bytes) room) }
{
    if room < 109 {
        return false;
    }
    bytes <= room / 12
}

// Whether the room is enough for what a trace prints. Only where it could be too small is that counted.
fn fits(text: &[u8], matching: Matching, room: usize) -> bool
    ensures { result ≡ leb (length (trace_text matching text.now)) room }
{
    if ample(text.len(), room) {
        return true;
    }
    trace_length_by(text, matching).length <= room
}

// A whole trace into a lent buffer, with rules that are matched as it is told: 28, with nothing written, where the buffer is shorter than all lines.
pub fn run_trace_by(text: &[u8], matching: Matching, out: &mut [u8]) -> TraceEnd
    ensures end { result ≡ trace_end matching (length out.old) text.now }
    ensures bytes { out.new ≡ trace_kept matching out.old text.now }
{
    if !fits(text, matching, out.len()) {
        return TraceEnd {
            number: 28,
            line: 0,
            length: 0,
        };
    }
    pass(text, matching, out, true)
}

// A whole trace as document 01 has it: its rules are matched as the Rust does.
pub fn run_trace(text: &[u8], out: &mut [u8]) -> TraceEnd
    ensures end { result ≡ trace_end Matching.Port (length out.old) text.now }
    ensures bytes { out.new ≡ trace_kept Matching.Port out.old text.now }
{
    run_trace_by(text, Matching::Port, out)
}
