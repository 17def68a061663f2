// A packet of several messages: a SUBSCRIBE or an UNSUBSCRIBE, each filter of which is one. They ask no table (monitor/specs/Light.antt): what they answer follows from the rules and the counters. So
// all of their records are measured before any of them is inspected, with no copy of the state.
ghost use Rattle.std.specs.Prelude.{◌≡◌, ◌+◌, ◌^◌, ◌≤◌, ◌<◌, true, cond, leb, length, IsOk, IfOk, IfErr};
ghost use Rattle.laws.specs.Refusals.{refusal};
ghost use Rattle.lines.specs.Wrote.{Wrote};
ghost use Rattle.monitor.specs.Runs.{shipped, after_by};
ghost use Rattle.monitor.specs.State.{well_formed};
ghost use Rattle.packets.specs.Taken.{calls_at};
ghost use Rattle.queue.specs.Queue.{records_from};
ghost use Rattle.queue.specs.Refusal.{queue_number};
ghost use Rattle.queue.specs.Several.{book_of, light_text};
ghost use Rattle.queue.specs.Turn.{IsRead, Written, Unwritten};

use crate::received::Received;
use crate::refusal::QueueRefusal;
use monitor::state::MqttMonitor;
use packets::refusal::PacketRefusal;
use trace::record::{put_record, record_len};

// The records of a packet's messages, the first of which is the n-th, fit into so much room, or `NoRoom`.
fn check_room(m: &MqttMonitor, received: &Received, n: u64, room: usize) -> Result<(), QueueRefusal>
    requires read { IsRead received.now.bytes.now received.now.place received.now.packet }
    requires messages_bound { n + received.now.packet.messages < 2 ^ 64 }
    ensures { refusal queue_number result
        ≡ cond (leb (length (light_text (book_of m.now) n m.now.next_alert_id m.now.total_alerts (calls_at received.now.bytes.now received.now.place received.now.now_us received.now.ok))) room) 0 28 }
{
    let mut step = received.packet.first;
    let mut next_id = m.next_alert_id;
    let mut total = m.total_alerts;
    let mut left = room;
    for k in n..n + received.packet.messages as u64 {
        let message = received.message(step)?;
        let plan = received.plan_light(m, &message, next_id, total);
        let need = record_len(k, &plan.result());
        if left < need {
            return Err(QueueRefusal::NoRoom);
        }
        left -= need;
        next_id = plan.raised.next_id;
        total = plan.raised.total;
        step = message.next;
    }
    Ok(())
}

// A packet's messages inspected one after the other, the first of them being the n-th, and their records written from a place on. None of them is refused.
fn put_messages(
    m: &mut MqttMonitor,
    received: &Received,
    n: u64,
    out: &mut [u8],
    at: usize,
) -> Result<usize, PacketRefusal>
    requires read { IsRead received.now.bytes.now received.now.place received.now.packet }
    requires formed { well_formed m.old ≡ true }
    requires messages_bound { n + received.now.packet.messages < 2 ^ 64 }
    ensures ok { IsOk result }
    ensures wrote { IfOk result (Wrote out.old out.new at (records_from n m.old (calls_at received.now.bytes.now received.now.place received.now.now_us received.now.ok))) }
    ensures state { m.new ≡ after_by shipped m.old (calls_at received.now.bytes.now received.now.place received.now.now_us received.now.ok) }
{
    let mut step = received.packet.first;
    let mut end = at;
    for k in n..n + received.packet.messages as u64 {
        let message = received.message(step)?;
        let plan = received.plan(m, &message);
        end = put_record(out, end, k, &plan.result());
        m.apply(&plan);
        step = message.next;
    }
    Ok(end)
}

// The messages of a packet that has several: all of their records are written, and the place behind them handed back, or none is.
pub(crate) fn put_several(
    m: &mut MqttMonitor,
    received: &Received,
    n: u64,
    out: &mut [u8],
    at: usize,
) -> Result<usize, QueueRefusal>
    requires read { IsRead received.now.bytes.now received.now.place received.now.packet }
    requires several { received.now.packet.messages ≡ 1 → ⊥ }
    requires formed { well_formed m.old ≡ true }
    requires messages_bound { n + received.now.packet.messages < 2 ^ 64 }
    requires place { at ≤ length out.old }
    ensures written { IfOk result (Written m.old m.new out.old out.new at n (calls_at received.now.bytes.now received.now.place received.now.now_us received.now.ok)) }
    ensures unwritten { IfErr result (Unwritten m.old m.new out.old out.new at n (calls_at received.now.bytes.now received.now.place received.now.now_us received.now.ok)) }
{
    check_room(m, received, n, out.len() - at)?;
    Ok(put_messages(m, received, n, out, at)?)
}

// The message of a packet that has one: its record is written, and the place behind it handed back, or it is not inspected.
pub(crate) fn put_one(
    m: &mut MqttMonitor,
    received: &Received,
    n: u64,
    out: &mut [u8],
    at: usize,
) -> Result<usize, QueueRefusal>
    requires read { IsRead received.now.bytes.now received.now.place received.now.packet }
    requires one { received.now.packet.messages ≡ 1 }
    requires formed { well_formed m.old ≡ true }
    requires place { at ≤ length out.old }
    ensures written { IfOk result (Written m.old m.new out.old out.new at n (calls_at received.now.bytes.now received.now.place received.now.now_us received.now.ok)) }
    ensures unwritten { IfErr result (Unwritten m.old m.new out.old out.new at n (calls_at received.now.bytes.now received.now.place received.now.now_us received.now.ok)) }
{
    let message = received.message(received.packet.first)?;
    let plan = received.plan(m, &message);
    let record = plan.result();
    let room = out.len() - at;
    let need = record_len(n, &record);
    if room < need {
        return Err(QueueRefusal::NoRoom);
    }
    m.apply(&plan);
    Ok(put_record(out, at, n, &record))
}
