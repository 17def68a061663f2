// A run of packets, inspected from the state on that a trace leaves. No state crosses the border: a trace's text stands for it.
ghost use Rattle.std.specs.Prelude.{◌≡◌, length};
ghost use Rattle.queue.specs.Queue.{wake_of};
ghost use Rattle.wake.specs.Task.{task_end, task_kept};

use monitor::state::MqttMonitor;
use queue::run::{Reached, run_packets};
use topics::matching::Matching;
use trace::seen::see_all;

// How a run ended: 0 where it is whole, else the number that ended it, with the place of the packet at which it ended; how many messages were done, and how many bytes their records are; and the
// monitor's two counts afterwards, the trace's messages among them.
// A number beside values, since C reads it (include/hub.h).
#[repr(C)]
#[derive(Clone, Copy, Debug, PartialEq, Eq)]
pub struct QueueRun {
    pub number: u32,
    pub place: usize,
    pub done: u64,
    pub length: usize,
    pub inspected: u64,
    pub total: u64,
}

// How a run ended, as C reads it, with the counts of the state that it left.
fn told(number: u32, reached: Reached, m: &MqttMonitor) -> QueueRun
    ensures { result ≡ record { number = number; place = reached.place; done = reached.done; length = reached.length; inspected = m.now.total_inspected; total = m.now.total_alerts } }
{
    QueueRun {
        number,
        place: reached.place,
        done: reached.done,
        length: reached.length,
        inspected: m.total_inspected,
        total: m.total_alerts,
    }
}

// The packets of a run with one time and one verdict, after the messages of a trace, whose rules are matched as the Rust does. The records go to the beginning of the caller's buffer. A trace that
// is refused gives its number, with place 0 and no message done.
#[tactic(auto, unfolding(crate::specs::Task::task_end, crate::specs::Task::task_kept))]
pub fn hub_queue(trace: &[u8], at: u64, clock_ok: bool, packets: &[u8], out: &mut [u8]) -> QueueRun
    ensures answer { result ≡ task_end trace.now (wake_of packets.now at clock_ok (length out.old)) }
    ensures buffer { out.new ≡ task_kept trace.now (wake_of packets.now at clock_ok (length out.old)) out.old }
{
    let mut seen = see_all(trace, Matching::Port);
    if seen.number != 0 {
        return told(seen.number, Reached::START, &seen.monitor);
    }
    let end = run_packets(&mut seen.monitor, packets, at, clock_ok, out);
    told(end.number(), end.reached, &seen.monitor)
}
