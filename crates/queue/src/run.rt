// The whole run: from packet to packet, on one state that is lent. Of each packet the records are measured before anything of it is done.
ghost use Rattle.std.specs.Prelude.{◌≡◌, ◌+◌, ◌≤◌, ◌<◌, true, length, IfOk, IfErr};
ghost use Rattle.monitor.specs.State.{well_formed};
ghost use Rattle.queue.specs.Queue.{wake_of, ended, queue_end, queue_kept};
ghost use Rattle.queue.specs.Turn.{Goes, Stops};

use crate::received::Received;
use crate::refusal::QueueRefusal;
use crate::several::{put_one, put_several};
use monitor::state::MqttMonitor;
use packets::packet::read_packet;

/// How far a run came: the place of the packet that is next, or the end of the bytes; how many messages were done, and how many bytes their records are.
#[derive(Clone, Copy, Debug, PartialEq, Eq)]
pub struct Reached {
    pub place: usize,
    pub done: u64,
    pub length: usize,
}

impl Reached {
    /// Before the first packet.
    pub const START: Reached = Reached {
        place: 0,
        done: 0,
        length: 0,
    };
}

/// How a run ended: whole, or by what refuses the packet at the place that it reached. What was done before it stays done.
#[derive(Clone, Copy, Debug, PartialEq, Eq)]
pub struct RunEnd {
    pub outcome: Result<(), QueueRefusal>,
    pub reached: Reached,
}

impl RunEnd {
    ghost use Rattle.laws.specs.Refusals.{refusal};
    ghost use Rattle.queue.specs.Refusal.{queue_number};

    /// The number that a person is told: 0 for a run that is whole.
    pub fn number(&self) -> u32
        ensures { result ≡ refusal queue_number self.now.outcome }
    {
        match self.outcome {
            Ok(()) => 0,
            Err(refusal) => refusal.number(),
        }
    }
}

// The packet at the place that a run has reached: all of its messages are done, or none is.
// That the state is well formed stands in a clause: an invariant of `MqttMonitor` would exclude states that number 10 refuses.
fn run_packet(
    m: &mut MqttMonitor,
    bytes: &[u8],
    now_us: u64,
    ok: bool,
    reached: Reached,
    out: &mut [u8],
) -> Result<Reached, QueueRefusal>
    requires formed { well_formed m.old ≡ true }
    requires few { reached.done + reached.done ≤ reached.place }
    requires place { reached.place < length bytes.now }
    requires room { reached.length ≤ length out.old }
    ensures goes { IfOk result (Goes bytes.now now_us ok m.old m.new out.old out.new reached) }
    ensures stops { IfErr result (Stops bytes.now now_us ok m.old m.new out.old out.new reached) }
{
    let packet = read_packet(bytes, reached.place)?;
    let received = Received {
        bytes,
        place: reached.place,
        now_us,
        ok,
        packet,
    };
    let n = reached.done + 1;
    let length = if packet.messages == 1 {
        put_one(m, &received, n, out, reached.length)?
    } else {
        put_several(m, &received, n, out, reached.length)?
    };
    Ok(Reached {
        place: reached.place + packet.length,
        done: reached.done + packet.messages as u64,
        length,
    })
}

/// A run of packets with one time and one verdict, inspected message by message on a state; the records go to the beginning of a lent buffer, whose other bytes stay. A state that no call hands out is
/// refused before everything; a packet that is refused, or whose records do not fit, ends the run, and nothing of it is inspected.
pub fn run_packets(
    m: &mut MqttMonitor,
    bytes: &[u8],
    now_us: u64,
    ok: bool,
    out: &mut [u8],
) -> RunEnd
    ensures end { ended result m.new ≡ queue_end m.old (wake_of bytes.now now_us ok (length out.old)) }
    ensures bytes { out.new ≡ queue_kept m.old (wake_of bytes.now now_us ok (length out.old)) out.old }
{
    let mut reached = Reached::START;
    if !m.is_well_formed() {
        return RunEnd {
            outcome: Err(QueueRefusal::BadState),
            reached,
        };
    }
    // Each packet says where the next one begins, so there is no range to go over.
    while reached.place < bytes.len() {
        match run_packet(m, bytes, now_us, ok, reached, out) {
            Ok(next) => reached = next,
            Err(refusal) => {
                return RunEnd {
                    outcome: Err(refusal),
                    reached,
                };
            }
        }
    }
    RunEnd {
        outcome: Ok(()),
        reached,
    }
}
