// A run of packets, inspected from the state on that a trace leaves. No state crosses the border: a trace's text stands for it.
ghost use Rattle.std.specs.Prelude.{◌≡◌, length};
ghost use Rattle.queue.specs.Queue.{wake_of};
ghost use Rattle.wake.specs.Task.{task_end, task_kept};

use wake::task::QueueRun;

#[unsafe(no_mangle)]
pub extern "C" fn hub_queue(
    trace: &[u8],
    at: u64,
    clock_ok: bool,
    packets: &[u8],
    out: &mut [u8],
) -> QueueRun
    ensures answer { result ≡ task_end trace.now (wake_of packets.now at clock_ok (length out.old)) }
    ensures buffer { out.new ≡ task_kept trace.now (wake_of packets.now at clock_ok (length out.old)) out.old }
{
    wake::task::hub_queue(trace, at, clock_ok, packets, out)
}
