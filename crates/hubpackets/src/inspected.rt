// A capture inspected under a settings text (request C-12): what the two inputs come to once they were read. A failed read is not answered.
ghost use Rattle.std.specs.Prelude.{◌≡◌, length, take};
ghost use Rattle.io.specs.Counts.{IsPrefixLen};
ghost use Rattle.streams.specs.Turns.{DoneWithin};
ghost use Rattle.queue.specs.Queue.{ended};
ghost use Rattle.settings.specs.Refused.{loaded_told};
ghost use Rattle.hubpackets.specs.Inspected.{loaded_from, end_to, records_to};

use monitor::state::MqttMonitor;
use queue::run::{Reached, RunEnd, run_packets};
use settings::load::{Loaded, load_settings};

// The settings text that was read, loaded.
pub(crate) fn load_read(read: Result<usize, i32>, text: &[u8]) -> Loaded
    requires { DoneWithin read (length text.now) }
    ensures { loaded_told result ≡ loaded_from read text.now }
{
    let Ok(n) = read else {
        return load_settings(b"");
    };
    load_settings(&text[..n])
}

// The records of the capture that was read, at the beginning of `out`, and how its run ended; what the run leaves is in the lent monitor.
pub(crate) fn run_read(
    monitor: &mut MqttMonitor,
    read: Result<usize, i32>,
    capture: &[u8],
    at: u64,
    ok: bool,
    out: &mut [u8],
) -> RunEnd
    requires { DoneWithin read (length capture.now) }
    ensures end { ended result monitor.new ≡ end_to monitor.old at ok (length out.old) read capture.now }
    ensures counted { IsPrefixLen result.reached.length out.new }
    ensures records { take result.reached.length out.new ≡ records_to monitor.old at ok (length out.old) read capture.now }
{
    let Ok(n) = read else {
        return RunEnd {
            outcome: Ok(()),
            reached: Reached::START,
        };
    };
    run_packets(monitor, &capture[..n], at, ok, out)
}
