// hubpackets: captured bytes on standard input, the lines of their messages on standard output, packet after packet (request C-11); or, under a settings text, the records of their inspection (request
// C-12). All of the work is `packet_lines` of `packets_text::written`, packet by packet, or `load_settings` and `run_packets`; here are only the buffers, the way from one packet to the next, and the
// way in and out. What `read` and `write` move, and the words behind the program's name, are the C library's word.
// A program has no exit status of its own: it says on standard error what failed, and nothing where nothing did. `bin/hubpackets` makes a status of that. Where a capture stops being MQTT 3.1.1 the
// number and the byte are said there too, and what stands before that packet has been written; and where a settings text is refused the number and the line, and nothing has.
#![tactic(auto)]

pub mod asked;
mod inspected;

ghost use Rattle.std.specs.Prelude.{◌≡◌, length};
ghost use Rattle.streams.specs.Turns.{DoneWithin};

use asked::Asked;
use inspected::{load_read, run_read};
use lines::put::put_number_line;
use monitor::state::MqttMonitor;
use packets::packet::read_packet;
use packets_text::written::packet_lines;
use streams::descriptor::Descriptor;
use streams::{input, output, said};

// Standard error.
const STDERR_FILENO: i32 = 2;

// How long a capture may be.
const CAPTURE_MAX: usize = 1048576;

// Where the settings text is read from: a descriptor of its own, so that each of the two inputs has an end, and a failed read of either is seen here.
const SETTINGS_FILENO: i32 = 3;

// Room for the longest capture, and for one byte more, by which a longer one is known.
fn capture_buffer() -> [u8; 1048577]
    ensures { 1048577 ≡ length result }
{
    [0; 1048577]
}

// Room for the lines of a packet: some 930 messages whose lines are as long as can be.
fn lines_buffer() -> [u8; 786432]
    ensures { 786432 ≡ length result }
{
    [0; 786432]
}

// Room for the longest settings text, 65,536 bytes, and for one byte more, by which a longer one is known (27).
fn text_buffer() -> [u8; 65537]
    ensures { 65537 ≡ length result }
{
    [0; 65537]
}

// Room for the records of a capture: some 115,000 without an alert, or 25,000 with one each.
fn records_buffer() -> [u8; 3145728]
    ensures { 3145728 ≡ length result }
{
    [0; 3145728]
}

// Says where a capture stops being MQTT, or its records have no more room, and by which number.
fn stop(number: u32, place: usize) {
    let mut said = [0u8; 64];
    let a = put_number_line(&mut said, 0, b"end=", u64::from(number));
    let b = put_number_line(&mut said, a, b"byte=", place as u64);
    io::write_all(STDERR_FILENO, &said[..b]);
}

// Says at which line a settings text is refused, and by which number.
fn refuse(number: u32, line: u64) {
    let mut said = [0u8; 64];
    let a = put_number_line(&mut said, 0, b"end=", u64::from(number));
    let b = put_number_line(&mut said, a, b"line=", line);
    io::write_all(STDERR_FILENO, &said[..b]);
}

// Reads a capture; or says what failed.
fn read_capture(rt: &HostRuntime, capture: &mut [u8]) -> Result<usize, i32>
    ensures { DoneWithin result (length capture.new) }
{
    let read = input::read_all(&mut rt.stdin(), capture);
    let n = match read {
        Ok(n) => n,
        Err(error) => {
            said::fail(
                rt,
                "hubpackets: the capture could not be read, so nothing was written",
                error,
            );
            return read;
        }
    };
    if CAPTURE_MAX < n {
        io::write_all(
            STDERR_FILENO,
            b"hubpackets: the capture has more than 1,048,576 bytes; cut it where a packet begins\n",
        );
        return Err(0);
    }
    Ok(n)
}

// The lines of packet after packet, up to the capture's end or to the first that is refused.
// Each packet says where the next one begins, so there is no range to go over.
fn packets_of(rt: &HostRuntime, bytes: &[u8], at: u64, ok: bool, out: &mut [u8]) {
    let mut place: usize = 0;
    while place < bytes.len() {
        let packet = match read_packet(bytes, place) {
            Ok(packet) => packet,
            Err(why) => {
                stop(why.number(), place);
                return;
            }
        };
        let length = match packet_lines(bytes, place, at, ok, out) {
            Ok(length) => length,
            Err(why) => {
                stop(why.number(), place);
                return;
            }
        };
        let written = output::write_all(&mut rt.stdout(), &out[..length]);
        if let Err(error) = written {
            said::fail(rt, "hubpackets: the lines were not written whole", error);
            return;
        }
        place += packet.length;
    }
}

// Reads a capture, and writes its lines; or says what failed.
fn tell(rt: &HostRuntime, capture: &mut [u8], at: u64, ok: bool) {
    let read = read_capture(rt, capture);
    let Ok(n) = read else {
        return;
    };
    let mut out = lines_buffer();
    packets_of(rt, &capture[..n], at, ok, &mut out);
}

// Reads a capture, and writes the records of its messages under a monitor, up to the capture's end or to the packet at which the run ends; or says what failed.
fn inspect(rt: &HostRuntime, monitor: &mut MqttMonitor, capture: &mut [u8], at: u64, ok: bool) {
    let read = read_capture(rt, capture);
    if let Err(_) = read {
        return;
    }
    let mut out = records_buffer();
    let end = run_read(monitor, read, capture, at, ok, &mut out);
    let written = output::write_all(&mut rt.stdout(), &out[..end.reached.length]);
    if let Err(error) = written {
        said::fail(rt, "hubpackets: the records were not written whole", error);
        return;
    }
    if let Err(why) = end.outcome {
        stop(why.number(), end.reached.place);
    }
}

// Reads a settings text, and inspects a capture under it; or says what failed. The settings come first: where they are refused nobody waits for a capture.
#[inline(never)]
fn inspect_under(rt: &HostRuntime, capture: &mut [u8], at: u64, ok: bool) {
    let mut text = text_buffer();
    let mut settings = Descriptor::new(rt, SETTINGS_FILENO);
    let read = input::read_all(&mut settings, &mut text);
    if let Err(error) = read {
        said::fail(
            rt,
            "hubpackets: the settings text could not be read, so nothing was written",
            error,
        );
        return;
    }
    let mut settings = load_read(read, &text);
    if let Err(refusal) = settings.outcome {
        refuse(refusal.number(), settings.line);
        return;
    }
    inspect(rt, &mut settings.monitor, capture, at, ok);
}

// The capture's buffer is here, one for both ways: what is built into `main` takes its stack whichever way is gone.
fn main(rt: HostRuntime) {
    let Some(asked) = asked::by_words(&rt) else {
        io::write_all(
            STDERR_FILENO,
            b"hubpackets: it takes --at=MICROSECONDS, --clock=ok or --clock=bad, and --inspect; it reads a capture from standard input, and with --inspect a settings text from descriptor 3\n",
        );
        return;
    };
    let mut capture = capture_buffer();
    if asked.inspect {
        inspect_under(&rt, &mut capture, asked.at, asked.ok);
        return;
    }
    tell(&rt, &mut capture, asked.at, asked.ok);
}
