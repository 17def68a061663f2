// A run of packets with one time and one verdict for all (request C-12), into a room of so many bytes:
//     queue AT ok|bad ROOM PACKETS
// The answer has what stands in the room and behind it up to the last byte that is not zero, as lines: the records, and nothing else.
use crate::fields;
use crate::looks::used;
use crate::say::{say_lines, say_number};
use cut::args::{arg, is, number, size, unhex};
use cut::upto;
use monitor::state::MqttMonitor;
use queue::run::run_packets;

// The run of a line, how it ended, and the records. Packets of up to 2048 bytes can be asked for.
fn say_run(m: &mut MqttMonitor, q: &[u8]) {
    let mut packets = [0u8; 2048];
    let n = unhex(q, 4, &mut packets).count;
    let mut lent = [0u8; 8192];
    let room = size(q, 3, &lent);
    let end = run_packets(
        m,
        upto(&packets, n),
        number(q, 1),
        is(arg(q, 2), b"ok"),
        &mut lent[..room],
    );
    say_number(b"number", u64::from(end.number()));
    say_number(b"place", end.reached.place as u64);
    say_number(b"done", end.reached.done);
    say_number(b"length", end.reached.length as u64);
    say_lines(used(&lent));
}

// It, or any other line.
pub fn ask(m: &mut MqttMonitor, name: &[u8], q: &[u8]) {
    match name {
        b"queue" => say_run(m, q),
        _ => fields::ask(m, name, q),
    }
}
