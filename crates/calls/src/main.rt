// Runs the script in standard input on a monitor, one call to a line, and writes the answer beside it: calls that no trace shows, from states that no trace reaches. A line is
// `NAME ARG..`; bytes are in hex, and an argument `-` is empty. `rule_calls`, `covers`, `state_calls`, `messages`, `limits`, `reload` and `runs` have the calls, `fields` what a script may set, and
// `looks` what it may look at. A line that begins with `#` is a heading. The file `stdout` is what the Rust original, with buckets of request C-17, says to the same
// script (oracle/calls).
#![tactic(auto)]

mod covers;
mod fields;
mod limits;
mod looks;
mod messages;
mod parts;
mod policies;
mod reload;
mod rule_calls;
mod runs;
mod say;
mod state_calls;

use crate::say::say;
use cut::args::arg;
use cut::{after, before};
use monitor::state::MqttMonitor;

const STDIN_FILENO: i32 = 0;

// A line, and the answer beside it.
fn answer(m: &mut MqttMonitor, line: &[u8]) {
    say(line);
    if line.is_empty() || line[0] == b'#' {
        return;
    }
    say(b" ->");
    rule_calls::ask(m, arg(line, 0), line);
}

// Line by line, from a new monitor on.
fn run(text: &[u8]) {
    let mut m = MqttMonitor::new();
    let mut left = text;
    while !left.is_empty() {
        answer(&mut m, before(left, b'\n'));
        say(b"\n");
        left = after(left, b'\n');
    }
}

fn main() {
    let mut text = io::large_buffer();
    let n = io::read_full(STDIN_FILENO, &mut text);
    run(&text[..n]);
}
