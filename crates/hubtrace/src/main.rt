// hubtrace: a trace on standard input, its answer on standard output (document 01, "The trace"), and with `--standing` where the limit stands after it. All of the work is
// `trace::run::run_trace_by` and `trace::standing::write_standing`; here are only the two buffers and the way in and out. That an answer is whole is promised by `answer` and `stand`; what `read` and
// `write` move, and the words behind the program's name, are the C library's word. With `--match=standard` the rules are matched as MQTT 3.1.1 section 4.7 has it, else as the Rust does.
// A program has no exit status of its own: it says on standard error what failed, and nothing where nothing did. `bin/hubtrace` makes a status of that.
#![tactic(auto)]

mod asked;

ghost use Rattle.std.specs.Prelude.{◌≡◌, length, take};
ghost use Rattle.trace.specs.Trace.{enough};
ghost use Rattle.io.specs.Counts.{IsPrefixLen};
ghost use Rattle.hubtrace.specs.Answered.{answer_to, standing_after};
ghost use Rattle.streams.specs.Turns.{DoneWithin};

use asked::Asked;
use streams::{input, output, said};
use topics::matching::Matching;
use trace::{run, standing};

// Standard error.
const STDERR_FILENO: i32 = 2;

// Room for the longest trace, 65,536 bytes, and for one byte more, by which a longer one is known (27).
fn text_buffer() -> [u8; 65537]
    ensures { 65537 ≡ length result }
{
    [0; 65537]
}

// Room for the answer to any text.
fn answer_buffer() -> [u8; 786432]
    ensures { enough ≡ length result }
{
    [0; 786432]
}

// The answer to what was read at the beginning of `out`, and its length. There is room for all of it, so 28 never happens. A failed read is not answered.
fn answer(matching: Matching, read: Result<usize, i32>, text: &[u8], out: &mut [u8]) -> usize
    requires done_within { DoneWithin read (length text.now) }
    requires room { enough ≡ length out.old }
    ensures prefix_len { IsPrefixLen result out.new }
    ensures out_after { take result out.new ≡ answer_to matching read text.now }
{
    let Ok(n) = read else {
        return 0;
    };
    let end = run::run_trace_by(&text[..n], matching, out);
    end.length
}

// Where the limit stands after it, in the same way; there is room for all of that too.
fn stand(matching: Matching, read: Result<usize, i32>, text: &[u8], out: &mut [u8]) -> usize
    requires done_within { DoneWithin read (length text.now) }
    requires room { enough ≡ length out.old }
    ensures prefix_len { IsPrefixLen result out.new }
    ensures out_after { take result out.new ≡ standing_after matching read text.now }
{
    let Ok(n) = read else {
        return 0;
    };
    let end = standing::write_standing(&text[..n], matching, out);
    end.length
}

// Writes the answer, and says so where that failed.
fn print(rt: &HostRuntime, answer: &[u8]) {
    let written = output::write_all(&mut rt.stdout(), answer);
    if let Err(error) = written {
        said::fail(rt, "hubtrace: the answer was not written whole", error);
    }
}

// Reads a trace, and writes its answer, and where it is asked for where the limit stands then; or says what failed.
fn run(rt: &HostRuntime, matching: Matching, standing: bool) {
    let mut text = text_buffer();
    let read = input::read_all(&mut rt.stdin(), &mut text);
    let mut out = answer_buffer();
    let length = answer(matching, read, &text, &mut out);
    match read {
        Err(error) => said::fail(
            rt,
            "hubtrace: the trace could not be read, so nothing was answered",
            error,
        ),
        Ok(_) => print(rt, &out[..length]),
    }
    if standing {
        let more = stand(matching, read, &text, &mut out);
        print(rt, &out[..more]);
    }
}

fn main(rt: HostRuntime) {
    let asked = asked::by_words(&rt);
    match asked {
        Asked::For(matching) => run(&rt, matching, false),
        Asked::Standing(matching) => run(&rt, matching, true),
        Asked::Unknown => {
            io::write_all(
                STDERR_FILENO,
                b"hubtrace: it takes --match=port or --match=standard, and after it --standing\n",
            );
        }
    }
}
