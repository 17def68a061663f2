// hubsettings: a settings text on standard input, what it sets on standard output, in words (request C-13); or that text in another form (request C-18), its rules that can never speak, or what
// stands between two of its rules (request C-20). All of the work is `tell_settings` and `turn_settings` of `settings::told`, and `tell_dead` and `tell_pair` of `settings::dead`; here are only
// the two buffers and the way in and out. That what is told is whole is promised by `answer`, `answer_dead`, `answer_pair` and `turn`; what `read` and `write` move is the C library's word.
// A program has no exit status of its own: it says on standard error what failed, and nothing where nothing did. `bin/hubsettings` makes a status of that. A text that is refused in the form that is
// asked for is said there too, by number and line, so that nothing on standard output can be taken for settings.
#![tactic(auto)]

pub mod asked;

ghost use Rattle.std.specs.Prelude.{◌≡◌, length, take};
ghost use Rattle.settings.specs.Told.{told_room};
ghost use Rattle.io.specs.Counts.{IsPrefixLen};
ghost use Rattle.streams.specs.Turns.{DoneWithin};
ghost use Rattle.hubsettings.specs.Answered.{answer_to, dead_to, pair_to, turn_to, turn_end};

use asked::Asked;
use settings::dead::{tell_dead, tell_pair};
use settings::told::{SettingsTold, tell_settings, turn_settings};
use streams::{input, output, said};

// Standard error.
const STDERR_FILENO: i32 = 2;

// What is said of an input that could not be read.
const UNREAD: &str = "hubsettings: the settings could not be read, so nothing was answered";

// Room for the longest settings text, 65,536 bytes, and for one byte more, by which a longer one is known (27).
fn text_buffer() -> [u8; 65537]
    ensures { 65537 ≡ length result }
{
    [0; 65537]
}

// Room for what is told of any text.
fn answer_buffer() -> [u8; 16384]
    ensures { told_room ≡ length result }
{
    [0; 16384]
}

// What is told of the text that was read, at the beginning of `out`, and its length. There is room for all of it, so 28 never happens. A failed read is not answered.
fn answer(read: Result<usize, i32>, text: &[u8], out: &mut [u8]) -> usize
    requires done_within { DoneWithin read (length text.now) }
    requires room { told_room ≡ length out.old }
    ensures prefix_len { IsPrefixLen result out.new }
    ensures out_after { take result out.new ≡ answer_to read text.now }
{
    let Ok(n) = read else {
        return 0;
    };
    let told = tell_settings(&text[..n], out);
    told.length
}

// The rules of the text that was read that can never speak, likewise.
fn answer_dead(read: Result<usize, i32>, text: &[u8], out: &mut [u8]) -> usize
    requires done_within { DoneWithin read (length text.now) }
    requires room { told_room ≡ length out.old }
    ensures prefix_len { IsPrefixLen result out.new }
    ensures out_after { take result out.new ≡ dead_to read text.now }
{
    let Ok(n) = read else {
        return 0;
    };
    let told = tell_dead(&text[..n], out);
    told.length
}

// What stands between two of its rules, likewise.
fn answer_pair(
    later: u64,
    earlier: u64,
    read: Result<usize, i32>,
    text: &[u8],
    out: &mut [u8],
) -> usize
    requires done_within { DoneWithin read (length text.now) }
    requires room { told_room ≡ length out.old }
    ensures prefix_len { IsPrefixLen result out.new }
    ensures out_after { take result out.new ≡ pair_to later earlier read text.now }
{
    let Ok(n) = read else {
        return 0;
    };
    let told = tell_pair(&text[..n], later, earlier, out);
    told.length
}

// The text that was read in a form, or how it is refused, at the beginning of `out`, and how that ended. 28 never happens here either.
fn turn(form: u32, read: Result<usize, i32>, text: &[u8], out: &mut [u8]) -> SettingsTold
    requires done_within { DoneWithin read (length text.now) }
    requires room { told_room ≡ length out.old }
    ensures value { result ≡ turn_end form told_room read text.now }
    ensures prefix_len { IsPrefixLen result.length out.new }
    ensures out_after { take result.length out.new ≡ turn_to form read text.now }
{
    let Ok(n) = read else {
        return SettingsTold {
            number: 0,
            line: 0,
            length: 0,
        };
    };
    turn_settings(&text[..n], form, out)
}

// Writes the answer, and says so where that failed.
fn print(rt: &HostRuntime, answer: &[u8]) {
    let written = output::write_all(&mut rt.stdout(), answer);
    if let Err(error) = written {
        said::fail(rt, "hubsettings: the answer was not written whole", error);
    }
}

// Writes the answer to a text that was read; or says that it was not.
fn finish(rt: &HostRuntime, read: Result<usize, i32>, answer: &[u8]) {
    match read {
        Err(error) => said::fail(rt, UNREAD, error),
        Ok(_) => print(rt, answer),
    }
}

// Reads a settings text, and writes what it sets; or says what failed.
fn tell(rt: &HostRuntime) {
    let mut text = text_buffer();
    let read = input::read_all(&mut rt.stdin(), &mut text);
    let mut out = answer_buffer();
    let length = answer(read, &text, &mut out);
    finish(rt, read, &out[..length]);
}

// Reads a settings text, and writes which of its rules can never speak; or says what failed.
fn list_dead(rt: &HostRuntime) {
    let mut text = text_buffer();
    let read = input::read_all(&mut rt.stdin(), &mut text);
    let mut out = answer_buffer();
    let length = answer_dead(read, &text, &mut out);
    finish(rt, read, &out[..length]);
}

// Reads a settings text, and writes what stands between two of its rules; or says what failed.
fn part(rt: &HostRuntime, later: u64, earlier: u64) {
    let mut text = text_buffer();
    let read = input::read_all(&mut rt.stdin(), &mut text);
    let mut out = answer_buffer();
    let length = answer_pair(later, earlier, read, &text, &mut out);
    finish(rt, read, &out[..length]);
}

// Reads a settings text, and writes it in a form; or says what refused it or failed.
fn convert(rt: &HostRuntime, form: u32) {
    let mut text = text_buffer();
    let read = input::read_all(&mut rt.stdin(), &mut text);
    let mut out = answer_buffer();
    let end = turn(form, read, &text, &mut out);
    if let Err(error) = read {
        said::fail(rt, UNREAD, error);
        return;
    }
    if end.number != 0 {
        io::write_all(STDERR_FILENO, &out[..end.length]);
        return;
    }
    print(rt, &out[..end.length]);
}

fn main(rt: HostRuntime) {
    let asked = asked::by_words(&rt);
    match asked {
        Asked::Tell => tell(&rt),
        Asked::To(form) => convert(&rt, form),
        Asked::Dead => list_dead(&rt),
        Asked::Pair(later, earlier) => part(&rt, later, earlier),
        Asked::Unknown => {
            io::write_all(
                STDERR_FILENO,
                b"hubsettings: it takes --to=1, --to=2, --dead or --dead=LATER,EARLIER, and reads the settings from standard input\n",
            );
        }
    }
}
