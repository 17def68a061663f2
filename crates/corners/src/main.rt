// The published vectors, run: FNV-1a's own test strings, the examples of UTF-8 in its standards, texts as a person reads them and the worked examples of MQTT 3.1.1 section 4.7. Each line of
// standard input asks one thing of quoted text and comes back with its answer in front:
//     hash "TEXT"               FNV-1a of the text, 32 bits
//     bytes "HEX"               the same of bytes that are not all text
//     utf8 "HEX"                whether such bytes are UTF-8
//     shown "HEX"               whether such bytes can be shown as they are, and how they are shown
//     valid "FILTER"            whether the filter's wildcards are well placed
//     match "FILTER" "NAME"     whether the filter takes the name, by the port and by the standard matcher (`out`: its number 9), and where they differ
// Any other line is a heading. The answers are compared with the file `stdout`; what is proved here is that the program is safe and ends.
#![tactic(auto)]

use cut::{after, before, upto};
use lines::value;
use topics::hashes::fnv1a_hash;
use topics::matching::{match_number, standard_matches, topic_matches};
use topics::patterns::validate_mqtt_wildcard;
use topics::shown::{is_readable, shown_byte};
use topics::utf8::is_utf8;

const STDIN_FILENO: i32 = 0;

const STDOUT_FILENO: i32 = 1;

fn main() {
    let mut buffer = io::large_buffer();
    let n = io::read_full(STDIN_FILENO, &mut buffer);
    answer_all(&buffer[..n]);
}

// The whole input, line after line.
fn answer_all(text: &[u8]) {
    let mut left = text;
    while !left.is_empty() {
        answer(before(left, b'\n'));
        left = after(left, b'\n');
    }
}

// The answer to a line, by its first letter, and the line itself.
fn answer(line: &[u8]) {
    match line {
        [b'h', ..] => say_hash(quoted(line)),
        [b'b', ..] => answer_bytes(line),
        [b'u', ..] => answer_utf8(line),
        [b's', ..] => answer_shown(line),
        [b'v', ..] => say_test(validate_mqtt_wildcard(quoted(line))),
        [b'm', ..] => compare(quoted(line), quoted(behind(line))),
        _ => {}
    }
    say(line);
    say(b"\n");
}

// What stands between the first two quotes of a line.
fn quoted(line: &[u8]) -> &[u8] {
    before(after(line, b'"'), b'"')
}

// What stands behind them.
fn behind(line: &[u8]) -> &[u8] {
    after(after(line, b'"'), b'"')
}

// The bytes that a line quotes in hex, where they are such and fit.
fn quoted_bytes<'a>(line: &[u8], room: &'a mut [u8]) -> Option<&'a [u8]> {
    let digits = quoted(line);
    if value::hex(digits, room) != 0 {
        return None;
    }
    Some(upto(room, digits.len() / 2))
}

// The hash of bytes in hex.
fn answer_bytes(line: &[u8]) {
    let mut room = [0u8; 512];
    match quoted_bytes(line, &mut room) {
        Some(bytes) => say_hash(bytes),
        None => say(b"refused   "),
    }
}

// Whether they are UTF-8.
fn answer_utf8(line: &[u8]) {
    let mut room = [0u8; 512];
    match quoted_bytes(line, &mut room) {
        Some(bytes) => say_test(is_utf8(bytes)),
        None => say(b"refused   "),
    }
}

// Whether they can be shown as they are, and how they are shown.
fn answer_shown(line: &[u8]) {
    let mut room = [0u8; 512];
    let Some(bytes) = quoted_bytes(line, &mut room) else {
        return say(b"refused   ");
    };
    let whole = is_readable(bytes);
    say_test(whole);
    say_shown(bytes, whole);
    say(b"  ");
}

// A text as it is shown.
fn say_shown(bytes: &[u8], whole: bool) {
    for byte in bytes {
        say(&[shown_byte(whole, *byte)]);
    }
}

// The eight digits of a hash.
fn say_hash(bytes: &[u8]) {
    io::print_hex(STDOUT_FILENO, u64::from(fnv1a_hash(bytes)), 8);
    say(b"  ");
}

// What a test says.
fn say_test(answer: bool) {
    say_answer(u32::from(answer));
    say(b"  ");
}

// What the two matchers answer, and whether they differ.
fn compare(filter: &[u8], name: &[u8]) {
    let port = u32::from(topic_matches(name, filter));
    let standard = match_number(standard_matches(name, filter));
    say(b"port ");
    say_answer(port);
    say(b"  standard ");
    say_answer(standard);
    if port == standard {
        say(b"          ");
    } else {
        say(b"  differ  ");
    }
}

// Such a number, as `match_number` has it, as a word, three letters wide.
fn say_answer(number: u32) {
    match number {
        0 => say(b"no "),
        1 => say(b"yes"),
        _ => say(b"out"),
    }
}

// Bytes to standard output.
fn say(text: &[u8]) {
    io::write_all(STDOUT_FILENO, text);
}
