// What an answer is written with.
use cut::{after, before, upto};
use lines::put;
use monitor::refusal::Refusal;

const STDOUT_FILENO: i32 = 1;

// Bytes as they are.
pub fn say(s: &[u8]) {
    io::write_all(STDOUT_FILENO, s);
}

// What belongs together is gathered here and written at once: a call of the system for each word would take most of the time. There is room for the longest record, a window with 16 stamps.
// No heap, so an array and how much of it is used.
#[derive(Drop)]
pub struct Line {
    bytes: [u8; 512],
    len: usize,
}

impl Line {
    pub fn new() -> Self {
        Line {
            bytes: [0; 512],
            len: 0,
        }
    }

    pub fn say(&self) {
        say(upto(&self.bytes, self.len));
    }

    // Bytes as they are.
    pub fn text(&mut self, s: &[u8]) {
        self.len = put::put_bytes(&mut self.bytes, self.len, s);
    }

    pub fn decimal(&mut self, n: u64) {
        self.len = put::put_decimal(&mut self.bytes, self.len, n);
    }

    // A name with a number.
    pub fn number(&mut self, name: &[u8], n: u64) {
        self.key(name);
        self.decimal(n);
    }

    // A name with bytes in hex.
    pub fn hex(&mut self, name: &[u8], bytes: &[u8]) {
        self.key(name);
        self.len = put::put_hex(&mut self.bytes, self.len, bytes);
    }

    // The place of a record, on a line of its own.
    pub fn place(&mut self, at: usize) {
        self.text(b"\n   ");
        self.decimal(at as u64);
    }

    fn key(&mut self, name: &[u8]) {
        self.text(b" ");
        self.text(name);
        self.text(b"=");
    }
}

// A name with a number.
pub fn say_number(name: &[u8], n: u64) {
    let mut line = Line::new();
    line.number(name, n);
    line.say();
}

// The lines of a text, each behind some blanks.
pub fn say_lines(text: &[u8]) {
    let mut left = text;
    while !left.is_empty() {
        say(b"\n   ");
        say(before(left, b'\n'));
        left = after(left, b'\n');
    }
}

// Why a call was refused.
pub fn say_refused(refusal: Refusal) {
    say_number(b"refused", u64::from(refusal.number()));
}

// How a call ended that may hand back a number of its own.
pub fn say_outcome(outcome: Result<u16, Refusal>) {
    match outcome {
        Ok(n) => say_number(b"done", u64::from(n)),
        Err(refusal) => say_refused(refusal),
    }
}

// How a call ended that hands back none.
pub fn say_done(outcome: Result<(), Refusal>) {
    say_outcome(outcome.and(Ok(0)));
}

// A line that is not understood.
pub fn say_unknown() {
    say(b" not understood");
}
