// What a program says on standard error. Where nobody can be told, nothing is left to do.
use arrayvec::ArrayString;
use std::fmt::Write;
use std::io::{Eprint, Error};

// The longest reason that is told whole; the C library's have at most 50 bytes.
const REASON_MAX: usize = 128;

// The words without the errno that std adds to them.
fn without_number(words: &str) -> &str {
    words.split(" (os error ").next().unwrap_or(words)
}

// What failed, as the caller names it, a colon and what errno means.
pub fn fail<R: Eprint>(rt: &R, what: &str, error: i32) {
    let why = Error::from_raw_os_error(error);
    let mut words = ArrayString::<REASON_MAX>::new();
    let _ = write!(words, "{why}");
    let reason = without_number(&words);
    let _ = rt.eprintln(format_args!("{what}: {reason}"));
}
