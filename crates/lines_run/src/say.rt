// What an answer is written with.
use cut::swap::swap;
use lines::read::Field;

const STDOUT_FILENO: i32 = 1;

// Bytes as they are.
pub fn say(s: &[u8]) {
    io::write_all(STDOUT_FILENO, s);
}

// A name with a number.
pub fn say_number(name: &[u8], n: u64) {
    say(b" ");
    say(name);
    say(b"=");
    io::print_decimal(STDOUT_FILENO, n);
}

// A name with a flag.
pub fn say_flag(name: &[u8], on: bool) {
    say_number(name, u64::from(on));
}

// What a line gave.
pub fn say_field(f: Field) {
    say_number(b"number", u64::from(f.number));
    say_number(b"value", f.value);
    say_number(b"from", f.from as u64);
    say_number(b"to", f.to as u64);
    say_number(b"next", f.next as u64);
}

// A buffer, as a text is written in a question.
pub fn say_buffer(s: &mut [u8]) {
    let all = s.len();
    swap(s, all, b'\n', b';');
    swap(s, all, b'\r', b'~');
    say(b" [");
    say(s);
    say(b"]");
}

// A question that names no function.
pub fn say_unknown() {
    say(b" not understood");
}
