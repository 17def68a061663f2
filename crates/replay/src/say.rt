// What the program writes: the lines that differ, and the counts.
const STDOUT_FILENO: i32 = 1;

fn say(s: &[u8]) {
    io::write_all(STDOUT_FILENO, s);
}

fn say_number(n: u64) {
    io::print_decimal(STDOUT_FILENO, n);
}

// A line that differs, with both answers.
pub fn say_differs(number: u64, original: &[u8], port: &[u8]) {
    say(b"line ");
    say_number(number);
    say(b" differs: recorded ");
    say(original);
    say(b", the port says ");
    say(port);
    say(b"\n");
}

// A line that is not understood.
pub fn say_unknown(number: u64) {
    say(b"line ");
    say_number(number);
    say(b" is not understood\n");
}

// The counts of a kind, or of all.
fn say_counts(name: &[u8], asked: u64, differ: u64) {
    say(name);
    say(b": ");
    say_number(asked);
    say(b" compared, ");
    say_number(differ);
    say(b" differ\n");
}

// A line for each kind, and the totals.
pub fn say_all(asked: &[u64; 16], differ: &[u64; 16]) {
    let mut all: u64 = 0;
    let mut wrong: u64 = 0;
    for k in 0..16 {
        say_counts(&[b"mfdscpvrbx$thlo?"[k]], asked[k], differ[k]);
        all = all.wrapping_add(asked[k]);
        wrong = wrong.wrapping_add(differ[k]);
    }
    say_counts(b"all", all, wrong);
}
