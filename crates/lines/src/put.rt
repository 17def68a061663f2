// Writers into a lent buffer. Each writes its text from `at` on and hands back the place after it.
// What does not fit is cut off at the buffer's end, so every writer takes every input, and one writer follows another without a test between them.
// `Display` and `write!` were tried: 5,491 instructions for a record that these write in 1,488 (docs/DESIGN-PASS.md).
ghost use Rattle.std.specs.Prelude.{◌+◌, ◌%◌, ◌<◌, ◌≡◌, [], ◌∷◌};
ghost use Rattle.lines.specs.Wrote.{Wrote};
ghost use Rattle.lines.specs.Decimal.{decimal};
ghost use Rattle.lines.specs.Hex.{hex_digit, hex_text};
ghost use Rattle.lines.specs.Word.{word_text};
ghost use Rattle.lines.specs.Line.{flag_text, number_line, hex_line, flag_line, word_line, six_digits, seconds_line};

use crate::words::word_part;

// One byte.
pub fn put_byte(out: &mut [u8], at: usize, b: u8) -> usize
    ensures { Wrote out.old out.new at (b ∷ []) result }
{
    if at < out.len() {
        out[at] = b;
        return at + 1;
    }
    at
}

// The bytes of `s` as they are.
pub fn put_bytes(out: &mut [u8], at: usize, s: &[u8]) -> usize
    ensures { Wrote out.old out.new at s.now result }
{
    let mut p = at;
    for b in s {
        if out.len() <= p {
            break; // the rest is cut off, however long it is
        }
        p = put_byte(out, p, *b);
    }
    p
}

// A number in decimal, with no spare zeros. Its digits are found from the last on, and only then is it known how many there are, so they are set
// out apart first, by a loop over what is left of the number: a chain would turn them round, no plainer.
pub fn put_decimal(out: &mut [u8], at: usize, n: u64) -> usize
    ensures { Wrote out.old out.new at (decimal n) result }
{
    let mut digits = [0u8; 20];
    let mut rest = n;
    let mut i = 19;
    while 9 < rest {
        digits[i] = b'0' + (rest % 10) as u8;
        rest /= 10;
        i -= 1;
    }
    digits[i] = b'0' + rest as u8;
    put_bytes(out, at, &digits[i..])
}

// The lower-case hex digit of a number below 16.
fn hex_digit(n: u8) -> u8
    requires { n < 16 }
    ensures { result ≡ hex_digit n }
{
    if n < 10 { b'0' + n } else { b'a' + (n - 10) }
}

// One byte in hex: two digits, the high one first.
fn put_pair(out: &mut [u8], at: usize, b: u8) -> usize
    ensures { Wrote out.old out.new at (hex_text (b ∷ [])) result }
{
    let high = put_byte(out, at, hex_digit(b / 16));
    put_byte(out, high, hex_digit(b % 16))
}

// The bytes of `s` in lower-case hex.
pub fn put_hex(out: &mut [u8], at: usize, s: &[u8]) -> usize
    ensures { Wrote out.old out.new at (hex_text s.now) result }
{
    let mut p = at;
    for b in s {
        p = put_pair(out, p, *b);
    }
    p
}

// A flag: `1` where it is on, else `0`.
pub fn put_flag(out: &mut [u8], at: usize, on: bool) -> usize
    ensures { Wrote out.old out.new at (flag_text on) result }
{
    put_byte(out, at, if on { b'1' } else { b'0' })
}

// The word at place `k` of a list spelled with bars, b"allow|block"; nothing where there are not so many words.
pub fn put_word(out: &mut [u8], at: usize, words: &[u8], k: usize) -> usize
    ensures { Wrote out.old out.new at (word_text words.now k) result }
{
    put_bytes(out, at, word_part(words, k))
}

// The LF that ends a line.
fn put_end(out: &mut [u8], at: usize) -> usize
    ensures { Wrote out.old out.new at (10 ∷ []) result }
{
    put_byte(out, at, b'\n')
}

// A line with a number.
pub fn put_number_line(out: &mut [u8], at: usize, key: &[u8], n: u64) -> usize
    ensures { Wrote out.old out.new at (number_line key.now n) result }
{
    let value = put_bytes(out, at, key);
    let end = put_decimal(out, value, n);
    put_end(out, end)
}

// A line with bytes in hex.
pub fn put_hex_line(out: &mut [u8], at: usize, key: &[u8], s: &[u8]) -> usize
    ensures { Wrote out.old out.new at (hex_line key.now s.now) result }
{
    let value = put_bytes(out, at, key);
    let end = put_hex(out, value, s);
    put_end(out, end)
}

// A line with a flag.
pub fn put_flag_line(out: &mut [u8], at: usize, key: &[u8], on: bool) -> usize
    ensures { Wrote out.old out.new at (flag_line key.now on) result }
{
    let value = put_bytes(out, at, key);
    let end = put_flag(out, value, on);
    put_end(out, end)
}

// A line with one word of a list.
pub fn put_word_line(out: &mut [u8], at: usize, key: &[u8], words: &[u8], k: usize) -> usize
    ensures { Wrote out.old out.new at (word_line key.now words.now k) result }
{
    let value = put_bytes(out, at, key);
    let end = put_word(out, value, words, k);
    put_end(out, end)
}

// The last digit of a number.
fn put_last_digit(out: &mut [u8], at: usize, n: u64) -> usize
    ensures { Wrote out.old out.new at ((48 + n % 10) ∷ []) result }
{
    put_byte(out, at, b'0' + (n % 10) as u8)
}

// The six digits of a number below a million.
fn put_six_digits(out: &mut [u8], at: usize, n: u64) -> usize
    ensures { Wrote out.old out.new at (six_digits n) result }
{
    let second = put_last_digit(out, at, n / 100_000);
    let third = put_last_digit(out, second, n / 10_000);
    let fourth = put_last_digit(out, third, n / 1000);
    let fifth = put_last_digit(out, fourth, n / 100);
    let sixth = put_last_digit(out, fifth, n / 10);
    put_last_digit(out, sixth, n)
}

// A line with a time in microseconds, as seconds with six digits after the point.
pub fn put_seconds_line(out: &mut [u8], at: usize, key: &[u8], us: u64) -> usize
    ensures { Wrote out.old out.new at (seconds_line key.now us) result }
{
    let value = put_bytes(out, at, key);
    let point = put_decimal(out, value, us / 1_000_000);
    let parts = put_byte(out, point, b'.');
    let end = put_six_digits(out, parts, us % 1_000_000);
    put_end(out, end)
}
