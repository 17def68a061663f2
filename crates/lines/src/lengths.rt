// How many bytes each writer of `put` writes where all fits, so that a caller that wants all or nothing (document 01, number 28) can compare with its room first.
// A length past the largest 64-bit number is handed back as that number, which is more than any buffer has.
ghost use Rattle.std.specs.Prelude.{◌+◌, ◌≤◌, ◌≡◌, Bool, length};
ghost use Rattle.lines.specs.Decimal.{decimal};
ghost use Rattle.lines.specs.Line.{number_line, hex_line, flag_line, word_line, capped};

use crate::words::word_part;

// The number of digits of `n`: a tenth of it is left each time, as `put_decimal` goes; a chain is no plainer.
pub fn decimal_len(n: u64) -> usize
    ensures { (result ≡ length (decimal n)) × (result ≤ 20) }
{
    let mut rest = n;
    let mut k = 1;
    while 9 < rest {
        rest /= 10;
        k += 1;
    }
    k
}

// The length of a line with a key of `key` bytes and a value of `value` bytes.
fn line_len(key: usize, value: usize) -> usize
    ensures { result ≡ capped (key + value + 1) }
{
    key.saturating_add(value).saturating_add(1)
}

// The length of a line with a number.
pub fn number_line_len(key: &[u8], n: u64) -> usize
    ensures { result ≡ capped (length (number_line key.now n)) }
{
    line_len(key.len(), decimal_len(n))
}

// The length of a line with bytes in hex.
pub fn hex_line_len(key: &[u8], s: &[u8]) -> usize
    ensures { result ≡ capped (length (hex_line key.now s.now)) }
{
    line_len(key.len(), s.len().saturating_add(s.len()))
}

// The length of a line with a flag, which is the same on and off.
pub fn flag_line_len(key: &[u8]) -> usize
    ensures { (on : Bool) → result ≡ capped (length (flag_line key.now on)) }
{
    line_len(key.len(), 1)
}

// The length of a line with one word of a list.
pub fn word_line_len(key: &[u8], words: &[u8], k: usize) -> usize
    ensures { result ≡ capped (length (word_line key.now words.now k)) }
{
    line_len(key.len(), word_part(words, k).len())
}
