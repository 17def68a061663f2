// What the bytes of a value spell: a decimal, a word, hex (document 01, "The trace"). Each reader takes any bytes and says
// whether they are what is asked; nothing here knows of lines.
ghost use Rattle.std.specs.Prelude.{◌≡◌, true, ◌<◌, length};
ghost use Rattle.std.proofs.lemmas.List.Edits.{sets};
ghost use Rattle.laws.specs.Lists.{every};
ghost use Rattle.lines.specs.ReadDecimal.{digit_fits, no_spare_zero, decimal_of};
ghost use Rattle.lines.specs.ReadHex.{is_hex, hex_value, hex_refusal, unhex, hex_into};
ghost use Rattle.lines.specs.ReadWord.{word_of};

// What a value's bytes gave: the number that they spell, or none.
#[derive(Clone, Copy, Debug, PartialEq, Eq)]
pub enum Number {
    Value(u64),
    Bad,
}

// Whether `c` is a digit and the number with it, v * 10 + (c - 48), is at most `high`: without computing what could be too large.
#[tactic(auto, unfolding(crate::specs::ReadDecimal::digit_fits, crate::specs::ReadDecimal::is_digit))]
fn digit_fits(v: u64, c: u8, high: u64) -> bool
    ensures { result ≡ digit_fits v c high }
{
    if !c.is_ascii_digit() {
        return false;
    }
    let d = u64::from(c - b'0');
    d <= high && v <= (high - d) / 10
}

// Whether `l` has a first byte that is no spare zero.
#[tactic(auto, unfolding(crate::specs::ReadDecimal::no_spare_zero))]
fn no_spare_zero(l: &[u8]) -> bool
    ensures { result ≡ no_spare_zero l.now }
{
    match l {
        [] => false,
        [_] => true,
        [first, ..] => *first != b'0',
    }
}

// The number in low..high that `l` spells in decimal, without spare zeros. A number past `high` ends the reading, so nothing overflows however many digits there are.
pub fn decimal(l: &[u8], low: u64, high: u64) -> Number
    ensures { result ≡ decimal_of low high l.now }
{
    if !no_spare_zero(l) {
        return Number::Bad;
    }
    let mut v = 0;
    for c in l {
        if !digit_fits(v, *c, high) {
            return Number::Bad;
        }
        v = v * 10 + u64::from(*c - b'0');
    }
    if v < low {
        return Number::Bad;
    }
    Number::Value(v)
}

// The place of the word `l` in a list of words with a bar between them, `allow|block`: the first of equal words.
pub fn word(words: &[u8], l: &[u8]) -> Number
    ensures { result ≡ word_of words.now l.now }
{
    match words.split(|b| *b == b'|').position(|word| word == l) {
        Some(k) => Number::Value(k as u64),
        None => Number::Bad,
    }
}

// Whether `c` is a hex digit, in lower case.
#[tactic(auto, unfolding(crate::specs::ReadHex::is_hex))]
fn is_hex(c: u8) -> bool
    ensures { result ≡ is_hex c }
{
    matches!(c, b'0'..=b'9' | b'a'..=b'f')
}

// Whether every byte of `l` is a hex digit.
fn all_hex(l: &[u8]) -> bool
    ensures { result ≡ every is_hex l.now }
{
    l.iter().all(|c| is_hex(*c))
}

// Why `l` is not read as hex of at most `room` bytes: 24 for an odd count or a bad digit, then 25 for too many; 0 where it is.
fn hex_refusal(l: &[u8], room: usize) -> u32
    ensures { result ≡ hex_refusal room l.now }
{
    if l.len() % 2 != 0 {
        return 24;
    }
    if !all_hex(l) {
        return 24;
    }
    if room < l.len() / 2 {
        return 25;
    }
    0
}

// The number of a hex digit.
#[tactic(auto, unfolding(crate::specs::ReadHex::is_hex))]
fn hex_value(c: u8) -> u8
    requires { is_hex c ≡ true }
    ensures { (result ≡ hex_value c) × (result < 16) }
{
    if c <= b'9' { c - b'0' } else { c - b'a' + 10 }
}

// The bytes that the hex digits of `l` spell, two for each, to the beginning of `out`. One place counts in both, in `l` by twos, so it stays an index: pairs and places side by
// side are no plainer.
fn put_unhex(l: &[u8], out: &mut [u8])
    requires { hex_refusal (length out.old) l.now ≡ 0 }
    ensures { out.new ≡ sets out.old 0 (unhex l.now) }
{
    for i in 0..l.len() / 2 {
        out[i] = hex_value(l[i * 2]) * 16 + hex_value(l[i * 2 + 1]);
    }
}

// The bytes that `l` spells in hex, to the beginning of `out`: 0, or 24 or 25 where it is refused, and then `out` stays.
pub fn hex(l: &[u8], out: &mut [u8]) -> u32
    ensures value { result ≡ hex_refusal (length out.old) l.now }
    ensures kept { out.new ≡ hex_into out.old l.now }
{
    let number = hex_refusal(l, out.len());
    if number != 0 {
        return number;
    }
    put_unhex(l, out);
    0
}
