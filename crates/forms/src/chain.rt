// Lines one after another: each is read only where those before it were, so that a group of lines is read with no branch between them, and one test at its end.
ghost use Rattle.std.specs.Prelude.{◌≡◌};
ghost use Rattle.forms.specs.Chain.{begun, lined_of, number_after, word_after};

use lines::read::{Field, number_field, word_field};

// What the lines of a group gave up to one. Where a line was refused: its number, and which line of the group it is, the first being 0. Else the last line's value, where that stands in
// the text (from..to), and the place after the line.
#[derive(Clone, Copy, Debug, PartialEq, Eq)]
pub struct Lined {
    pub number: u32,
    pub line: u32,
    pub value: u64,
    pub from: usize,
    pub to: usize,
    pub next: usize,
}

// Before the first line, at a place of the text.
pub fn begin(at: usize) -> Lined
    ensures { result ≡ begun at }
{
    Lined {
        number: 0,
        line: 0,
        value: 0,
        from: at,
        to: at,
        next: at,
    }
}

// A line of a group.
fn lined_as(line: u32, field: Field) -> Lined
    ensures { result ≡ lined_of line field }
{
    Lined {
        number: field.number,
        line,
        value: field.value,
        from: field.from,
        to: field.to,
        next: field.next,
    }
}

// A line with a number in low..high after others.
pub fn number_after(text: &[u8], before: Lined, line: u32, key: &[u8], low: u64, high: u64) -> Lined
    ensures { result ≡ number_after text.now before line key.now low high }
{
    if before.number != 0 {
        return before;
    }
    lined_as(line, number_field(text, before.next, key, low, high))
}

// A line with one of some words after others; its value is the word's place among them.
pub fn word_after(text: &[u8], before: Lined, line: u32, key: &[u8], words: &[u8]) -> Lined
    ensures { result ≡ word_after text.now before line key.now words.now }
{
    if before.number != 0 {
        return before;
    }
    lined_as(line, word_field(text, before.next, key, words))
}
