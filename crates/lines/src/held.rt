// The trace reader keeps the lent text and its place together (document 01, "The forms we use").
// A line is found by `span_at`, on a plain slice; `line_here` hands it the reader's fields, and
// `span_from`, with plain parameters again, is what the readers of fields call.
ghost use Rattle.std.specs.Prelude.{◌≡◌};
ghost use Rattle.lines.specs.Span.{span_of};

use slices::bytes::find_byte;

// A text, lent, and a place in it.
#[derive(Drop)]
pub struct TraceReader<'a> {
    pub text: &'a [u8],
    pub at: usize,
}

// A line of a text: from its place to its LF, or to the text's end; whole where the LF is there.
#[derive(Clone, Copy, Debug, PartialEq, Eq)]
pub struct Span {
    pub whole: bool,
    pub from: usize,
    pub to: usize,
}

// The line at `at`.
#[tactic(auto, unfolding(crate::specs::Span::span_of))]
pub fn span_at(text: &[u8], at: usize) -> Span
    ensures { result ≡ span_of text.now at }
{
    let to = find_byte(text, at, b'\n');
    Span {
        whole: to < text.len(),
        from: at.min(text.len()),
        to,
    }
}

// A reader of `text` at the place `at`.
pub fn new<'a>(text: &'a [u8], at: usize) -> TraceReader<'a>
    ensures { (result.text ≡ text.entry) × (result.at ≡ at) }
{
    TraceReader { text, at }
}

// The line at the reader's place.
pub fn line_here<'a>(r: TraceReader<'a>) -> Span
    ensures { result ≡ span_of r.entry.text.now r.entry.at }
{
    span_at(r.text, r.at)
}

// The line at `at`, through a reader.
pub fn span_from(text: &[u8], at: usize) -> Span
    ensures { result ≡ span_of text.now at } // as `span_at` has it
{
    line_here(new(text, at))
}
