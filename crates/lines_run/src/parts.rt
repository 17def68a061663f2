// The text of a question, `NAME ARG.. [TEXT]`.
use cut::{after, before};

// The text.
pub fn text(q: &[u8]) -> &[u8] {
    before(after(q, b'['), b']')
}

// The first byte of the text, or 0.
pub fn text_byte(q: &[u8]) -> u8 {
    text(q).first().copied().unwrap_or(0)
}
