// The words of a list spelled with bars, b"allow|block". Shared by the writer of words and the length of what it writes.
// One text and no slice of slices: `words_of` and the claims on words (specs/Round.antt) read it so.
ghost use Rattle.std.specs.Prelude.{◌≡◌};
ghost use Rattle.lines.specs.Word.{word_text};

// The word at place `k`; an empty one where there are not so many.
pub fn word_part(words: &[u8], k: usize) -> &[u8]
    ensures { result.now ≡ word_text words.now k }
{
    words.split(|b| *b == b'|').nth(k).unwrap_or(&[])
}
