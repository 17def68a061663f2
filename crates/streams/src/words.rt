// The words behind a program's name.
ghost use Rattle.std.specs.Prelude.{length};
ghost use Rattle.io.specs.Counts.{IsPrefixLen};

use std::env::FillError;
use std::rt::Env;

// The word at place `k`, the program's name being 0, at the beginning of `word`; and its length, 0 where there is none, or one that is longer than `word`.
pub fn word_at<R: Env>(rt: &R, k: usize, word: &mut [u8]) -> usize
    ensures { IsPrefixLen result word.new }
{
    rt.arg(k, word).unwrap_or(0)
}

// Whether there is a word at place `k`.
pub fn is_there<R: Env>(rt: &R, k: usize) -> bool {
    !matches!(rt.arg(k, &mut []), Err(FillError::NotPresent))
}
