// The payload hash (document 01, "Hashes"; 001 `compute_payload_hash`): five streams in one loop, then eight little-endian words.
ghost use Rattle.std.specs.Prelude.{◌≡◌, flat_map};
ghost use Rattle.topics.specs.Payload.{streams_start, streams_step, streams_of, word2, word4, word5, word6, word8, le_bytes, word_bytes, payload_hash};

use crate::hashes::{FNV_PRIME, FNV_START, fnv_step};

// The five streams, named as in the Rust.
#[derive(Clone, Copy, Debug, PartialEq, Eq)]
pub struct Streams {
    pub h1: u32,
    pub h3: u32,
    pub h7: u32,
    pub h9: u32,
    pub h10: u32,
}

// The streams before the first byte of n: two of them start from the length, as a word.
#[tactic(auto, unfolding(crate::specs::Payload::streams_start))]
fn streams_start(n: usize) -> Streams
    ensures { result ≡ streams_start n }
{
    let len = (n % 0x1_0000_0000) as u32;
    Streams {
        h1: FNV_START,
        h3: FNV_START,
        h7: FNV_START.wrapping_add(len),
        h9: FNV_START.wrapping_add(0xDEAD_BEEF),
        h10: FNV_START ^ len.wrapping_mul(0x9E37_79B9),
    }
}

// One byte more in each stream. The Rust's `b << 4` loses no bit of a byte, so it is `b * 16`.
#[tactic(auto, unfolding(crate::specs::Payload::streams_step))]
fn streams_step(s: Streams, byte: u8) -> Streams
    ensures { result ≡ streams_step s byte }
{
    let b = u32::from(byte);
    Streams {
        h1: fnv_step(s.h1, byte),
        h3: (s.h3.rotate_left(5) ^ b).wrapping_mul(FNV_PRIME),
        h7: fnv_step(s.h7, byte),
        h9: (s.h9.rotate_left(13) ^ b).wrapping_mul(0x6C62_272E),
        h10: (s.h10 ^ (b ^ (b * 16))).wrapping_mul(FNV_PRIME),
    }
}

// One loop over the bytes runs all five streams.
#[tactic(auto, unfolding(crate::specs::Payload::streams_of))]
fn streams_of(bytes: &[u8]) -> Streams
    ensures { result ≡ streams_of bytes.now }
{
    bytes.iter().fold(streams_start(bytes.len()), |s, byte| streams_step(s, *byte))
}

// Words 1, 3 and 7 are the streams h1, h3 and h7; the other five mix. Word 2: h1 and h9.
#[tactic(auto, unfolding(crate::specs::Payload::word2))]
fn word_2(s: Streams) -> u32
    ensures { result ≡ word2 s }
{
    s.h1.wrapping_mul(0x9E37_79B9) ^ s.h9.wrapping_mul(0x85EB_CA6B)
}

// Words 1 to 3, h9 and h10.
#[tactic(auto, unfolding(crate::specs::Payload::word4))]
fn word_4(s: Streams) -> u32
    ensures { result ≡ word4 s }
{
    s.h1.wrapping_mul(0x85EB_CA6B)
        ^ word_2(s).wrapping_mul(0xC2B2_AE35)
        ^ s.h3
        ^ s.h9.rotate_left(7)
        ^ s.h10.rotate_left(29)
}

// Word 4 and h10.
#[tactic(auto, unfolding(crate::specs::Payload::word5))]
fn word_5(s: Streams) -> u32
    ensures { result ≡ word5 s }
{
    word_4(s).wrapping_mul(0x6C62_272E).wrapping_add(s.h10)
}

// Words 1 to 4 and h9, each turned.
#[tactic(auto, unfolding(crate::specs::Payload::word6))]
fn word_6(s: Streams) -> u32
    ensures { result ≡ word6 s }
{
    s.h1.rotate_left(5)
        ^ word_2(s).rotate_left(29)
        ^ s.h3.rotate_left(11)
        ^ word_4(s).rotate_left(25)
        ^ s.h9.rotate_left(17)
}

// Words 5 to 7 and h10.
#[tactic(auto, unfolding(crate::specs::Payload::word8))]
fn word_8(s: Streams) -> u32
    ensures { result ≡ word8 s }
{
    word_5(s).wrapping_mul(0x9E37_79B9)
        ^ word_6(s).wrapping_add(s.h7)
        ^ s.h10.wrapping_mul(0xC2B2_AE35)
}

// Words as bytes, the least first in each.
fn le_words(words: &[u32; 8]) -> [u8; 32]
    ensures { result ≡ flat_map le_bytes words.now }
{
    let mut out = [0; 32];
    for (i, word) in words.iter().enumerate() {
        out[i * 4..i * 4 + 4].copy_from_slice(&word.to_le_bytes());
    }
    out
}

// The eight words, least byte first.
#[tactic(auto, unfolding(crate::specs::Payload::word_bytes))]
fn word_bytes(s: Streams) -> [u8; 32]
    ensures { result ≡ word_bytes s }
{
    le_words(&[
        s.h1,
        word_2(s),
        s.h3,
        word_4(s),
        word_5(s),
        word_6(s),
        s.h7,
        word_8(s),
    ])
}

// 32 zero bytes for no data.
pub fn compute_payload_hash(bytes: &[u8]) -> [u8; 32]
    ensures { result ≡ payload_hash bytes.now }
{
    if bytes.is_empty() {
        return [0; 32];
    }
    word_bytes(streams_of(bytes))
}
