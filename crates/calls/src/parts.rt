// Arguments that are numbers of fewer than 64 bits: 0 where one is too large.
use cut::args::number;

// An argument that is a number of 32 bits.
pub fn number32(q: &[u8], k: usize) -> u32 {
    u32::try_from(number(q, k)).unwrap_or(0)
}

// The same, of 16 bits.
pub fn number16(q: &[u8], k: usize) -> u16 {
    u16::try_from(number(q, k)).unwrap_or(0)
}

// The same, of 8 bits.
pub fn number8(q: &[u8], k: usize) -> u8 {
    u8::try_from(number(q, k)).unwrap_or(0)
}
