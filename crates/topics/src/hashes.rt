// FNV-1a, djb2, the suffix hash and a client's two hashes (document 01, "Hashes"; 001 `fnv1a_hash`, 000 `djb2_hash`, `suffix_hash`, `client_hashes`).
ghost use Rattle.std.specs.Prelude.{◌≡◌};
ghost use Rattle.topics.specs.Hashes.{times, fnv_step, fnv1a, djb_step, djb2, suffix_hash, client_hashes};

// The two hashes by which CONNECT windows tell clients apart.
#[repr(C)]
#[derive(Clone, Copy, Debug, PartialEq, Eq)]
pub struct ClientHashes {
    pub hash: u32,
    pub hash2: u32,
}

// What FNV-1a starts from, and what it multiplies by.
pub(crate) const FNV_START: u32 = 0x811c_9dc5;

pub(crate) const FNV_PRIME: u32 = 0x0100_0193;

// The low 32 bits of a product: hashes wrap on purpose.
pub fn wrapping_mul32(a: u32, b: u32) -> u32
    ensures { result ≡ times a b }
{
    a.wrapping_mul(b)
}

// One byte more of FNV-1a.
pub fn fnv_step(hash: u32, byte: u8) -> u32
    ensures { result ≡ fnv_step hash byte }
{
    (hash ^ u32::from(byte)).wrapping_mul(FNV_PRIME)
}

// FNV-1a of all bytes.
#[tactic(auto, unfolding(crate::specs::Hashes::fnv1a))]
pub fn fnv1a_hash(bytes: &[u8]) -> u32
    ensures { result ≡ fnv1a bytes.now }
{
    bytes
        .iter()
        .fold(FNV_START, |hash, byte| fnv_step(hash, *byte))
}

// One byte more of djb2.
fn djb_step(hash: u32, byte: u8) -> u32
    ensures { result ≡ djb_step hash byte }
{
    hash.wrapping_mul(33).wrapping_add(u32::from(byte))
}

// djb2 of all bytes.
#[tactic(auto, unfolding(crate::specs::Hashes::djb2))]
pub fn djb2_hash(bytes: &[u8]) -> u32
    ensures { result ≡ djb2 bytes.now }
{
    bytes.iter().fold(5381, |hash, byte| djb_step(hash, *byte))
}

// The part of a topic past the 32 bytes that a bucket keeps.
pub fn suffix_hash(topic: &[u8]) -> u32
    ensures { result ≡ suffix_hash topic.now }
{
    if topic.len() <= 32 {
        return 0;
    }
    djb2_hash(&topic[32..])
}

// An empty client id shares one window with all others that are empty.
pub fn client_hashes(client_id: &[u8]) -> ClientHashes
    ensures { result ≡ client_hashes client_id.now }
{
    if client_id.is_empty() {
        return ClientHashes { hash: 0, hash2: 0 };
    }
    ClientHashes {
        hash: fnv1a_hash(client_id),
        hash2: djb2_hash(client_id),
    }
}
