// The hashes of document 01, "Hashes".
ghost use Rattle.std.specs.Prelude.{◌≡◌};
ghost use Rattle.topics.specs.Hashes.{fnv1a, djb2, suffix_hash, client_hashes};
ghost use Rattle.topics.specs.Payload.{payload_hash};

use topics::hashes::{ClientHashes, client_hashes, djb2_hash, fnv1a_hash, suffix_hash};
use topics::payload::compute_payload_hash;

// FNV-1a, 32 bits.
pub fn hub_fnv1a_hash(bytes: &[u8]) -> u32
    ensures { result ≡ fnv1a bytes.now }
{
    fnv1a_hash(bytes)
}

// djb2, 32 bits.
pub fn hub_djb2_hash(bytes: &[u8]) -> u32
    ensures { result ≡ djb2 bytes.now }
{
    djb2_hash(bytes)
}

// djb2 of what stands past a topic's first 32 bytes, else 0.
pub fn hub_suffix_hash(topic: &[u8]) -> u32
    ensures { result ≡ suffix_hash topic.now }
{
    suffix_hash(topic)
}

// Both hashes of a client id, by value: two numbers of 32 bits.
pub fn hub_client_hashes(client_id: &[u8]) -> ClientHashes
    ensures { result ≡ client_hashes client_id.now }
{
    client_hashes(client_id)
}

// The payload hash. An array does not pass by value: the 32 bytes go into the caller's.
pub fn hub_compute_payload_hash(bytes: &[u8], out: &mut [u8; 32])
    ensures { out.new ≡ payload_hash bytes.now }
{
    *out = compute_payload_hash(bytes);
}
