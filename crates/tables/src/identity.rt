// A topic's identity, made once a message, and the two tests of a held one against it (document 01, "Hashes"; 000 `matches_topic`, `make_topic_prefix`).
ghost use Rattle.std.specs.Prelude.{◌&&◌, ◌≡◌, eqb, take};
ghost use Rattle.slices.specs.Bytes.{same};

use slices::bytes::padded;
use topics::hashes::{djb2_hash, fnv1a_hash, suffix_hash};

// How many of a topic's first bytes an identity keeps.
pub const PREFIX: usize = 32;

// The Rust keeps these six fields in each bucket and each tracker. How many bytes of the prefix count is a number beside it: number 10 refuses states in which it is
// over 32, which a type would exclude.
#[derive(Clone, Copy, Debug, PartialEq, Eq)]
pub struct Id {
    pub hash: u32,
    pub hash2: u32,
    pub prefix: [u8; PREFIX],
    pub prefix_len: u8,
    pub len: u16,
    pub suffix_hash: u32,
}

impl Id {
    ghost use Rattle.tables.specs.Identity.{id_of, compared, is_of, is_removed};

    // The identity in a free place.
    pub const EMPTY: Id = Id {
        hash: 0,
        hash2: 0,
        prefix: [0; PREFIX],
        prefix_len: 0,
        len: 0,
        suffix_hash: 0,
    };

    // A topic's identity.
    #[tactic(auto, unfolding(crate::specs::Identity::id_of, crate::specs::Identity::prefix_of))]
    pub fn of(topic: &[u8]) -> Id
        ensures { result ≡ id_of topic.now }
    {
        Id {
            hash: fnv1a_hash(topic),
            hash2: djb2_hash(topic),
            prefix: padded(topic),
            prefix_len: topic.len().min(PREFIX) as u8,
            len: (topic.len() % 65_536) as u16,
            suffix_hash: suffix_hash(topic),
        }
    }

    // Whether a record is live and has this topic's length, then its hashes: what a message and a removal ask first. The record's come as numbers.
    pub fn numbers_agree(&self, live: bool, len: u16, hash: u32, hash2: u32) -> bool
        ensures { result ≡ (live && (eqb hash self.now.hash && eqb hash2 self.now.hash2 && eqb len self.now.len)) }
    {
        live && len == self.len && hash == self.hash && hash2 == self.hash2
    }

    // The same with the suffix hash, for a message.
    pub fn all_numbers_agree(
        &self,
        live: bool,
        len: u16,
        hash: u32,
        hash2: u32,
        suffix_hash: u32,
    ) -> bool
        ensures { result ≡ (live && (eqb hash self.now.hash && eqb hash2 self.now.hash2 && eqb len self.now.len && eqb suffix_hash self.now.suffix_hash)) }
    {
        self.numbers_agree(live, len, hash, hash2) && suffix_hash == self.suffix_hash
    }

    // What is left to ask for a message: the first bytes, as many as the record keeps and no more than this topic has.
    #[tactic(auto, using(crate::proofs::identity::PrefixLaws::take_min_32), unfolding(slices::specs::Bytes::same))]
    pub fn first_bytes_agree(&self, held: &Id) -> bool
        ensures { result ≡ same (take (compared held.now self.now) held.now.prefix) (take (compared held.now self.now) self.now.prefix) }
    {
        let n = usize::from(self.len)
            .min(usize::from(held.prefix_len))
            .min(PREFIX);
        held.prefix[..n] == self.prefix[..n]
    }

    // What is left to ask for a removal: all 32 bytes.
    #[tactic(auto, unfolding(slices::specs::Bytes::same))]
    pub fn prefixes_agree(&self, held: &Id) -> bool
        ensures { result ≡ same held.now.prefix self.now.prefix }
    {
        held.prefix == self.prefix
    }

    // Whether a held identity is that of a message's topic: the numbers, then as many of the first bytes as it keeps, and no more than the topic has.
    #[tactic(auto, unfolding(crate::specs::Identity::is_of))]
    pub fn is_of(&self, topic: &Id) -> bool
        ensures { result ≡ is_of topic.now self.now }
    {
        topic.all_numbers_agree(true, self.len, self.hash, self.hash2, self.suffix_hash)
            && topic.first_bytes_agree(self)
    }

    // The test of the two remove calls: no suffix hash, all 32 bytes.
    #[tactic(auto, unfolding(crate::specs::Identity::is_removed))]
    pub fn is_removed_by(&self, topic: &Id) -> bool
        ensures { result ≡ is_removed topic.now self.now }
    {
        topic.numbers_agree(true, self.len, self.hash, self.hash2) && topic.prefixes_agree(self)
    }
}
