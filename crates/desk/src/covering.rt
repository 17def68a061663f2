// Two patterns, an earlier and a later: can the later one ever speak, and where (request C-20)? `standard` says which of the two matchers is asked.
// `standard` is a flag, since C passes it.
ghost use Rattle.std.specs.Prelude.{◌≡◌};
ghost use Rattle.desk.specs.Covering.{pair_refusal, pair_covers, pair_witness};
ghost use Rattle.laws.specs.Refusals.{refusal};
ghost use Rattle.topics.specs.Patterns.{pattern_number};

use topics::covering::{covers, find_witness};
use topics::patterns::{PatternRefusal, check_pattern};

// A name that only the later pattern matches, zeros after it. The length is 0 where there is none, and where `number` refuses a pattern.
// A number beside values, since C reads it (include/hub.h).
#[repr(C)]
#[derive(Clone, Copy, Debug, PartialEq, Eq)]
pub struct PairWitness {
    pub number: u32,
    pub length: usize,
    pub name: [u8; 128],
}

// Whether both patterns are taken; the earlier one is asked first.
#[tactic(auto, unfolding(crate::specs::Covering::pair_refusal))]
fn check_pair(earlier: &[u8], later: &[u8]) -> Result<(), PatternRefusal>
    ensures { refusal pattern_number result ≡ pair_refusal earlier.now later.now }
{
    check_pattern(earlier)?;
    check_pattern(later)
}

// Whether the earlier pattern matches every name that the later one matches: 1 yes, 0 no, else the number that refuses a pattern.
#[tactic(auto, unfolding(crate::specs::Covering::pair_covers))]
pub fn hub_covers(earlier: &[u8], later: &[u8], standard: bool) -> u32
    ensures { result ≡ pair_covers standard earlier.now later.now }
{
    if let Err(refusal) = check_pair(earlier, later) {
        return refusal.number();
    }
    if covers(earlier, later, standard, standard) {
        return 1;
    }
    0
}

// A name that the later pattern matches and the earlier does not.
#[tactic(auto, unfolding(crate::specs::Covering::pair_witness))]
pub fn hub_witness(earlier: &[u8], later: &[u8], standard: bool) -> PairWitness
    ensures { result ≡ pair_witness standard earlier.now later.now }
{
    if let Err(refusal) = check_pair(earlier, later) {
        return PairWitness {
            number: refusal.number(),
            length: 0,
            name: [0; 128],
        };
    }
    let found = find_witness(earlier, later, standard, standard);
    let name = found.name;
    PairWitness {
        number: 0,
        length: found.len,
        name,
    }
}
