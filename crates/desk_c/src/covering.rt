// Two patterns, an earlier and a later: can the later one ever speak, and where (request C-20)? `standard` says which of the two matchers is asked.
// `standard` is a flag, since C passes it.
ghost use Rattle.std.specs.Prelude.{◌≡◌};
ghost use Rattle.desk.specs.Covering.{pair_covers, pair_witness};

use desk::covering::PairWitness;

#[unsafe(no_mangle)]
pub extern "C" fn hub_covers(earlier: &[u8], later: &[u8], standard: bool) -> u32
    ensures { result ≡ pair_covers standard earlier.now later.now }
{
    desk::covering::hub_covers(earlier, later, standard)
}

#[unsafe(no_mangle)]
pub extern "C" fn hub_witness(earlier: &[u8], later: &[u8], standard: bool) -> PairWitness
    ensures { result ≡ pair_witness standard earlier.now later.now }
{
    desk::covering::hub_witness(earlier, later, standard)
}
