// Where the limit stands after a whole trace (docs/STANDING.md), under either matcher.
ghost use Rattle.std.specs.Prelude.{◌≡◌, length};
ghost use Rattle.trace.specs.Standing.{standing_end, standing_kept};

use topics::matching::Matching;
use trace::run::TraceEnd;
use trace::standing::write_standing;

// The lines that follow a trace's answer, into the caller's buffer; 28 where that is too short, with nothing written. The rules are matched as the Rust does.
pub fn hub_standing(text: &[u8], out: &mut [u8]) -> TraceEnd
    ensures answer { result ≡ standing_end Matching.Port (length out.old) text.now }
    ensures buffer { out.new ≡ standing_kept Matching.Port out.old text.now }
{
    write_standing(text, Matching::Port, out)
}

// The same with rules that are matched as MQTT 3.1.1 section 4.7 has it.
pub fn hub_standing_standard(text: &[u8], out: &mut [u8]) -> TraceEnd
    ensures answer { result ≡ standing_end Matching.Standard (length out.old) text.now }
    ensures buffer { out.new ≡ standing_kept Matching.Standard out.old text.now }
{
    write_standing(text, Matching::Standard, out)
}
