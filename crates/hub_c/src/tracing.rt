// A whole trace (document 01, "The trace"), under either matcher (request C-15).
ghost use Rattle.std.specs.Prelude.{◌≡◌, length};
ghost use Rattle.trace.specs.Trace.{whole_end, trace_end, trace_kept};

use topics::matching::Matching;
use trace::run::TraceEnd;

// Text in, text out, into the caller's buffer; 28 where that is too short, with nothing written. The rules are matched as the Rust does.
#[unsafe(no_mangle)]
pub extern "C" fn hub_trace(text: &[u8], out: &mut [u8]) -> TraceEnd
    ensures answer { result ≡ trace_end Matching.Port (length out.old) text.now }
    ensures buffer { out.new ≡ trace_kept Matching.Port out.old text.now }
{
    hub::tracing::hub_trace(text, out)
}

// What `hub_trace` hands back where there is room for all lines: its length is the room that it needs.
#[unsafe(no_mangle)]
pub extern "C" fn hub_trace_length(text: &[u8]) -> TraceEnd
    ensures { result ≡ whole_end Matching.Port text.now }
{
    hub::tracing::hub_trace_length(text)
}

// The same text in and the same lines out, with rules that are matched as MQTT 3.1.1 section 4.7 has it.
#[unsafe(no_mangle)]
pub extern "C" fn hub_trace_standard(text: &[u8], out: &mut [u8]) -> TraceEnd
    ensures answer { result ≡ trace_end Matching.Standard (length out.old) text.now }
    ensures buffer { out.new ≡ trace_kept Matching.Standard out.old text.now }
{
    hub::tracing::hub_trace_standard(text, out)
}

// What `hub_trace_standard` hands back where there is room for all lines.
#[unsafe(no_mangle)]
pub extern "C" fn hub_trace_standard_length(text: &[u8]) -> TraceEnd
    ensures { result ≡ whole_end Matching.Standard text.now }
{
    hub::tracing::hub_trace_standard_length(text)
}
