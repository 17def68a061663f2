// A settings text, loaded and written back, in its own form or the other one (requests C-13 and C-18).
ghost use Rattle.std.specs.Prelude.{◌≡◌, length};
ghost use Rattle.settings.specs.Convert.{convert_end, convert_kept};
ghost use Rattle.settings.specs.Refused.{end_told};

use settings::convert::{Converted, SettingsEnd, convert_settings};
use settings::refusal::Refused;

// How a conversion ended, as C reads it.
fn end_of(converted: Result<Converted, Refused>) -> SettingsEnd
    ensures { result ≡ end_told converted }
{
    match converted {
        Ok(done) => SettingsEnd {
            number: 0,
            line: done.line,
            length: done.length,
        },
        Err(refused) => SettingsEnd {
            number: refused.refusal.number(),
            line: refused.line,
            length: 0,
        },
    }
}

// Text in, text out, into the caller's buffer, in the form that is asked for, 0 for the text's own. Whatever refuses it, nothing is written.
pub fn hub_settings(text: &[u8], form: u32, out: &mut [u8]) -> SettingsEnd
    ensures answer { result ≡ convert_end form (length out.old) text.now }
    ensures buffer { out.new ≡ convert_kept form out.old text.now }
{
    end_of(convert_settings(text, form, out))
}
