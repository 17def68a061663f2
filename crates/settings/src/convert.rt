// A settings text loaded and written back in a form, for whoever has texts and no monitor.
ghost use Rattle.std.specs.Prelude.{◌≡◌, length};
ghost use Rattle.settings.specs.Convert.{form_meant, line_for, convert_end, convert_kept};
ghost use Rattle.settings.specs.Refused.{end_told, refusal_number};

use crate::head::HeadValues;
use crate::read::read_settings;
use crate::refusal::{Refused, SettingsRefusal};
use crate::write::write_text;

// What C reads of how it ended: 0, with the last line and how many bytes were written; or a number, with the line of the text that it refuses, which is the last one for
// 37, and 0 where it is of none (27, a form that is asked for and not known, 28).
#[repr(C)]
#[derive(Clone, Copy, Debug, PartialEq, Eq)]
pub struct SettingsEnd {
    pub number: u32,
    pub line: u64,
    pub length: usize,
}

// A text in the form that was asked for: its last line, and how many bytes were written.
#[derive(Clone, Copy, Debug, PartialEq, Eq)]
pub struct Converted {
    pub line: u64,
    pub length: usize,
}

// The form that is meant: 0 stands for the text's own.
fn form_meant(form: u32, own: u32) -> u32
    ensures { result ≡ form_meant form own }
{
    if form == 0 {
        return own;
    }
    form
}

// The line at which a writing stands that was refused: 37 is about what the text says, and stands at its last line.
fn line_for(line: u64, refusal: SettingsRefusal) -> u64
    ensures { result ≡ line_for line (refusal_number refusal) }
{
    if refusal == SettingsRefusal::NoWord {
        return line;
    }
    0
}

// The text's settings in the form that is asked for, 0 for its own, at the beginning of a lent buffer. Whatever refuses it, nothing is written.
// A number, since it answers for every one: 29 where the form is not known.
pub fn convert_settings(text: &[u8], form: u32, out: &mut [u8]) -> Result<Converted, Refused>
    ensures answer { end_told result ≡ convert_end form (length out.old) text.now }
    ensures buffer { out.new ≡ convert_kept form out.old text.now }
{
    let found = read_settings(text)?;
    let head = HeadValues {
        form: form_meant(form, found.values.form),
        ..found.values
    };
    match write_text(&head, &found.rules, out) {
        Ok(length) => Ok(Converted {
            line: found.line,
            length,
        }),
        Err(refusal) => Err(Refused {
            refusal,
            line: line_for(found.line, refusal),
        }),
    }
}
