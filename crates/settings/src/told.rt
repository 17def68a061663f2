// What a settings text sets, told to a person, and the text in another form: what the program `hubsettings` prints.
ghost use Rattle.std.specs.Prelude.{◌≡◌, ◌≤◌, length};
ghost use Rattle.lines.specs.Wrote.{Wrote};
ghost use Rattle.settings.specs.Refused.{found_told, refusal_number};
ghost use Rattle.settings.specs.Told.{closing_told, settings_told, settings_given, told_text, turned_text, told_room, told_end, turned_end, told_kept, turned_kept};

use crate::convert::convert_settings;
use crate::read::{SettingsFound, read_settings};
use crate::refusal::Refused;
use crate::rules::counted;
use crate::told_lines::{put_closing, put_head_told, put_rules_told};

// Room for what is told of any text.
pub(crate) const ROOM: usize = 16384;

// What stays of number and line beside the length: a refused text is told too, by its closing lines, and `tell_pair` tells 9 of a text that nothing refuses (clauses `answer`).
// How the text ended, 0 or the number that refuses it, its last line or the refused one, and how many bytes are told. 28, and nothing is told, where the lent buffer has less than 16,384 bytes.
#[derive(Clone, Copy, Debug, PartialEq, Eq)]
pub struct SettingsTold {
    pub number: u32,
    pub line: u64,
    pub length: usize,
}

// Nothing is told: the lent buffer is too small.
pub(crate) fn nothing_told() -> SettingsTold
    ensures { result ≡ record { number = 28; line = 0; length = 0 } }
{
    SettingsTold {
        number: 28,
        line: 0,
        length: 0,
    }
}

// The two closing lines, where they are all that is told.
pub(crate) fn tell_closing(out: &mut [u8], number: u32, line: u64) -> SettingsTold
    ensures text { Wrote out.old out.new 0 (closing_told number line) result.length }
    ensures short { length (closing_told number line) ≤ 60 }
    ensures ended { result ≡ record { number = number; line = line; length = result.length } }
{
    SettingsTold {
        number,
        line,
        length: put_closing(out, 0, number, line),
    }
}

// Those of a text that is refused.
pub(crate) fn tell_refused(out: &mut [u8], refused: Refused) -> SettingsTold
    ensures text { Wrote out.old out.new 0 (closing_told (refusal_number refused.refusal) refused.line) result.length }
    ensures short { length (closing_told (refusal_number refused.refusal) refused.line) ≤ 60 }
    ensures ended { result ≡ record { number = refusal_number refused.refusal; line = refused.line; length = result.length } }
{
    tell_closing(out, refused.refusal.number(), refused.line)
}

// The settings of a text that was read.
fn put_settings(out: &mut [u8], at: usize, found: &SettingsFound) -> usize
    requires { found.now.values.rules ≤ 32 }
    ensures text { Wrote out.old out.new at (settings_told (settings_given (found_told found.now))) result }
    ensures short { length (settings_told (settings_given (found_told found.now))) ≤ 10630 }
{
    let after_head = put_head_told(out, at, &found.values);
    put_rules_told(out, after_head, counted(&found.rules, found.values.rules))
}

// What is told, at the beginning of a lent buffer, whose other bytes stay.
pub fn tell_settings(text: &[u8], out: &mut [u8]) -> SettingsTold
    ensures answer { result ≡ told_end (length out.old) text.now }
    ensures buffer { out.new ≡ told_kept out.old text.now }
    ensures enough { told_room ≤ length out.old → length (told_text text.now) ≤ told_room }
{
    if out.len() < ROOM {
        return nothing_told();
    }
    match read_settings(text) {
        Ok(found) => {
            let after_closing = put_closing(out, 0, 0, found.line);
            SettingsTold {
                number: 0,
                line: found.line,
                length: put_settings(out, after_closing, &found),
            }
        }
        Err(refused) => tell_refused(out, refused),
    }
}

// The text in the form that is asked for, 0 for its own, at the beginning of a lent buffer; or, where a number refuses it, that number and its line, as the two lines that close an answer.
pub fn turn_settings(text: &[u8], form: u32, out: &mut [u8]) -> SettingsTold
    ensures answer { result ≡ turned_end form (length out.old) text.now }
    ensures buffer { out.new ≡ turned_kept form out.old text.now }
    ensures enough { told_room ≤ length out.old → length (turned_text form text.now) ≤ told_room }
{
    if out.len() < ROOM {
        return nothing_told();
    }
    match convert_settings(text, form, out) {
        Ok(converted) => SettingsTold {
            number: 0,
            line: converted.line,
            length: converted.length,
        },
        Err(refused) => tell_refused(out, refused),
    }
}
