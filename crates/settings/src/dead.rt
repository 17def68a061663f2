// Which rules of a settings text can never speak, and what stands between two of them, told to a person (request C-20): what the program `hubsettings` prints when it is asked for that.
ghost use Rattle.std.specs.Prelude.{true, ◌≡◌, ◌≤◌, length};
ghost use Rattle.lines.specs.Wrote.{Wrote};
ghost use Rattle.settings.specs.Dead.{dead_of, dead_text, dead_end, dead_kept, is_pair, pair_of, pair_text, pair_end, pair_kept};
ghost use Rattle.settings.specs.Refused.{found_told};
ghost use Rattle.settings.specs.Told.{told_room};

use crate::dead_lines::{put_between, put_report};
use crate::read::{SettingsFound, read_settings};
use crate::told::{ROOM, SettingsTold, nothing_told, tell_closing, tell_refused};
use crate::told_lines::put_closing;
use tables::covers::{cover_report, rule_witness};

// Of a text that was read: how it ended, and its rules that can never speak.
fn put_dead_rules(out: &mut [u8], found: &SettingsFound) -> usize
    requires { found.now.values.rules ≤ 32 }
    ensures text { Wrote out.old out.new 0 (dead_of (found_told found.now)) result }
    ensures short { length (dead_of (found_told found.now)) ≤ 16384 }
{
    let after_closing = put_closing(out, 0, 0, found.line);
    let covers = cover_report(
        &found.rules,
        usize::from(found.values.rules),
        found.values.matching,
    );
    put_report(out, after_closing, &found.rules, &covers)
}

// The rules of a text that can never speak, each with the rule that hides it, at the beginning of a lent buffer, whose other bytes stay.
pub fn tell_dead(text: &[u8], out: &mut [u8]) -> SettingsTold
    ensures answer { result ≡ dead_end (length out.old) text.now }
    ensures buffer { out.new ≡ dead_kept out.old text.now }
    ensures enough { told_room ≤ length out.old → length (dead_text text.now) ≤ told_room }
{
    if out.len() < ROOM {
        return nothing_told();
    }
    match read_settings(text) {
        Ok(found) => SettingsTold {
            number: 0,
            line: found.line,
            length: put_dead_rules(out, &found),
        },
        Err(refused) => tell_refused(out, refused),
    }
}

// Two rules of a text, an earlier and a later, by their numbers from 1.
#[tactic(auto, unfolding(crate::specs::Dead::is_pair))]
fn is_pair(count: u64, later: u64, earlier: u64) -> bool
    ensures { result ≡ is_pair count later earlier }
{
    0 < earlier && earlier < later && later <= count
}

// What is told of two rules.
fn put_pair(out: &mut [u8], found: &SettingsFound, later: u64, earlier: u64) -> usize
    requires is_pair { is_pair found.now.values.rules later earlier ≡ true }
    requires rule_count_bound { found.now.values.rules ≤ 32 }
    ensures text { Wrote out.old out.new 0 (pair_of later earlier (found_told found.now)) result }
    ensures short { length (pair_of later earlier (found_told found.now)) ≤ 16384 }
{
    let last = &found.rules[later as usize - 1];
    let first = &found.rules[earlier as usize - 1];
    let witness = rule_witness(last, first, found.values.matching);
    put_between(out, 0, later, earlier, &witness)
}

// A topic that the later of two rules matches and the earlier does not, or that there is none, at the beginning of a lent buffer; 9 where they are not a later and an earlier rule of the text.
pub fn tell_pair(text: &[u8], later: u64, earlier: u64, out: &mut [u8]) -> SettingsTold
    ensures answer { result ≡ pair_end later earlier (length out.old) text.now }
    ensures buffer { out.new ≡ pair_kept later earlier out.old text.now }
    ensures enough { told_room ≤ length out.old → length (pair_text later earlier text.now) ≤ told_room }
{
    if out.len() < ROOM {
        return nothing_told();
    }
    match read_settings(text) {
        Ok(found) => {
            if !is_pair(u64::from(found.values.rules), later, earlier) {
                return tell_closing(out, 9, found.line);
            }
            SettingsTold {
                number: 0,
                line: found.line,
                length: put_pair(out, &found, later, earlier),
            }
        }
        Err(refused) => tell_refused(out, refused),
    }
}
