// A monitor's settings, written into a lent buffer, and how long their text is. They are written as they stand in the monitor, in the form that is asked for.
ghost use Rattle.std.specs.Prelude.{◌≡◌, true, length};
ghost use Rattle.laws.specs.Refusals.{refusal};
ghost use Rattle.monitor.specs.State.{well_formed};
ghost use Rattle.settings.specs.Loaded.{length_of, written_of, text_kept};
ghost use Rattle.settings.specs.Refused.{refusal_number, head_in, monitor_by, write_told};
ghost use Rattle.settings.specs.SettingsText.{form_refusal};

use crate::head::{HeadValues, head_len, put_head};
use crate::refusal::SettingsRefusal;
use crate::rules::{counted, put_rules, rules_len};
use monitor::state::MqttMonitor;
use tables::rules::{RULES, TopicRule};
use topics::matching::Matching;

// A form's refusal for settings with this matcher.
// Any number may be asked for.
#[tactic(auto, unfolding(crate::specs::SettingsText::form_refusal))]
fn check_form(form: u32, matching: Matching) -> Result<(), SettingsRefusal>
    ensures { refusal refusal_number result ≡ form_refusal form matching }
{
    match (form, matching) {
        (2, _) => Ok(()),
        (1, Matching::Port) => Ok(()),
        (1, Matching::Standard) => Err(SettingsRefusal::NoWord),
        _ => Err(SettingsRefusal::UnknownForm),
    }
}

// The lines before the rules, as a monitor has them.
fn head_in(m: &MqttMonitor, form: u32) -> HeadValues
    ensures { result ≡ head_in form m.now }
{
    HeadValues {
        form,
        default_action: m.default_action,
        matching: m.matching,
        threshold: m.connect_storm_threshold,
        window: m.connect_storm_window_us,
        rules: m.rule_count,
    }
}

// How many bytes the text of some lines and rules has. Number 10 refuses none of them, so it is not asked.
fn text_length(head: &HeadValues, rules: &[TopicRule; RULES]) -> Result<usize, SettingsRefusal>
    requires { well_formed (monitor_by head.now rules.now) ≡ true }
    ensures { write_told result ≡ length_of head.now.form (monitor_by head.now rules.now) }
{
    check_form(head.form, head.matching)?;
    Ok(head_len(head) + rules_len(counted(rules, head.rules)))
}

// The text of some lines and rules at the beginning of a lent buffer: that of the monitor that has them. None is made, so that where a text is only turned into the other form
// (`convert_settings`) no monitor of 8 KB lies on the stack.
pub(crate) fn write_text(
    head: &HeadValues,
    rules: &[TopicRule; RULES],
    out: &mut [u8],
) -> Result<usize, SettingsRefusal>
    requires { well_formed (monitor_by head.now rules.now) ≡ true }
    ensures answer { write_told result ≡ written_of head.now.form (monitor_by head.now rules.now) (length out.old) }
    ensures buffer { out.new ≡ text_kept head.now.form (monitor_by head.now rules.now) out.old }
{
    let wanted = text_length(head, rules)?;
    if out.len() < wanted {
        return Err(SettingsRefusal::NoRoom);
    }
    let next = put_head(out, 0, head);
    put_rules(out, next, counted(rules, head.rules));
    Ok(wanted)
}

// How many bytes the text of a monitor's settings has. 10 comes first, then 29 for a form that is not known or 37 for form 1 of a monitor that matches by the standard.
pub fn settings_length(m: &MqttMonitor, form: u32) -> Result<usize, SettingsRefusal>
    ensures { write_told result ≡ length_of form m.now }
{
    if !m.is_well_formed() {
        return Err(SettingsRefusal::BadState);
    }
    text_length(&head_in(m, form), &m.rules)
}

// The text at the beginning of a lent buffer, whose other bytes stay, and its length; 28 comes last, where there is no room. Where it is refused all bytes stay.
pub fn write_settings(m: &MqttMonitor, form: u32, out: &mut [u8]) -> Result<usize, SettingsRefusal>
    ensures answer { write_told result ≡ written_of form m.now (length out.old) }
    ensures buffer { out.new ≡ text_kept form m.now out.old }
{
    if !m.is_well_formed() {
        return Err(SettingsRefusal::BadState);
    }
    write_text(&head_in(m, form), &m.rules, out)
}
