// A settings text, loaded: a fresh monitor that has its settings; or what refuses it, beside one that denies all.
ghost use Rattle.std.specs.Prelude.{◌≡◌};
ghost use Rattle.settings.specs.Loaded.{loaded_of};
ghost use Rattle.settings.specs.Refused.{loaded_told};
ghost use Rattle.settings.specs.SettingsText.{settings_of};

use crate::read::read_settings;
use crate::refusal::SettingsRefusal;
use monitor::state::MqttMonitor;
use tables::rules::TopicAction;
use topics::matching::Matching;

/// What a text loaded to: the form of its text or what refuses it, the last line or the refused one, and the monitor. Where `outcome` refuses the text at `line` nothing of it is kept: the monitor is
/// then a fresh one that denies all, so that whoever forgets to look opens nothing.
#[derive(Clone, Copy, Debug, PartialEq, Eq)]
pub struct Loaded {
    pub outcome: Result<u32, SettingsRefusal>,
    pub line: u64,
    pub monitor: MqttMonitor,
}

// No monitor is taken: whoever has one keeps it until this one is there. It denies all until a text sets it, so that there is one monitor on the stack, whatever the text.
pub fn load_settings(text: &[u8]) -> Loaded
    ensures { loaded_told result ≡ loaded_of (settings_of text.now) }
{
    let mut m = MqttMonitor::fresh(Matching::Port, TopicAction::Block);
    let (outcome, line) = match read_settings(text) {
        Ok(found) => {
            m.matching = found.values.matching;
            m.default_action = found.values.default_action;
            m.rules.copy_from_slice(&found.rules);
            m.rule_count = found.values.rules;
            m.connect_storm_threshold = found.values.threshold;
            m.connect_storm_window_us = found.values.window;
            (Ok(found.values.form), found.line)
        }
        Err(refused) => (Err(refused.refusal), refused.line),
    };
    Loaded {
        outcome,
        line,
        monitor: m,
    }
}
