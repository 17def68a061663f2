// A whole settings text, read: the settings themselves and where they stand, without a monitor.
ghost use Rattle.std.specs.Prelude.{◌≡◌};
ghost use Rattle.settings.specs.Kept.{read_of};
ghost use Rattle.settings.specs.Refused.{read_told};

use crate::head::{HeadValues, read_head};
use crate::refusal::{Refused, SettingsRefusal, check_line};
use crate::rules::read_rules;
use lines::read::text_end;
use tables::rules::{RULES, TopicRule};

// How long a text may be.
const TEXT_MAX: usize = 65536;

// What a text gave: the settings, the last line, and `rules_from`, where the first rule's lines begin.
// A place and no slice: request C-21 reads the text from there (docs/DECISIONS.md, 37).
#[derive(Clone, Copy, Debug, PartialEq, Eq)]
pub struct SettingsFound {
    pub line: u64,
    pub values: HeadValues,
    pub rules_from: usize,
    pub rules: [TopicRule; RULES],
}

// 27 is tested first; then the lines in their order; then that nothing stands after the last.
pub fn read_settings(text: &[u8]) -> Result<SettingsFound, Refused>
    ensures { read_told result ≡ read_of text.now }
{
    if TEXT_MAX < text.len() {
        return Err(Refused {
            refusal: SettingsRefusal::LongText,
            line: 0,
        });
    }
    let head = read_head(text)?;
    let found = read_rules(text, head.next, head.line, head.values.rules)?;
    check_line(text_end(text, found.next), found.line + 1)?;
    let rules = found.rules;
    Ok(SettingsFound {
        line: found.line,
        values: head.values,
        rules_from: head.next,
        rules,
    })
}
