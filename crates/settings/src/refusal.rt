// Why a settings text is not read, and why settings are not written.
ghost use Rattle.std.specs.Prelude.{◌≡◌};
ghost use Rattle.tables.specs.Rules.{rule_number};
ghost use Rattle.settings.specs.Refused.{refusal_number, refusal_at, line_checked};

use tables::rules::RuleRefusal;

/// Why a settings text is not read, or why settings are not written.
#[derive(Clone, Copy, Debug, PartialEq, Eq)]
pub enum SettingsRefusal {
    /// The table of rules is full, which it never is here: a text has at most 32 rules.
    TableFull = 6,
    /// A rule's pattern is not one that a rule may have.
    BadPattern = 9,
    /// A monitor that no call hands out.
    BadState = 10,
    /// A line's key is not the one that must come there.
    WrongKey = 21,
    /// A number that is none, or out of its range.
    BadNumber = 22,
    /// A word that is not one of those allowed there.
    UnknownWord = 23,
    /// Hex that is none.
    BadHex = 24,
    /// More hex than there is room for.
    LongHex = 25,
    /// No LF before the end.
    NoLineEnd = 26,
    /// A text over 65,536 bytes.
    LongText = 27,
    /// The lent buffer is shorter than the text.
    NoRoom = 28,
    /// A form that is not known.
    UnknownForm = 29,
    /// An earlier rule has the pattern.
    GivenTwice = 35,
    /// A rule's pattern is not UTF-8.
    NotUtf8 = 36,
    /// Form 1 has no word for the standard matcher.
    NoWord = 37,
}

impl SettingsRefusal {
    ghost use Rattle.settings.specs.Refused.{refusal_number};

    /// The number that a person is told (docs/NUMBERS.md).
    pub fn number(self) -> u32
        ensures { result ≡ refusal_number self }
    {
        self as u32
    }
}

impl From<RuleRefusal> for SettingsRefusal {
    ghost from_gives = { λ rule settings. refusal_number settings ≡ rule_number rule };

    fn from(refusal: RuleRefusal) -> SettingsRefusal {
        match refusal {
            RuleRefusal::TableFull => SettingsRefusal::TableFull,
            RuleRefusal::BadPattern => SettingsRefusal::BadPattern,
            RuleRefusal::NotUtf8 => SettingsRefusal::NotUtf8,
        }
    }
}

/// What refuses a settings text, and at which line, counted from 1; 0 is no line of the text.
#[derive(Clone, Copy, Debug, PartialEq, Eq)]
pub struct Refused {
    pub refusal: SettingsRefusal,
    pub line: u64,
}

// The refusal of a line that was refused by a number: `lines` gives 21 to 26, and the form's line 29.
#[tactic(auto, unfolding(crate::specs::Refused::refusal_at))]
fn refusal_at(number: u32) -> SettingsRefusal
    ensures { result ≡ refusal_at number }
{
    match number {
        21 => SettingsRefusal::WrongKey,
        22 => SettingsRefusal::BadNumber,
        23 => SettingsRefusal::UnknownWord,
        24 => SettingsRefusal::BadHex,
        25 => SettingsRefusal::LongHex,
        26 => SettingsRefusal::NoLineEnd,
        _ => SettingsRefusal::UnknownForm,
    }
}

// Goes on after a line that was read, whose number is 0.
pub(crate) fn check_line(number: u32, line: u64) -> Result<(), Refused>
    ensures { result ≡ line_checked number line }
{
    if number != 0 {
        return Err(Refused {
            refusal: refusal_at(number),
            line,
        });
    }
    Ok(())
}
