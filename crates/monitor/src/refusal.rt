// Why a call is refused: nothing changed. Each reason has the number that a person is told (docs/NUMBERS.md).
ghost use Rattle.std.specs.Prelude.{◌≡◌};

use tables::rules::RuleRefusal;

#[derive(Clone, Copy, Debug, PartialEq, Eq)]
pub enum Refusal {
    /// All 32 rules are held.
    TableFull = 6,
    /// The topic has no bucket or no tracker.
    NotHeld = 7,
    /// An index past the rules, a length past what is lent or kept, or a pattern that no rule may have.
    BadInput = 9,
    /// The state is one that no call hands out.
    Malformed = 10,
    /// The pattern is not UTF-8.
    NotUtf8 = 36,
}

impl Refusal {
    ghost use Rattle.monitor.specs.Refusal.{refusal_number};

    /// The number that a person is told.
    pub fn number(self) -> u32
        ensures { result ≡ refusal_number self }
    {
        self as u32
    }
}

impl From<RuleRefusal> for Refusal {
    ghost use Rattle.std.specs.Prelude.{◌≡◌};
    ghost use Rattle.tables.specs.Rules.{rule_number};
    ghost use Rattle.monitor.specs.Refusal.{refusal_number};

    ghost from_gives = { λ rule refusal. refusal_number refusal ≡ rule_number rule };

    fn from(why: RuleRefusal) -> Refusal {
        match why {
            RuleRefusal::TableFull => Refusal::TableFull,
            RuleRefusal::BadPattern => Refusal::BadInput,
            RuleRefusal::NotUtf8 => Refusal::NotUtf8,
        }
    }
}
