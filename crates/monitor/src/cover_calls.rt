// Which rules can never speak, and a name by which it is seen that one can (request C-20). Both calls ask and change nothing; the monitor's own matcher decides.
ghost use Rattle.std.specs.Prelude.{◌≡◌};

use crate::refusal::Refusal;
use crate::state::MqttMonitor;
use tables::covers::{cover_report, rule_witness};
use tables::rules::RULES;
use topics::covering::Witness;

impl MqttMonitor {
    ghost use Rattle.monitor.specs.Covers.{covered_rules, later_name, told_covers, told_name};

    /// For each rule the number, from 1, of the first earlier one that matches every name that it matches; 0 for none.
    #[tactic(auto, unfolding(crate::specs::Covers::covered_rules))]
    pub fn covered_rules(&self) -> Result<[u8; RULES], Refusal>
        ensures { told_covers result ≡ covered_rules self.now }
    {
        self.checked()?;
        Ok(cover_report(&self.rules, usize::from(self.rule_count), self.matching))
    }

    /// A name that the later of two rules matches and the earlier does not, of length 0 where there is none; 9 where the one is not there or the other is not before it.
    #[tactic(auto, unfolding(crate::specs::Covers::later_name, crate::specs::State::well_formed))]
    pub fn later_name(&self, later: usize, earlier: usize) -> Result<Witness, Refusal>
        ensures { told_name result ≡ later_name self.now later earlier }
    {
        self.checked()?;
        if later >= usize::from(self.rule_count) || earlier >= later {
            return Err(Refusal::BadInput);
        }
        Ok(rule_witness(&self.rules[later], &self.rules[earlier], self.matching))
    }
}
