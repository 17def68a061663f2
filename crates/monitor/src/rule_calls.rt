// Calls on the rules (document 01, "Numbers handed back"; 000 `add_rule`, `remove_rule`, `swap_rules`, `clear_rules`, `validate_rules`). Where a new rule goes is decided
// by `tables::rules::plan_rule`, from the table alone.
ghost use Rattle.std.specs.Prelude.{◌≡◌, ◌<◌, ◌≤◌};
ghost use Rattle.monitor.specs.Calls.{without};

use crate::refusal::Refusal;
use crate::state::{MqttMonitor, free_rules};
use tables::rules::{QosPolicy, RULES, TopicAction, TopicRule, plan_rule, shadow_count};

// The rule at a place goes: later ones move up, and the last place is free.
#[tactic(auto, unfolding(crate::specs::Calls::without))]
fn take_out(rules: &mut [TopicRule; RULES], at: usize, count: usize)
    requires { (at < count) × (count ≤ 32) }
    ensures { rules.new ≡ without rules.old at count }
{
    rules.copy_within(at + 1..count, at);
    rules[count - 1] = TopicRule::FREE;
}

impl MqttMonitor {
    ghost use Rattle.monitor.specs.Calls.{shadows_in, add_rule, remove_rule, swap_rules, clear_rules, validate_rules};
    ghost use Rattle.monitor.specs.Ended.{told_value, told_done};

    // How many rules an earlier one shadows.
    fn shadows(&self) -> u16
        ensures { result ≡ shadows_in self.now }
    {
        shadow_count(&self.rules, usize::from(self.rule_count))
    }

    // Adds a rule, or changes the settings of the one with its pattern; success hands back the shadow count.
    #[tactic(auto, unfolding(crate::specs::Calls::add_rule))]
    pub fn add_rule(
        &mut self,
        pattern: &[u8],
        action: TopicAction,
        qos_policy: QosPolicy,
        max_rate_per_sec: u16,
    ) -> Result<u16, Refusal>
        ensures outcome { told_value result ≡ (add_rule self.old pattern.now action qos_policy max_rate_per_sec).outcome }
        ensures state { self.new ≡ (add_rule self.old pattern.now action qos_policy max_rate_per_sec).monitor }
    {
        self.checked()?;
        let placement = plan_rule(
            &self.rules,
            self.rule_count,
            pattern,
            action,
            qos_policy,
            max_rate_per_sec,
        )?;
        self.rules[placement.at] = placement.rule;
        self.rule_count = placement.count;
        Ok(self.shadows())
    }

    // Removes the rule at an index; 9 where there is none.
    #[tactic(auto, unfolding(crate::specs::Calls::remove_rule, crate::specs::State::well_formed))]
    pub fn remove_rule(&mut self, index: usize) -> Result<(), Refusal>
        ensures outcome { told_done result ≡ (remove_rule self.old index).outcome }
        ensures state { self.new ≡ (remove_rule self.old index).monitor }
    {
        self.checked()?;
        let count = usize::from(self.rule_count);
        if index >= count {
            return Err(Refusal::BadInput);
        }
        take_out(&mut self.rules, index, count);
        self.rule_count -= 1;
        Ok(())
    }

    // Exchanges two rules, and so their order; 9 where either is not there.
    #[tactic(auto, unfolding(crate::specs::Calls::swap_rules, crate::specs::State::well_formed))]
    pub fn swap_rules(&mut self, a: usize, b: usize) -> Result<(), Refusal>
        ensures outcome { told_done result ≡ (swap_rules self.old a b).outcome }
        ensures state { self.new ≡ (swap_rules self.old a b).monitor }
    {
        self.checked()?;
        let count = usize::from(self.rule_count);
        if a >= count || b >= count {
            return Err(Refusal::BadInput);
        }
        self.rules.swap(a, b);
        Ok(())
    }

    // All places become free.
    #[tactic(auto, unfolding(crate::specs::Calls::clear_rules))]
    pub fn clear_rules(&mut self) -> Result<(), Refusal>
        ensures outcome { told_done result ≡ (clear_rules self.old).outcome }
        ensures state { self.new ≡ (clear_rules self.old).monitor }
    {
        self.checked()?;
        self.rules = free_rules();
        self.rule_count = 0;
        Ok(())
    }

    // The shadow count of the rules as they are.
    #[tactic(auto, unfolding(crate::specs::Calls::validate_rules))]
    pub fn validate_rules(&self) -> Result<u16, Refusal>
        ensures { told_value result ≡ validate_rules self.now }
    {
        self.checked()?;
        Ok(self.shadows())
    }
}
