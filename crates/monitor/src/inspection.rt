// `inspect`: gate, plan, apply (document 01, "Order inside one inspection" and "Numbers handed back").
ghost use Rattle.std.specs.Prelude.{◌≡◌};

use crate::alerts::{MqttInspectResult, count_on};
use crate::gate::Stage;
use crate::message::{MqttMessage, PAYLOAD_MAX, TOPIC_MAX};
use crate::plan::Plan;
use crate::refusal::Refusal;
use crate::state::MqttMonitor;
use tables::buckets::BUCKETS;
use tables::trackers::TRACKERS;
use tables::windows::WINDOWS;

// How far a message came, its verdict and its alerts.
#[derive(Clone, Copy, Debug, PartialEq, Eq)]
pub struct Inspection {
    pub stage: Stage,
    pub result: MqttInspectResult,
}

impl MqttMonitor {
    ghost use Rattle.monitor.specs.Inspect.{applied, inspect_with, inspected_as};
    ghost use Rattle.monitor.specs.State.{matcher_of};

    /// Stores what a plan decided, and counts its message: the only place that changes the tables of an inspection.
    /// A place past the end stores nothing (`stored_at`): a plan is public and promised for every value, so each place is tested here.
    #[tactic(auto, unfolding(crate::specs::Inspect::applied))]
    pub fn apply(&mut self, plan: &Plan)
        ensures { self.new ≡ applied self.old plan.now }
    {
        if plan.seen.at < WINDOWS {
            self.connect_windows[plan.seen.at] = plan.seen.entry;
        }
        if plan.spent.at < BUCKETS {
            self.rate_buckets[plan.spent.at] = plan.spent.bucket;
        }
        if plan.fed.at < TRACKERS {
            self.ewma_trackers[plan.fed.at] = plan.fed.tracker;
        }
        self.next_alert_id = plan.raised.next_id;
        self.total_inspected = count_on(self.total_inspected);
        self.total_alerts = plan.raised.total;
    }

    /// One message. The rules are chosen by the monitor's own matcher. 10 is tested first, then 9 for a lent topic or payload shorter than the part used; refused, the state is
    /// as it was and nothing is counted.
    #[tactic(auto, unfolding(crate::specs::Inspect::inspect_with, crate::specs::Inspect::inspect_refusal))]
    pub fn inspect(
        &mut self,
        msg: &MqttMessage,
        topic: &[u8],
        payload: &[u8],
    ) -> Result<Inspection, Refusal>
        ensures { inspected_as result self.new ≡ inspect_with (matcher_of self.old) self.old msg.now topic.now payload.now }
    {
        self.checked()?;
        let topic_used = usize::from(msg.topic_len).min(TOPIC_MAX);
        let payload_used = usize::from(msg.payload_inspectable_len).min(PAYLOAD_MAX);
        if topic.len() < topic_used || payload.len() < payload_used {
            return Err(Refusal::BadInput);
        }
        let plan = self.plan_for(msg, &topic[..topic_used], &payload[..payload_used]);
        self.apply(&plan);
        Ok(Inspection {
            stage: plan.stage,
            result: plan.result(),
        })
    }
}
