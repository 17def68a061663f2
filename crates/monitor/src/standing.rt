// Where the limit stands for a Publish of a topic. Nothing is inspected, counted or stored.
ghost use Rattle.std.specs.Prelude.{◌≡◌};
ghost use Rattle.monitor.specs.Standing.{a_publish};

use crate::gate::Gate;
use crate::message::{MqttMessage, MqttPacketType, TOPIC_MAX};
use crate::plan::limiter_kind;
use crate::refusal::Refusal;
use crate::state::MqttMonitor;
use tables::identity::Id;
use tables::rules::MqttQoS;
use tables::standing::{Opening, look_ahead};

// A Publish is denied by `kind` before the opening and allowed from it on. `rate` above 0: the limiter counts it.
// A kind's number, 0 for none, is what a person is told (docs/STANDING.md) and what `kind_at` compares.
#[derive(Clone, Copy, Debug, PartialEq, Eq)]
pub struct Outlook {
    pub kind: u32,
    pub rate: u16,
    pub opening: Opening,
}

// What a Publish at a time would leave: the kind that denies it, 0 where it passes, the rate, and the tokens left.
// A number, as in `Outlook`.
#[derive(Clone, Copy, Debug, PartialEq, Eq)]
pub struct Left {
    pub kind: u32,
    pub rate: u16,
    pub tokens: u16,
}

impl Outlook {
    // Denied by the gate, whatever the time.
    fn barred(kind: u32) -> Outlook
        ensures { result ≡ record { kind = kind; rate = 0; opening = Opening.Never } }
    {
        Outlook {
            kind,
            rate: 0,
            opening: Opening::Never,
        }
    }
}

// A Publish: of what it says only its type is asked.
fn a_publish() -> MqttMessage
    ensures { result ≡ a_publish }
{
    MqttMessage {
        packet_type: MqttPacketType::Publish,
        topic_len: 0,
        qos: MqttQoS::AtMostOnce,
        payload_len: 0,
        payload_inspectable_len: 0,
        timestamp_us: 0,
        timestamp_ok: true,
    }
}

impl MqttMonitor {
    ghost use Rattle.monitor.specs.Plan.{gate_in};
    ghost use Rattle.monitor.specs.Standing.{a_publish, standing_in, left_in, told_outlook, told_left};
    ghost use Rattle.monitor.specs.State.{matcher_of};

    // The gate of a Publish of a topic.
    fn publish_gate(&self, topic: &[u8]) -> Gate
        ensures { result ≡ gate_in (matcher_of self.now) self.now a_publish topic.now }
    {
        self.gate_for(&a_publish(), topic)
    }

    /// What a Publish of a topic meets, at every time, if nothing else comes before it: 10; 9 for a topic over 128 bytes; else by rules and buckets. A held identity is
    /// denied by 5 until the opening, a new one by 6.
    #[tactic(auto, unfolding(crate::specs::Standing::standing_with))]
    pub fn standing(&self, topic: &[u8]) -> Result<Outlook, Refusal>
        ensures { told_outlook result ≡ standing_in self.now topic.now }
    {
        self.checked()?;
        if topic.len() > TOPIC_MAX {
            return Err(Refusal::BadInput);
        }
        let gate = self.publish_gate(topic);
        if gate.denial > 0 {
            return Ok(Outlook::barred(gate.denial));
        }
        if gate.rate == 0 {
            return Ok(Outlook {
                kind: 0,
                rate: 0,
                opening: Opening::From(0),
            });
        }
        let prospect = look_ahead(&self.rate_buckets, &Id::of(topic));
        Ok(Outlook {
            kind: if prospect.held { 5 } else { 6 },
            rate: gate.rate,
            opening: prospect.opening,
        })
    }

    /// What a Publish of a topic would leave at a time: the same refusals, then the kind that denies it and the tokens that are left after it.
    #[tactic(auto, unfolding(crate::specs::Standing::left_in))]
    pub fn tokens_left(&self, topic: &[u8], now_us: u64) -> Result<Left, Refusal>
        ensures { told_left result ≡ left_in self.now topic.now now_us }
    {
        self.checked()?;
        if topic.len() > TOPIC_MAX {
            return Err(Refusal::BadInput);
        }
        let gate = self.publish_gate(topic);
        if gate.denial > 0 {
            return Ok(Left {
                kind: gate.denial,
                rate: 0,
                tokens: 0,
            });
        }
        let spent = self.spent_for(gate.rate, &Id::of(topic), now_us);
        Ok(Left {
            kind: limiter_kind(spent.result),
            rate: gate.rate,
            tokens: spent.bucket.tokens,
        })
    }
}
