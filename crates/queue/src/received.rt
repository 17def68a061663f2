// A packet of a run where it stands, and what the monitor decides of one of its messages.
ghost use Rattle.std.specs.Prelude.{◌≡◌, Ok};
ghost use Rattle.monitor.specs.Plan.{plan_of};
ghost use Rattle.monitor.specs.State.{matcher_of};
ghost use Rattle.packets.specs.Messages.{message_told, message_at};
ghost use Rattle.packets.specs.Taken.{call_of, topic_bytes, payload_bytes, Within};
ghost use Rattle.queue.specs.Several.{book_of, light_for};

use monitor::plan::{Plan, plan_light};
use monitor::state::MqttMonitor;
use packets::messages::{PacketMessage, message_at};
use packets::packet::Packet;
use packets::refusal::PacketRefusal;

// A packet that was read, at its place in the bytes of a run, with the time and the verdict of all messages.
#[derive(Clone, Copy)]
pub(crate) struct Received<'a> {
    pub(crate) bytes: &'a [u8],
    pub(crate) place: usize,
    pub(crate) now_us: u64,
    pub(crate) ok: bool,
    pub(crate) packet: Packet,
}

impl<'a> Received<'a> {
    // The message at a step.
    pub(crate) fn message(&self, step: usize) -> Result<PacketMessage, PacketRefusal>
        ensures { message_told result ≡ message_at self.now.bytes.now self.now.place step self.now.now_us self.now.ok }
    {
        message_at(self.bytes, self.place, step, self.now_us, self.ok)
    }

    // The bytes of a message's topic, and of the inspected part of its payload.
    // A message is a public record, so that it lies within is a clause and no invariant.
    fn topic(&self, message: &PacketMessage) -> &[u8]
        requires { Within self.now.bytes.now self.now.place (message_told (Ok message.now)) }
        ensures { result.now ≡ topic_bytes self.now.bytes.now (message_told (Ok message.now)) }
    {
        &self.bytes[message.topic_from..message.topic_to]
    }

    fn payload(&self, message: &PacketMessage) -> &[u8]
        requires { Within self.now.bytes.now self.now.place (message_told (Ok message.now)) }
        ensures { result.now ≡ payload_bytes self.now.bytes.now (message_told (Ok message.now)) }
    {
        &self.bytes[message.payload_from..message.payload_to]
    }

    // What the monitor decides of a message.
    pub(crate) fn plan(&self, m: &MqttMonitor, message: &PacketMessage) -> Plan
        requires { Within self.now.bytes.now self.now.place (message_told (Ok message.now)) }
        ensures { result ≡ plan_of (matcher_of m.now) m.now message.now.msg
            (topic_bytes self.now.bytes.now (message_told (Ok message.now))) (payload_bytes self.now.bytes.now (message_told (Ok message.now))) }
    {
        m.plan_for(&message.msg, self.topic(message), self.payload(message))
    }

    // What it decides of a message that asks no table, with other counters than its own.
    #[tactic(auto, unfolding(crate::specs::Several::light_for))]
    pub(crate) fn plan_light(
        &self,
        m: &MqttMonitor,
        message: &PacketMessage,
        next_id: u64,
        total: u64,
    ) -> Plan
        requires { Within self.now.bytes.now self.now.place (message_told (Ok message.now)) }
        ensures { result ≡ light_for (book_of m.now) next_id total (call_of self.now.bytes.now (message_told (Ok message.now))) }
    {
        let gate = m.gate_for(&message.msg, self.topic(message));
        plan_light(gate, &message.msg, self.payload(message), next_id, total)
    }
}
