// A message as the monitor sees it (001 `MqttMessage`, `MqttPacketType`). The Rust's arrays stand beside it as two lent buffers: the used part is the first
// min(claimed, limit) bytes. The timestamp's verdict is an input (document 01, "What the hub takes over").
ghost use Rattle.std.specs.Prelude.{◌≡◌};
ghost use Rattle.monitor.specs.Message.{type_number, type_at};

use tables::rules::MqttQoS;

// How many bytes of a topic and of a payload are used.
pub const TOPIC_MAX: usize = 128;

pub const PAYLOAD_MAX: usize = 256;

// Each with its number in MQTT.
#[derive(Clone, Copy, Debug, PartialEq, Eq)]
pub enum MqttPacketType {
    Connect = 1,
    ConnAck = 2,
    Publish = 3,
    PubAck = 4,
    PubRec = 5,
    PubRel = 6,
    PubComp = 7,
    Subscribe = 8,
    SubAck = 9,
    Unsubscribe = 10,
    UnsubAck = 11,
    PingReq = 12,
    PingResp = 13,
    Disconnect = 14,
    Auth = 15,
}

// `payload_len` is the size, which feeds the tracker; `payload_inspectable_len` is the claimed length of the lent payload, which is hashed.
#[derive(Clone, Copy, Debug, PartialEq, Eq)]
pub struct MqttMessage {
    pub packet_type: MqttPacketType,
    pub topic_len: u8,
    pub qos: MqttQoS,
    pub payload_len: u16,
    pub payload_inspectable_len: u16,
    pub timestamp_us: u64,
    pub timestamp_ok: bool,
}

// A packet type's number in MQTT.
pub fn type_number(packet_type: MqttPacketType) -> u8
    ensures { result ≡ type_number packet_type }
{
    packet_type as u8
}

// The packet type of a number, 1 to 15: promised for every number, so no `TryFrom`.
pub fn type_at(k: u64) -> MqttPacketType
    ensures { result ≡ type_at k }
{
    match k {
        1 => MqttPacketType::Connect,
        2 => MqttPacketType::ConnAck,
        3 => MqttPacketType::Publish,
        4 => MqttPacketType::PubAck,
        5 => MqttPacketType::PubRec,
        6 => MqttPacketType::PubRel,
        7 => MqttPacketType::PubComp,
        8 => MqttPacketType::Subscribe,
        9 => MqttPacketType::SubAck,
        10 => MqttPacketType::Unsubscribe,
        11 => MqttPacketType::UnsubAck,
        12 => MqttPacketType::PingReq,
        13 => MqttPacketType::PingResp,
        14 => MqttPacketType::Disconnect,
        _ => MqttPacketType::Auth,
    }
}
