// The state and every call on it (document 01), methods of `MqttMonitor`: every call answers for every state and input, with a `Refusal` where it refuses,
// and then the state is as it was. `inspect` is gate, plan, apply: the gate reads rules and message, the plan asks each table from its
// own old value, and `apply` alone stores.
#![tactic(auto)]

pub mod alerts;
pub mod calls;
pub mod cover_calls;
pub mod gate;
pub mod inspection;
pub mod message;
pub mod plan;
pub mod refusal;
pub mod rule_calls;
pub mod standing;
pub mod state;
