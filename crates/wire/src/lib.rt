// What carries frames between two ends, and may lose or damage them.
#![tactic(auto)]

mod any;
mod arrival;
mod delivery;
mod emptying;
mod fate;
mod fault;
mod lines;
mod plain;
mod striking;
mod wire_trait;

pub use any::AnyWire;
pub use arrival::Arrival;
pub use emptying::drain;
pub use fate::Fate;
pub use fault::Fault;
pub use frame::{FRAME_SIZE, FrameBytes};
pub use line::{GROUPS_SIZE, Groups as LineGroups};
pub use lines::{LINE_PLACES, LineWire};
pub use plain::PlainWire;
pub use wire_trait::Wire;

#[cfg(test)]
mod tests;
