// The frame of a micropacket: why a call is refused, TYPE values, fields and bytes, and the two checks.
#![tactic(auto)]

mod channel;
mod checks;
mod codec;
mod fields;
mod kind;
mod naming;
mod parts;
mod refusal;
mod sizes;

pub use channel::Channel;
pub use checks::{end_check, link_check, seal, syndrome};
pub use fields::{Fields, Numbers};
pub use kind::Kind;
pub use parts::Parts;
pub use refusal::Refusal;
pub use sizes::{Content, DATA_SIZE, FRAME_SIZE, FrameBytes, MOST_CR, sized};
