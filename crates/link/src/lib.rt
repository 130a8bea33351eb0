// One end of a link: what it loads, sends, receives, repeats and keeps count of.
#![tactic(auto)]

mod acknowledging;
mod answer;
mod buffers;
mod channels;
mod checking;
mod credit;
mod end;
mod event;
mod keeping;
mod loading;
mod log;
mod messages;
mod micropacket;
mod naming;
mod numbering;
mod phase;
mod receiving;
mod record;
mod repeating;
mod sending;
mod sent;
mod slip;
mod sort;
mod standing;
mod taking;

pub use answer::{Answer, Cause};
pub use end::{Areas, End};
pub use event::Event;
pub use micropacket::{Body, Cargo, Micropacket};
pub use phase::Phase;
pub use record::{ChannelRecord, Core};
pub use sent::Sent;
pub use slip::{Slip, Taken};
pub use standing::{ChannelStanding, Standing};

#[cfg(test)]
mod tests;
