// Checks of 16 bits over bytes: one kind, two generators.
#![tactic(auto)]

mod check;
mod end_to_end;
mod link;
mod register;

pub use check::Check;
pub use end_to_end::EndToEndCheck;
pub use link::LinkCheck;
pub use register::{after_byte, after_bytes, left_over};
