// Numbers that come round, for every count of them.
#![tactic(auto)]

mod acknowledgement;
mod counting;
mod window;

// Numbers that come round: 0 and up, below `modulus`.
#[derive(Clone, Copy)]
pub struct Round {
    pub modulus: u32,
}
