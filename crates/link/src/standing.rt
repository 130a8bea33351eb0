use crate::phase::Phase;

// All that can be seen of an end from outside.
#[derive(Clone, Copy)]
pub struct Standing {
    pub phase: Phase,
    pub window: usize,
    // How many the output buffer holds, how many of them stand before the sending place, and how many were ever sent.
    pub output: usize,
    pub place: u32,
    pub sent: u32,
    // The RSEQ that a send would carry now.
    pub rseq: u8,
    pub repeats: u8,
    pub limit: u8,
    // The channels in their order.
    pub channels: [ChannelStanding; 4],
}

// What can be seen of one channel.
#[derive(Clone, Copy)]
pub struct ChannelStanding {
    pub credit: u8,
    pub waiting: usize,
    pub held: usize,
    pub slips: usize,
}
