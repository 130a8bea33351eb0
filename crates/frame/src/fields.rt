use crate::channel::Channel;
use crate::kind::Kind;

// What the last eight bytes of a frame say.
#[derive(Clone, Copy, PartialEq, Eq, Debug)]
pub struct Fields {
    pub vc: Channel,
    pub kind: Kind,
    pub tail: bool,
    pub error: bool,
    pub vcr: Channel,
    pub cr: u8,
    pub rseq: u8,
    pub tseq: u8,
    pub ecrc: u16,
    pub lcrc: u16,
}

// The same as numbers that somebody hands in: they may not fit.
#[derive(Clone, Copy, PartialEq, Eq, Debug)]
pub struct Numbers {
    pub vc: u64,
    pub kind: u64,
    pub tail: bool,
    pub error: bool,
    pub vcr: u64,
    pub cr: u64,
    pub rseq: u64,
    pub tseq: u64,
    pub ecrc: u16,
    pub lcrc: u16,
}
