use frame::Kind;

// What `send` tells of the frame that it gave, its numbers as the frame carries them.
#[derive(Clone, Copy)]
pub struct Sent {
    pub kind: Kind,
    pub tseq: u8,
    pub rseq: u8,
}
