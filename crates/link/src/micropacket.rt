use frame::{Channel, Content, Kind};

// What a micropacket carries for its channel, and its TYPE.
#[derive(Clone, Copy)]
pub struct Cargo {
    pub kind: Kind,
    pub tail: bool,
    pub error: bool,
    pub content: Content,
}

// What goes into a micropacket, whoever made it, with its end-to-end check. Loading puts the number and the credit
// update to it.
#[derive(Clone, Copy)]
pub struct Body {
    pub channel: Channel,
    pub cargo: Cargo,
    pub ecrc: u16,
}

// A micropacket in the output buffer: everything that a load fixes for good. RSEQ and the link check are put to it
// each time that it is sent.
#[derive(Clone, Copy)]
pub struct Micropacket {
    pub body: Body,
    pub vcr: Channel,
    pub cr: u8,
    // As a frame carries it, which has a number of its own for none.
    pub tseq: u8,
}
