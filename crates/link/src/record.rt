use crate::event::EVENTS;
use crate::phase::Phase;
use frame::Channel;

// What an end keeps of one channel.
#[derive(Clone, Copy)]
pub struct ChannelRecord {
    // How many more micropackets the peer has room for.
    pub credit: u8,
    // How much credit waits to be told to the peer.
    pub waiting: usize,
    // How many slips are out.
    pub slips: usize,
    // How many payload bytes of the open Message are to come. 0 while none is open: one with none to come is closed.
    pub left: u64,
    // The running end-to-end checks of what is loaded and of what is accepted.
    pub check_out: u16,
    pub check_in: u16,
}

// All the numbers of an end.
#[derive(Clone, Copy)]
pub struct Core {
    pub phase: Phase,
    // The repeat limit, and the repeats since the last new acknowledgement.
    pub limit: u8,
    pub repeats: u8,
    // How many in the output buffer stand before the sending place, and how many of them were ever sent.
    pub place: u32,
    pub sent: u32,
    // The TSEQ of the next load, the last one accepted, and the last acknowledgement that was taken.
    pub next: u8,
    pub accepted: Option<u8>,
    pub taken: Option<u8>,
    // The channel that a credit update named last.
    pub named: Channel,
    // Whether a wrong TSEQ was logged and no sequenced micropacket accepted since.
    pub tseq_logged: bool,
    pub channels: [ChannelRecord; 4],
    pub counters: [u32; EVENTS],
}
