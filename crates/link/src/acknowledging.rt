// Acknowledgements and credit from the peer.
ghost use Rattle.std.specs.Prelude.{◌≡◌, Some};
ghost use Rattle.link.specs.Acknowledging.{oldest_of, freed_by, acked_core, freed_front, acknowledged, gained, credited, accepted_core};

use crate::channels::MOST_CREDIT;
use crate::end::End;
use crate::event::Event;
use crate::numbering::{NUMBERS, ROUND};
use crate::record::{ChannelRecord, Core};
use frame::Channel;

impl ChannelRecord {
    // More credit came.
    fn gain(&mut self, cr: u8)
        ensures { self.new ≡ gained self.old cr }
    {
        self.credit = self.credit.saturating_add(cr);
    }
}

impl Core {
    // A new acknowledgement, of the `count` oldest: a sending place before the oldest held moves up to that, and
    // repeats are counted from here.
    fn acknowledge(&mut self, count: u32, rseq: u8)
        ensures { self.new ≡ acked_core self.old count rseq }
    {
        self.repeats = 0;
        self.place = self.place.saturating_sub(count);
        self.sent = self.sent.saturating_sub(count);
        self.taken = Some(rseq);
    }

    // A sequenced micropacket is accepted.
    pub(crate) fn accept(&mut self, tseq: u8)
        ensures { self.new ≡ accepted_core self.old tseq }
    {
        self.accepted = Some(tseq);
        self.tseq_logged = false;
    }
}

impl End<'_> {
    // The TSEQ of the oldest micropacket held; where none is, it does not matter.
    fn oldest(&self) -> u8
        ensures { result ≡ oldest_of self.now }
    {
        self.output.get(0).map_or(0, |micropacket| micropacket.tseq)
    }

    // How many an acknowledgement frees: none where it is the last one taken, and else all up to the one that has this
    // number, of those still held and ever sent. Any other is illegal.
    #[tactic(auto, unfolding(crate::specs::Acknowledging::freed_by))]
    fn freed(&self, rseq: u8) -> Option<u32>
        ensures { result ≡ freed_by self.now rseq }
    {
        let taken = self.core.taken.map(u32::from);
        let oldest = u32::from(self.oldest());
        ROUND.freed(u32::from(rseq), taken, oldest, self.core.sent)
    }

    // Frees the `count` oldest of the output buffer, by a new acknowledgement if there are any.
    #[tactic(auto, unfolding(crate::specs::Acknowledging::freed_front))]
    fn free(&mut self, count: u32, rseq: u8)
        ensures { self.new ≡ freed_front self.old count rseq }
    {
        if count == 0 {
            return;
        }
        // A cast, since no From goes from a u32 to a usize.
        self.output.drop_front(count as usize);
        self.core.acknowledge(count, rseq);
    }

    // Reads an RSEQ: none is ignored, a legal one frees, and any other is logged and starts a repeat.
    #[tactic(auto, unfolding(crate::specs::Acknowledging::acknowledged))]
    pub(crate) fn read_rseq(&mut self, rseq: u8)
        ensures { self.new ≡ acknowledged self.old rseq }
    {
        if rseq == NUMBERS {
            return;
        }
        match self.freed(rseq) {
            Some(count) => self.free(count, rseq),
            None => {
                self.log(Event::RseqOutOfRangeError);
                self.repeat();
            }
        }
    }

    // Reads the credit that the peer tells. What would pass the most there can be is not taken, and shuts down.
    #[tactic(auto, unfolding(crate::specs::Acknowledging::credited))]
    pub(crate) fn read_credit(&mut self, channel: Channel, cr: u8)
        ensures { self.new ≡ credited self.old channel cr }
    {
        if self.core.record(channel).credit > MOST_CREDIT - cr {
            self.log(Event::CreditOverflow(channel));
            self.shut_down();
        } else {
            self.core.channels[usize::from(channel)].gain(cr);
        }
    }
}
