// Making an end, and what can be seen of it.
ghost use Rattle.std.specs.Prelude.{◌≡◌, [], ◌∷◌, length};
ghost use Rattle.link.specs.Laws.{HeldUnchanged, LoadsOne, RefusedUnchanged, UpdateChangesOne, CreditFigures};
ghost use Rattle.link.specs.Numbering.{window_over};
ghost use Rattle.link.specs.Outcomes.{if_normal};
ghost use Rattle.link.specs.Records.{capacity_over, new_record, new_core, record_of};
ghost use Rattle.link.specs.Standings.{rseq_of, channel_standing, standing_of};
ghost use Rattle.link.specs.States.{Fits, new_state};

use crate::buffers::Buffers;
use crate::end::{Areas, End};
use crate::event::EVENTS;
use crate::numbering::NUMBERS;
use crate::phase::Phase;
use crate::record::{ChannelRecord, Core};
use crate::standing::{ChannelStanding, Standing};
use crc::{Check, EndToEndCheck};
use frame::{Channel, Refusal};
use ring::Ring;

impl ChannelRecord {
    // A channel of a new end has no credit, and all its capacity waits as credit.
    fn new(capacity: usize) -> ChannelRecord
        ensures { result ≡ new_record capacity }
    {
        ChannelRecord {
            credit: 0,
            waiting: capacity,
            slips: 0,
            left: 0,
            check_out: EndToEndCheck::begin(),
            check_in: EndToEndCheck::begin(),
        }
    }
}

impl Phase {
    // Refuses what is done only in Normal.
    pub(crate) fn normal(self) -> Result<(), Refusal>
        ensures { result ≡ if_normal self (Ok tt) }
    {
        match self {
            Phase::Normal => Ok(()),
            Phase::Shutdown => Err(Refusal::NotNormal),
        }
    }
}

impl Core {
    // A limit of 0 stands for 2, so that every number makes an end. Channel 0 comes after channel 3, so that it is the
    // first that a credit update names.
    fn new(limit: u8, capacities: [usize; 4]) -> Core
        ensures { result ≡ new_core limit capacities }
    {
        Core {
            phase: Phase::Normal,
            limit: if limit == 0 { 2 } else { limit },
            repeats: 0,
            place: 0,
            sent: 0,
            next: 0,
            accepted: None,
            taken: None,
            named: Channel::Vc3,
            tseq_logged: false,
            channels: capacities.map(ChannelRecord::new),
            counters: [0; EVENTS],
        }
    }

    // The record of a channel, to look at.
    // To change one, index the array: where a call lends an element of it, no clause yet says what the array becomes.
    pub(crate) fn record(&self, channel: Channel) -> &ChannelRecord
        ensures { result.now ≡ record_of self.now channel }
    {
        &self.channels[usize::from(channel)]
    }

    // The RSEQ that the end sends now: the last accepted TSEQ, or none.
    pub(crate) fn rseq(&self) -> u8
        ensures { result ≡ rseq_of self.now }
    {
        match self.phase {
            Phase::Normal => self.accepted.unwrap_or(NUMBERS),
            Phase::Shutdown => NUMBERS,
        }
    }
}

impl<'a> End<'a> {
    // An end over areas that are given up for its life. The window is narrower than there are numbers; elements past
    // it, and past the most that a channel can have, stay unused.
    #[tactic(auto, using(crate::proofs::Laws::of_every_end))]
    pub fn new(areas: Areas<'a>, limit: u8) -> End<'a>
        ensures made { result ≡ new_state limit (window_over (length areas.entry.output.now)) (capacity_over (length areas.entry.vc0.now) ∷ capacity_over (length areas.entry.vc1.now) ∷ capacity_over (length areas.entry.vc2.now) ∷ capacity_over (length areas.entry.vc3.now) ∷ []) (length areas.entry.events.now) }
        ensures held { HeldUnchanged }
        ensures loads { LoadsOne }
        ensures refused { RefusedUnchanged }
        ensures update { UpdateChangesOne }
        ensures figures { CreditFigures }
    {
        let Areas {
            output,
            vc0,
            vc1,
            vc2,
            vc3,
            events,
        } = areas;
        let buffers = Buffers::new(vc0, vc1, vc2, vc3);
        let room = events.len();
        End {
            core: Core::new(limit, buffers.capacities()),
            output: Ring::new(output, usize::from(NUMBERS) - 1),
            buffers,
            events: Ring::new(events, room),
        }
    }

    // What can be seen of one channel.
    fn channel_standing(&self, channel: Channel) -> ChannelStanding
        ensures { result ≡ channel_standing self.now channel }
    {
        let record = self.core.record(channel);
        ChannelStanding {
            credit: record.credit,
            waiting: record.waiting,
            held: self.buffers.len(channel),
            slips: record.slips,
        }
    }

    // All that can be seen of the end, and what is so of every end.
    pub fn standing(&self) -> Standing
        ensures value { result ≡ standing_of self.now }
        ensures fits { Fits self.now }
    {
        Standing {
            phase: self.core.phase,
            window: self.output.capacity(),
            output: self.output.len(),
            place: self.core.place,
            sent: self.core.sent,
            rseq: self.core.rseq(),
            repeats: self.core.repeats,
            limit: self.core.limit,
            channels: Channel::ALL.map(|channel| self.channel_standing(channel)),
        }
    }
}
