// Receiving: what becomes of a frame that is handed in.
ghost use Rattle.std.specs.Prelude.{◌≡◌, true};
ghost use Rattle.link.specs.Laws.{DiscardedLogs, LegalFrees, LegalByNumber};
ghost use Rattle.link.specs.Outcomes.{end_after};
ghost use Rattle.link.specs.Receiving.{in_turn, check_due, end_right, cause_of, noted, has_place, moved, entered, overflowed, sequenced, carried_in, admitted, outcome, judged, verdict, receive_answer, receive_found, cargo_of};

use crate::answer::{Answer, Cause};
use crate::checking::check_after;
use crate::end::End;
use crate::event::Event;
use crate::micropacket::Cargo;
use crate::numbering::{NUMBERS, ROUND};
use crate::phase::Phase;
use crate::record::{ChannelRecord, Core};
use crate::sort::Sort;
use frame::{Channel, Parts, Refusal};

// The syndrome of a stomped frame.
const STOMPED: u16 = 0x06A9;

// What a received micropacket carries for its channel.
impl From<&Parts> for Cargo {
    ghost from_gives = { λ received cargo. cargo ≡ cargo_of received.now };

    fn from(received: &Parts) -> Cargo {
        Cargo {
            kind: received.fields.kind,
            tail: received.fields.tail,
            error: received.fields.error,
            content: received.content,
        }
    }
}

impl Core {
    // Whether a TSEQ is right: a sequenced micropacket has the number due after the last accepted, any other has none.
    #[tactic(auto, unfolding(crate::specs::Receiving::in_turn))]
    fn in_turn(&self, sort: Sort, tseq: u8) -> bool
        ensures { result ≡ in_turn self.now sort tseq }
    {
        match sort {
            Sort::Idle | Sort::Control => tseq == NUMBERS,
            Sort::Credit | Sort::Afresh | Sort::Onward => {
                ROUND.is_due(u32::from(tseq), self.accepted.map(u32::from))
            }
        }
    }

    // The end-to-end check that a micropacket should have.
    #[tactic(auto, unfolding(crate::specs::Receiving::check_due))]
    fn check_due(&self, received: &Parts) -> u16
        ensures { result ≡ check_due self.now received.now }
    {
        let running = self.record(received.fields.vc).check_in;
        check_after(received.fields.kind, running, &received.content)
    }

    // Whether the end-to-end check of what a channel carries is right; with ERROR it is not looked at.
    #[tactic(auto, unfolding(crate::specs::Receiving::end_right))]
    fn end_right(&self, sort: Sort, received: &Parts) -> bool
        ensures { result ≡ end_right self.now sort received.now }
    {
        match sort {
            Sort::Idle | Sort::Control | Sort::Credit => true,
            Sort::Afresh | Sort::Onward => received.fields.error
                || received.fields.ecrc == self.check_due(received),
        }
    }

    // Why a frame is discarded, the first of these: the end is shut down; the link check is that of a stomped frame;
    // or wrong; the TSEQ is wrong; the end-to-end check is wrong.
    #[tactic(auto, unfolding(crate::specs::Receiving::cause_of))]
    fn cause(&self, received: &Parts) -> Option<Cause>
        ensures { result ≡ cause_of self.now received.now }
    {
        if self.phase == Phase::Shutdown {
            return Some(Cause::State);
        }
        if received.syndrome == STOMPED {
            return Some(Cause::Stomped);
        }
        if received.syndrome != 0 {
            return Some(Cause::Lcrc);
        }
        let sort = Sort::from(received.fields.kind);
        if !self.in_turn(sort, received.fields.tseq) {
            return Some(Cause::Tseq);
        }
        if !self.end_right(sort, received) {
            return Some(Cause::Ecrc);
        }
        None
    }
}

impl ChannelRecord {
    // The running check of what is accepted moves on.
    fn check(&mut self, check: u16)
        ensures { self.new ≡ moved self.old check }
    {
        self.check_in = check;
    }
}

impl End<'_> {
    // Logs a discarded frame. A wrong TSEQ is logged if it is the first or a sequenced micropacket was accepted since
    // the last one logged.
    #[tactic(auto, unfolding(crate::specs::Receiving::noted))]
    fn note(&mut self, cause: Cause)
        ensures { self.new ≡ noted self.old cause }
    {
        match cause {
            Cause::State | Cause::Stomped => {}
            Cause::Lcrc => self.log(Event::LcrcError),
            Cause::Ecrc => self.log(Event::EcrcError),
            Cause::Tseq => {
                if !self.core.tseq_logged {
                    self.core.tseq_logged = true;
                    self.log(Event::TseqError);
                }
            }
        }
    }

    // Whether a channel's buffer has a free place, counting slips out.
    fn has_place(&self, channel: Channel) -> bool
        ensures { result ≡ has_place self.now channel }
    {
        let free = self
            .buffers
            .capacity(channel)
            .saturating_sub(self.buffers.len(channel));
        self.core.record(channel).slips < free
    }

    // A micropacket enters its channel's buffer, and the running check moves by its data.
    #[tactic(auto, unfolding(crate::specs::Receiving::entered))]
    fn enter(&mut self, received: &Parts)
        requires { has_place self.old received.now.fields.vc ≡ true }
        ensures { self.new ≡ entered self.old received.now }
    {
        let channel = received.fields.vc;
        let check = self.core.check_due(received);
        self.core.channels[usize::from(channel)].check(check);
        self.buffers.put(channel, Cargo::from(received));
    }

    // A channel's buffer is full: the end shuts down.
    #[tactic(auto, unfolding(crate::specs::Receiving::overflowed))]
    fn overflow(&mut self, channel: Channel)
        ensures { self.new ≡ overflowed self.old channel }
    {
        self.log(Event::BufferOverflow(channel));
        self.shut_down();
    }

    // Accepts a sequenced micropacket; then its RSEQ is read, and then its credit unless the end has shut down.
    #[tactic(auto, unfolding(crate::specs::Receiving::sequenced))]
    fn accept(&mut self, received: &Parts)
        ensures { self.new ≡ sequenced self.old received.now }
    {
        self.core.accept(received.fields.tseq);
        self.read_rseq(received.fields.rseq);
        if self.core.phase == Phase::Normal {
            self.read_credit(received.fields.vcr, received.fields.cr);
        }
    }

    // One for a channel enters its buffer and is accepted, or finds it full.
    #[tactic(auto, unfolding(crate::specs::Receiving::carried_in))]
    fn carry(&mut self, received: &Parts)
        ensures { self.new ≡ carried_in self.old received.now }
    {
        if self.has_place(received.fields.vc) {
            self.enter(received);
            self.accept(received);
        } else {
            self.overflow(received.fields.vc);
        }
    }

    // What a frame does that is not discarded. Control micropackets end here.
    #[tactic(auto, unfolding(crate::specs::Receiving::admitted))]
    fn admit(&mut self, sort: Sort, received: &Parts)
        ensures { self.new ≡ admitted sort self.old received.now }
    {
        match sort {
            Sort::Idle => self.read_rseq(received.fields.rseq),
            Sort::Control => {}
            Sort::Credit => self.accept(received),
            Sort::Afresh | Sort::Onward => self.carry(received),
        }
    }

    // Discards a frame or lets it in, and answers what became of it.
    #[tactic(auto, unfolding(crate::specs::Receiving::verdict, crate::specs::Receiving::judged))]
    fn judge(&mut self, received: &Parts) -> Answer
        ensures value { result ≡ verdict self.old received.now }
        ensures after { self.new ≡ judged self.old received.now }
    {
        match self.core.cause(received) {
            Some(cause) => {
                self.note(cause);
                Answer::Discarded(cause)
            }
            None => {
                let sort = Sort::from(received.fields.kind);
                self.admit(sort, received);
                outcome(self.core.phase, sort)
            }
        }
    }

    // Takes a frame from the peer.
    #[tactic(auto, using(crate::proofs::Laws::of_receiving), unfolding(crate::specs::Receiving::read_made))]
    pub fn receive(&mut self, frame: &[u8]) -> Result<Answer, Refusal>
        ensures value { result ≡ receive_answer self.old frame.now }
        ensures after { self.new ≡ end_after self.old (receive_found self.old frame.now) }
        ensures discarded { DiscardedLogs }
        ensures frees { LegalFrees }
        ensures legal { LegalByNumber }
    {
        let received = Parts::read(frame)?;
        Ok(self.judge(&received))
    }
}

// The answer to a frame that was let in: shut where that shut the end down.
fn outcome(phase: Phase, sort: Sort) -> Answer
    ensures { result ≡ outcome phase sort }
{
    match (phase, sort) {
        (Phase::Shutdown, _) => Answer::Shut,
        (Phase::Normal, Sort::Idle) => Answer::Null,
        (Phase::Normal, Sort::Control) => Answer::Control,
        (Phase::Normal, Sort::Credit | Sort::Afresh | Sort::Onward) => Answer::Accepted,
    }
}
