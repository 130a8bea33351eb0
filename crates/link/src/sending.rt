// Sending: one frame for each call, whatever there is to send.
ghost use Rattle.std.specs.Prelude.{◌≡◌, length};
ghost use Rattle.frame.specs.Codec.{or_else, frame_refusal};
ghost use Rattle.link.specs.Sending.{idle_body, null_micropacket, stepped, credit_waits, fields_at, written, credit_given, credit_gone, given, gone, sent_of, send_after};
ghost use Rattle.link.specs.Standings.{rseq_of};

use crate::checking::check_after;
use crate::end::End;
use crate::micropacket::{Body, Cargo, Micropacket};
use crate::numbering::NUMBERS;
use crate::phase::Phase;
use crate::record::Core;
use crate::sent::Sent;
use frame::{Channel, DATA_SIZE, Fields, FrameBytes, Kind, MOST_CR, Refusal, seal};

impl Body {
    // A Null or Credit-only: channel 0, 32 zero bytes and their check begun afresh.
    fn idle(kind: Kind) -> Body
        ensures { result ≡ idle_body kind }
    {
        let content = [0; DATA_SIZE];
        let ecrc = check_after(Kind::Null, 0, &content);
        Body {
            channel: Channel::Vc0,
            cargo: Cargo {
                kind,
                tail: false,
                error: false,
                content,
            },
            ecrc,
        }
    }
}

impl Micropacket {
    // A Null tells no credit and has no number.
    fn null() -> Micropacket
        ensures { result ≡ null_micropacket }
    {
        Micropacket {
            body: Body::idle(Kind::Null),
            vcr: Channel::Vc0,
            cr: 0,
            tseq: NUMBERS,
        }
    }

    // Its fields in a frame that carries an RSEQ; the link check is put in later. CR is cut to what a frame can carry,
    // since a Micropacket may hold any.
    fn fields(&self, rseq: u8) -> Fields
        ensures { result ≡ fields_at self.now rseq }
    {
        let cargo = &self.body.cargo;
        Fields {
            vc: self.body.channel,
            kind: cargo.kind,
            tail: cargo.tail,
            error: cargo.error,
            vcr: self.vcr,
            cr: self.cr.min(MOST_CR),
            rseq,
            tseq: self.tseq,
            ecrc: self.body.ecrc,
            lcrc: 0,
        }
    }

    // Writes its frame, with an RSEQ and a fresh link check.
    #[tactic(auto, unfolding(crate::specs::Sending::frame_at))]
    fn write(&self, rseq: u8, frame: &mut [u8]) -> Result<(), Refusal>
        ensures value { result ≡ or_else (frame_refusal (length frame.old)) tt }
        ensures bytes { frame.new ≡ written (frame_refusal (length frame.old)) self.now rseq frame.old }
    {
        self.fields(rseq).emit(&self.body.cargo.content, frame)?;
        seal(frame)
    }
}

impl Core {
    // The sending place moves on.
    fn step(&mut self)
        ensures { self.new ≡ stepped self.old }
    {
        self.place = self.place.saturating_add(1);
        self.sent = self.sent.max(self.place);
    }

    fn credit_waits(&self) -> bool
        ensures { result ≡ credit_waits self.now }
    {
        self.next_waiting().is_some()
    }
}

impl End<'_> {
    // Where the sending place holds nothing: if credit waits and the window has a free place, loads and gives a
    // Credit-only; else gives a Null.
    #[tactic(auto, unfolding(crate::specs::Sending::credit_given, crate::specs::Sending::credit_gone))]
    fn give_credit(&mut self) -> Micropacket
        ensures value { result ≡ credit_given self.old }
        ensures after { self.new ≡ credit_gone self.old }
    {
        if !self.core.credit_waits() || self.output.is_full() {
            return Micropacket::null();
        }
        let micropacket = self.load(Body::idle(Kind::CreditOnly));
        self.core.step();
        micropacket
    }

    // Gives the micropacket at the sending place, and moves the place on. In Shutdown it gives Nulls.
    #[tactic(auto, unfolding(crate::specs::Sending::given, crate::specs::Sending::gone))]
    fn give(&mut self) -> Micropacket
        ensures value { result ≡ given self.old }
        ensures after { self.new ≡ gone self.old }
    {
        if self.core.phase == Phase::Shutdown {
            return Micropacket::null();
        }
        // A cast, since no From goes from a u32 to a usize.
        match self.output.get(self.core.place as usize) {
            Some(micropacket) => {
                self.core.step();
                micropacket
            }
            None => self.give_credit(),
        }
    }

    // Writes the next frame into the caller's 40 bytes, with the present RSEQ.
    pub fn send(&mut self, frame: &mut [u8]) -> Result<Sent, Refusal>
        ensures value { result ≡ or_else (frame_refusal (length frame.old)) (sent_of self.old) }
        ensures after { self.new ≡ send_after (frame_refusal (length frame.old)) self.old }
        ensures bytes { frame.new ≡ written (frame_refusal (length frame.old)) (given self.old) (rseq_of self.old.core) frame.old }
    {
        let frame: &mut FrameBytes = frame.as_mut_array().ok_or(Refusal::BadSize)?;
        let rseq = self.core.rseq();
        let micropacket = self.give();
        micropacket.write(rseq, frame)?;
        Ok(Sent {
            kind: micropacket.body.cargo.kind,
            tseq: micropacket.tseq,
            rseq,
        })
    }
}
