// Repeats, and giving up.
ghost use Rattle.std.specs.Prelude.{◌≡◌};
ghost use Rattle.link.specs.Outcomes.{end_after};
ghost use Rattle.link.specs.Repeating.{closed, shut_core, rewound, shut_down, repeated, timeout_found, phase_found};

use crate::end::End;
use crate::event::Event;
use crate::phase::Phase;
use crate::record::{ChannelRecord, Core};
use frame::Refusal;

impl ChannelRecord {
    // A record without its open Message.
    fn closed(self) -> ChannelRecord
        ensures { result ≡ closed self }
    {
        ChannelRecord { left: 0, ..self }
    }
}

impl Core {
    // Shutdown drops open Messages; with the output buffer empty, nothing there is sent.
    fn shut_down(&mut self)
        ensures { self.new ≡ shut_core self.old }
    {
        self.phase = Phase::Shutdown;
        self.place = 0;
        self.sent = 0;
        self.channels = self.channels.map(ChannelRecord::closed);
    }

    // The sending place goes back to the oldest micropacket held, which is one more repeat.
    fn rewind(&mut self)
        ensures { self.new ≡ rewound self.old }
    {
        self.place = 0;
        self.repeats = self.repeats.saturating_add(1);
    }
}

impl End<'_> {
    // Shutdown empties the output buffer and the channel buffers and drops open Messages.
    #[tactic(auto, unfolding(crate::specs::Repeating::shut_down))]
    pub(crate) fn shut_down(&mut self)
        ensures { self.new ≡ shut_down self.old }
    {
        self.core.shut_down();
        self.output.clear();
        self.buffers.clear();
    }

    // A repeat does nothing if nothing sent is unacknowledged. With as many repeats as the limit since the last new
    // acknowledgement, the end gives up; else everything held is sent again.
    #[tactic(auto, unfolding(crate::specs::Repeating::repeated))]
    pub(crate) fn repeat(&mut self)
        ensures { self.new ≡ repeated self.old }
    {
        if self.core.sent == 0 {
            return;
        }
        if self.core.repeats < self.core.limit {
            self.log(Event::RetryCount);
            self.core.rewind();
        } else {
            self.log(Event::RetryFailureError);
            self.shut_down();
        }
    }

    // No acknowledgement came in time: logs that and starts a repeat. Answers the phase that the end is in then.
    pub fn timeout(&mut self) -> Result<Phase, Refusal>
        ensures value { result ≡ phase_found (timeout_found self.old) }
        ensures after { self.new ≡ end_after self.old (timeout_found self.old) }
    {
        self.core.phase.normal()?;
        if self.core.sent == 0 {
            return Err(Refusal::NothingSent);
        }
        self.log(Event::RseqMissingError);
        self.repeat();
        Ok(self.core.phase)
    }
}
