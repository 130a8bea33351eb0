// Counting and keeping events.
ghost use Rattle.std.specs.Prelude.{◌≡◌};
ghost use Rattle.std.specs.List.{slice_get};
ghost use Rattle.link.specs.Log.{counter_of, counted, logged, or_nothing, after_event};

use crate::end::End;
use crate::event::Event;
use crate::record::Core;
use frame::Refusal;

impl Core {
    // One more of an event: the counter stops at its largest number.
    pub(crate) fn count(&mut self, event: Event)
        ensures { self.new ≡ counted self.old event }
    {
        let i = event.place();
        self.counters[i] = self.counters[i].saturating_add(1);
    }
}

impl End<'_> {
    // Counts an event and keeps it in the event area; a full one keeps no more.
    pub(crate) fn log(&mut self, event: Event)
        ensures { self.new ≡ logged self.old event }
    {
        self.core.count(event);
        self.events.push_back(event);
    }

    // How often an event was logged.
    pub fn counter(&self, event: Event) -> u32
        ensures { result ≡ counter_of self.now.core event }
    {
        self.core.counters[event.place()]
    }

    // Reads the oldest event that is kept, and frees its place.
    pub fn event(&mut self) -> Result<Event, Refusal>
        ensures value { result ≡ or_nothing (slice_get self.old.events 0) }
        ensures after { self.new ≡ after_event self.old }
    {
        self.events.pop_front().ok_or(Refusal::NothingHeld)
    }
}
