// The names of phases, events, answers and causes: as texts, which are always there, and as what is printed.
ghost use Rattle.std.specs.Prelude.{◌≡◌, ◌<◌, Some};
ghost use Rattle.link.specs.Naming.{phase_name, event_name, event_channel, event_place, answer_name, cause_name};

use crate::answer::{Answer, Cause};
use crate::event::Event;
use crate::phase::Phase;
use frame::Channel;
use std::fmt;

impl Phase {
    pub fn name(self) -> &'static str
        ensures { result.now ≡ phase_name self }
    {
        match self {
            Phase::Normal => "Normal",
            Phase::Shutdown => "Shutdown",
        }
    }
}

impl fmt::Display for Phase {
    ghost output = { λ x. Some (phase_name x) };

    fn fmt<W: fmt::Write>(&self, f: &mut fmt::Formatter<W>) -> fmt::Result {
        f.write_str(Phase::name(*self))
    }
}

impl Answer {
    pub fn name(self) -> &'static str
        ensures { result.now ≡ answer_name self }
    {
        match self {
            Answer::Accepted => "accepted",
            Answer::Null => "null",
            Answer::Control => "control",
            Answer::Shut => "shut",
            Answer::Discarded(_) => "discarded",
        }
    }
}

impl fmt::Display for Answer {
    ghost output = { λ x. Some (answer_name x) };

    fn fmt<W: fmt::Write>(&self, f: &mut fmt::Formatter<W>) -> fmt::Result {
        f.write_str(Answer::name(*self))
    }
}

impl Cause {
    pub fn name(self) -> &'static str
        ensures { result.now ≡ cause_name self }
    {
        match self {
            Cause::State => "state",
            Cause::Stomped => "stomped",
            Cause::Lcrc => "LCRC",
            Cause::Tseq => "TSEQ",
            Cause::Ecrc => "ECRC",
        }
    }
}

impl fmt::Display for Cause {
    ghost output = { λ x. Some (cause_name x) };

    fn fmt<W: fmt::Write>(&self, f: &mut fmt::Formatter<W>) -> fmt::Result {
        f.write_str(Cause::name(*self))
    }
}

impl Event {
    pub fn name(self) -> &'static str
        ensures { result.now ≡ event_name self }
    {
        match self {
            Event::LcrcError => "LCRC_Error",
            Event::TseqError => "TSEQ_Error",
            Event::EcrcError => "ECRC_Error",
            Event::RseqMissingError => "RSEQ_Missing_Error",
            Event::RseqOutOfRangeError => "RSEQ_Out_Of_Range_Error",
            Event::RetryCount => "Retry_Count",
            Event::RetryFailureError => "Retry_Failure_Error",
            Event::BufferOverflow(_) => "VC_RX_VC_Buffer_Overflow",
            Event::CreditOverflow(_) => "VC_Credit_Overflow",
        }
    }

    // The channel of an event that has one. A match, since two of the events alone have one.
    pub fn channel(self) -> Option<Channel>
        ensures { result ≡ event_channel self }
    {
        match self {
            Event::BufferOverflow(channel) | Event::CreditOverflow(channel) => Some(channel),
            _ => None,
        }
    }

    // Where its counter stands: all counters stand in one table, since all are counted alike.
    pub(crate) fn place(self) -> usize
        ensures value { result ≡ event_place self }
        ensures bound { result < 15 }
    {
        match self {
            Event::LcrcError => 0,
            Event::TseqError => 1,
            Event::EcrcError => 2,
            Event::RseqMissingError => 3,
            Event::RseqOutOfRangeError => 4,
            Event::RetryCount => 5,
            Event::RetryFailureError => 6,
            Event::BufferOverflow(channel) => 7 + usize::from(channel),
            Event::CreditOverflow(channel) => 11 + usize::from(channel),
        }
    }
}

impl fmt::Display for Event {
    ghost output = { λ x. Some (event_name x) };

    fn fmt<W: fmt::Write>(&self, f: &mut fmt::Formatter<W>) -> fmt::Result {
        f.write_str(Event::name(*self))
    }
}
