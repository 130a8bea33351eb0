use frame::Channel;

// How many counters there are: one of each event, and of the last two one of each channel.
pub(crate) const EVENTS: usize = 15;

// What an end logs. The last two are of a channel.
#[derive(Clone, Copy, PartialEq, Eq, Debug)]
pub enum Event {
    LcrcError,
    TseqError,
    EcrcError,
    RseqMissingError,
    RseqOutOfRangeError,
    RetryCount,
    RetryFailureError,
    BufferOverflow(Channel),
    CreditOverflow(Channel),
}
