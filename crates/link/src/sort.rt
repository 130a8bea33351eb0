// What a TYPE means to an end.
#[derive(Clone, Copy, PartialEq, Eq)]
pub(crate) enum Sort {
    // Nothing but an acknowledgement: Null, and what the standard leaves undefined below 8.
    Idle,
    Control,
    // Sequenced, with nothing for a channel.
    Credit,
    // Sequenced, for a channel: its check begins afresh, or runs on. What the standard leaves undefined from 8 on
    // counts as Data.
    Afresh,
    Onward,
}
