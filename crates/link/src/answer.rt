// What became of a frame that an end was handed.
#[derive(Clone, Copy, PartialEq, Eq, Debug)]
pub enum Answer {
    Accepted,
    Null,
    Control,
    // This call shut the end down.
    Shut,
    Discarded(Cause),
}

// Why a frame was discarded.
#[derive(Clone, Copy, PartialEq, Eq, Debug)]
pub enum Cause {
    State,
    Stomped,
    Lcrc,
    Tseq,
    Ecrc,
}
