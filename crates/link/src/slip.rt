use frame::{Channel, Kind};

// A claim on one taken place of a channel. It can be neither dropped nor copied: whoever has one gives it back.
pub struct Slip {
    pub(crate) channel: Channel,
}

// What `take` answers beside the data.
pub struct Taken {
    pub kind: Kind,
    pub tail: bool,
    pub error: bool,
    pub slip: Slip,
}
