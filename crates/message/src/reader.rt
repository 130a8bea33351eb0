use crate::heading::Heading;
use frame::{Channel, Content};

// Puts the Messages of one channel together again. It holds no payload: that goes into a buffer of the caller's.
#[derive(Clone, Copy)]
pub struct Reader {
    pub(crate) channel: Channel,
    pub(crate) message: Option<Underway>,
}

// A Message that has begun and is not complete: what its Header said, and how many bytes of its payload have come.
#[derive(Clone, Copy)]
pub(crate) struct Underway {
    pub(crate) heading: Heading,
    pub(crate) came: u64,
}

// A micropacket that was taken, as it is handed to a reader: its channel and its TYPE may be none, and its data may be of
// any length.
#[derive(Clone, Copy)]
pub struct Taken<'a> {
    pub channel: u64,
    pub kind: u64,
    pub tail: bool,
    pub error: bool,
    pub content: &'a [u8],
}

// The same once all of it fits, with what its TYPE is to a Message.
#[derive(Clone, Copy)]
pub(crate) struct Checked<'a> {
    pub(crate) channel: Channel,
    pub(crate) part: Part,
    pub(crate) tail: bool,
    pub(crate) error: bool,
    pub(crate) content: &'a Content,
}

// What a micropacket was to a reader. `Begins` and `Complete` write the Header's piece too, at the buffer's start.
#[derive(Clone, Copy, PartialEq, Eq, Debug)]
pub enum Read {
    // a Message begins, and more of it is to come
    Begins(Heading),
    // so many bytes of payload were written from `at` on, and more is to come
    Piece { at: u64, count: u64 },
    // the whole payload stands in the buffer's first bytes
    Complete(Heading),
    // an Admin, which is no part of a Message
    Admin,
}

// What comes of a micropacket: the answer, and the Message that is under way afterwards.
#[derive(Clone, Copy)]
pub(crate) struct Outcome {
    pub(crate) answer: Read,
    pub(crate) message: Option<Underway>,
}

// What a TYPE is to a Message.
#[derive(Clone, Copy)]
pub(crate) enum Part {
    First,
    Next,
    Alone,
    Foreign,
}
