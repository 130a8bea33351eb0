// What a wire answers where it is asked for the next frame: two names, since a bool would not say which it means.
#[derive(Clone, Copy, PartialEq, Eq, Debug)]
pub enum Arrival {
    // The oldest frame came off the wire, into the caller's bytes.
    Frame,
    // Nothing is under way.
    Nothing,
}
