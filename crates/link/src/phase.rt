// What an end is doing: its work, or nothing any more.
#[derive(Clone, Copy, PartialEq, Eq, Debug)]
pub enum Phase {
    Normal,
    Shutdown,
}
