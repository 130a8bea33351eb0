use crate::outcome::Outcome;
use line::Width;
use wire::Fate;

// The kind of a wire, as a sheet declares it: for so many whole frames, or of signal lines.
#[derive(Clone, Copy)]
pub enum WireKind {
    Plain(u16),
    Line(Width),
}

// What a line asks for: to show something that needs nothing else, or nothing, to declare something, or a call.
#[derive(Drop)]
pub enum Request {
    Shows(Option<Outcome>),
    WireIs(WireKind),
    FatesAre(Vec<Fate>),
    Puts(Vec<u8>),
    Nexts,
}

// What the declarations of a sheet say so far.
#[derive(Drop)]
pub struct Setup {
    pub wire: WireKind,
    pub fates: Vec<Fate>,
}
