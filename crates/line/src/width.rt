// The two line systems: 16 data and 4 control lines that carry four groups of a frame each, or 8 and 2 that carry eight.
#[derive(Clone, Copy, PartialEq, Eq, Debug)]
pub enum Width {
    Wide,
    Narrow,
}
