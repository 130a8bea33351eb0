// One of the four virtual channels of a link.
#[derive(Clone, Copy, PartialEq, Eq, Debug)]
pub enum Channel {
    Vc0 = 0,
    Vc1 = 1,
    Vc2 = 2,
    Vc3 = 3,
}
