ghost use Rattle.std.specs.Prelude.{◌≡◌};
ghost use Rattle.frame.specs.declared.refusal.Refusal.TheVariants.{BadSize};

use std::num::TryFromIntError;

// Why a call is refused. The numbers and names are what people look up; docs/REFUSALS.md has when each comes.
#[derive(Clone, Copy, PartialEq, Eq, Debug)]
pub enum Refusal {
    BadChannel = 1,
    NotNormal = 2,
    MessageOpen = 3,
    NoMessage = 4,
    TooLong = 5,
    BadSize = 6,
    WindowFull = 7,
    NoCredit = 8,
    NothingHeld = 9,
    NoSlip = 10,
    NothingSent = 11,
    Marked = 12,
    OutOfStep = 13,
    BadHeader = 14,
    NoSpace = 15,
}

// A number that does not fit its place.
impl From<TryFromIntError> for Refusal {
    ghost from_gives = { λ _ e. e ≡ BadSize };

    fn from(_too_large: TryFromIntError) -> Refusal {
        Refusal::BadSize
    }
}
