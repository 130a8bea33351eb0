ghost use Rattle.std.specs.Prelude.{◌≡◌};
ghost use Rattle.sheet.specs.declared.trouble.Trouble.TheVariants.{Refused, OutOfMemory};

use frame::Refusal;
use std::alloc::AllocError;

// Why a line shows no outcome.
#[derive(Clone, Copy)]
pub enum Trouble {
    NotUnderstood,
    TooLate,
    Refused(Refusal),
    // Ends the whole sheet, so that no line prints it.
    OutOfMemory(AllocError),
}

impl From<Refusal> for Trouble {
    ghost from_gives = { λ r e. e ≡ Refused r };

    fn from(refusal: Refusal) -> Trouble {
        Trouble::Refused(refusal)
    }
}

impl From<AllocError> for Trouble {
    ghost from_gives = { λ error e. e ≡ OutOfMemory error };

    fn from(error: AllocError) -> Trouble {
        Trouble::OutOfMemory(error)
    }
}
