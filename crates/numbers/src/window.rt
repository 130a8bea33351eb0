// How wide a window may be.
ghost use Rattle.std.specs.Prelude.{◌≡◌, ◌<◌, true, false, nat_lt};
ghost use Rattle.numbers.specs.Laws.{Kept, Places, Suffice, Delivers};

use super::Round;

impl Round {
    // Whether the numbers suffice for a window: exactly where it is narrower than there are numbers. With a wider one
    // a copy that is sent again can have the number that is due.
    #[tactic(auto, using(crate::proofs::Copies::kept, crate::proofs::Copies::places, crate::proofs::Copies::suffice, crate::proofs::Copies::tight, crate::proofs::Copies::delivers))]
    pub fn window_fits(self, window: u32) -> bool
        ensures value { result ≡ nat_lt window self.modulus }
        ensures suffice { result ≡ true → Suffice self.modulus window }
        ensures tight { result ≡ false → 0 < self.modulus → Suffice self.modulus window → ⊥ }
        ensures delivers { result ≡ true → 0 < window → Delivers self.modulus window }
        ensures kept { Kept }
        ensures places { Places }
    {
        window < self.modulus
    }
}
