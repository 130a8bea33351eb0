// How many an acknowledgement frees.
ghost use Rattle.std.specs.Prelude.{◌≡◌, ℕ, ◌+◌, ◌-◌, ◌≤◌, List, length, take, Some, None, ◌≢◌};
ghost use Rattle.numbers.specs.Round.{code, Consecutive, distance, place_at_once, freed_among, freed_at_once};
ghost use Rattle.numbers.specs.Laws.{Held, Figures};

use super::Round;

impl Round {
    // How far `number` lies behind `oldest`.
    fn distance_from(self, oldest: u32, number: u32) -> u32
        ensures { result ≡ distance self.modulus oldest number }
    {
        if oldest <= number {
            number - oldest
        } else {
            number + self.modulus.saturating_sub(oldest)
        }
    }

    // The place of `number`, from 1, among `ever` numbers from `oldest` on. What is not below `modulus` has none.
    fn place_from(self, oldest: u32, ever: u32, number: u32) -> Option<u32>
        ensures { result ≡ place_at_once self.modulus oldest ever number }
    {
        if number >= self.modulus {
            return None;
        }
        let far = self.distance_from(oldest, number);
        (far < ever).then(|| far + 1)
    }

    // How many an acknowledgement `rseq` frees, where `ever` were sent and not freed since the acknowledgement `last`,
    // the first of them with the number `oldest`: none where it is `last` again, and up to the one that has this number
    // where it is one of theirs. Any other is illegal. Where nothing was sent, `oldest` does not matter.
    #[tactic(auto, using(crate::proofs::Copies::figures))]
    pub fn freed(self, rseq: u32, last: Option<u32>, oldest: u32, ever: u32) -> Option<u32>
        ensures value { result ≡ freed_at_once self.modulus last oldest ever rseq }
        ensures found { (f : ℕ) (numbers : List ℕ) → Held self.modulus f last oldest ever → ever ≤ length numbers → Consecutive self.modulus f numbers → result ≡ freed_among last (take ever numbers) rseq }
        ensures frees { (f a : ℕ) → Held self.modulus f last oldest ever → f ≤ a → a ≤ f + ever → code self.modulus a ≡ Some rseq → result ≡ Some (a - f) }
        ensures illegal { (f : ℕ) → Held self.modulus f last oldest ever → ((a : ℕ) → f ≤ a → a ≤ f + ever → code self.modulus a ≢ Some rseq) → result ≡ None }
        ensures figures { Figures }
    {
        if last == Some(rseq) {
            Some(0)
        } else {
            self.place_from(oldest, ever, rseq)
        }
    }
}
