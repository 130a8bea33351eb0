// The number after a number, and whether a copy is of the next to accept.
ghost use Rattle.std.specs.Prelude.{◌≡◌, ℕ, ◌+◌, ◌%◌, ◌<◌, ◌==◌};
ghost use Rattle.numbers.specs.Round.{after, code, due};
ghost use Rattle.numbers.specs.Laws.{SameNumber, SameCode};

use super::Round;

impl Round {
    // The number after `number`: after the last of them it comes round to 0, and so it does after what is none of them.
    pub fn next(self, number: u32) -> u32
        ensures value { result ≡ after self.modulus number }
        ensures small { 0 < self.modulus → result < self.modulus }
        ensures follows { (k : ℕ) → 0 < self.modulus → number ≡ k % self.modulus → result ≡ (k + 1) % self.modulus }
        ensures apart { SameNumber }
    {
        if number < self.modulus.saturating_sub(1) {
            number + 1
        } else {
            0
        }
    }

    // The number that is due after the last one accepted: 0 where nothing was.
    #[tactic(auto, using(crate::proofs::Numbers::same_code))]
    pub fn due_after(self, last: Option<u32>) -> u32
        ensures value { result ≡ due self.modulus last }
        ensures counted { (a : ℕ) → 0 < self.modulus → last ≡ code self.modulus a → result ≡ a % self.modulus }
        ensures apart { SameCode }
    {
        last.map_or(0, |number| self.next(number))
    }

    // Whether a copy with the number `tseq` is of the next to accept. Where it is of count k and a were accepted, the
    // number tells this as long as k and a are less than `modulus` apart.
    pub fn is_due(self, tseq: u32, last: Option<u32>) -> bool
        ensures value { result ≡ (tseq == due self.modulus last) }
        ensures right { (a k : ℕ) → last ≡ code self.modulus a → tseq ≡ k % self.modulus → a < k + self.modulus → k < a + self.modulus → result ≡ (k == a) }
    {
        tseq == self.due_after(last)
    }
}
