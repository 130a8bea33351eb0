// What every wire does.
ghost use Rattle.std.specs.Prelude.{◌≡◌, ℕ, List, length};
ghost use Rattle.frame.specs.Codec.{or_else, frame_refusal};
ghost use Rattle.wire.specs.Wires.{Put, Next};

use crate::arrival::Arrival;
use frame::Refusal;

// A wire means the list of the frames under way, the oldest first.
pub trait Wire {
    ghost frames: { Self → List (List ℕ) };

    // What a wire says of its own calls beyond the list: nothing, unless it says so. Code over any wire does without.
    ghost puts: { Self → List ℕ → Self → Type 0 } = { λ _ _ _. Unit {0} };

    ghost takes: { Self → Self → Type 0 } = { λ _ _. Unit {0} };

    // Puts a frame on behind the others. The wire may lose it, or carry other bytes in its place, which then do not
    // pass the link check.
    fn put(&mut self, frame: &[u8]) -> Result<(), Refusal>
        ensures answer { result ≡ or_else (frame_refusal (length frame.now)) tt }
        ensures list { Put (frames self.old) frame.now (frames self.new) }
        ensures own { puts self.old frame.now self.new };

    // Takes the oldest frame off, into the caller's bytes.
    fn next(&mut self, frame: &mut [u8]) -> Result<Arrival, Refusal>
        ensures list { Next (frames self.old) frame.old result frame.new (frames self.new) }
        ensures own { takes self.old self.new };
}
