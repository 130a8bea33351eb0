// A layer over any wire that loses or damages what is put, as a list of fates says.
ghost use Rattle.std.specs.Prelude.{◌≡◌, ◌*◌, ◌<◌, length, take, drop, ◌==◌};
ghost use Rattle.crc.specs.Laws.{flipped};
ghost use Rattle.frame.specs.Checks.{syndrome_of};
ghost use Rattle.wire.specs.Fates.{fates_left, next_fate, damaged, struck, FaultPuts, FaultTakes};
ghost use Rattle.wire.specs.Wires.{frame_size};

use crate::arrival::Arrival;
use crate::fate::Fate;
use crate::fault::Fault;
use crate::wire_trait::Wire;
use frame::{FRAME_SIZE, FrameBytes, Refusal, sized, syndrome};

// How many fates are used at most: those beyond are ignored.
const FATES: usize = 64;

// How many bits a frame has. A cast, since `u64::from` takes no usize.
const FRAME_BITS: u64 = 8 * FRAME_SIZE as u64;

impl<'a, W> Fault<'a, W> {
    #[tactic(auto, using(std::proofs::lemmas::List::take_min))]
    pub fn new(below: W, fates: &'a [Fate]) -> Fault<'a, W>
        ensures below { result.below ≡ below }
        ensures fates { fates_left result ≡ take 64 fates.now }
    {
        Fault {
            below,
            // Cut, not a Take: what a Take has left is not told once it is at its end.
            fates: fates[..FATES.min(fates.len())].iter(),
        }
    }

    // The fate of the next frame, which is then spent: after the last, every frame passes.
    fn spend(&mut self) -> Fate
        ensures is { result ≡ next_fate (fates_left self.old) }
        ensures left { fates_left self.new ≡ drop 1 (fates_left self.old) }
        ensures below { self.new.below ≡ self.old.below }
    {
        self.fates.next().copied().unwrap_or(Fate::Pass)
    }
}

// Whether a frame passes the link check.
fn is_good(frame: &FrameBytes) -> bool
    ensures { result ≡ (syndrome_of frame.now == 0) }
{
    syndrome(frame) == Ok(0)
}

// A frame with one bit turned over.
fn turned_over(frame: FrameBytes, n: u64) -> FrameBytes
    requires { n < 8 * frame_size }
    ensures { result ≡ flipped frame n }
{
    let mut bytes = frame;
    // A cast that loses nothing: n is below 320.
    bytes[n as usize / 8] ^= 1 << (n % 8);
    bytes
}

// A flip changes only a good frame, and only where it names one of its bits.
fn damage(frame: FrameBytes, n: u64) -> FrameBytes
    ensures { result ≡ damaged n frame }
{
    if n < FRAME_BITS && is_good(&frame) {
        turned_over(frame, n)
    } else {
        frame
    }
}

// What a fate makes of a frame: nothing where it is lost.
fn strike(fate: Fate, frame: FrameBytes) -> Option<FrameBytes>
    ensures { result ≡ struck fate frame }
{
    match fate {
        Fate::Pass => Some(frame),
        Fate::Lose => None,
        Fate::Flip(n) => Some(damage(frame, n)),
    }
}

impl<'a, W: Wire> Wire for Fault<'a, W> {
    ghost frames = { λ f. W.Wire.frames f.below };

    ghost puts = { FaultPuts W.Wire.puts };

    ghost takes = { FaultTakes W.Wire.takes };

    fn put(&mut self, frame: &[u8]) -> Result<(), Refusal> {
        let bytes: &FrameBytes = sized(frame)?;
        let Some(bytes) = strike(self.spend(), *bytes) else {
            return Ok(());
        };
        self.below.put(&bytes)
    }

    fn next(&mut self, frame: &mut [u8]) -> Result<Arrival, Refusal> {
        self.below.next(frame)
    }
}
