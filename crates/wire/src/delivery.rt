// How a frame that comes off a wire reaches the caller.
ghost use Rattle.std.specs.Prelude.{◌≡◌};
ghost use Rattle.std.specs.Option.{unwrap_or};
ghost use Rattle.wire.specs.Delivered.{arrival_of};

use crate::arrival::Arrival;
use frame::FrameBytes;

// Writes the oldest frame into the caller's bytes, where there is one.
pub(crate) fn deliver(oldest: Option<FrameBytes>, frame: &mut FrameBytes) -> Arrival
    ensures answer { result ≡ arrival_of oldest }
    ensures bytes { frame.new ≡ unwrap_or oldest frame.old }
{
    match oldest {
        Some(bytes) => {
            *frame = bytes;
            Arrival::Frame
        }
        None => Arrival::Nothing,
    }
}
