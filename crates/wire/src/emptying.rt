// What can be done with any wire.
ghost use Rattle.std.specs.Prelude.{◌≡◌, ◌+◌, cond, [], length};

use crate::arrival::Arrival;
use crate::wire_trait::Wire;
use frame::FRAME_SIZE;

// Empties a wire, whatever is on it.
pub fn drain<W: Wire>(wire: &mut W)
    ensures { W.frames wire.new ≡ [] }
{
    let mut frame = [0u8; FRAME_SIZE];
    while let Ok(Arrival::Frame) = wire.next(&mut frame) {}
}
