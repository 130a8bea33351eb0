// The wire w, which a sheet calls by itself.
ghost use Rattle.std.specs.Prelude.{◌≡◌, Ok};
ghost use Rattle.sheet.specs.Desk.{wire_state, after_put, put_outcome, after_next, next_outcome};

use crate::outcome::Outcome;
use crate::trouble::Trouble;
use wire::{AnyWire, Arrival, FRAME_SIZE, Fault, Wire};

// `w put BYTES`.
pub(crate) fn put_on(wire: &mut Fault<'_, AnyWire<'_>>, frame: &[u8]) -> Result<Outcome, Trouble>
    ensures answer { result ≡ put_outcome frame.now }
    ensures state { wire_state wire.new ≡ after_put (wire_state wire.old) frame.now }
{
    wire.put(frame)?;
    Ok(Outcome::Put)
}

// `w next`.
pub(crate) fn next_of(wire: &mut Fault<'_, AnyWire<'_>>) -> Result<Outcome, Trouble>
    ensures answer { result ≡ Ok (next_outcome (wire_state wire.old)) }
    ensures state { wire_state wire.new ≡ after_next (wire_state wire.old) }
{
    let mut frame = [0; FRAME_SIZE];
    match wire.next(&mut frame)? {
        Arrival::Frame => Ok(Outcome::Next(frame)),
        Arrival::Nothing => Ok(Outcome::Nothing),
    }
}
