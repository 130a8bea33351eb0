// Bytes into their place.
ghost use Rattle.std.specs.Prelude.{◌≡◌, ◌+◌, ◌≤◌, length};
ghost use Rattle.message.specs.Copying.{written};

// Lends the part of `room` from `at` on to be written with `part`, and leaves every other byte.
#[tactic(auto, using(crate::proofs::Places::part_written))]
pub(crate) fn put(room: &mut [u8], at: usize, part: &[u8])
    requires { at + length part.now ≤ length room.old }
    ensures { room.new ≡ written at part.now room.old }
{
    room[at..at + part.len()].copy_from_slice(part);
}
