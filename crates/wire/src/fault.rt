ghost use Rattle.std.specs.Prelude.{◌≤◌, length};
ghost use Rattle.std.specs.Slice.Iter.{iter_rest};

use crate::fate::Fate;
use std::slice::Iter;

// The wire below, and the fates that are left, which are never more than are used.
#[derive(Drop)]
pub struct Fault<'a, W> {
    pub(crate) below: W,
    pub(crate) fates: Iter<'a, Fate>,
    ghost few: { length (iter_rest fates) ≤ 64 },
}
