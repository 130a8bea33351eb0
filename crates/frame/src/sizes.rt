// How many bytes a frame and its data have, and byte strings of just so many.
ghost use Rattle.std.specs.Prelude.{◌≡◌, length};
ghost use Rattle.frame.specs.Codec.{or_else, size_refusal, seen};

use crate::refusal::Refusal;

pub const FRAME_SIZE: usize = 40;

pub const DATA_SIZE: usize = 32;

// The most credit that a frame tells: CR has six bits.
pub const MOST_CR: u8 = 63;

pub type FrameBytes = [u8; FRAME_SIZE];

pub type Content = [u8; DATA_SIZE];

// The bytes as an array, where there are just as many as it has. To write to, the library's `as_mut_array` serves: of a
// Result that lends from a slice no clause could say what is written back.
pub fn sized<const N: usize>(bytes: &[u8]) -> Result<&[u8; N], Refusal>
    ensures { seen result ≡ or_else (size_refusal N (length bytes.now)) bytes.now }
{
    bytes.as_array().ok_or(Refusal::BadSize)
}
