// The numbers of this edition.
use numbers::Round;

// How many numbers there are: TSEQ counts from 0 to one below this, and then from 0 again. The number itself stands
// where there is none, in frames and in what is told of them; within an end that is an Option.
pub(crate) const NUMBERS: u8 = 255;

// What follows what, and what an acknowledgement frees. A cast, since a constant calls no From.
pub(crate) const ROUND: Round = Round {
    modulus: NUMBERS as u32,
};
