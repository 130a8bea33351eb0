// What is printed of outcomes and troubles.
ghost use Rattle.std.specs.Prelude.{◌≡◌, ◌++◌, Some, codes, decimal};
ghost use Rattle.text.specs.Hex.{hex_of};
ghost use Rattle.sheet.specs.Shown.{shown_parts, shown_bits, shown_word, shown_outcome, shown_trouble};

use crate::outcome::{CodedWord, Outcome};
use crate::trouble::Trouble;
use frame::Parts;
use std::fmt;
use text::writing::{Hex, Hex4};

impl fmt::Display for Trouble {
    ghost output = { λ x. Some (shown_trouble x) };

    fn fmt<W: fmt::Write>(&self, f: &mut fmt::Formatter<W>) -> fmt::Result {
        match self {
            Trouble::NotUnderstood => f.write_str("not understood"),
            Trouble::TooLate => f.write_str("too late"),
            // The number and the name that a person looks up.
            Trouble::Refused(refusal) => write!(f, "refused {} {refusal}", u8::from(*refusal)),
            Trouble::OutOfMemory(_) => f.write_str("out of memory"),
        }
    }
}

// A frame taken apart, as it is shown: a type of its own, since how a sheet prints is none of the frame's business.
#[derive(Clone, Copy)]
struct Labelled(Parts);

impl fmt::Display for Labelled {
    ghost output = { λ x. Some (shown_parts x.0) };

    fn fmt<W: fmt::Write>(&self, f: &mut fmt::Formatter<W>) -> fmt::Result {
        let fields = self.0.fields;
        write!(
            f,
            "vc {} type {} tail {} error {} vcr {} cr {} rseq {} tseq {} ecrc {} lcrc {} data {} syndrome {}",
            u8::from(fields.vc),
            u8::from(fields.kind),
            u8::from(fields.tail),
            u8::from(fields.error),
            u8::from(fields.vcr),
            fields.cr,
            fields.rseq,
            fields.tseq,
            Hex4(fields.ecrc),
            Hex4(fields.lcrc),
            Hex(&self.0.content),
            Hex4(self.0.syndrome)
        )
    }
}

impl fmt::Display for CodedWord {
    ghost output = { λ x. Some (shown_word x) };

    #[tactic(auto, using(crate::proofs::Bits::bits))]
    fn fmt<W: fmt::Write>(&self, f: &mut fmt::Formatter<W>) -> fmt::Result {
        // Five bits, whatever else the byte holds.
        let bits = self.word % 32;
        let count = self.count;
        write!(f, "word {bits:05b} count {count}")
    }
}

impl fmt::Display for Outcome {
    ghost output = { λ x. Some (shown_outcome x) };

    fn fmt<W: fmt::Write>(&self, f: &mut fmt::Formatter<W>) -> fmt::Result {
        match self {
            Outcome::Frame(bytes) => write!(f, "frame {}", Hex(bytes)),
            Outcome::Apart(parts) => write!(f, "{}", Labelled(*parts)),
            Outcome::Word(word) => write!(f, "{word}"),
            Outcome::Code(code) => write!(f, "code {code}"),
            Outcome::Groups(groups) => write!(f, "lines {}", Hex(groups)),
            Outcome::Put => f.write_str("put"),
            Outcome::Next(bytes) => write!(f, "next {}", Hex(bytes)),
            Outcome::Nothing => f.write_str("nothing"),
        }
    }
}
