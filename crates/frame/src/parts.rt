ghost use Rattle.std.specs.Prelude.{◌≡◌};
ghost use Rattle.frame.specs.Parts.{taken_apart};

use crate::checks::syndrome_over;
use crate::fields::Fields;
use crate::refusal::Refusal;
use crate::sizes::{Content, DATA_SIZE, FrameBytes, sized};

// A frame taken apart: its fields, its data and what is left of its link check.
#[derive(Clone, Copy, PartialEq, Eq, Debug)]
pub struct Parts {
    pub fields: Fields,
    pub content: Content,
    pub syndrome: u16,
}

impl Parts {
    // Takes a frame apart.
    pub fn read(frame: &[u8]) -> Result<Parts, Refusal>
        ensures { result ≡ taken_apart frame.now }
    {
        let frame: &FrameBytes = sized(frame)?;
        Ok(Parts {
            fields: Fields::from(frame),
            content: *sized(&frame[..DATA_SIZE])?,
            syndrome: syndrome_over(frame),
        })
    }
}
