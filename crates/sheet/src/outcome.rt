use frame::{FrameBytes, Parts};
use wire::LineGroups;

// What a line shows.
#[derive(Clone, Copy)]
pub enum Outcome {
    Frame(FrameBytes),
    Apart(Parts),
    Word(CodedWord),
    Code(u8),
    Groups(LineGroups),
    Put,
    Next(FrameBytes),
    Nothing,
}

// A group on a line: its five bits and the Disparity Count behind it.
// A struct beside the pair that coding answers, since Display stands on a type of one's own.
#[derive(Clone, Copy)]
pub struct CodedWord {
    pub word: u8,
    pub count: i8,
}
