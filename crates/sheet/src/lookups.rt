// Lines that look something up: they change nothing.
ghost use Rattle.std.specs.Prelude.{◌≡◌, map};
ghost use Rattle.sheet.specs.Lines.{Gives, made_frame, frame_line, fields_line};

use crate::outcome::Outcome;
use crate::reading::numbers_in;
use crate::trouble::Trouble;
use frame::{FRAME_SIZE, Fields, FrameBytes, Numbers, Parts, Refusal};
use std::alloc::Global;
use text::bytes;

// The frame of fields and data.
fn make_frame(numbers: Numbers, content: &[u8]) -> Result<FrameBytes, Refusal>
    ensures { result ≡ made_frame numbers content.now }
{
    let mut frame = [0; FRAME_SIZE];
    Fields::try_from(numbers)?.emit(content, &mut frame)?;
    Ok(frame)
}

// `frame VC TYPE TAIL ERROR VCR CR RSEQ TSEQ ECRC LCRC DATA`: the frame of these, its checks as given.
#[tactic(auto, using(crate::proofs::Words::words), unfolding(crate::specs::Lines::frame_line))]
pub(crate) fn frame_line(heap: Global, words: &[&[u8]]) -> Result<Outcome, Trouble>
    ensures { Gives result (frame_line (map (λ x. x.now) words.now)) }
{
    let words = words.as_array().ok_or(Trouble::NotUnderstood)?;
    let numbers = numbers_in(words).ok_or(Trouble::NotUnderstood)?;
    let content = bytes(heap, words[11])?.ok_or(Trouble::NotUnderstood)?;
    Ok(Outcome::Frame(make_frame(numbers, &content)?))
}

// `fields BYTES`: what these bytes say as a frame.
#[tactic(auto, using(crate::proofs::Words::words), unfolding(crate::specs::Lines::fields_line))]
pub(crate) fn fields_line(heap: Global, words: &[&[u8]]) -> Result<Outcome, Trouble>
    ensures { Gives result (fields_line (map (λ x. x.now) words.now)) }
{
    let [_, frame] = words else {
        return Err(Trouble::NotUnderstood);
    };
    let frame = bytes(heap, frame)?.ok_or(Trouble::NotUnderstood)?;
    Ok(Outcome::Apart(Parts::read(&frame)?))
}
