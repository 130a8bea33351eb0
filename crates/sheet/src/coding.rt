// Lines that look up a group or a frame on the signal lines.
ghost use Rattle.std.specs.Prelude.{◌≡◌, map};
ghost use Rattle.line.specs.Code.{coded};
ghost use Rattle.line.specs.Tables.{standard_rows};
ghost use Rattle.sheet.specs.Lines.{Gives, word_of, code_line, decode_line, lines_line, unlines_line};

use crate::outcome::{CodedWord, Outcome};
use crate::reading::width;
use crate::trouble::Trouble;
use frame::{FRAME_SIZE, Refusal};
use line::{
    Counts, GROUPS_SIZE, code_group, decode_group, frame_to_groups, groups_to_frame, standard,
};
use std::alloc::Global;
use text::{bytes, number, signed};

// A code at a count, by the standard's table.
fn code_at(code: u64, count: i32) -> Result<CodedWord, Refusal>
    ensures { result ≡ word_of (coded standard_rows code count) }
{
    let (word, count) = code_group(standard(), code, i64::from(count))?;
    Ok(CodedWord { word, count })
}

// `code NUMBER SIGNED`: the word of a code at a Disparity Count, and the count behind it.
#[tactic(auto, using(crate::proofs::Words::words), unfolding(crate::specs::Lines::code_line))]
pub(crate) fn code_line(words: &[&[u8]]) -> Result<Outcome, Trouble>
    ensures { result ≡ code_line (map (λ x. x.now) words.now) }
{
    let [_, code, count] = words else {
        return Err(Trouble::NotUnderstood);
    };
    let code = number(code).ok_or(Trouble::NotUnderstood)?;
    let count = signed(count).ok_or(Trouble::NotUnderstood)?;
    Ok(Outcome::Word(code_at(code, count)?))
}

// `decode NUMBER`: the code of a group.
#[tactic(auto, using(crate::proofs::Words::words), unfolding(crate::specs::Lines::decode_line))]
pub(crate) fn decode_line(words: &[&[u8]]) -> Result<Outcome, Trouble>
    ensures { result ≡ decode_line (map (λ x. x.now) words.now) }
{
    let [_, group] = words else {
        return Err(Trouble::NotUnderstood);
    };
    let group = number(group).ok_or(Trouble::NotUnderstood)?;
    Ok(Outcome::Code(decode_group(group)?))
}

// `lines WIDTH BYTES`: the groups of a frame, all counts 0 before.
// It begins as `unlines_line` does: a function for that would hand back a pair to be taken apart again.
#[tactic(auto, using(crate::proofs::Words::words), unfolding(crate::specs::Lines::lines_line))]
pub(crate) fn lines_line(heap: Global, words: &[&[u8]]) -> Result<Outcome, Trouble>
    ensures { Gives result (lines_line (map (λ x. x.now) words.now)) }
{
    let [_, system, frame] = words else {
        return Err(Trouble::NotUnderstood);
    };
    let width = width(system).ok_or(Trouble::NotUnderstood)?;
    let frame = bytes(heap, frame)?.ok_or(Trouble::NotUnderstood)?;
    let mut groups = [0; GROUPS_SIZE];
    frame_to_groups(&frame, Counts::new(width), &mut groups)?;
    Ok(Outcome::Groups(groups))
}

// `unlines WIDTH BYTES`: the frame of 80 groups.
#[tactic(auto, using(crate::proofs::Words::words), unfolding(crate::specs::Lines::unlines_line))]
pub(crate) fn unlines_line(heap: Global, words: &[&[u8]]) -> Result<Outcome, Trouble>
    ensures { Gives result (unlines_line (map (λ x. x.now) words.now)) }
{
    let [_, system, groups] = words else {
        return Err(Trouble::NotUnderstood);
    };
    let width = width(system).ok_or(Trouble::NotUnderstood)?;
    let groups = bytes(heap, groups)?.ok_or(Trouble::NotUnderstood)?;
    let mut frame = [0; FRAME_SIZE];
    groups_to_frame(width, &groups, &mut frame)?;
    Ok(Outcome::Frame(frame))
}
