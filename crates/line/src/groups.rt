// The groups of a frame.
ghost use Rattle.std.specs.Prelude.{◌≡◌, ℕ, ◌<◌, true, length, if◌then◌else◌, Ok, Err, slice_index};
ghost use Rattle.std.specs.List.{list_all};
ghost use Rattle.line.specs.Code.{in_range, is_word};
ghost use Rattle.line.specs.Tables.{Good, standard_rows};
ghost use Rattle.line.specs.Places.{lines};
ghost use Rattle.frame.specs.declared.refusal.Refusal.TheVariants.{BadSize};
ghost use Rattle.line.specs.Groups.{codes_of, counts_of, width_of, with_counts, counts_after, words_of, frame_of, received, received_frame, sent, sent_groups, AllStay, Carried, GivenBack};

use crate::code::{code_of, group};
use crate::counts::Counts;
use crate::places::groups_of;
use crate::table::{CodeTable, standard};
use crate::width::Width;
use frame::{FRAME_SIZE, FrameBytes, Refusal, sized};

// How many groups a frame goes out as: two to a byte.
pub const GROUPS_SIZE: usize = 2 * FRAME_SIZE;

// The groups of one frame, a byte each.
pub type Groups = [u8; GROUPS_SIZE];

// The codes of a frame, each at its group. No bit is moved by itself, since four stay together: a byte fills two groups.
fn spread(width: Width, frame: &FrameBytes, groups: &mut Groups)
    ensures { groups.new ≡ codes_of width frame.now }
{
    for (b, byte) in frame.iter().enumerate() {
        let (low, high) = groups_of(width, b);
        groups[low] = byte % 16;
        groups[high] = byte / 16;
    }
}

// The words of codes, each at the count of its line, which alone is replaced; answers the counts after them.
// Codes are plain bytes, since their words take their places in the caller's buffer.
#[tactic(auto, unfolding(crate::specs::Groups::counts_after))]
fn code_each<const N: usize>(table: &CodeTable, mut counts: [i8; N], groups: &mut Groups) -> [i8; N]
    requires good { Good table.now }
    requires lines { 0 < N }
    requires counts { list_all in_range counts ≡ true }
    requires codes { (g : ℕ) → slice_index groups.old g < 16 }
    ensures counts { result ≡ counts_after table.now N groups.old counts.entry 80 }
    ensures groups { groups.new ≡ words_of table.now N groups.old counts.entry }
{
    for (g, word) in groups.iter_mut().enumerate() {
        let count = &mut counts[g % N];
        (*word, *count) = group(table, *word, *count);
    }
    counts
}

// The words of codes from the counts of either width; answers the counts after them.
// An arm for each width, since their arrays differ in length.
fn code_all(counts: Counts, groups: &mut Groups) -> Counts
    requires counts { list_all in_range (counts_of counts) ≡ true }
    requires codes { (g : ℕ) → slice_index groups.old g < 16 }
    ensures counts { result ≡ with_counts counts (counts_after standard_rows (lines (width_of counts)) groups.old (counts_of counts) 80) }
    ensures groups { groups.new ≡ words_of standard_rows (lines (width_of counts)) groups.old (counts_of counts) }
{
    match counts {
        Counts::Wide(counts) => Counts::Wide(code_each(standard(), counts, groups)),
        Counts::Narrow(counts) => Counts::Narrow(code_each(standard(), counts, groups)),
    }
}

// A group has five bits.
fn are_words(groups: &Groups) -> bool
    ensures { result ≡ list_all is_word groups.now }
{
    groups.iter().all(|group| *group < 32)
}

// The frame of groups, two to a byte.
#[tactic(auto, using(crate::proofs::Passes::word_small))]
fn gather(width: Width, groups: &Groups, frame: &mut FrameBytes)
    requires { list_all is_word groups.now ≡ true }
    ensures { frame.new ≡ frame_of width groups.now }
{
    for (b, byte) in frame.iter_mut().enumerate() {
        let (low, high) = groups_of(width, b);
        *byte = code_of(groups[low]) + 16 * code_of(groups[high]);
    }
}

// The groups of a frame, a byte each with w as bit 0: all lines' first groups first, data lines before control lines.
// The counts are tested before the first byte is written, so that a refusal alters none.
#[tactic(auto, using(crate::proofs::Back::code_small))]
pub fn frame_to_groups(frame: &[u8], counts: Counts, groups: &mut [u8]) -> Result<Counts, Refusal>
    ensures answer { result ≡ sent counts frame.now groups.old }
    ensures groups { groups.new ≡ sent_groups counts frame.now groups.old }
    ensures stay { AllStay result }
    ensures carried { Carried counts frame.now groups.new result }
    ensures back { GivenBack counts frame.now groups.new result }
{
    let frame = sized(frame)?;
    let groups = groups.as_mut_array().ok_or(Refusal::BadSize)?;
    if !counts.are_in_range() {
        return Err(Refusal::BadSize);
    }
    spread(counts.width(), frame, groups);
    Ok(code_all(counts, groups))
}

// The frame of 80 groups in the same order.
pub fn groups_to_frame(width: Width, groups: &[u8], frame: &mut [u8]) -> Result<(), Refusal>
    ensures answer { result ≡ received groups.now frame.old }
    ensures frame { frame.new ≡ received_frame width groups.now frame.old }
{
    let groups = sized(groups)?;
    let frame = frame.as_mut_array().ok_or(Refusal::BadSize)?;
    if !are_words(groups) {
        return Err(Refusal::BadSize);
    }
    gather(width, groups, frame);
    Ok(())
}
