// A wire that holds frames as groups on signal lines, as docs/LINES.md has them.
ghost use Rattle.std.specs.Prelude.{◌≡◌, [], drop};
ghost use Rattle.std.specs.List.{slice_get};
ghost use Rattle.line.specs.Groups.{fresh};
ghost use Rattle.wire.specs.Lines.{carried, Coded, line_frames, line_room, LinePuts, LineTakes};

use crate::arrival::Arrival;
use crate::delivery::deliver;
use crate::wire_trait::Wire;
use frame::{FRAME_SIZE, FrameBytes, Refusal, sized};
use line::{Counts, GROUPS_SIZE, Groups as LineGroups, Width, frame_to_groups, groups_to_frame};
use ring::Ring;

// How many frames a line wire holds.
pub const LINE_PLACES: usize = 16;

// Holds 16 frames as groups, loses only what is put when it is full, and keeps the running count of every line.
#[derive(Drop)]
pub struct LineWire<'a> {
    counts: Counts,
    queue: Ring<'a, LineGroups>,
}

impl<'a> LineWire<'a> {
    pub fn new(width: Width, area: &'a mut [LineGroups; LINE_PLACES]) -> LineWire<'a>
        ensures empty { line_frames result ≡ [] }
        ensures room { line_room result ≡ 16 }
        ensures counts { result.counts ≡ fresh width }
    {
        LineWire {
            counts: Counts::new(width),
            queue: Ring::new(area, LINE_PLACES),
        }
    }

    // Takes the oldest off, as the frame that its groups carry.
    fn take_oldest(&mut self) -> Option<FrameBytes>
        ensures oldest { result ≡ slice_get (line_frames self.old) 0 }
        ensures left { line_frames self.new ≡ drop 1 (line_frames self.old) }
        ensures own { LineTakes self.old self.new }
    {
        let groups = self.queue.pop_front()?;
        Some(frame_of(self.counts.width(), &groups))
    }
}

// The frame that groups carry.
#[tactic(auto, unfolding(crate::specs::Lines::carried))]
fn frame_of(width: Width, groups: &LineGroups) -> FrameBytes
    ensures { result ≡ carried width groups.now }
{
    let mut frame = [0u8; FRAME_SIZE];
    // A refusal leaves the zeros, as `carried` has it.
    let _ = groups_to_frame(width, groups, &mut frame);
    frame
}

// The groups of a frame from running counts; answers the counts after it.
#[tactic(auto, using(crate::proofs::Outgoing::afresh))]
fn code(counts: Counts, frame: &FrameBytes, groups: &mut LineGroups) -> Counts
    ensures { Coded counts frame.now groups.new result }
{
    // A match: lent to a closure, the groups that the first code wrote would not be known to stay.
    match frame_to_groups(frame, counts, groups) {
        Ok(after) => after,
        Err(_) => code_afresh(counts.width(), frame, groups),
    }
}

// The same from lines that begin at 0: what a wire goes on from whose counts no line could have.
fn code_afresh(width: Width, frame: &FrameBytes, groups: &mut LineGroups) -> Counts
    ensures { Coded (fresh width) frame.now groups.new result }
{
    frame_to_groups(frame, Counts::new(width), groups).unwrap()
}

impl<'a> Wire for LineWire<'a> {
    ghost frames = { line_frames };

    ghost puts = { LinePuts };

    ghost takes = { LineTakes };

    fn put(&mut self, frame: &[u8]) -> Result<(), Refusal> {
        let bytes: &FrameBytes = sized(frame)?;
        let mut groups = [0u8; GROUPS_SIZE];
        let counts = code(self.counts, bytes, &mut groups);
        if self.queue.push_back(groups) {
            self.counts = counts;
        }
        Ok(())
    }

    fn next(&mut self, frame: &mut [u8]) -> Result<Arrival, Refusal> {
        let frame = frame.as_mut_array().ok_or(Refusal::BadSize)?;
        Ok(deliver(self.take_oldest(), frame))
    }
}
