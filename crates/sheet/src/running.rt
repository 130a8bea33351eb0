// A sheet from its first line to its last: declarations first, then calls.
ghost use Rattle.std.specs.Prelude.{◌≡◌, ◌+◌, [], ◌++◌, map, length, drop, IfOk, string_bytes, OnOk};
ghost use Rattle.wire.specs.Anys.{any_frames};
ghost use Rattle.sheet.specs.Asks.{ask_of};
ghost use Rattle.sheet.specs.Desk.{any_room, room_of, wire_state, setup_wire, declared, called, outcome_in, after_ask, before_call, setup_after, places_of};
ghost use Rattle.sheet.specs.Print.{prints_from, printed};

use crate::asking::request;
use crate::desk::{next_of, put_on};
use crate::printing::{Answer, put_answer};
use crate::request::{Request, Setup, WireKind};
use crate::trouble::Trouble;
use frame::{FRAME_SIZE, FrameBytes};
use std::alloc::{AllocError, Global};
use text::lines;
use wire::{AnyWire, Fault, GROUPS_SIZE, LINE_PLACES, LineGroups, LineWire, PlainWire};

impl Setup {
    // What a line does before anything was called. A call is left for later.
    fn declare(&mut self, asked: Result<Request, Trouble>) -> Option<Answer>
        ensures answer { result ≡ before_call (declared (setup_wire self.old)) (ask_of asked) }
        ensures state { declared (setup_wire self.new) ≡ setup_after (declared (setup_wire self.old)) (ask_of asked) }
    {
        match asked {
            Ok(Request::Shows(outcome)) => Some(Ok(outcome)),
            Ok(Request::WireIs(kind)) => {
                self.wire = kind;
                Some(Ok(None))
            }
            Ok(Request::FatesAre(fates)) => {
                self.fates = fates;
                Some(Ok(None))
            }
            Ok(Request::Puts(_) | Request::Nexts) => None,
            Err(trouble) => Some(Err(trouble)),
        }
    }
}

// What a line does from the first call on.
fn carry_out(wire: &mut Fault<'_, AnyWire<'_>>, asked: Result<Request, Trouble>) -> Answer
    ensures answer { result ≡ outcome_in (called (wire_state wire.old)) (ask_of asked) }
    ensures state { called (wire_state wire.new) ≡ after_ask (called (wire_state wire.old)) (ask_of asked) }
{
    match asked? {
        Request::Shows(outcome) => Ok(outcome),
        Request::WireIs(_) | Request::FatesAre(_) => Err(Trouble::TooLate),
        Request::Puts(frame) => Ok(Some(put_on(wire, &frame)?)),
        Request::Nexts => Ok(Some(next_of(wire)?)),
    }
}

impl WireKind {
    // How many places a wire of this kind needs for whole frames.
    fn places(self) -> usize
        ensures { result ≡ places_of self }
    {
        match self {
            WireKind::Plain(count) => usize::from(count),
            WireKind::Line(_) => 0,
        }
    }

    // A wire of this kind over lent memory.
    fn make<'a>(
        self,
        frames: &'a mut [FrameBytes],
        groups: &'a mut [LineGroups; LINE_PLACES],
    ) -> AnyWire<'a>
        ensures empty { any_frames result ≡ [] }
        ensures room { length frames.old ≡ places_of self → any_room result ≡ room_of self }
    {
        match self {
            WireKind::Plain(_) => AnyWire::Plain(PlainWire::new(frames)),
            WireKind::Line(width) => AnyWire::Line(LineWire::new(width, groups)),
        }
    }
}

// Carries out the lines before the first call, and answers how many they are.
// Heap, print and lines stand side by side: a struct of them would only add to each contract that the lines stay.
fn run_declarations(
    heap: Global,
    out: &mut String,
    pieces: &[&[u8]],
    setup: &mut Setup,
) -> Result<usize, AllocError>
    ensures { IfOk result (λ i. string_bytes out.new ++ prints_from (i + 1) (called (setup_wire setup.new)) (map (λ x. x.now) (drop i pieces.now)) ≡ string_bytes out.old ++ prints_from 1 (declared (setup_wire setup.old)) (map (λ x. x.now) pieces.now)) }
{
    for (i, line) in pieces.iter().enumerate() {
        let asked = request(heap, line)?;
        match setup.declare(asked) {
            Some(answer) => put_answer(out, i + 1, &answer)?,
            None => return Ok(i),
        }
    }
    Ok(pieces.len())
}

// Carries out the lines from the first call on.
fn run_calls(
    heap: Global,
    out: &mut String,
    pieces: &[&[u8]],
    from: usize,
    wire: &mut Fault<'_, AnyWire<'_>>,
) -> Result<(), AllocError>
    ensures { OnOk result (string_bytes out.new ≡ string_bytes out.old ++ prints_from (from + 1) (called (wire_state wire.old)) (map (λ x. x.now) (drop from pieces.now))) }
{
    let Some(rest) = pieces.get(from..) else {
        return Ok(());
    };
    for (i, line) in rest.iter().enumerate() {
        let asked = request(heap, line)?;
        let answer = carry_out(wire, asked);
        put_answer(out, from + i + 1, &answer)?;
    }
    Ok(())
}

// Room for whole frames.
fn blank_frames(heap: Global, count: usize) -> Result<Vec<FrameBytes>, AllocError>
    ensures { IfOk result (λ v. length v.items ≡ count) }
{
    vec![in heap; [0; FRAME_SIZE]; count]
}

// Makes what the sheet declared, and carries out the lines from the first call on.
fn run_made(
    heap: Global,
    out: &mut String,
    pieces: &[&[u8]],
    from: usize,
    setup: &Setup,
) -> Result<(), AllocError>
    ensures { OnOk result (string_bytes out.new ≡ string_bytes out.old ++ prints_from (from + 1) (called (setup_wire setup.now)) (map (λ x. x.now) (drop from pieces.now))) }
{
    let mut frames = blank_frames(heap, setup.wire.places())?;
    let mut groups = [[0; GROUPS_SIZE]; LINE_PLACES];
    let below = setup.wire.make(&mut frames, &mut groups);
    let mut wire = Fault::new(below, &setup.fates);
    run_calls(heap, out, pieces, from, &mut wire)
}

// How the three ends stand when the sheet is over: nothing can be called at an end yet.
const CLOSING: &str =
    "a loaded 0 accepted 0 messages 0 Normal\nb loaded 0 accepted 0 messages 0 Normal\nc loaded 0 accepted 0 messages 0 Normal\n";

// The print of a sheet.
pub fn replay(heap: Global, sheet: &[u8]) -> Result<String, AllocError>
    ensures { IfOk result (λ s. string_bytes s ≡ printed sheet.now) }
{
    let mut out = String::new(heap);
    let pieces = lines(heap, sheet)?;
    let mut setup = Setup {
        wire: WireKind::Plain(16),
        fates: Vec::new(heap),
    };
    let from = run_declarations(heap, &mut out, &pieces, &mut setup)?;
    run_made(heap, &mut out, &pieces, from, &setup)?;
    out.push_str(CLOSING)?;
    Ok(out)
}
