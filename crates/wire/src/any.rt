// A wire whose kind is chosen as a program runs.
ghost use Rattle.wire.specs.Anys.{any_frames, AnyPuts, AnyTakes};

use crate::arrival::Arrival;
use crate::lines::LineWire;
use crate::plain::PlainWire;
use crate::wire_trait::Wire;
use frame::Refusal;

// A plain wire, or a line wire in either width. Under a fault layer it is a `Fault<AnyWire>`.
// An enum, so that whoever makes a wire of a kind that is read as the program runs can hand it out by value.
#[derive(Drop)]
pub enum AnyWire<'a> {
    Plain(PlainWire<'a>),
    Line(LineWire<'a>),
}

impl<'a> Wire for AnyWire<'a> {
    ghost frames = { any_frames };

    ghost puts = { AnyPuts };

    ghost takes = { AnyTakes };

    fn put(&mut self, frame: &[u8]) -> Result<(), Refusal> {
        match self {
            AnyWire::Plain(wire) => wire.put(frame),
            AnyWire::Line(wire) => wire.put(frame),
        }
    }

    fn next(&mut self, frame: &mut [u8]) -> Result<Arrival, Refusal> {
        match self {
            AnyWire::Plain(wire) => wire.next(frame),
            AnyWire::Line(wire) => wire.next(frame),
        }
    }
}
