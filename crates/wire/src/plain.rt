// A wire that holds frames as they are.
ghost use Rattle.std.specs.Prelude.{◌≡◌, [], length};
ghost use Rattle.wire.specs.Plains.{plain_frames, plain_room, PlainPuts, PlainTakes};

use crate::arrival::Arrival;
use crate::delivery::deliver;
use crate::wire_trait::Wire;
use frame::{FrameBytes, Refusal, sized};
use ring::Ring;

// Holds as many frames as its area, and loses only what is put when it is full.
#[derive(Drop)]
pub struct PlainWire<'a> {
    queue: Ring<'a, FrameBytes>,
}

impl<'a> PlainWire<'a> {
    pub fn new(area: &'a mut [FrameBytes]) -> PlainWire<'a>
        ensures empty { plain_frames result ≡ [] }
        ensures room { plain_room result ≡ length area.old }
    {
        let places = area.len();
        PlainWire {
            queue: Ring::new(area, places),
        }
    }
}

impl<'a> Wire for PlainWire<'a> {
    ghost frames = { plain_frames };

    ghost puts = { PlainPuts };

    ghost takes = { PlainTakes };

    fn put(&mut self, frame: &[u8]) -> Result<(), Refusal> {
        let bytes: &FrameBytes = sized(frame)?;
        self.queue.push_back(*bytes);
        Ok(())
    }

    fn next(&mut self, frame: &mut [u8]) -> Result<Arrival, Refusal> {
        let frame = frame.as_mut_array().ok_or(Refusal::BadSize)?;
        Ok(deliver(self.queue.pop_front(), frame))
    }
}
