// Micropackets into Messages.
ghost use Rattle.std.specs.Prelude.{◌≡◌, ◌+◌, ◌≤◌, length, take, drop, Some, None};
ghost use Rattle.frame.specs.Codec.{or_else};
ghost use Rattle.frame.specs.Naming.{channel_number};
ghost use Rattle.message.specs.declared.reader.Part.TheVariants.{First, Next, Alone};
ghost use Rattle.message.specs.Reading.{part_of, heading_in, heading_refusal, made_reader, with_message, unless, carried_refusal, place_of, left_of, carried_outcome, carried_buffer, alone_refusal, begin_refusal, begun_buffer, next_refusal, next_buffer, due_refusal, due_outcome, due_answer, due_message, due_buffer, step_refusal, handed, read_refusal, read_answer, reader_after, buffer_after, Within};
ghost use Rattle.message.specs.Whole.{RefusalsDrop, MessagesComeWhole, CutsAreMarked};

use crate::copying::put;
use crate::heading::Heading;
use crate::making::{COUNTED, IN_DATA, SNAP, longest};
use crate::reader::{Checked, Outcome, Part, Read, Reader, Taken, Underway};
use frame::{Channel, Content, Kind, Refusal, sized};

// A Header is the first of a Message, a Data is the next, an Admin stands alone. The undefined TYPEs from 8 on count
// as Data.
impl From<Kind> for Part {
    ghost from_gives = { λ k p. p ≡ part_of k };

    fn from(kind: Kind) -> Part {
        match kind {
            Kind::Header => Part::First,
            Kind::Data
            | Kind::Undefined11
            | Kind::Undefined12
            | Kind::Undefined13
            | Kind::Undefined14 => Part::Next,
            Kind::Admin => Part::Alone,
            Kind::Undefined0
            | Kind::Undefined1
            | Kind::Undefined6
            | Kind::Null
            | Kind::CreditOnly
            | Kind::Reset
            | Kind::ResetAck
            | Kind::Initialize
            | Kind::InitializeAck => Part::Foreign,
        }
    }
}

// The bytes of a micropacket from a place on.
fn bytes_at<const N: usize>(content: &Content, at: usize) -> [u8; N]
    requires { at + N ≤ 32 }
    ensures { result ≡ take N (drop at content.now) }
{
    *content[at..].first_chunk().unwrap()
}

// What a Header says, where a Message on the channel can begin with it: it has LLC/SNAP in its place, and an M_len that a
// payload on the channel can have.
// Not inlined, since its addresses would then go byte by byte through what comes of every micropacket.
#[inline(never)]
fn heading_in(channel: Channel, content: &Content) -> Result<Heading, Refusal>
    ensures { result ≡ or_else (heading_refusal channel content.now) (heading_in content.now) }
{
    let counted = u64::from(u32::from_be_bytes(bytes_at(content, 12)));
    if bytes_at(content, 16) != SNAP || counted < COUNTED || counted > longest(channel) + COUNTED {
        return Err(Refusal::BadHeader);
    }
    Ok(Heading {
        destination: bytes_at(content, 0),
        source: bytes_at(content, 6),
        ether_type: u16::from_be_bytes(bytes_at(content, 22)),
        size: counted - COUNTED,
    })
}

impl Underway {
    // Where the next piece of the payload goes.
    fn place(&self) -> u64
        ensures { result ≡ place_of self.now }
    {
        self.came.min(self.heading.size)
    }

    // Takes in a piece: there must be room for all of the payload, and TAIL where this is the last of it. `more` is the
    // answer where more is to come.
    fn take_in(
        self,
        piece: &[u8],
        tail: bool,
        buffer: &mut [u8],
        more: Read,
    ) -> Result<Outcome, Refusal>
        ensures value { result ≡ or_else (carried_refusal (length piece.now) self.heading.size (left_of self) tail (length buffer.old)) (carried_outcome (length piece.now) self more) }
        ensures bytes { buffer.new ≡ unless (carried_refusal (length piece.now) self.heading.size (left_of self) tail (length buffer.old)) (carried_buffer (length piece.now) self piece.now buffer.old) buffer.old }
    {
        let heading = self.heading;
        let (room, most) = (u64::try_from(buffer.len())?, u64::try_from(piece.len())?);
        if heading.size > room {
            return Err(Refusal::NoSpace);
        }
        let at = self.place();
        let left = heading.size - at;
        if tail != (left <= most) {
            return Err(Refusal::OutOfStep);
        }
        let (place, count) = (usize::try_from(at)?, usize::try_from(left.min(most))?);
        // Straight to its place in the caller's buffer, since there is no other memory for it.
        put(buffer, place, &piece[..count]);
        if left <= most {
            return Ok(Outcome {
                answer: Read::Complete(heading),
                message: None,
            });
        }
        Ok(Outcome {
            answer: more,
            message: Some(Underway {
                heading,
                came: at + most,
            }),
        })
    }
}

impl Checked<'_> {
    // A Header where one is due.
    fn begin(&self, buffer: &mut [u8]) -> Result<Outcome, Refusal>
        ensures value { result ≡ or_else (begin_refusal self.now.channel self.now.tail self.now.content.now (length buffer.old)) (due_outcome None First self.now.content.now) }
        ensures bytes { buffer.new ≡ unless (begin_refusal self.now.channel self.now.tail self.now.content.now (length buffer.old)) (begun_buffer self.now.content.now buffer.old) buffer.old }
    {
        let content = self.content;
        let heading = heading_in(self.channel, content)?;
        let message = Underway { heading, came: 0 };
        message.take_in(&content[24..], self.tail, buffer, Read::Begins(heading))
    }

    // A Data where one is due.
    fn go_on(&self, message: Underway, buffer: &mut [u8]) -> Result<Outcome, Refusal>
        ensures value { result ≡ or_else (next_refusal message self.now.tail (length buffer.old)) (due_outcome (Some message) Next self.now.content.now) }
        ensures bytes { buffer.new ≡ unless (next_refusal message self.now.tail (length buffer.old)) (next_buffer message self.now.content.now buffer.old) buffer.old }
    {
        let content = self.content;
        let more = Read::Piece {
            at: message.place(),
            count: IN_DATA,
        };
        message.take_in(content, self.tail, buffer, more)
    }

    // An Admin between Messages needs TAIL.
    fn alone(&self) -> Result<Outcome, Refusal>
        ensures { result ≡ or_else (alone_refusal self.now.tail) (due_outcome None Alone self.now.content.now) }
    {
        if !self.tail {
            return Err(Refusal::OutOfStep);
        }
        Ok(Outcome {
            answer: Read::Admin,
            message: None,
        })
    }

    // Outside a Message a Header or an Admin is due, inside it a Data.
    fn due(&self, message: Option<Underway>, buffer: &mut [u8]) -> Result<Outcome, Refusal>
        ensures value { result ≡ or_else (due_refusal message self.now.part self.now.channel self.now.tail self.now.content.now (length buffer.old)) (due_outcome message self.now.part self.now.content.now) }
        ensures bytes { buffer.new ≡ unless (due_refusal message self.now.part self.now.channel self.now.tail self.now.content.now (length buffer.old)) (due_buffer message self.now.part self.now.content.now buffer.old) buffer.old }
    {
        match (message, self.part) {
            (None, Part::First) => self.begin(buffer),
            (None, Part::Alone) => self.alone(),
            (Some(message), Part::Next) => self.go_on(message, buffer),
            _ => Err(Refusal::OutOfStep),
        }
    }
}

impl Reader {
    // A reader of a channel.
    pub fn new(channel: u64) -> Result<Reader, Refusal>
        ensures { result ≡ made_reader channel }
    {
        Ok(Reader {
            channel: Channel::try_from(channel)?,
            message: None,
        })
    }

    // A micropacket. The Message under way is taken out first, so that every refusal drops it.
    fn step(&mut self, taken: &Checked, buffer: &mut [u8]) -> Result<Read, Refusal>
        ensures value { result ≡ or_else (step_refusal self.old (channel_number taken.now.channel) taken.now.part taken.now.tail taken.now.error taken.now.content.now (length buffer.old)) (due_answer self.old.message taken.now.part taken.now.content.now) }
        ensures state { self.new ≡ unless (step_refusal self.old (channel_number taken.now.channel) taken.now.part taken.now.tail taken.now.error taken.now.content.now (length buffer.old)) (with_message self.old (due_message self.old.message taken.now.part taken.now.content.now)) (with_message self.old None) }
        ensures bytes { buffer.new ≡ unless (step_refusal self.old (channel_number taken.now.channel) taken.now.part taken.now.tail taken.now.error taken.now.content.now (length buffer.old)) (due_buffer self.old.message taken.now.part taken.now.content.now buffer.old) buffer.old }
    {
        let message = self.message.take();
        if taken.error {
            return Err(Refusal::Marked);
        }
        if taken.channel != self.channel {
            return Err(Refusal::OutOfStep);
        }
        let outcome = taken.due(message, buffer)?;
        self.message = outcome.message;
        Ok(outcome.answer)
    }

    // Hands the reader a taken micropacket, and a buffer for the payload. Each piece is written at its own place of the
    // buffer, and every other byte stays.
    pub fn read(&mut self, taken: &Taken, buffer: &mut [u8]) -> Result<Read, Refusal>
        ensures value { result ≡ or_else (read_refusal self.old (handed taken.now) (length buffer.old)) (read_answer self.old (handed taken.now)) }
        ensures state { self.new ≡ reader_after self.old (handed taken.now) (length buffer.old) }
        ensures bytes { buffer.new ≡ buffer_after self.old (handed taken.now) buffer.old }
        ensures within { Within (length buffer.old) result }
        ensures drops { RefusalsDrop }
        ensures whole { MessagesComeWhole }
        ensures cut { CutsAreMarked }
    {
        let checked = Checked {
            channel: Channel::try_from(taken.channel)?,
            content: sized(taken.content)?,
            part: Part::from(Kind::try_from(taken.kind)?),
            tail: taken.tail,
            error: taken.error,
        };
        self.step(&checked, buffer)
    }
}
