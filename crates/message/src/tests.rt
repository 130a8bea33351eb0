// Messages made and read back, and each refusal at its border.
use crate::{Heading, Opening, Read, Reader, Taken, longest, piece};
use frame::{Channel, Content, Refusal};
use std::process::Abort;
use std::test::Fail;

const DESTINATION: [u8; 6] = *b"\x0a\x0b\x0c\x0d\x0e\x0f";

const SOURCE: [u8; 6] = *b"\x01\x02\x03\x04\x05\x06";

// A Header of nine bytes of payload.
const NINE: Content = *b"\x0a\x0b\x0c\x0d\x0e\x0f\x01\x02\x03\x04\x05\x06\x00\x00\x00\x11\
    \xaa\xaa\x03\x00\x00\x00\x81\x81\x00\x11\x22\x33\x44\x55\x66\x77";

// The same with another M_len.
fn counting(m_len: u32) -> Content {
    let mut content = NINE;
    content[12..16].copy_from_slice(&m_len.to_be_bytes());
    content
}

// What its Header says of a Message of `size` bytes.
fn heading(size: u64) -> Heading {
    Heading {
        destination: DESTINATION,
        source: SOURCE,
        ether_type: 0x8181,
        size,
    }
}

// Bytes that tell where they stand.
fn number_each(payload: &mut [u8]) -> Result<(), Fail> {
    for (i, byte) in payload.iter_mut().enumerate() {
        *byte = u8::try_from(i % 251)?;
    }
    Ok(())
}

// A Message, made and read back on channel 0.
fn through(rt: &impl Abort, payload: &[u8], buffer: &mut [u8]) -> Result<(), Fail> {
    let size = u64::try_from(payload.len())?;
    let mut reader = Reader::new(0)?;
    let opening = Opening {
        destination: &DESTINATION,
        source: &SOURCE,
        ether_type: 0x8181,
        total: size,
        first: &payload[..payload.len().min(8)],
    };
    let answer = reader.read(
        &Taken {
            channel: 0,
            kind: 9,
            tail: size <= 8,
            error: false,
            content: &opening.header()?,
        },
        buffer,
    );
    if size <= 8 {
        assert_eq!(rt; answer, Ok(Read::Complete(heading(size))));
        return Ok(());
    }
    assert_eq!(rt; answer, Ok(Read::Begins(heading(size))));
    for (at, bytes) in (8..size).step_by(32).zip(payload[8..].chunks(32)) {
        let left = size.saturating_sub(at);
        let answer = reader.read(
            &Taken {
                channel: 0,
                kind: 8,
                tail: left <= 32,
                error: false,
                content: &piece(left, bytes)?,
            },
            buffer,
        );
        let expected = if left <= 32 {
            Read::Complete(heading(size))
        } else {
            Read::Piece { at, count: 32 }
        };
        assert_eq!(rt; answer, Ok(expected));
    }
    Ok(())
}

// The same at a length: the payload stands in the buffer, and the rest of the buffer is as it was.
fn at_length(rt: &impl Abort, size: usize) -> Result<(), Fail> {
    let mut payload = [0u8; 2184];
    number_each(&mut payload)?;
    let mut buffer = [0xEEu8; 2200];
    assert!(rt; size <= 2184);
    through(rt, &payload[0..size], &mut buffer)?;
    assert!(rt; buffer[0..size] == payload[0..size]);
    assert!(rt; buffer[size..2200] == [0xEEu8; 2200][size..2200]);
    Ok(())
}

#[test]
fn lengths(rt: HostRuntime) -> Result<(), Fail> {
    for size in [0usize, 1, 7, 8, 9, 39, 40, 41, 71, 72, 73, 2183, 2184] {
        at_length(&rt, size)?;
    }
    let opening = Opening {
        destination: &DESTINATION,
        source: &SOURCE,
        ether_type: 0x8181,
        total: 9,
        first: &NINE[24..32],
    };
    assert_eq!(rt; opening.header(), Ok(NINE));
    Ok(())
}

// What a new reader says to a Header with an M_len, without TAIL.
fn at_m_len(channel: u64, m_len: u64) -> Result<Option<Refusal>, Fail> {
    let mut buffer = [0u8; 2184];
    let header = Taken {
        channel,
        kind: 9,
        tail: false,
        error: false,
        content: &counting(u32::try_from(m_len)?),
    };
    Ok(Reader::new(channel)?.read(&header, &mut buffer).err())
}

// A Header with the longest payload of a channel, and one byte more.
#[test]
fn limits(rt: HostRuntime) -> Result<(), Fail> {
    for (number, channel) in [
        (0u64, Channel::Vc0),
        (1, Channel::Vc1),
        (2, Channel::Vc2),
        (3, Channel::Vc3),
    ] {
        let most = longest(channel);
        let fits = (most > 2184).then_some(Refusal::NoSpace);
        assert_eq!(rt; at_m_len(number, most + 8)?, fits);
        if most < 4_294_967_287 {
            assert_eq!(rt; at_m_len(number, most + 9)?, Some(Refusal::BadHeader));
        }
    }
    assert!(rt; Reader::new(4).is_err());
    Ok(())
}

// Whether a Header is made with addresses of these lengths and a first piece of zeros.
fn is_made(destination: usize, source: usize, total: u64, first: usize) -> bool {
    let zeros = [0u8; 9];
    let opening = Opening {
        destination: &zeros[0..destination.min(9)],
        source: &zeros[0..source.min(9)],
        ether_type: 0,
        total,
        first: &zeros[0..first.min(9)],
    };
    opening.header().is_ok()
}

#[test]
fn sizes(rt: HostRuntime) {
    for (destination, source, total, first, expected) in [
        (6usize, 6usize, 9u64, 8usize, true),
        (5, 6, 9, 8, false),
        (7, 6, 9, 8, false),
        (6, 5, 9, 8, false),
        (6, 7, 9, 8, false),
        (6, 6, 9, 9, false),
        (6, 6, 8, 7, false),
        (6, 6, 7, 8, false),
        (6, 6, 7, 7, true),
        (6, 6, 0, 0, true),
        (6, 6, 4_294_967_287, 8, true),
        (6, 6, 4_294_967_288, 8, false),
    ] {
        assert_eq!(rt; is_made(destination, source, total, first), expected);
    }
    for (left, size, expected) in [
        (33u64, 32usize, true),
        (33, 33, false),
        (31, 31, true),
        (31, 32, false),
        (32, 31, false),
        (0, 0, true),
    ] {
        assert_eq!(rt; piece(left, &[0; 33][0..size.min(33)]).is_ok(), expected);
    }
}

// What a new reader of channel 1, with room for nine bytes, refuses a micropacket by.
fn first_refusal(taken: &Taken) -> Result<Option<Refusal>, Fail> {
    Ok(Reader::new(1)?.read(taken, &mut [0; 9]).err())
}

#[test]
fn outside_a_message(rt: HostRuntime) -> Result<(), Fail> {
    for (channel, kind, tail, error, m_len, expected) in [
        (4u64, 9u64, false, true, 17u32, Some(Refusal::BadChannel)),
        (1, 16, false, true, 17, Some(Refusal::BadSize)),
        (2, 9, false, true, 17, Some(Refusal::Marked)),
        (2, 9, false, false, 7, Some(Refusal::OutOfStep)),
        (1, 9, true, false, 7, Some(Refusal::BadHeader)),
        (1, 9, true, false, 8, None),
        (1, 9, true, false, 16, None),
        (1, 9, false, false, 16, Some(Refusal::OutOfStep)),
        (1, 9, false, false, 17, None),
        (1, 9, true, false, 17, Some(Refusal::OutOfStep)),
        (1, 9, true, false, 18, Some(Refusal::NoSpace)),
        (1, 15, true, false, 0, None),
        (1, 15, false, false, 0, Some(Refusal::OutOfStep)),
    ] {
        let taken = Taken {
            channel,
            kind,
            tail,
            error,
            content: &counting(m_len),
        };
        assert_eq!(rt; first_refusal(&taken)?, expected);
    }
    for kind in [0u64, 1, 2, 3, 4, 5, 6, 7, 8, 10, 11, 12, 13, 14] {
        let taken = Taken {
            channel: 1,
            kind,
            tail: true,
            error: false,
            content: &NINE,
        };
        assert_eq!(rt; first_refusal(&taken)?, Some(Refusal::OutOfStep));
    }
    let mut spoiled = NINE;
    spoiled[21] = 1;
    for (error, content, expected) in [
        (false, &spoiled[..], Refusal::BadHeader),
        (true, &NINE[0..31], Refusal::BadSize),
    ] {
        let taken = Taken {
            channel: 1,
            kind: 9,
            tail: false,
            error,
            content,
        };
        assert_eq!(rt; first_refusal(&taken)?, Some(expected));
    }
    Ok(())
}

// What a reader of channel 1 with a Message of nine bytes under way refuses a micropacket by, with room for `room` bytes,
// and then the Data that was due: the refusals 12 to 15 drop the Message, 1 and 6 leave it, and none writes.
fn second_refusal(
    rt: &impl Abort,
    taken: &Taken,
    room: usize,
    expected: Option<Refusal>,
) -> Result<(), Fail> {
    let mut buffer = [0u8; 9];
    let mut reader = Reader::new(1)?;
    let header = Taken {
        channel: 1,
        kind: 9,
        tail: false,
        error: false,
        content: &NINE,
    };
    assert_eq!(rt;
        reader.read(&header, &mut buffer),
        Ok(Read::Begins(heading(9)))
    );
    assert!(rt; room <= 9);
    assert_eq!(rt; reader.read(taken, &mut buffer[0..room]).err(), expected);
    let last = if expected.is_none() { 0x88 } else { 0 };
    assert_eq!(rt; buffer, [0, 0x11, 0x22, 0x33, 0x44, 0x55, 0x66, 0x77, last]);
    let due = Taken {
        channel: 1,
        kind: 8,
        tail: true,
        error: false,
        content: &[0x88; 32],
    };
    assert_eq!(rt;
        reader.read(&due, &mut buffer).err(),
        match expected {
            Some(Refusal::BadChannel | Refusal::BadSize) => None,
            _ => Some(Refusal::OutOfStep),
        }
    );
    Ok(())
}

#[test]
fn inside_a_message(rt: HostRuntime) -> Result<(), Fail> {
    for (channel, kind, tail, error, room, expected) in [
        (4u64, 8u64, true, true, 9usize, Some(Refusal::BadChannel)),
        (1, 16, true, true, 9, Some(Refusal::BadSize)),
        (0, 8, true, true, 9, Some(Refusal::Marked)),
        (0, 8, true, false, 9, Some(Refusal::OutOfStep)),
        (1, 9, true, false, 9, Some(Refusal::OutOfStep)),
        (1, 15, true, false, 9, Some(Refusal::OutOfStep)),
        (1, 10, true, false, 9, Some(Refusal::OutOfStep)),
        (1, 8, false, false, 8, Some(Refusal::NoSpace)),
        (1, 8, false, false, 9, Some(Refusal::OutOfStep)),
        (1, 8, true, false, 9, None),
        (1, 12, true, false, 9, None),
    ] {
        let taken = Taken {
            channel,
            kind,
            tail,
            error,
            content: &[0x88; 32],
        };
        second_refusal(&rt, &taken, room, expected)?;
    }
    Ok(())
}
