// What wires do, by example.
use crate::{
    AnyWire, Arrival, FRAME_SIZE, Fate, Fault, FrameBytes, GROUPS_SIZE, LINE_PLACES, LineWire,
    PlainWire, Wire,
};
use frame::{Refusal, syndrome};
use line::Width;
use std::process::Abort;
use std::test::Fail;

// A Header on channel 0, and a Credit-only, both with the link check that they should have.
const HEADER: FrameBytes =
    *b"\x0a\x0b\x0c\x0d\x0e\x0f\x01\x02\x03\x04\x05\x06\x00\x00\x00\x11\xaa\xaa\x03\x00\
    \x00\x00\x81\x81\x00\x11\x22\x33\x44\x55\x66\x77\xeb\x3d\x7d\x47\x00\x00\x08\x24";

const CREDIT: FrameBytes =
    *b"\x00\x00\x00\x00\x00\x00\x00\x00\x00\x00\x00\x00\x00\x00\x00\x00\x00\x00\x00\x00\
    \x00\x00\x00\x00\x00\x00\x00\x00\x00\x00\x00\x00\x3c\xbc\x58\x97\x02\x00\x0a\x28";

// What the caller's bytes are before a frame is asked for.
const UNTOUCHED: FrameBytes = [0xee; FRAME_SIZE];

// The next frame of a wire is the one given, or nothing where none is given.
fn expect<W: Wire>(rt: &impl Abort, wire: &mut W, frame: Option<FrameBytes>) -> Result<(), Fail> {
    let mut came = UNTOUCHED;
    let arrival = frame.map_or(Arrival::Nothing, |_| Arrival::Frame);
    assert_eq!(rt; wire.next(&mut came), Ok(arrival));
    assert_eq!(rt; came, frame.unwrap_or(UNTOUCHED));
    Ok(())
}

// The seventeenth is lost, and the others come back in order.
#[test]
fn seventeen_on_lines(rt: HostRuntime) -> Result<(), Fail> {
    for width in [Width::Wide, Width::Narrow] {
        let mut area = [[0u8; GROUPS_SIZE]; LINE_PLACES];
        let mut wire = LineWire::new(width, &mut area);
        for i in 0..17u8 {
            assert!(rt; wire.put(&[i; FRAME_SIZE]).is_ok());
        }
        for i in 0..16u8 {
            expect(&rt, &mut wire, Some([i; FRAME_SIZE]))?;
        }
        expect(&rt, &mut wire, None)?;
    }
    Ok(())
}

// Every flip of a good frame turns just that bit, and shows in the link check.
#[test]
fn each_flip_shows(rt: HostRuntime) -> Result<(), Fail> {
    for n in 0..320u16 {
        let fates = [Fate::Flip(u64::from(n))];
        let mut area = [[0u8; FRAME_SIZE]];
        let mut wire = Fault::new(PlainWire::new(&mut area), &fates);
        assert!(rt; wire.put(&HEADER).is_ok());
        let mut bytes = HEADER;
        bytes[usize::from(n / 8)] ^= 1 << (n % 8);
        assert_ne!(rt; syndrome(&bytes), Ok(0));
        expect(&rt, &mut wire, Some(bytes))?;
    }
    Ok(())
}

#[test]
fn no_places(rt: HostRuntime) -> Result<(), Fail> {
    let mut area = [[0u8; FRAME_SIZE]; 0];
    let mut wire = PlainWire::new(&mut area);
    assert!(rt; wire.put(&HEADER).is_ok());
    expect(&rt, &mut wire, None)?;
    let mut short = [0u8; 39];
    assert_eq!(rt; wire.next(&mut short), Err(Refusal::BadSize));
    Ok(())
}

// A narrow line wire under a fault layer: a refused put spends no fate, and a flip of a bit that a frame has not passes.
#[test]
fn fates_in_turn(rt: HostRuntime) -> Result<(), Fail> {
    let fates = [Fate::Pass, Fate::Lose, Fate::Flip(13), Fate::Flip(320)];
    let mut area = [[0u8; GROUPS_SIZE]; LINE_PLACES];
    let mut wire = Fault::new(
        AnyWire::Line(LineWire::new(Width::Narrow, &mut area)),
        &fates,
    );
    expect(&rt, &mut wire, None)?;
    assert!(rt; wire.put(&HEADER).is_ok());
    assert!(rt; wire.put(&HEADER).is_ok());
    assert!(rt; wire.put(&CREDIT).is_ok());
    assert!(rt; wire.put(&CREDIT).is_ok());
    assert_eq!(rt; wire.put(&[0]), Err(Refusal::BadSize));
    assert!(rt; wire.put(&CREDIT).is_ok());
    let mut struck = CREDIT;
    struck[1] = 0x20;
    expect(&rt, &mut wire, Some(HEADER))?;
    expect(&rt, &mut wire, Some(struck))?;
    expect(&rt, &mut wire, Some(CREDIT))?;
    expect(&rt, &mut wire, Some(CREDIT))?;
    expect(&rt, &mut wire, None)
}
