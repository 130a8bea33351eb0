// Two ends that hand each other frames.
use crate::{Answer, Areas, Body, Cargo, Cause, End, Event, Micropacket, Phase, Slip, Taken};
use frame::{Channel, FRAME_SIZE, Kind, Refusal, seal};
use message::Opening;
use std::process::Abort;

const CARGO: Cargo = Cargo {
    kind: Kind::Null,
    tail: false,
    error: false,
    content: [0; 32],
};

const LOADED: Micropacket = Micropacket {
    body: Body {
        channel: Channel::Vc0,
        cargo: CARGO,
        ecrc: 0,
    },
    vcr: Channel::Vc0,
    cr: 0,
    tseq: 0,
};

// Memory for four of everything.
#[derive(Drop)]
struct Memory {
    output: [Micropacket; 4],
    vc0: [Cargo; 4],
    vc1: [Cargo; 4],
    vc2: [Cargo; 4],
    vc3: [Cargo; 4],
    events: [Event; 4],
}

impl Memory {
    fn new() -> Memory {
        Memory {
            output: [LOADED; 4],
            vc0: [CARGO; 4],
            vc1: [CARGO; 4],
            vc2: [CARGO; 4],
            vc3: [CARGO; 4],
            events: [Event::LcrcError; 4],
        }
    }

    // An end over it.
    fn end(&mut self) -> End<'_> {
        let Memory {
            output,
            vc0,
            vc1,
            vc2,
            vc3,
            events,
        } = self;
        let areas = Areas {
            output,
            vc0,
            vc1,
            vc2,
            vc3,
            events,
        };
        End::new(areas, 0)
    }
}

// One frame from an end to another, and what became of it.
fn pass(from: &mut End, to: &mut End) -> Result<Answer, Refusal> {
    let mut frame = [0; FRAME_SIZE];
    from.send(&mut frame)?;
    to.receive(&frame)
}

// An end tells another of its four channels.
fn tell_all(rt: &impl Abort, from: &mut End, to: &mut End) {
    for _ in 0..4 {
        assert_eq!(rt; pass(from, to), Ok(Answer::Accepted));
    }
}

// Takes a micropacket and gives its place back.
fn take_back(end: &mut End, channel: u64) -> Result<(), Refusal> {
    let mut content = [0; 32];
    let Taken {
        kind: _,
        tail: _,
        error: _,
        slip,
    } = end.take(channel, &mut content)?;
    end.return_slip(slip)
        .map_err(|(refusal, Slip { channel: _ })| refusal)
}

#[test]
fn payload_of_2184_on_channel_0(rt: HostRuntime) {
    let mut here = Memory::new();
    let mut there = Memory::new();
    let mut a = here.end();
    let mut b = there.end();
    tell_all(&rt, &mut b, &mut a);
    let opening = Opening {
        destination: &[0; 6],
        source: &[0; 6],
        ether_type: 0x0800,
        total: 2184,
        first: &[0; 8],
    };
    let longer = Opening {
        total: 2185,
        ..opening
    };
    assert_eq!(rt; a.open(0, &longer), Err(Refusal::TooLong));
    assert_eq!(rt; a.open(0, &opening), Ok(()));
}

#[test]
fn number_254_is_followed_by_0(rt: HostRuntime) {
    let mut here = Memory::new();
    let mut there = Memory::new();
    let mut a = here.end();
    let mut b = there.end();
    tell_all(&rt, &mut b, &mut a);
    for i in 0..300u32 {
        assert_eq!(rt; a.admin(1, &[0; 32]), Ok(()));
        let mut frame = [0; FRAME_SIZE];
        let sent = a.send(&mut frame);
        assert_eq!(rt; sent.map(|sent| u32::from(sent.tseq)), Ok(i % 255));
        assert_eq!(rt; b.receive(&frame), Ok(Answer::Accepted));
        assert_eq!(rt; take_back(&mut b, 1), Ok(()));
        assert_eq!(rt; pass(&mut b, &mut a), Ok(Answer::Accepted));
    }
}

#[test]
fn discarded_number_is_still_due(rt: HostRuntime) {
    let mut here = Memory::new();
    let mut there = Memory::new();
    let mut a = here.end();
    let mut b = there.end();
    tell_all(&rt, &mut b, &mut a);
    assert_eq!(rt; a.admin(1, &[1; 32]), Ok(()));
    assert_eq!(rt; a.admin(1, &[2; 32]), Ok(()));
    let mut frame = [0; FRAME_SIZE];
    assert!(rt; a.send(&mut frame).is_ok());
    frame[0] ^= 1;
    assert_eq!(rt; b.receive(&frame), Ok(Answer::Discarded(Cause::Lcrc)));
    assert_eq!(rt; pass(&mut a, &mut b), Ok(Answer::Discarded(Cause::Tseq)));
    assert_eq!(rt; a.timeout(), Ok(Phase::Normal));
    assert_eq!(rt; pass(&mut a, &mut b), Ok(Answer::Accepted));
    assert_eq!(rt; pass(&mut a, &mut b), Ok(Answer::Accepted));
}

#[test]
fn running_check_stays_at_a_discard(rt: HostRuntime) {
    let mut here = Memory::new();
    let mut there = Memory::new();
    let mut a = here.end();
    let mut b = there.end();
    tell_all(&rt, &mut b, &mut a);
    let opening = Opening {
        destination: &[1; 6],
        source: &[2; 6],
        ether_type: 0x0800,
        total: 9,
        first: &[3; 8],
    };
    assert_eq!(rt; a.open(1, &opening), Ok(()));
    assert_eq!(rt; a.add(1, &[4]), Ok(()));
    assert_eq!(rt; pass(&mut a, &mut b), Ok(Answer::Accepted));
    let mut frame = [0; FRAME_SIZE];
    assert!(rt; a.send(&mut frame).is_ok());
    let mut other = frame;
    other[0] ^= 1;
    assert_eq!(rt; seal(&mut other), Ok(()));
    assert_eq!(rt; b.receive(&other), Ok(Answer::Discarded(Cause::Ecrc)));
    assert_eq!(rt; b.receive(&frame), Ok(Answer::Accepted));
}
