use crc::{Check, EndToEndCheck, LinkCheck, after_bytes};
use frame::{
    DATA_SIZE, Fields, FrameBytes, Numbers, Parts, Refusal, end_check, link_check, seal, syndrome,
};

// A Credit-only frame of zeros on channel 2, as another implementation sends it.
const CREDIT_ONLY: FrameBytes = [
    0, 0, 0, 0, 0, 0, 0, 0, 0, 0, 0, 0, 0, 0, 0, 0, 0, 0, 0, 0, 0, 0, 0, 0, 0, 0, 0, 0, 0, 0, 0, 0,
    0x9b, 0xaf, 0x58, 0x97, 0x00, 0xff, 0x00, 0x2a,
];

// The check value that is published for this kind with the link check's generator and start.
#[test]
fn nine_digits(rt: HostRuntime) {
    assert_eq!(rt;
        after_bytes::<LinkCheck>(LinkCheck::begin(), b"123456789"),
        0x6F91
    );
}

#[test]
fn checks_of_a_frame(rt: HostRuntime) {
    assert_eq!(rt; link_check(&CREDIT_ONLY), Ok(0x9baf));
    assert_eq!(rt; syndrome(&CREDIT_ONLY), Ok(0));
    assert_eq!(rt;
        end_check(EndToEndCheck::begin(), &CREDIT_ONLY[0..32]),
        Ok(0x5897)
    );
}

// Its fields as people write them, and the frame made of them again.
#[test]
fn fields_of_a_frame(rt: HostRuntime) {
    let numbers = Numbers {
        vc: 2,
        kind: 10,
        tail: false,
        error: false,
        vcr: 0,
        cr: 0,
        rseq: 0xff,
        tseq: 0,
        ecrc: 0x5897,
        lcrc: 0x9baf,
    };
    let fields = Fields::from(&CREDIT_ONLY);
    assert_eq!(rt; Fields::try_from(numbers), Ok(fields));
    let mut frame = [0xee; 40];
    assert_eq!(rt; fields.emit(&CREDIT_ONLY[0..32], &mut frame), Ok(()));
    assert_eq!(rt; frame, CREDIT_ONLY);
}

// The same taken apart: its fields, its data and a syndrome of 0.
#[test]
fn parts_of_a_frame(rt: HostRuntime) {
    let parts = Parts {
        fields: Fields::from(&CREDIT_ONLY),
        content: [0; DATA_SIZE],
        syndrome: 0,
    };
    assert_eq!(rt; Parts::read(&CREDIT_ONLY), Ok(parts));
    assert_eq!(rt; Parts::read(&CREDIT_ONLY[0..39]), Err(Refusal::BadSize));
}

// The stomp code 874d over the right check leaves 06a9.
#[test]
fn stomped(rt: HostRuntime) {
    let mut frame = CREDIT_ONLY;
    frame[32] = 0x9b ^ 0x87;
    frame[33] = 0xaf ^ 0x4d;
    assert_eq!(rt; syndrome(&frame), Ok(0x06a9));
    assert_eq!(rt; seal(&mut frame), Ok(()));
    assert_eq!(rt; syndrome(&frame), Ok(0));
}

// Just 40 bytes are a frame, and just 32 are data.
#[test]
fn sizes(rt: HostRuntime) {
    let long = [0; 48];
    for n in 0..48usize {
        let wrong = (n != 40).then_some(Refusal::BadSize);
        assert_eq!(rt; syndrome(&long[0..n]).err(), wrong);
        assert_eq!(rt; link_check(&long[0..n]).err(), wrong);
        assert_eq!(rt; Fields::parse(&long[0..n]).err(), wrong);
        let mut room = [0xee; 48];
        assert_eq!(rt; seal(&mut room[0..n]).err(), wrong);
        assert!(rt; n == 40 || room == [0xee; 48]);
        assert_eq!(rt;
            end_check(0xffff, &long[0..n]).err(),
            (n != 32).then_some(Refusal::BadSize)
        );
    }
}

// All 320 single bits show.
#[test]
fn one_bit(rt: HostRuntime) {
    for n in 0..320usize {
        let mut frame = CREDIT_ONLY;
        frame[n / 8] ^= 1 << (n % 8);
        assert_ne!(rt; syndrome(&frame), Ok(0));
    }
}
