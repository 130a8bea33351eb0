// What the calls answer, by example.
use crate::{
    Counts, Width, code_group, decode_group, frame_to_groups, groups_to_frame, place_of, standard,
};
use frame::{FrameBytes, Refusal};
use std::process::Abort;
use std::test::Fail;

const FRAME: FrameBytes =
    *b"\x0a\x0b\x0c\x0d\x0e\x0f\x01\x02\x03\x04\x05\x06\x00\x00\x00\x11\xaa\xaa\x03\x00\
    \x00\x00\x81\x81\x00\x11\x22\x33\x44\x55\x66\x77\xeb\x3d\x7d\x47\x00\x00\x08\x24";

// A frame goes out and comes back.
fn round(rt: &impl Abort, width: Width, frame: &FrameBytes) -> [u8; 80] {
    let mut groups = [0u8; 80];
    assert!(rt; frame_to_groups(frame, Counts::new(width), &mut groups).is_ok());
    let mut back = [0u8; 40];
    assert_eq!(rt; groups_to_frame(width, &groups, &mut back), Ok(()));
    assert_eq!(rt; back, *frame);
    groups
}

#[test]
fn each_bit_alone(rt: HostRuntime) -> Result<(), Fail> {
    for width in [Width::Wide, Width::Narrow] {
        for bit in 0..320u16 {
            let mut frame = [0u8; 40];
            frame[usize::from(bit / 8)] = 1 << (bit % 8);
            let groups = round(&rt, width, &frame);
            let place = usize::from(place_of(width, u64::from(bit))?);
            assert!(rt; place < 320);
            let code = decode_group(u64::from(groups[place / 4]))?;
            assert_eq!(rt; code, 1 << (place % 4));
        }
    }
    Ok(())
}

#[test]
fn codes_at_counts(rt: HostRuntime) -> Result<(), Fail> {
    for code in 0..16u8 {
        for count in -5..=4i64 {
            let (word, after) = code_group(standard(), u64::from(code), count)?;
            assert!(rt; (-5..=4).contains(&after));
            assert_eq!(rt; decode_group(u64::from(word)), Ok(code));
        }
    }
    assert_eq!(rt; code_group(standard(), 0b0001, 1), Ok((0b00101, 0)));
    assert_eq!(rt; code_group(standard(), 0b1111, -1), Ok((0b11111, 4)));
    assert_eq!(rt; code_group(standard(), 0b1111, 0), Ok((0b00000, -5)));
    Ok(())
}

#[test]
fn groups_of_a_frame(rt: HostRuntime) {
    let wide = *b"\x09\x04\x08\x04\x03\x04\x02\x04\x01\x04\x00\x04\x05\x04\x06\x04\x0c\x06\x14\x04\
        \x07\x1b\x13\x1b\x0d\x1b\x0e\x1b\x1b\x1b\x1b\x1b\x1b\x1b\x1a\x1a\x1b\x1b\x1b\x1b\
        \x09\x09\x16\x09\x18\x04\x1b\x04\x04\x04\x1b\x04\x05\x14\x05\x0b\x10\x0c\x02\x10\
        \x1b\x1b\x1a\x1a\x19\x19\x18\x07\x13\x13\x12\x0d\x11\x0e\x0f\x0f\x1d\x18\x17\x1e";
    assert_eq!(rt; round(&rt, Width::Wide, &FRAME), wide);
    let narrow =
        *b"\x09\x08\x03\x02\x01\x00\x05\x06\x0c\x14\x1b\x1b\x1b\x1b\x1b\x1b\x1b\x1b\x19\x1b\
        \x18\x0c\x12\x11\x04\x1b\x04\x05\x04\x04\x04\x1b\x04\x1b\x1b\x04\x1b\x05\x1b\x1b\
        \x16\x09\x07\x04\x04\x1b\x05\x05\x10\x02\x16\x09\x1b\x1b\x1b\x04\x14\x0b\x13\x0f\
        \x04\x05\x06\x18\x0c\x0d\x11\x10\x1d\x08\x1b\x1a\x06\x18\x13\x0d\x0e\x0f\x18\x1e";
    assert_eq!(rt; round(&rt, Width::Narrow, &FRAME), narrow);
}

// Whether a frame is refused, with every group as it was.
fn refused(rt: &impl Abort, frame: &[u8], counts: Counts, groups: &mut [u8]) {
    groups.fill(7);
    let answer = frame_to_groups(frame, counts, groups);
    assert_eq!(rt; answer.err(), Some(Refusal::BadSize));
    assert!(rt; groups.iter().all(|group| *group == 7));
}

#[test]
fn wrong_sizes(rt: HostRuntime) {
    let counts = Counts::new(Width::Wide);
    refused(&rt, &[0; 39], counts, &mut [0; 80]);
    refused(&rt, &[0; 41], counts, &mut [0; 80]);
    refused(&rt, &FRAME, counts, &mut [0; 79]);
    refused(&rt, &FRAME, counts, &mut [0; 81]);
    refused(
        &rt,
        &FRAME,
        Counts::Narrow([0, 0, 0, 0, 0, 0, 0, 0, 0, 5]),
        &mut [0; 80],
    );
    refused(
        &rt,
        &FRAME,
        Counts::Narrow([-6, 0, 0, 0, 0, 0, 0, 0, 0, 0]),
        &mut [0; 80],
    );
}

#[test]
fn wrong_groups(rt: HostRuntime) {
    let mut frame = FRAME;
    let mut groups = [4u8; 80];
    groups[79] = 32;
    assert_eq!(rt;
        groups_to_frame(Width::Wide, &groups, &mut frame),
        Err(Refusal::BadSize)
    );
    assert_eq!(rt;
        groups_to_frame(Width::Narrow, &[4; 79], &mut frame),
        Err(Refusal::BadSize)
    );
    assert_eq!(rt;
        groups_to_frame(Width::Narrow, &[4; 81], &mut frame),
        Err(Refusal::BadSize)
    );
    assert_eq!(rt; frame, FRAME);
    groups[79] = 31;
    assert_eq!(rt;
        groups_to_frame(Width::Wide, &groups, &mut [0; 39]),
        Err(Refusal::BadSize)
    );
    assert_eq!(rt;
        groups_to_frame(Width::Wide, &groups, &mut [0; 41]),
        Err(Refusal::BadSize)
    );
    assert_eq!(rt; groups_to_frame(Width::Wide, &groups, &mut frame), Ok(()));
}

#[test]
fn wrong_numbers(rt: HostRuntime) {
    assert_eq!(rt; code_group(standard(), 16, 0), Err(Refusal::BadSize));
    assert_eq!(rt; code_group(standard(), u64::MAX, 0), Err(Refusal::BadSize));
    assert_eq!(rt; code_group(standard(), 3, 5), Err(Refusal::BadSize));
    assert_eq!(rt; code_group(standard(), 3, -6), Err(Refusal::BadSize));
    assert_eq!(rt; code_group(standard(), 3, i64::MIN), Err(Refusal::BadSize));
    assert_eq!(rt; decode_group(32), Err(Refusal::BadSize));
    assert_eq!(rt; decode_group(u64::MAX), Err(Refusal::BadSize));
    assert_eq!(rt; place_of(Width::Narrow, 320), Err(Refusal::BadSize));
}
