// A ring that changes hands.
use crate::Ring;

// The oldest of a ring that is given up.
fn last_look(mut ring: Ring<'_, u8>) -> Option<u8> {
    ring.pop_front()
}

#[test]
fn taken_by_value(rt: HostRuntime) {
    let mut slots = [0; 3];
    let mut ring = Ring::new(&mut slots, 2);
    assert!(rt; ring.push_back(7));
    assert!(rt; ring.push_back(8));
    assert_eq!(rt; last_look(ring), Some(7));
}
