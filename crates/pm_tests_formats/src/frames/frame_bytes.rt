//! The bytes of a frame, written and read.

use pm_frame::{LOGICAL, read_frame, write_frame};
use pm_types::Place;

// The frame of `put 0 a 1` at (1, 37). Its sum is that of Python's zlib.
const FRAME: [u8; 30] = [
    0x01, // kind
    0x01, 0x00, 0x00, 0x00, 0x00, 0x00, 0x00, 0x00, // segment
    0x25, 0x00, 0x00, 0x00, // offset
    0x09, 0x00, 0x00, 0x00, // length of the payload
    0x01, 0x00, 0x01, 0x01, 0x00, 0x00, 0x00, 0x61, 0x31, // payload
    0xbb, 0xca, 0x8a, 0xe7, // sum
];

const PLACE: Place = Place { seg: 1, off: 37 };

#[test]
fn a_frame_has_these_bytes(rt: HostRuntime) {
    let mut bytes = [0; 30];
    write_frame(LOGICAL, PLACE, &FRAME[17..19], &FRAME[19..26], &mut bytes);
    assert_eq!(rt; bytes, FRAME);
}

#[test]
fn a_frame_is_read_at_its_own_place_alone(rt: HostRuntime) {
    let view = read_frame(&FRAME, PLACE).expect(&rt, "a frame");
    assert_eq!(rt; view.kind, LOGICAL);
    assert_eq!(rt; view.payload, &FRAME[17..26]);
    assert_eq!(rt; view.len, 30);
    assert!(rt; read_frame(&FRAME, Place { seg: 1, off: 38 }).is_none());
    assert!(rt; read_frame(&FRAME, Place { seg: 2, off: 37 }).is_none());
    assert!(rt; read_frame(&FRAME[..29], PLACE).is_none());
}
