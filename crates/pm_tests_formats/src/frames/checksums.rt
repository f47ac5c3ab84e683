//! The sums of known bytes.

use pm_frame::sum;

// Published check values of this CRC.
const SUMS: [(&[u8], u32); 6] = [
    (b"123456789", 0xCBF4_3926),
    (b"a", 0xE8B7_BE43),
    (b"abc", 0x3524_41C2),
    (b"\x00\x00\x00\x00", 0x2144_DF1C),
    (b"", 0),
    (b"The quick brown fox jumps over the lazy dog", 0x414F_A339),
];

#[test]
fn known_bytes_have_their_published_sums(rt: HostRuntime) {
    for (bytes, wanted) in SUMS {
        assert_eq!(rt; sum(bytes), wanted, "{bytes:?}");
    }
}
