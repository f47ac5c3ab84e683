//! Records, written and read as payloads of frames.

use pm_frame::{CP_BEGIN, DELTA, FRAME_EXTRA, LOGICAL, RESTART, SEAL, SNAPSHOT};
use pm_records::{BadPayload, LogRecord, PUT, REMOVE, decode, encode, encoded_len, kind_of};
use pm_types::{PageId, Place, Shape};
use std::process::Abort;

// `put 0 a 1`
const PUT_BYTES: [u8; 9] = [1, 0, 1, 1, 0, 0, 0, 0x61, 0x31];

// `remove 15 ab`
const REMOVE_BYTES: [u8; 9] = [2, 15, 2, 0, 0, 0, 0, 0x61, 0x62];

// page 5 of partition 2
const PAGE: PageId = PageId(0x0001_0002_0000_0005);

const NAME_BYTES: [u8; 8] = [5, 0, 0, 0, 2, 0, 1, 0];

// its bytes 32 and 33 are 7 and 8 now, and byte 1,023 is 9
const DELTA_BYTES: [u8; 20] = [
    5, 0, 0, 0, 2, 0, 1, 0, 2, 0x20, 0, 2, 0, 7, 8, 0xff, 0x03, 1, 0, 9,
];

// one range: byte 32 is 7 now
const RANGES: &[u8] = &[1, 32, 0, 1, 0, 7];

// page 0xffff_ffff of partition 63; one range that ends at 16,384
const LAST_DELTA_BYTES: [u8; 14] = [0xff, 0xff, 0xff, 0xff, 63, 0, 1, 0, 1, 0xff, 0x3f, 1, 0, 6];

// checkpoint 3, with replay place 2:517
const CP_BEGIN_BYTES: [u8; 20] = [3, 0, 0, 0, 0, 0, 0, 0, 2, 0, 0, 0, 0, 0, 0, 0, 5, 2, 0, 0];

// 0x1000 bytes a page, 4 partitions, version 1, 0x61a80 rows, 0x0400_0000 bytes a segment
const RESTART_BYTES: [u8; 16] = [
    0x00, 0x10, 0, 0, 4, 0, 1, 0, 0x80, 0x1a, 0x06, 0, 0, 0, 0, 0x04,
];

const SHAPE: Shape = Shape {
    page_size: 4096,
    partitions: 4,
    version: 1,
    max_rows: 400_000,
    segment_bytes: 67_108_864,
};

// The bytes are read as this record, and the record is written as these bytes.
fn agrees(
    rt: &(impl Abort + AllocGlobal),
    kind: u8,
    payload: &[u8],
    frame_len: usize,
    record: LogRecord<'_>,
) {
    let read = decode(kind, payload).expect(rt, "a record");
    assert_eq!(rt; read, record, "kind {kind}");
    let len = encoded_len(&read);
    assert_eq!(rt; len + FRAME_EXTRA, frame_len, "kind {kind}");
    let mut bytes = Vec::from_slice(rt.alloc(), &[0xee; 16_392]).expect(rt, "bytes");
    assert!(rt; len <= bytes.len(), "kind {kind}");
    encode(&read, &mut bytes[..len]);
    assert_eq!(rt; &bytes[..len], payload, "kind {kind}");
    assert_eq!(rt; kind_of(&read), kind);
}

#[test]
fn each_record_has_its_bytes(rt: HostRuntime) {
    let put = LogRecord::Logical {
        op: PUT,
        cache: 0,
        key: b"a",
        value: b"1",
    };
    let remove = LogRecord::Logical {
        op: REMOVE,
        cache: 15,
        key: b"ab",
        value: b"",
    };
    let delta = LogRecord::Delta {
        page: PAGE,
        ranges: &[2, 0x20, 0, 2, 0, 7, 8, 0xff, 0x03, 1, 0, 9],
    };
    let last_delta = LogRecord::Delta {
        page: PageId(0x0001_003f_ffff_ffff),
        ranges: &[1, 0xff, 0x3f, 1, 0, 6],
    };
    let cp_begin = LogRecord::CpBegin {
        number: 3,
        replay: Place { seg: 2, off: 517 },
    };
    let restart = LogRecord::Restart { shape: SHAPE };
    agrees(&rt, LOGICAL, &PUT_BYTES, 30, put);
    agrees(&rt, LOGICAL, &REMOVE_BYTES, 30, remove);
    agrees(&rt, DELTA, &DELTA_BYTES, 41, delta);
    agrees(&rt, DELTA, &LAST_DELTA_BYTES, 35, last_delta);
    agrees(&rt, CP_BEGIN, &CP_BEGIN_BYTES, 41, cp_begin);
    agrees(&rt, RESTART, &RESTART_BYTES, 37, restart);
    agrees(&rt, SEAL, &[], 21, LogRecord::Seal);
}

// The payload of a record of a page: its name, and these bytes.
fn named(rt: &(impl Abort + AllocGlobal), name: &[u8], bytes: &[u8]) -> Vec<u8> {
    let mut payload = Vec::from_slice(rt.alloc(), name).expect(rt, "a payload");
    payload.extend_from_slice(bytes).expect(rt, "a payload");
    payload
}

// The bytes of a page of this length.
fn page_of(rt: &(impl Abort + AllocGlobal), page_len: usize) -> Vec<u8> {
    vec![in rt.alloc(); 0xab; page_len].expect(rt, "a page")
}

// Looks that the payload is of no record of this kind.
fn is_refused(rt: &impl Abort, kind: u8, payload: &[u8]) {
    assert_eq!(rt;
        decode(kind, payload),
        Err(BadPayload),
        "kind {kind}: {payload:?}"
    );
}

#[test]
fn a_snapshot_has_one_of_the_five_page_sizes(rt: HostRuntime) {
    let sizes = [
        (1024, 1053),
        (2048, 2077),
        (4096, 4125),
        (8192, 8221),
        (16_384, 16_413),
    ];
    for (page_len, frame_len) in sizes {
        let bytes = page_of(&rt, page_len);
        let payload = named(&rt, &NAME_BYTES, &bytes);
        let snapshot = LogRecord::Snapshot {
            page: PAGE,
            bytes: &bytes,
        };
        agrees(&rt, SNAPSHOT, &payload, frame_len, snapshot);
    }
    for page_len in [0, 1023, 1025, 3072, 16_385, 32_768, 65_486] {
        let payload = named(&rt, &NAME_BYTES, &page_of(&rt, page_len));
        is_refused(&rt, SNAPSHOT, &payload);
    }
}

// Where a page's name isn't one, no record of the page is read: the flag is 0 or 2, an item is
// named, the partition is 64 or 258.
#[test]
fn names_that_no_page_has_are_refused(rt: HostRuntime) {
    let names: [&[u8]; 5] = [
        &[5, 0, 0, 0, 2, 0, 0, 0],
        &[5, 0, 0, 0, 2, 0, 2, 0],
        &[5, 0, 0, 0, 2, 0, 1, 1],
        &[5, 0, 0, 0, 64, 0, 1, 0],
        &[5, 0, 0, 0, 2, 1, 1, 0],
    ];
    let page = page_of(&rt, 1024);
    for name in names {
        is_refused(&rt, SNAPSHOT, &named(&rt, name, &page));
        is_refused(&rt, DELTA, &named(&rt, name, RANGES));
    }
}

#[test]
fn ranges_that_no_delta_has_are_refused(rt: HostRuntime) {
    let deltas: [&[u8]; 9] = [
        &[],
        // no range, and nine
        &[0],
        &[
            9, 0, 0, 1, 0, 7, 1, 0, 1, 0, 7, 2, 0, 1, 0, 7, 3, 0, 1, 0, 7, 4, 0, 1, 0, 7, 5, 0, 1,
            0, 7, 6, 0, 1, 0, 7, 7, 0, 1, 0, 7, 8, 0, 1, 0, 7,
        ],
        // the second begins within the first
        &[2, 32, 0, 2, 0, 7, 8, 33, 0, 1, 0, 9],
        // the second stands before the first
        &[2, 32, 0, 1, 0, 7, 31, 0, 1, 0, 9],
        // one ends at 16,385
        &[1, 0xff, 0x3f, 2, 0, 7, 8],
        // one has no byte
        &[1, 32, 0, 0, 0],
        // one isn't whole
        &[1, 32, 0, 2, 0, 7],
        // a byte stands after the last
        &[1, 32, 0, 1, 0, 7, 0],
    ];
    for ranges in deltas {
        is_refused(&rt, DELTA, &named(&rt, &NAME_BYTES, ranges));
    }
}

#[test]
fn what_is_in_no_grammar_is_refused(rt: HostRuntime) {
    let refused: [(u8, &[u8]); 17] = [
        (LOGICAL, &[3, 0, 1, 1, 0, 0, 0, 0x61, 0x31]),
        (LOGICAL, &[1, 16, 1, 1, 0, 0, 0, 0x61, 0x31]),
        (LOGICAL, &[1, 0, 0, 1, 0, 0, 0, 0x31]),
        (LOGICAL, &[2, 0, 1, 1, 0, 0, 0, 0x61, 0x31]),
        (LOGICAL, &[1, 0, 1, 1, 0, 0, 0, 0x61]),
        (LOGICAL, &[1, 0, 1, 1, 0, 0, 0, 0x61, 0x31, 0]),
        (LOGICAL, &[1, 0, 1, 1, 0, 0]),
        (RESTART, &RESTART_BYTES[..15]),
        (SEAL, &[0]),
        (SNAPSHOT, &DELTA_BYTES[..7]),
        (DELTA, &DELTA_BYTES[..7]),
        (CP_BEGIN, &CP_BEGIN_BYTES[..19]),
        (
            CP_BEGIN,
            &[
                3, 0, 0, 0, 0, 0, 0, 0, 2, 0, 0, 0, 0, 0, 0, 0, 5, 2, 0, 0, 0,
            ],
        ),
        (
            CP_BEGIN,
            &[0, 0, 0, 0, 0, 0, 0, 0, 2, 0, 0, 0, 0, 0, 0, 0, 5, 2, 0, 0],
        ),
        (CP_BEGIN, &[]),
        (0, &[]),
        (7, &[]),
    ];
    for (kind, payload) in refused {
        is_refused(&rt, kind, payload);
    }
}
