//! A slot of a marker file: the bytes that a mark is written as, and which slots are read.

ghost use Rattle.pm_disk.specs.States.{IsUsable};
ghost use Rattle.pm_disk_mem.specs.Hosts.{state_of};

use pm_disk::{Host, SLOT_LEN};
use pm_disk_mem::{MemDisk, MemHost, Pick};
use pm_marks::{is_mark, read_marks, write_start};
use pm_types::{Mark, Place, Shape};
use std::process::Abort;

// The slot of checkpoint 3. Its sum is that of Python's zlib.
#[rattlefmt::skip]
const SLOT: [u8; SLOT_LEN] = [
    0x03, 0x00, 0x00, 0x00, 0x00, 0x00, 0x00, 0x00, // number
    0x02, 0x00, 0x00, 0x00, 0x00, 0x00, 0x00, 0x00, // begin: segment
    0x05, 0x02, 0x00, 0x00, // offset
    0x02, 0x00, 0x00, 0x00, 0x00, 0x00, 0x00, 0x00, // replay: segment
    0x2e, 0x02, 0x00, 0x00, // offset
    0x00, 0x10, 0x00, 0x00, // page size
    0x04, 0x00, // partitions
    0x01, 0x00, // version
    0x80, 0x1a, 0x06, 0x00, // most rows
    0x00, 0x00, 0x00, 0x04, // most bytes of a segment
    0x01, 0x00, 0x00, 0x00, 0x00, 0x00, 0x00, 0x00, // from: segment
    0x25, 0x00, 0x00, 0x00, // offset
    0xe2, 0x29, 0x8f, 0xb0, // sum
];

const MARK: Mark = Mark {
    number: 3,
    begin: Place { seg: 2, off: 517 },
    replay: Place { seg: 2, off: 558 },
    from: Place { seg: 1, off: 37 },
    shape: Shape {
        page_size: 4096,
        partitions: 4,
        version: 1,
        max_rows: 400_000,
        segment_bytes: 67_108_864,
    },
};

// The slot of a checkpoint that was never made.
const ZEROS: [u8; SLOT_LEN] = [0; SLOT_LEN];

/// The file of start markers.
const STARTS: &str = "cp.start";

/// The bytes of a file of these two slots.
fn slots(first: &[u8; SLOT_LEN], second: &[u8; SLOT_LEN]) -> [u8; 128] {
    let mut bytes = [0; 128];
    bytes[..64].copy_from_slice(first);
    bytes[64..].copy_from_slice(second);
    bytes
}

/// A host whose file of start markers has these bytes, with a folder bound.
fn host_over(rt: &(impl Abort + AllocGlobal), starts: &[u8]) -> Box<MemHost>
    ensures { IsUsable (state_of result.value) }
{
    let mut disk = MemDisk::empty(rt.alloc());
    disk.put_file(STARTS, starts).expect(rt, "a disk");
    let host = MemHost::new(rt.alloc(), b"", b"", disk, &[], None);
    let mut host = host.expect(rt, "a host");
    host.bind("store").expect(rt, "a folder");
    Box::new(rt.alloc(), host).expect(rt, "a host")
}

/// The start marker in force, where the file of start markers has these two slots.
fn in_force(
    rt: &(impl Abort + AllocGlobal),
    first: &[u8; SLOT_LEN],
    second: &[u8; SLOT_LEN],
) -> Option<Mark> {
    let mut host = host_over(rt, &slots(first, second));
    read_marks(&mut *host).expect(rt, "marks").start
}

#[test]
fn a_slot_has_these_bytes(rt: HostRuntime) {
    let mut host = host_over(&rt, b"");
    assert!(rt; is_mark(&MARK));
    write_start(&mut *host, &MARK).expect(&rt, "a marker");
    let disk = host.image(rt.alloc(), Pick::Lost).expect(&rt, "a disk");
    let starts = disk.file(STARTS).expect(&rt, STARTS);
    assert_eq!(rt; starts, slots(&ZEROS, &SLOT).as_slice());
}

#[test]
fn a_slot_is_read_in_its_own_place_alone(rt: HostRuntime) {
    assert_eq!(rt; in_force(&rt, &ZEROS, &SLOT), Some(MARK));
    assert_eq!(rt; in_force(&rt, &SLOT, &ZEROS), None);
}

#[test]
fn a_slot_with_a_torn_byte_is_none(rt: HostRuntime) {
    for at in [0, 8, 31, 33, 47, 48, 59, 60, 63] {
        let mut torn = SLOT;
        torn[at] = torn[at] ^ 0x10;
        assert_eq!(rt; in_force(&rt, &ZEROS, &torn), None, "byte {at}");
    }
    assert_eq!(rt; in_force(&rt, &ZEROS, &ZEROS), None);
}
