//! Logs over a host in memory, and the lines that they are listed as.

ghost use Rattle.std.specs.Prelude.{IfOk};
ghost use Rattle.pm_disk.specs.States.{IsUsable};
ghost use Rattle.pm_disk_mem.specs.Hosts.{state_of};
ghost use Rattle.pm_marks.specs.Slots.{IsMark};

use pm_disk::{Failed, Host};
use pm_disk_mem::{MemDisk, MemHost};
use pm_frame::{CP_BEGIN, DELTA, LOGICAL, RESTART, SEAL, SNAPSHOT, sum};
use pm_marks::write_start;
use pm_tools::wal;
use pm_types::{Mark, Place, Shape, StoreFault};
use std::alloc::Global;
use std::test::Fail;

const SHAPE: &[u8] = b"\x00\x04\x00\x00\x01\x00\x01\x00\x07\x00\x00\x00\x00\x00\x01\x00";

const PUT: &[u8] = b"\x01\x00\x01\x01\x00\x00\x00a1";

const REMOVE: &[u8] = b"\x02\x0f\x02\x00\x00\x00\x00x:";

const DELTA_OF_TWO: &[u8] =
    b"\x05\x00\x00\x00\x02\x00\x01\x00\x02\x00\x00\x01\x00A\x10\x00\x02\x00BC";

const BEGIN: &[u8] =
    b"\x07\x00\x00\x00\x00\x00\x00\x00\x01\x00\x00\x00\x00\x00\x00\x00\x25\x00\x00\x00";

/// A log, by the records of its first two segments.
struct Case {
    first: &'static [(u8, &'static [u8])],
    second: &'static [(u8, &'static [u8])],
    /// How many bytes are cut off the first segment's end.
    torn: usize,
    /// Whether a start marker names 1:37 as the replay place.
    started: bool,
    /// The record that is bad, if one is.
    bad: Option<Place>,
    text: &'static [u8],
}

const CASES: &[Case] = &[
    Case {
        first: &[],
        second: &[],
        torn: 0,
        started: false,
        bad: None,
        text: b"end 1:0\n",
    },
    Case {
        first: &[(RESTART, SHAPE), (LOGICAL, PUT), (LOGICAL, REMOVE)],
        second: &[],
        torn: 0,
        started: false,
        bad: None,
        text: b"1:0 restart\n1:37 put 0 a 1\n1:67 remove 15 x:783a\nend 1:97\n",
    },
    Case {
        first: &[(RESTART, SHAPE), (LOGICAL, PUT), (LOGICAL, REMOVE)],
        second: &[],
        torn: 1,
        started: false,
        bad: None,
        text: b"1:0 restart\n1:37 put 0 a 1\nend 1:67\n",
    },
    Case {
        first: &[(RESTART, SHAPE), (LOGICAL, PUT), (LOGICAL, REMOVE)],
        second: &[],
        torn: 0,
        started: true,
        bad: None,
        text: b"1:37 put 0 a 1\n1:67 remove 15 x:783a\nend 1:97\n",
    },
    Case {
        first: &[],
        second: &[],
        torn: 0,
        started: true,
        bad: None,
        text: b"end 1:37\n",
    },
    Case {
        first: &[
            (RESTART, SHAPE),
            (DELTA, DELTA_OF_TWO),
            (CP_BEGIN, BEGIN),
            (SEAL, b""),
        ],
        second: &[(LOGICAL, PUT)],
        torn: 0,
        started: false,
        bad: None,
        text: b"1:0 restart\n1:37 delta 0001000200000005 2\n1:78 begin 7\n1:119 seal\n2:0 put 0 a 1\nend 2:30\n",
    },
    Case {
        first: &[(LOGICAL, b"?"), (LOGICAL, PUT)],
        second: &[],
        torn: 0,
        started: false,
        bad: Some(Place { seg: 1, off: 0 }),
        text: b"",
    },
    Case {
        first: &[(RESTART, SHAPE), (SNAPSHOT, SHAPE), (LOGICAL, PUT)],
        second: &[],
        torn: 0,
        started: false,
        bad: Some(Place { seg: 1, off: 37 }),
        text: b"1:0 restart\n",
    },
];

#[test]
fn a_log_is_listed_up_to_its_end_or_its_first_bad_record(rt: HostRuntime) -> Result<(), Fail> {
    for case in CASES {
        let wanted = match case.bad {
            Some(at) => Err(StoreFault::BadRecord(at)),
            None => Ok(()),
        };
        let disk = disk_of(&rt, case)?;
        let (answer, text) = listed(&rt, disk, case.started)?;
        assert_eq!(rt; answer, wanted, "{:?}", case.text);
        assert_eq!(rt; text.as_slice(), case.text, "{:?}", case.text);
    }
    Ok(())
}

#[test]
fn a_page_that_is_new_is_listed_as_a_snapshot(rt: HostRuntime) -> Result<(), Fail> {
    let mut page = Vec::from_slice(rt.alloc(), b"\x00\x00\x00\x00\x00\x00\x01\x00")?;
    for _ in 0..1024 {
        page.push(0)?;
    }
    let mut log = Vec::new(rt.alloc());
    append(&mut log, 1, RESTART, SHAPE)?;
    append(&mut log, 1, SNAPSHOT, &page)?;
    let mut disk = MemDisk::empty(rt.alloc());
    disk.put_file(FIRST, &log)?;
    let (answer, text) = listed(&rt, disk, false)?;
    assert_eq!(rt; answer, Ok(()));
    assert_eq!(rt;
        text.as_slice(),
        b"1:0 restart\n1:37 snapshot 0001000000000000\nend 1:1090\n".as_slice()
    );
    Ok(())
}

const FIRST: &str = "wal-0000000000000001.seg";

const SECOND: &str = "wal-0000000000000002.seg";

/// What is answered of a log over this disk, and what was said.
fn listed(
    rt: &impl AllocGlobal,
    disk: MemDisk,
    started: bool,
) -> Result<(Result<(), StoreFault>, Vec<u8>), Fail> {
    let mut host = host_over(rt, disk)?;
    let answer = list(rt.alloc(), &mut host, started);
    Ok((answer, Vec::from_slice(rt.alloc(), host.said())?))
}

/// A host over this disk, with a folder bound.
fn host_over(rt: &impl AllocGlobal, disk: MemDisk) -> Result<MemHost, Fail>
    ensures { IfOk result (λ host. IsUsable (state_of host)) }
{
    let mut host = MemHost::new(rt.alloc(), b"", b"", disk, &[], None)?;
    host.bind("store")?;
    Ok(host)
}

/// Lists the log, after a start marker was written where one is wanted.
fn list<H: Host>(alloc: Global, host: &mut H, started: bool) -> Result<(), StoreFault>
    requires { IsUsable (H.state host.old) }
{
    if started {
        start(host)?;
    }
    wal(alloc, host)
}

/// Writes a start marker whose replay place is 1:37.
fn start<H: Host>(host: &mut H) -> Result<(), Failed>
    requires { IsUsable (H.state host.old) }
    ensures { IsUsable (H.state host.new) }
{
    write_start(host, &mark())
}

fn mark() -> Mark
    ensures { IsMark result }
{
    Mark {
        number: 1,
        begin: Place { seg: 1, off: 37 },
        replay: Place { seg: 1, off: 37 },
        from: Place { seg: 1, off: 0 },
        shape: Shape {
            page_size: 1024,
            partitions: 1,
            version: 1,
            max_rows: 7,
            segment_bytes: 65_536,
        },
    }
}

/// A disk with the log of a case.
fn disk_of(rt: &impl AllocGlobal, case: &Case) -> Result<MemDisk, Fail> {
    let mut disk = MemDisk::empty(rt.alloc());
    let first = segment(rt, 1, case.first)?;
    disk.put_file(FIRST, &first[..first.len() - case.torn.min(first.len())])?;
    disk.put_file(SECOND, &segment(rt, 2, case.second)?)?;
    Ok(disk)
}

/// The bytes of a segment with these records.
fn segment(rt: &impl AllocGlobal, seg: u8, records: &[(u8, &[u8])]) -> Result<Vec<u8>, Fail> {
    let mut log = Vec::new(rt.alloc());
    for (kind, payload) in records {
        append(&mut log, seg, *kind, payload)?;
    }
    Ok(log)
}

/// Appends a frame of this kind with this payload.
fn append(log: &mut Vec<u8>, seg: u8, kind: u8, payload: &[u8]) -> Result<(), Fail> {
    let at = log.len();
    log.extend_from_slice(&[kind, seg, 0, 0, 0, 0, 0, 0, 0])?;
    log.extend_from_slice(&u32::try_from(at).unwrap_or(0).to_le_bytes())?;
    log.extend_from_slice(&u32::try_from(payload.len()).unwrap_or(0).to_le_bytes())?;
    log.extend_from_slice(payload)?;
    let sum = sum(&log[at..]);
    log.extend_from_slice(&sum.to_le_bytes())?;
    Ok(())
}
