//! A restart over a host in memory, and what it does with a log that holds a page of a checkpoint without its
//! end marker.

ghost use Rattle.std.specs.Prelude.{◌≤◌, ◌<◌, length, IfOk};
ghost use Rattle.pm_disk.specs.States.{IsUsable};
ghost use Rattle.pm_disk_mem.specs.Hosts.{state_of};
ghost use Rattle.pm_marks.specs.Slots.{IsMark};
ghost use Rattle.pm_types.specs.Shapes.{IsShape};

use pm_disk::{Failed, Host, PageReader};
use pm_disk_mem::{MemDisk, MemHost, Pick};
use pm_frame::{CP_BEGIN, DELTA, RESTART, SNAPSHOT};
use pm_marks::{read_marks, write_start};
use pm_redo::restore;
use pm_segments::Log;
use pm_types::{Field, Mark, OpenFault, PageId, Place, Shape, StoreFault};
use std::process::Abort;
use std::test::Fail;

/// How many bytes a page has.
const PAGE_BYTES: usize = 1_024;

/// The begin of checkpoint 1, which is replayed from segment 1 on.
const BEGIN: [u8; 20] = [1, 0, 0, 0, 0, 0, 0, 0, 1, 0, 0, 0, 0, 0, 0, 0, 0, 0, 0, 0];

/// The payload of a RESTART of `shape`.
const SHAPE: [u8; 16] = [0, 4, 0, 0, 1, 0, 1, 0, 9, 0, 0, 0, 0, 0, 1, 0];

/// A change of the page: its first byte is 9 from then on.
const CHANGE: [u8; 14] = [0, 0, 0, 0, 0, 0, 1, 0, 1, 0, 0, 1, 0, 9];

/// The same of a page in partition 1, which the shape hasn't.
const OUTSIDE: [u8; 14] = [0, 0, 0, 0, 1, 0, 1, 0, 1, 0, 0, 1, 0, 9];

/// What stands in the log between its first record, a RESTART, and the begin of the checkpoint.
#[derive(Clone, Copy, Debug, PartialEq, Eq)]
enum Logged {
    /// The page.
    Page,
    /// The page, and changes of it and of one outside the shape.
    Changes,
    /// The page, and a RESTART more.
    Restart,
    /// A change alone.
    NoPage,
    /// A page of twice the size.
    LargePage,
}

impl Logged {
    /// Where the begin of the checkpoint stands in the first segment.
    fn begin(self) -> u32
        ensures { result < 60000 }
    {
        match self {
            Logged::Page => 1_090,
            Logged::Changes => 1_160,
            Logged::Restart => 1_127,
            Logged::NoPage => 72,
            Logged::LargePage => 2_114,
        }
    }

    /// How many bytes its page has.
    fn page_bytes(self) -> usize
        ensures { result ≤ 2048 }
    {
        match self {
            Logged::LargePage => 2 * PAGE_BYTES,
            _ => PAGE_BYTES,
        }
    }
}

/// A shape with this many rows at most.
fn shape(max_rows: u32) -> Shape
    requires some { 1 ≤ max_rows }
    requires few { max_rows < 10 }
    ensures { IsShape result }
{
    Shape {
        page_size: 1_024,
        partitions: 1,
        version: 1,
        max_rows,
        segment_bytes: 65_536,
    }
}

/// The mark of checkpoint 1, whose begin stands at this offset of the first segment.
fn mark(begin: u32) -> Mark
    requires { begin < 60000 }
    ensures { IsMark result }
{
    Mark {
        number: 1,
        begin: Place { seg: 1, off: begin },
        replay: Place {
            seg: 1,
            off: begin.saturating_add(41),
        },
        from: Place { seg: 1, off: 37 },
        shape: shape(9),
    }
}

/// The payload of the page's record: its name and so many bytes.
fn page_record(rt: &impl AllocGlobal, page_bytes: usize) -> Result<Vec<u8>, Fail>
    requires { page_bytes ≤ 2048 }
    ensures { IfOk result (λ bytes. length bytes.items ≤ 2056) }
{
    let mut payload = Vec::from_slice(rt.alloc(), &[0, 0, 0, 0, 0, 0, 1, 0])?;
    payload.extend_from_slice(&vec![in rt.alloc(); 7; page_bytes]?)?;
    Ok(payload)
}

/// Logs a RESTART, these records, and the begin of the checkpoint, and forces them.
fn write_log<H: Host>(host: &mut H, page: &[u8], logged: Logged) -> Result<(), Failed>
    requires usable { IsUsable (H.state host.old) }
    requires short { length page.now ≤ 2056 }
    ensures usable { IsUsable (H.state host.new) }
{
    let mut log = Log::cut_tail(host, 1, Place { seg: 1, off: 0 }, 65_536)?;
    log.append(host, RESTART, &SHAPE)?;
    if logged != Logged::NoPage {
        log.append(host, SNAPSHOT, page)?;
    }
    match logged {
        Logged::Page | Logged::LargePage => {}
        Logged::Changes => {
            log.append(host, DELTA, &OUTSIDE)?;
            log.append(host, DELTA, &CHANGE)?;
        }
        Logged::Restart => {
            log.append(host, RESTART, &SHAPE)?;
        }
        Logged::NoPage => {
            log.append(host, DELTA, &CHANGE)?;
        }
    }
    log.append(host, CP_BEGIN, &BEGIN)?;
    log.force(host)
}

/// A host over this disk, with a folder bound.
fn host_over(rt: &impl AllocGlobal, disk: MemDisk) -> Result<MemHost, Fail>
    ensures { IfOk result (λ host. IsUsable (state_of host)) }
{
    let mut host = MemHost::new(rt.alloc(), b"", b"", disk, &[], None)?;
    host.bind("store")?;
    Ok(host)
}

/// A store with that log, and a start marker whose begin stands at this offset.
fn store(rt: &impl AllocGlobal, logged: Logged, begin: u32) -> Result<MemDisk, Fail>
    requires { begin < 60000 }
{
    let mut host = host_over(rt, MemDisk::empty(rt.alloc()))?;
    write_log(&mut host, &page_record(rt, logged.page_bytes())?, logged)?;
    write_start(&mut host, &mark(begin))?;
    Ok(host.image(rt.alloc(), Pick::Lost)?)
}

/// What came of a restart.
#[derive(Debug, PartialEq, Eq, Drop)]
struct Outcome {
    fault: Option<OpenFault>,
    ended: bool,
    page: Option<u8>,
}

/// A restart that asks for this shape, and what is there after a power failure then.
fn restored(rt: &impl AllocGlobal, disk: MemDisk, wanted: &Shape) -> Result<Outcome, Fail>
    requires { IsShape wanted.now }
{
    let mut host = host_over(rt, disk)?;
    let fault = fault_of(rt, &mut host, wanted);
    let mut later = host_over(rt, host.image(rt.alloc(), Pick::Lost)?)?;
    let marks = read_marks(&mut later)?;
    Ok(Outcome {
        fault,
        ended: marks.ended,
        page: first_byte(&mut later)?,
    })
}

/// The fault of a restart, if there is one.
fn fault_of<H: Host>(rt: &impl AllocGlobal, host: &mut H, wanted: &Shape) -> Option<OpenFault>
    requires usable { IsUsable (H.state host.old) }
    requires wanted { IsShape wanted.now }
{
    match restore(rt.alloc(), host, wanted) {
        Ok(_) => None,
        Err(fault) => Some(fault),
    }
}

/// The first byte of page 0 in its file.
fn first_byte(host: &mut MemHost) -> Result<Option<u8>, Failed>
    requires { IsUsable (state_of host.old) }
{
    let mut bytes = [0; PAGE_BYTES];
    if host.read_page(PageId(0x1_0000_0000_0000), &mut bytes)? {
        Ok(Some(bytes[0]))
    } else {
        Ok(None)
    }
}

#[test]
fn a_checkpoint_without_its_end_is_ended_with_its_page(rt: HostRuntime) -> Result<(), Fail> {
    let first_bad = OpenFault::Store(StoreFault::BadRecord(Place { seg: 1, off: 37 }));
    let rows = [
        (Logged::Page, None, Some(7), "the page"),
        (Logged::Changes, None, Some(9), "a change of the page"),
        (Logged::Restart, None, None, "a restart after the page"),
        (Logged::NoPage, Some(first_bad), None, "a change of no page"),
        (
            Logged::LargePage,
            Some(first_bad),
            None,
            "a page of another size",
        ),
    ];
    for (logged, fault, page, what) in rows {
        let ended = fault.is_none();
        let found = restored(&rt, store(&rt, logged, logged.begin())?, &shape(9))?;
        assert_eq!(rt; found, Outcome { fault, ended, page }, "{what}");
    }
    Ok(())
}

#[test]
fn a_begin_that_does_not_stand_there_is_named(rt: HostRuntime) -> Result<(), Fail> {
    let begin = Place { seg: 1, off: 1_091 };
    let expected = Outcome {
        fault: Some(OpenFault::Store(StoreFault::BadRecord(begin))),
        ended: false,
        page: None,
    };
    assert_eq!(rt;
        restored(&rt, store(&rt, Logged::Page, 1_091)?, &shape(9))?,
        expected
    );
    Ok(())
}

#[test]
fn another_shape_is_refused_and_changes_nothing(rt: HostRuntime) -> Result<(), Fail> {
    let expected = Outcome {
        fault: Some(OpenFault::Shape(Field::MaxRows)),
        ended: false,
        page: None,
    };
    assert_eq!(rt;
        restored(&rt, store(&rt, Logged::Page, 1_090)?, &shape(8))?,
        expected
    );
    Ok(())
}
