//! The bytes that a worker's operations hand to the log writer, which are written by hand here.

ghost use Rattle.std.specs.Prelude.{◌≡◌};
ghost use Rattle.pm_disk.specs.States.{IsUsable, MayUseAllPages};
ghost use Rattle.pm_stripe.specs.Begins.{IsOwnPart};
ghost use Rattle.pm_stripe.specs.Bounds.{IsBound};

use crate::bound_pages::bind;
use crate::worker_pages::few_frames::begin;
use crate::worker_pages::handed_over::{INDEX, log, made, noted};
use crate::worker_pages::reader::ListReader;
use crate::worker_pages::stop::Stop;
use pm_disk::PageReader;
use pm_records::{LogRecord, PUT};
use pm_stripe::{Bound, Halt};
use pm_types::Page;
use std::alloc::{AllocError, Global};
use std::process::Abort;
use std::sync::Wait;
use std::test::Fail;

// The record of page 5 of partition 2 in which bytes 32 and 33 are 7 and 8 now, and byte 1,023 is 9.
const DELTA: [u8; 25] = [
    3, 20, 0, 0, 0, 5, 0, 0, 0, 2, 0, 1, 0, 2, 0x20, 0, 2, 0, 7, 8, 0xff, 0x03, 1, 0, 9,
];

// The front of the record of the same page as a whole, of 1,024 bytes.
const SNAPSHOT: [u8; 13] = [2, 8, 4, 0, 0, 5, 0, 0, 0, 2, 0, 1, 0];

// That page as it is in its file: a reuse page.
const STORED: [u8; 9] = [5, 0, 0, 0, 2, 0, 1, 0, 5];

// Three bytes in two ranges.
const THREE: [(u16, u16); 2] = [(32, 2), (1023, 1)];

// A byte each.
const EIGHT: [(u16, u16); 8] = [
    (0, 1),
    (2, 1),
    (4, 1),
    (6, 1),
    (8, 1),
    (10, 1),
    (12, 1),
    (14, 1),
];

const NINE: [(u16, u16); 9] = [
    (0, 1),
    (2, 1),
    (4, 1),
    (6, 1),
    (8, 1),
    (10, 1),
    (12, 1),
    (14, 1),
    (16, 1),
];

// Ranges of a page that the log has had, each with the front of its record and with the record's length.
const ROWS: [(&[(u16, u16)], &[u8], usize, &str); 5] = [
    (&THREE, &DELTA, 25, "two ranges"),
    (&EIGHT, &[3, 49, 0, 0, 0], 54, "eight ranges"),
    (&NINE, &SNAPSHOT, 1037, "nine ranges"),
    (&[(0, 512)], &[3, 13, 2, 0, 0], 530, "half the page"),
    (&[(0, 513)], &SNAPSHOT, 1037, "more than half of it"),
];

// Appends an operation to a list of them.
fn append(operations: &mut Vec<Vec<u8>>, operation: Vec<u8>) -> Result<(), AllocError> {
    operations.push(operation)?;
    Ok(())
}

// The operations of a worker: the first change of a page that was read, the page made anew, and a change of
// each of the rows.
fn operations<'a, Q: Wait, R: PageReader>(
    alloc: Global,
    pages: &mut Bound<'a, Q, R>,
) -> Result<Vec<Vec<u8>>, Stop>
    requires bound { IsBound R.tells R.history R.state pages.old }
    requires part { IsOwnPart pages.old pages.old.part }
    ensures { IsBound R.tells R.history R.state pages.new }
{
    let mut operations = Vec::new(alloc);
    append(&mut operations, noted(alloc, pages, &THREE)?)?;
    append(&mut operations, made(alloc, pages)?)?;
    'rows: for (ranges, _, _, _) in ROWS {
        append(&mut operations, noted(alloc, pages, ranges)?)?;
    }
    Ok(operations)
}

// The same of a new worker over partition 2.
fn operations_over<Q: Wait, R: PageReader + Drop>(
    rt: &Q,
    alloc: Global,
    reader: R,
) -> Result<Vec<Vec<u8>>, Stop>
    requires usable { IsUsable (R.state reader) }
    requires pages { MayUseAllPages (R.state reader) }
{
    let (locks, seat, stripe) = begin(alloc)?;
    let mut pages = bind(rt, &locks, stripe, seat, reader, 2);
    let operations = operations(alloc, &mut pages);
    let _ = pages.end();
    operations
}

// Six pages, of which the last one is that page.
fn stored(alloc: Global) -> Result<Vec<Page>, AllocError> {
    let mut bytes = vec![in alloc; 0; 1024]?;
    for (into, byte) in bytes.iter_mut().zip(STORED) {
        *into = byte;
    }
    let mut pages = Vec::new(alloc);
    for _ in 0..INDEX {
        pages.push(Page {
            bytes: Vec::new(alloc),
        })?;
    }
    pages.push(Page { bytes })?;
    Ok(pages)
}

// Looks for the line and the record of an operation of a page.
fn look_at(
    rt: &impl Abort,
    operation: &[u8],
    front: &[u8],
    len: usize,
    what: &str,
) -> Result<(), Fail> {
    assert_eq!(rt; operation.len(), len.saturating_add(8), "{what}");
    assert!(rt; operation.starts_with(&[1, 0, 0, 0]), "{what}");
    assert!(rt; operation[8..].starts_with(front), "{what}");
    Ok(())
}

#[test]
fn a_page_is_logged_whole_the_first_time_and_where_much_of_it_changed(
    rt: HostRuntime,
) -> Result<(), Fail> {
    let reader = ListReader::new(stored(rt.alloc())?, u32::MAX);
    let Ok(operations) = operations_over(&rt, rt.alloc(), reader) else {
        return Ok(assert!(rt; false));
    };
    assert!(rt; operations.len() == ROWS.len() + 2);
    look_at(&rt, &operations[0], &SNAPSHOT, 1037, "the first change")?;
    look_at(&rt, &operations[1], &SNAPSHOT, 1037, "a page made anew")?;
    for (operation, (_, front, len, what)) in operations[2..].iter().zip(ROWS) {
        look_at(&rt, operation, front, len, what)?;
    }
    Ok(())
}

// `put 0 a 1`
const PUT_A: LogRecord<'static> = LogRecord::Logical {
    op: PUT,
    cache: 0,
    key: b"a",
    value: b"1",
};

// Line 7 with this record alone: number, length of the records, kind, length of the payload, payload.
const SEVEN: [u8; 22] = [
    7, 0, 0, 0, 14, 0, 0, 0, 1, 9, 0, 0, 0, 1, 0, 1, 1, 0, 0, 0, 0x61, 0x31,
];

// Takes out the first eight bytes, which were sent.
fn send_eight<'a, Q: Wait, R: PageReader>(pages: &mut Bound<'a, Q, R>)
    requires bound { IsBound R.tells R.history R.state pages.old }
    requires part { IsOwnPart pages.old pages.old.part }
    ensures bound { IsBound R.tells R.history R.state pages.new }
    ensures part { IsOwnPart pages.new pages.new.part }
{
    let len = pages.outbox().len().min(8);
    pages.sent(len);
}

// What the outbox has after an operation with a record, after one without, and when eight bytes were sent.
#[derive(Drop)]
struct Contents {
    with: Vec<u8>,
    without: Vec<u8>,
    left: Vec<u8>,
}

fn kept<'a, Q: Wait, R: PageReader>(
    alloc: Global,
    pages: &mut Bound<'a, Q, R>,
) -> Result<Contents, Stop>
    requires bound { IsBound R.tells R.history R.state pages.old }
    requires part { IsOwnPart pages.old pages.old.part }
    ensures bound { IsBound R.tells R.history R.state pages.new }
    ensures part { IsOwnPart pages.new pages.new.part }
{
    log(pages, 7, Some(&PUT_A))?;
    let with = Vec::from_slice(alloc, pages.outbox())?;
    log(pages, 8, None)?;
    let without = Vec::from_slice(alloc, pages.outbox())?;
    send_eight(pages);
    let left = Vec::from_slice(alloc, pages.outbox())?;
    Ok(Contents {
        with,
        without,
        left,
    })
}

// Logs the record until an operation can't begin.
fn fill<'a, Q: Wait, R: PageReader>(pages: &mut Bound<'a, Q, R>) -> Result<(), Halt>
    requires bound { IsBound R.tells R.history R.state pages.old }
    requires part { IsOwnPart pages.old pages.old.part }
    ensures { IsBound R.tells R.history R.state pages.new }
{
    'lines: for line in 0..60_000 {
        log(pages, line, Some(&PUT_A))?;
    }
    Ok(())
}

// How many bytes the outbox has room for in all, by what is left of it where an operation can't begin.
fn room_of<'a, Q: Wait, R: PageReader>(pages: &mut Bound<'a, Q, R>) -> Option<usize>
    requires bound { IsBound R.tells R.history R.state pages.old }
    requires part { IsOwnPart pages.old pages.old.part }
    ensures { IsBound R.tells R.history R.state pages.new }
{
    match fill(pages) {
        Err(Halt::NoLog(left)) => Some(pages.outbox().len().saturating_add(left)),
        _ => None,
    }
}

// What a new worker's outbox has, and the room of it.
fn kept_over<Q: Wait, R: PageReader + Drop>(
    rt: &Q,
    alloc: Global,
    reader: R,
) -> Result<(Contents, Option<usize>), Stop>
    requires usable { IsUsable (R.state reader) }
    requires pages { MayUseAllPages (R.state reader) }
{
    let (locks, seat, stripe) = begin(alloc)?;
    let mut pages = bind(rt, &locks, stripe, seat, reader, 2);
    let kept = kept(alloc, &mut pages);
    let room = room_of(&mut pages);
    let _ = pages.end();
    Ok((kept?, room))
}

#[test]
fn an_operation_is_kept_until_it_is_sent(rt: HostRuntime) -> Result<(), Fail> {
    let reader = ListReader::new(Vec::new(rt.alloc()), u32::MAX);
    let Ok((kept, room)) = kept_over(&rt, rt.alloc(), reader) else {
        return Ok(assert!(rt; false));
    };
    assert_eq!(rt; kept.with.as_slice(), SEVEN.as_slice());
    assert_eq!(rt;
        kept.without.as_slice(),
        SEVEN.as_slice(),
        "an operation without a record"
    );
    assert_eq!(rt; kept.left.as_slice(), &SEVEN[8..]);
    assert_eq!(rt; room, Some(1_048_576));
    Ok(())
}
