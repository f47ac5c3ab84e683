//! The records that puts append to the log, byte by byte.

ghost use Rattle.std.specs.Prelude.{◌≡◌, ◌≤◌, false, length, IfOk, OnOk};
ghost use Rattle.std.specs.List.{All};
ghost use Rattle.pm_disk.specs.States.{IsUsable};
ghost use Rattle.pm_segments.specs.Scans.{IsAhead};
ghost use Rattle.pm_model.specs.Batches.{HasCache};

use crate::checkpoint_tests::framed_stores::{open, put_line, run};
use crate::checkpoint_tests::kept_segments::no_files;
use crate::worker_pages::commands::{SHAPE, Step, command};
use crate::worker_pages::plain::answer_plain;
use crate::worker_pages::records::Logged;
use crate::worker_pages::stop::Stop;
use pm_disk::{Host, LogReader};
use pm_frame::{DELTA, LOGICAL, RESTART, SNAPSHOT};
use pm_model::{Cmd, Line};
use pm_pages::PlainPages;
use pm_part::Part;
use pm_segments::Scan;
use pm_types::{OpenFault, Place, StoreFault};
use std::alloc::{AllocError, Global};
use std::process::Abort;
use std::sync::Wait;
use std::test::Fail;

/// The rows of partition 0 that are put, and how long the value of each is, in bytes.
const PUTS: [(u32, usize); 4] = [(7, 30), (7, 30), (7, 45), (8, 10)];

/// The payload of the record of the store's opening, its shape: pages of 1,024 bytes, 2 partitions, version 1, 20,000
/// rows at most, and segments of 65,536 bytes.
const OPENING: [u8; 16] = [0, 4, 0, 0, 2, 0, 1, 0, 32, 78, 0, 0, 0, 0, 1, 0];

/// Records, each as its kind, its payload's length and the payload.
#[derive(Drop)]
struct Records {
    kinds: Vec<u8>,
    bytes: Vec<u8>,
}

impl Records {
    fn none(alloc: Global) -> Records {
        Records {
            kinds: Vec::new(alloc),
            bytes: Vec::new(alloc),
        }
    }

    /// Appends a record.
    fn add(&mut self, kind: u8, payload: &[u8]) -> Result<(), AllocError> {
        self.kinds.push(kind)?;
        self.bytes.push(kind)?;
        let len = u32::try_from(payload.len()).unwrap_or(0);
        self.bytes.extend_from_slice(&len.to_le_bytes())?;
        self.bytes.extend_from_slice(payload)
    }
}

/// The payload of a put's own record: its kind, its cache, the lengths of key and value, the key and the value.
fn put_payload(alloc: Global, cmd: &Cmd) -> Result<Vec<u8>, AllocError> {
    let mut payload = Vec::new(alloc);
    if let Cmd::Put { cache, key, value } = cmd {
        let key_len = u8::try_from(key.bytes().len()).unwrap_or(0);
        let value_len = u32::try_from(value.bytes().len()).unwrap_or(0);
        payload.push(1)?;
        payload.push(*cache)?;
        payload.push(key_len)?;
        payload.extend_from_slice(&value_len.to_le_bytes())?;
        payload.extend_from_slice(key.bytes())?;
        payload.extend_from_slice(value.bytes())?;
    }
    Ok(payload)
}

/// Appends the records of a put that was done over a list of pages: its own, and those of the pages that it changed.
fn expect(
    alloc: Global,
    cmd: &Cmd,
    plain: &PlainPages,
    logged: &mut Logged,
    into: &mut Records,
) -> Result<(), AllocError> {
    into.add(LOGICAL, &put_payload(alloc, cmd)?)?;
    logged.add(alloc, 0, plain)?;
    // the first eight bytes are the line's number and the length of all
    if let Some(records) = logged.bytes.get(8..) {
        into.bytes.extend_from_slice(records)?;
    }
    logged.bytes.clear();
    Ok(())
}

/// The records that are to be in the log after all puts.
fn expected(alloc: Global) -> Result<Records, Stop> {
    let mut records = Records::none(alloc);
    records.add(RESTART, &OPENING)?;
    let mut plain = PlainPages::new(alloc, &SHAPE, 0)?;
    let part = Part::new(SHAPE, 0);
    let mut logged = Logged::new(alloc);
    'puts: for (row, len) in PUTS {
        let cmd = command(alloc, 0, row, Step::Put(len))?;
        answer_plain(alloc, &mut plain, &part, &cmd)?;
        expect(alloc, &cmd, &plain, &mut logged, &mut records)?;
    }
    Ok(records)
}

/// Appends the next record of the log, and says whether there was one.
fn read_next<L: LogReader>(
    dev: &mut L,
    scan: &mut Scan,
    into: &mut Records,
) -> Result<bool, StoreFault>
    requires usable { IsUsable (L.state dev.old) }
    requires ahead { L.tells → IsAhead scan.old (L.history dev.old).world }
    ensures usable { IsUsable (L.state dev.new) }
    ensures ahead { L.tells → OnOk result (IsAhead scan.new (L.history dev.new).world) }
{
    let Some(frame) = scan.next(dev)? else {
        return Ok(false);
    };
    into.add(frame.kind, frame.payload)?;
    Ok(true)
}

/// The records of the log, 100 at most.
fn read_all<L: LogReader>(alloc: Global, dev: &mut L) -> Result<Records, StoreFault>
    requires { IsUsable (L.state dev.old) }
{
    let mut records = Records::none(alloc);
    let mut scan = Scan::new(alloc, Place { seg: 1, off: 0 })?;
    'frames: for _ in 0..100 {
        if !read_next(dev, &mut scan, &mut records)? {
            return Ok(records);
        }
    }
    Ok(records)
}

/// The lines of all puts.
fn put_lines(alloc: Global) -> Result<Vec<Line>, AllocError>
    ensures caches { IfOk result (λ lines. All HasCache lines.items) }
    ensures few { IfOk result (λ lines. length lines.items ≤ 4) }
{
    let mut lines = Vec::new(alloc);
    'puts: for put in PUTS {
        let (row, len) = put;
        lines.push(put_line(alloc, 0, row, len)?)?;
    }
    Ok(lines)
}

/// The records of the log of a store once it ran all puts as one batch.
fn found<Q: Wait, H: Host>(rt: &Q, alloc: Global, host: &mut H) -> Result<Records, OpenFault>
    requires whole { (H.Device.state host.old).access.is_lent ≡ false }
{
    let engine = open(rt, alloc, host)?;
    let lines = put_lines(alloc)?;
    let engine = run(rt, alloc, host, engine, &lines)?;
    let _order = engine.close();
    Ok(read_all(alloc, host)?)
}

// The first put makes the meta page, a page of rows and a leaf, each logged whole, by rising page. The second
// one writes over the row, the third one moves it within its page, and the last one adds one: of each changed page
// the ranges alone are logged, by rising page.
#[test]
fn a_put_is_logged_with_the_pages_that_it_changed(rt: HostRuntime) -> Result<(), Fail> {
    let alloc = rt.alloc();
    let mut host = no_files(alloc)?;
    let found = found(&rt, alloc, &mut host)?;
    let wanted = expected(alloc)?;
    assert_eq!(rt; found.bytes, wanted.bytes);
    let kinds = [
        RESTART, LOGICAL, SNAPSHOT, SNAPSHOT, SNAPSHOT, LOGICAL, DELTA, LOGICAL, DELTA, LOGICAL,
        DELTA, DELTA, DELTA,
    ];
    assert_eq!(rt; found.kinds.as_slice(), kinds.as_slice());
    Ok(())
}
