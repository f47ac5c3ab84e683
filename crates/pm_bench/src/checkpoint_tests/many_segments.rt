//! The log of a store goes on over twenty segments, with five checkpoints.

ghost use Rattle.std.specs.Prelude.{◌≡◌, ◌≤◌, false, length, IfOk, OnOk};
ghost use Rattle.std.specs.List.{All};
ghost use Rattle.pm_disk.specs.States.{IsUsable};
ghost use Rattle.pm_model.specs.Batches.{HasCache};
ghost use Rattle.pm_bench.specs.OpenEngines.{IsOpenOver};

use crate::checkpoint_tests::framed_stores::{CONFIG, open, put_line, run};
use crate::checkpoint_tests::kept_segments::no_files;
use pm_disk::{Failed, Host, LogReader};
use pm_engine::Engine;
use pm_marks::read_marks;
use pm_model::Line;
use pm_types::{OpenFault, StoreFault};
use std::alloc::{AllocError, Global};
use std::process::Abort;
use std::sync::Wait;
use std::test::Fail;

/// More segments than there are.
const SEGMENTS_MAX: u64 = 40;

/// How many rows are put from one checkpoint to the next. Each has a page of its own, and is put with a value
/// of 900 bytes, so that its line takes more than 2,000 bytes of log: its record and the page.
const ROWS: u32 = 130;

/// The segments that are there: how many, the first and the last.
#[derive(Clone, Copy, Debug, PartialEq, Eq)]
struct There {
    count: u64,
    first: u64,
    last: u64,
}

/// Whether a segment is there. No file changes.
fn has_segment<L: LogReader>(dev: &mut L, seg: u64) -> Result<bool, Failed>
    requires { IsUsable (L.state dev.old) }
    ensures usable { IsUsable (L.state dev.new) }
    ensures same { L.tells → OnOk result ((L.history dev.new).world ≡ (L.history dev.old).world) }
{
    Ok(dev.seg_len(seg)?.is_some())
}

/// The segments that are there. No file changes.
fn segments<L: LogReader>(dev: &mut L) -> Result<There, Failed>
    requires { IsUsable (L.state dev.old) }
    ensures usable { IsUsable (L.state dev.new) }
    ensures same { L.tells → OnOk result ((L.history dev.new).world ≡ (L.history dev.old).world) }
{
    let mut there = There {
        count: 0,
        first: 0,
        last: 0,
    };
    'segments: for seg in 1..SEGMENTS_MAX {
        let is_there = has_segment(dev, seg)?;
        there = with_segment(there, seg, is_there);
    }
    Ok(there)
}

/// Where it is there, one segment more, which follows the others.
fn with_segment(there: There, seg: u64, is_there: bool) -> There {
    if !is_there {
        return there;
    }
    There {
        count: there.count.saturating_add(1),
        first: if there.count == 0 { seg } else { there.first },
        last: seg,
    }
}

/// The segment of the begin of the checkpoint in force, 0 where there is none or its end marker isn't there. No file
/// changes.
fn begin_of<H: Host>(host: &mut H) -> Result<u64, Failed>
    requires { IsUsable (H.Device.state host.old) }
    ensures usable { IsUsable (H.Device.state host.new) }
    ensures same { H.Device.tells
        → OnOk result ((H.Device.history host.new).world ≡ (H.Device.history host.old).world) }
{
    let marks = read_marks(host)?;
    match marks.start {
        Some(mark) if marks.ended => Ok(mark.begin.seg),
        _ => Ok(0),
    }
}

/// The lines that put rows in both partitions, from this one on.
fn put_lines(alloc: Global, first: u32) -> Result<Vec<Line>, AllocError>
    ensures caches { IfOk result (λ lines. All HasCache lines.items) }
    ensures few { IfOk result (λ lines. length lines.items ≤ ROWS) }
{
    let mut lines = Vec::new(alloc);
    'rows: for i in 0..ROWS {
        let row = first.wrapping_add(i);
        lines.push(put_line(alloc, (i % 2) as u16, row, 900)?)?;
    }
    Ok(lines)
}

/// What is there before a checkpoint and after it, and where the checkpoint begins.
#[derive(Clone, Copy, Debug, PartialEq, Eq)]
struct Seen {
    before: There,
    after: There,
    begin: u64,
}

/// Looks at the segments, makes a checkpoint, and looks at them again.
fn checkpoint<H: Host>(host: &mut H, engine: &mut Engine) -> Result<Seen, StoreFault>
    requires usable { IsUsable (H.Device.state host.old) }
    requires open { IsOpenOver H.Device.tells CONFIG (H.Device.history host.old).world engine.old }
    ensures usable { IsUsable (H.Device.state host.new) }
    ensures open { OnOk result (IsOpenOver H.Device.tells CONFIG (H.Device.history host.new).world engine.new) }
{
    let before = segments(host)?;
    engine.checkpoint(host)?;
    let after = segments(host)?;
    let begin = begin_of(host)?;
    Ok(Seen {
        before,
        after,
        begin,
    })
}

/// Puts rows from this many times `ROWS` on, and makes a checkpoint.
fn put_and_checkpoint<Q: Wait, H: Host>(
    rt: &Q,
    alloc: Global,
    host: &mut H,
    engine: Engine,
    number: u32,
) -> Result<(Engine, Seen), StoreFault>
    requires usable { IsUsable (H.Device.state host.old) }
    requires open { IsOpenOver H.Device.tells CONFIG (H.Device.history host.old).world engine }
    ensures usable { IsUsable (H.Device.state host.new) }
    ensures open { IfOk result (λ r. IsOpenOver H.Device.tells CONFIG (H.Device.history host.new).world r.0) }
{
    let lines = put_lines(alloc, number.wrapping_mul(ROWS))?;
    let mut engine = run(rt, alloc, host, engine, &lines)?;
    let seen = checkpoint(host, &mut engine)?;
    Ok((engine, seen))
}

/// Five checkpoints, with puts before each.
fn five_checkpoints<Q: Wait, H: Host>(
    rt: &Q,
    alloc: Global,
    host: &mut H,
) -> Result<[Seen; 5], OpenFault>
    requires { (H.Device.state host.old).access.is_lent ≡ false }
{
    let engine = open(rt, alloc, host)?;
    let (engine, one) = put_and_checkpoint(rt, alloc, host, engine, 1)?;
    let (engine, two) = put_and_checkpoint(rt, alloc, host, engine, 2)?;
    let (engine, three) = put_and_checkpoint(rt, alloc, host, engine, 3)?;
    let (engine, four) = put_and_checkpoint(rt, alloc, host, engine, 4)?;
    let (engine, five) = put_and_checkpoint(rt, alloc, host, engine, 5)?;
    let _order = engine.close();
    Ok([one, two, three, four, five])
}

// Each checkpoint needs the log from its begin on, which was the log's end: the segments before it are gone.
#[test]
fn a_log_of_twenty_segments_keeps_those_that_it_needs(rt: HostRuntime) -> Result<(), Fail> {
    let alloc = rt.alloc();
    let mut host = no_files(alloc)?;
    let mut first = 1;
    for seen in five_checkpoints(&rt, alloc, &mut host)? {
        let Seen {
            before,
            after,
            begin,
        } = seen;
        assert!(rt; before.count >= 4 && before.first == first, "{seen:?}");
        assert!(rt;
            after.first == begin && begin >= before.last && after.count <= 2,
            "{seen:?}"
        );
        assert_eq!(rt;
            after.count,
            after.last.saturating_sub(after.first).saturating_add(1)
        );
        first = after.first;
    }
    assert!(rt; first >= 20, "{first}");
    Ok(())
}
