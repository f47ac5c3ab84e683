//! Which segments a checkpoint keeps.

ghost use Rattle.std.specs.Prelude.{◌≡◌, ◌≤◌, None, false, length, IfOk, MatchOption, OnOk};
ghost use Rattle.pm_types.specs.Ids.{page_id};
ghost use Rattle.pm_types.specs.Shapes.{IsShape};
ghost use Rattle.pm_disk.specs.States.{IsUsable};
ghost use Rattle.pm_marks.specs.Slots.{IsMarkPlace};
ghost use Rattle.pm_segments.specs.Ends.{EndsThere};
ghost use Rattle.pm_ckpt.specs.Marked.{HasRoomFor};
ghost use Rattle.pm_ckpt.specs.Writes.{held_in, IsHeld};

use crate::checkpoint_tests::one_page::{
    Written, all_written, begin_log, log_page, make_checkpoint, partition, shape,
};
use pm_ckpt::Ckpt;
use pm_disk::{Failed, Host, LogFile, LogReader};
use pm_disk_mem::{MemDisk, MemHost};
use pm_frame::LOGICAL;
use pm_pages::PlainPages;
use pm_segments::Log;
use pm_types::Place;
use std::alloc::{AllocError, Global};
use std::process::Abort;
use std::test::Fail;

/// A host in memory without a file, whose folder isn't bound yet.
pub fn no_files(alloc: Global) -> Result<MemHost, AllocError>
    ensures { IfOk result (λ host. host.is_lent ≡ false) }
{
    MemHost::new(alloc, b"", b"", MemDisk::empty(alloc), &[], None)
}

/// Appends a long record, which goes to a segment of its own.
fn log_long<L: LogFile>(host: &mut L, log: &mut Log, long: &[u8]) -> Result<(), Failed>
    requires usable { IsUsable (L.state host.old) }
    requires long { length long.now ≤ 65000 }
    requires end { L.tells → EndsThere log.old (L.history host.old).world }
    ensures usable { IsUsable (L.state host.new) }
    ensures end { L.tells → OnOk result (EndsThere log.new (L.history host.new).world) }
{
    log.append(host, LOGICAL, long)?;
    Ok(())
}

/// Begins the log with a long record in each of three segments, and the page in a fourth one.
pub fn fill_log<L: LogFile>(host: &mut L, written: &Written) -> Result<Log, Failed>
    requires { IsUsable (L.state host.old) }
    ensures usable { IsUsable (L.state host.new) }
    ensures end { L.tells → IfOk result (λ log. EndsThere log (L.history host.new).world) }
{
    let mut log = begin_log(host, &written.long)?;
    log_long(host, &mut log, &written.long)?;
    log_long(host, &mut log, &written.long)?;
    log_page(host, &mut log, &written.payload)?;
    Ok(log)
}

/// Fills the log, and makes a checkpoint with this replay place.
fn run<H: Host>(
    host: &mut H,
    written: &Written,
    ckpt: &mut Ckpt,
    pages: &[PlainPages],
    replay: Option<Place>,
) -> Result<(), Failed>
    requires whole { (H.Device.state host.old).access.is_lent ≡ false }
    requires shape { IsShape ckpt.old.shape }
    requires first { ckpt.old.mark ≡ None }
    requires room { HasRoomFor 1 ckpt.old }
    requires replay { MatchOption replay (Unit {0}) (λ place. IsMarkPlace place) }
    requires held { IsHeld ckpt.old.shape.page_size (held_in pages.now) (page_id 0 0) }
    ensures { OnOk result (IsUsable (H.Device.state host.new)) }
{
    host.bind("store")?;
    let mut log = fill_log(host, written)?;
    make_checkpoint(host, &mut log, ckpt, pages, replay)
}

/// Which of the first five segments are there.
pub fn segments_there<L: LogReader>(dev: &mut L) -> Result<[bool; 5], Failed>
    requires { IsUsable (L.state dev.old) }
{
    let one = dev.seg_len(1)?.is_some();
    let two = dev.seg_len(2)?.is_some();
    let three = dev.seg_len(3)?.is_some();
    let four = dev.seg_len(4)?.is_some();
    let five = dev.seg_len(5)?.is_some();
    Ok([one, two, three, four, five])
}

/// The segments that are there after a checkpoint with this replay place.
fn segments_after(rt: &impl AllocGlobal, replay: Option<Place>) -> Result<[bool; 5], Fail>
    requires { MatchOption replay (Unit {0}) (λ place. IsMarkPlace place) }
{
    let mut host = no_files(rt.alloc())?;
    let written = all_written(rt)?;
    let mut ckpt = Ckpt::new(rt.alloc(), shape(), None, 1)?;
    let pages = partition(rt)?;
    run(&mut host, &written, &mut ckpt, &pages, replay)?;
    Ok(segments_there(&mut host)?)
}

// The page and the begin of the checkpoint are in segment 4.
#[test]
fn a_checkpoint_keeps_the_segments_from_its_begin_on(rt: HostRuntime) -> Result<(), Fail> {
    let there = segments_after(&rt, None)?;
    assert_eq!(rt; there, [false, false, false, true, false]);
    Ok(())
}

#[test]
fn a_checkpoint_keeps_the_segments_from_its_replay_place_on(rt: HostRuntime) -> Result<(), Fail> {
    let there = segments_after(&rt, Some(Place { seg: 2, off: 0 }))?;
    assert_eq!(rt; there, [false, true, true, true, false]);
    Ok(())
}
