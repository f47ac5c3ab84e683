//! The flusher's job, over a writer that keeps what it is given.

ghost use Rattle.std.specs.Prelude.{◌≡◌, ◌≤◌, IfOk, length, vec_len};
ghost use Rattle.pm_locks.specs.Sight.{LockTable, IsFrameOf, HasPageSize};
ghost use Rattle.pm_locks.specs.Rounds.{IsWorkers, IsFlushers};
ghost use Rattle.pm_flush.specs.Jobs.{CopiesHavePageSize};

use pm_disk::{Device, Failed, PageWriter};
use pm_flush::{CopyList, DuePage, FlushDone, flush};
use pm_locks::{FlushTake, Locks, PageSeat, Seats, Take};
use pm_region::Region;
use pm_types::{Flag, FrameNo, PageId, Tag};
use std::alloc::{AllocError, Global};

// A writer that keeps what it is given. It fails once so many pages were written.
#[derive(Drop)]
struct Sheets {
    alloc: Global,
    pages: Vec<(PageId, Vec<u8>)>,
    fails_at: usize,
    faults: u64,
}

impl Device for Sheets {
    ghost use Rattle.pm_disk.specs.Moments.{nothing_told};
    ghost use Rattle.std.specs.Prelude.{Some, [], true, false};

    ghost tells = { ⊥ };

    ghost history = { λ _. nothing_told };

    ghost state = { λ sheets. record {
      faults = sheets.faults;
      access = record { folder = Some []; is_lent = false; reads = λ _. true; writes = λ _. true; made = 0 };
    } };

    ghost sound = { λ _ told. absurd told };
}

impl Sheets {
    // Keeps a page, if it may and there is memory.
    fn keep(&mut self, page: PageId, bytes: &[u8]) -> bool
        ensures { self.new.faults ≡ self.old.faults }
    {
        if self.pages.len() == self.fails_at {
            return false;
        }
        match Vec::from_slice(self.alloc, bytes) {
            Ok(copy) => self.pages.push((page, copy)).is_ok(),
            Err(_) => false,
        }
    }
}

impl PageWriter for Sheets {
    fn write_page(&mut self, page: PageId, bytes: &[u8]) -> Result<(), Failed> {
        if self.keep(page, bytes) {
            return Ok(());
        }
        self.faults = self.faults.saturating_add(1);
        Err(Failed)
    }

    fn force_pages(&mut self, _part: u16) -> Result<(), Failed> {
        Ok(())
    }
}

// Locks for one worker and four frames of 4 bytes, the worker's seat and the flusher's.
fn begin(alloc: Global) -> Result<(Locks, PageSeat, PageSeat), AllocError>
    ensures frames { IfOk result (λ r. length r.0.ranges ≡ 4) }
    ensures sized { IfOk result (λ r. HasPageSize r.0 4) }
    ensures owner { IfOk result (λ r. IsWorkers r.0 0 r.1) }
    ensures flusher { IfOk result (λ r. IsFlushers r.0 r.2) }
{
    let (_region, leases) = Region::new(alloc, 4, 4)?;
    let Ok((locks, seat)) = Locks::start(alloc, leases, 1) else {
        return Err(AllocError);
    };
    let mut seats = Seats::with_room(alloc, 1)?;
    locks.spread(seat, &mut seats);
    let Some(owner) = seats.workers.pop() else {
        return Err(AllocError);
    };
    let Some(flusher) = seats.flusher.take() else {
        return Err(AllocError);
    };
    Ok((locks, owner, flusher))
}

// Fills a frame with this byte: it is Dirty then.
fn fill(locks: &Locks, owner: &mut PageSeat, f: FrameNo, byte: u8)
    requires owner { IsWorkers locks.now 0 owner.old }
    requires frame { IsFrameOf locks.now f }
    ensures { IsWorkers locks.now 0 owner.new }
{
    if let Take::Got(mut lease, _) = locks.own_take(owner, f, 0) {
        lease.bytes_mut().fill(byte);
        locks.own_put(owner, f, lease, Flag::Dirty);
    }
}

// Makes a Dirty frame Due.
fn make_due(locks: &Locks, flusher: &mut PageSeat, f: FrameNo)
    requires flusher { IsFlushers locks.now flusher.old }
    requires frame { IsFrameOf locks.now f }
    ensures { IsFlushers locks.now flusher.new }
{
    if let FlushTake::Got(lease) = locks.flush_take(flusher, f, 0, Flag::Dirty) {
        locks.flush_put(flusher, f, lease, Flag::Due);
    }
}

// Four frames are due, each filled with its number and 1, and then frame 1 is changed.
fn prepare(locks: &Locks, owner: &mut PageSeat, flusher: &mut PageSeat)
    requires frames { length locks.now.ranges ≡ 4 }
    requires owner { IsWorkers locks.now 0 owner.old }
    requires flusher { IsFlushers locks.now flusher.old }
    ensures owner { IsWorkers locks.now 0 owner.new }
    ensures flusher { IsFlushers locks.now flusher.new }
{
    'frames: for f in 0..4 {
        fill(locks, owner, f, f as u8 + 1);
        make_due(locks, flusher, f);
    }
    fill(locks, owner, 1, 9);
}

fn due(number: u32, tag: Tag) -> DuePage
    ensures { result ≡ record { page = record { 0 = number }; frame = number; tag = tag } }
{
    DuePage {
        page: PageId(number as u64),
        frame: number,
        tag,
    }
}

// A copy of page 1.
fn copy_first(alloc: Global) -> Result<CopyList, AllocError>
    ensures { IfOk result (λ copies. (locks : LockTable) → HasPageSize locks 4 → CopiesHavePageSize locks copies.pages) }
{
    let mut copies = CopyList::with_room(alloc, 1)?;
    copies.add(PageId(1), vec![in alloc; 2; 4]?);
    Ok(copies)
}

// Flushes pages 0 to 3 of these frames; page 1 is copied, and frame 2 has another tag.
fn flush_four(
    alloc: Global,
    locks: &Locks,
    flusher: &mut PageSeat,
    sheets: &mut Sheets,
) -> Result<(bool, FlushDone), AllocError>
    requires frames { length locks.now.ranges ≡ 4 }
    requires sized { HasPageSize locks.now 4 }
    requires flusher { IsFlushers locks.now flusher.old }
    ensures { IsFlushers locks.now flusher.new }
{
    let copies = copy_first(alloc)?;
    let mut done = FlushDone::with_room(alloc, 4)?;
    let job = [due(0, 0), due(1, 0), due(2, 1), due(3, 0)];
    let result = flush(locks, flusher, &job, &copies, sheets, &mut done);
    Ok((result.is_ok(), done))
}

// The same while frame 3 is out at its owner.
fn flush_beside(
    alloc: Global,
    locks: &Locks,
    owner: &mut PageSeat,
    flusher: &mut PageSeat,
    sheets: &mut Sheets,
) -> Result<(bool, FlushDone), AllocError>
    requires frames { length locks.now.ranges ≡ 4 }
    requires sized { HasPageSize locks.now 4 }
    requires owner { IsWorkers locks.now 0 owner.old }
    requires flusher { IsFlushers locks.now flusher.old }
    ensures owner { IsWorkers locks.now 0 owner.new }
    ensures flusher { IsFlushers locks.now flusher.new }
{
    match locks.own_take(owner, 3, 0) {
        Take::Got(lease, _) => {
            let flushed = flush_four(alloc, locks, flusher, sheets);
            locks.own_put(owner, 3, lease, Flag::Dirty);
            flushed
        }
        Take::Gone => Err(AllocError),
        Take::Busy(_) => Err(AllocError),
    }
}

// The low 16 bits of each frame's word: its holder and its flag.
fn looks(locks: &Locks, owner: &mut PageSeat) -> [u64; 4]
    requires frames { length locks.now.ranges ≡ 4 }
    requires owner { IsWorkers locks.now 0 owner.old }
{
    let mut words = [0; 4];
    'frames: for f in 0..4 {
        words[f as usize] = locks.look(owner, f).0 % 0x1_0000;
    }
    words
}

// What a flush did, where the writer fails once so many pages were written.
#[derive(Drop)]
struct Outcome {
    is_ok: bool,
    done: FlushDone,
    pages: Vec<(PageId, Vec<u8>)>,
    words: [u64; 4],
}

fn flush_prepared(alloc: Global, fails_at: usize) -> Result<Outcome, AllocError> {
    let (locks, mut owner, mut flusher) = begin(alloc)?;
    prepare(&locks, &mut owner, &mut flusher);
    let mut sheets = Sheets {
        alloc,
        pages: Vec::new(alloc),
        fails_at,
        faults: 0,
    };
    let (is_ok, done) = flush_beside(alloc, &locks, &mut owner, &mut flusher, &mut sheets)?;
    let words = looks(&locks, &mut owner);
    Ok(Outcome {
        is_ok,
        done,
        pages: sheets.pages,
        words,
    })
}

// Whether the pages have these names and are filled with these bytes.
fn are_filled(pages: &[(PageId, Vec<u8>)], wanted: &[(PageId, u8)]) -> bool {
    pages.len() == wanted.len()
        && pages.iter().zip(wanted).all(|(page, (name, byte))| page.0 == *name
            && page.1.iter().all(|b| b == byte))
}

#[test]
fn a_job_is_written_but_for_what_moved_or_is_out(rt: HostRuntime) {
    let flushed = flush_prepared(rt.alloc(), 9).expect(&rt, "a flush");
    assert!(rt; flushed.is_ok);
    assert!(rt; flushed.done.written.as_slice() == [PageId(0), PageId(1)].as_slice());
    assert!(rt; flushed.done.left.as_slice() == [PageId(2), PageId(3)].as_slice());
    assert!(rt; are_filled(&flushed.pages, &[(PageId(0), 1), (PageId(1), 2)]));
    assert_eq!(rt; flushed.words, [0xff04, 0xff02, 0xff03, 0xff02]);
}

#[test]
fn a_failed_write_ends_the_job_with_no_frame_out(rt: HostRuntime) {
    let first = flush_prepared(rt.alloc(), 0).expect(&rt, "a flush");
    assert!(rt; !first.is_ok && first.pages.is_empty());
    assert!(rt; first.done.written.is_empty() && first.done.left.is_empty());
    assert_eq!(rt; first.words, [0xff04, 0xff02, 0xff03, 0xff02]);
    let second = flush_prepared(rt.alloc(), 1).expect(&rt, "a flush");
    assert!(rt; !second.is_ok && second.done.left.is_empty());
    assert!(rt; second.done.written.as_slice() == [PageId(0)].as_slice());
    assert!(rt; are_filled(&second.pages, &[(PageId(0), 1)]));
}

#[test]
fn a_copy_is_found_until_it_is_taken_out(rt: HostRuntime) {
    let mut copies = copy_first(rt.alloc()).expect(&rt, "a copy");
    assert!(rt; copies.get(PageId(0)).is_none());
    assert!(rt; copies.get(PageId(1)) == Some(&[2, 2, 2, 2]));
    assert!(rt; copies.remove(PageId(0)).is_none());
    assert!(rt; copies.remove(PageId(1)).is_some());
    assert!(rt; copies.get(PageId(1)).is_none());
}
