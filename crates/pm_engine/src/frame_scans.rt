//! A scan over a worker's page frames: all pairs of a cache, read between two rounds.

ghost use Rattle.std.specs.Prelude.{◌≡◌, ℕ, ◌<◌, ◌∷◌, ◌++◌, [], Bool, IfOk, IsErrOf, OnErr, OnOk, map};
ghost use Rattle.std.specs.List.{range_with_len};
ghost use Rattle.pm_types.specs.declared.fault.PageFault.TheVariants.{Failed as PageFailed, BadPage as PageBad};
ghost use Rattle.pm_types.specs.declared.fault.StoreFault.TheVariants.{Failed as StoreFailed, BadPage as StoreBad};
ghost use Rattle.pm_types.specs.declared.fault.StoreFault.TheVariants.{BadRecord as StoreBadRecord};
ghost use Rattle.pm_types.specs.declared.limits.TheConstants.{CACHES};
ghost use Rattle.pm_types.specs.declared.page_id.PageId.{PageId};
ghost use Rattle.pm_types.specs.declared.place.Place.{Place};
ghost use Rattle.pm_types.specs.Counts.{HasRisen};
ghost use Rattle.pm_model.specs.declared.line.Cmd.TheVariants.{Scan};
ghost use Rattle.pm_model.specs.declared.line.Line.TheVariants.{Good};
ghost use Rattle.pm_model.specs.Eval.{pairs_of, reply_to};
ghost use Rattle.pm_model.specs.ReplyLists.{with_replies};
ghost use Rattle.pm_part.specs.Commands.{AppendsReply};
ghost use Rattle.pm_part.specs.PairFaults.{NamesNoBadPage};
ghost use Rattle.pm_core.specs.Held.{AllWellFormed, pairs_in};
ghost use Rattle.pm_stripe.specs.declared.halt.Halt.{Halt as ThisHalt};
ghost use Rattle.pm_stripe.specs.Begins.{MayBegin};
ghost use Rattle.pm_engine.specs.declared.frame_scans.ScanStop.TheVariants.{Halted, Faulted};
ghost use Rattle.pm_engine.specs.FrameCommands.{frame_pages, part_seen, AreReadable, IsPartOf, HasWellFormed};
ghost use Rattle.pm_engine.specs.FrameCommands.{IsBetweenLines};
ghost use Rattle.pm_engine.specs.FrameScans.{ReadsNoBadPage, LooksUp, OwnsAll, HasScanCause, IsLackingFor};
ghost use Rattle.pm_engine.specs.MetPages.{IsMetBy, MeetsInScan};
ghost use Rattle.pm_engine.specs.PagedStores.{part_map};

use crate::merging::join_by_key;
use pm_disk::PageReader;
use pm_model::{PairList, Replies, Reply};
use pm_pages::Pages;
use pm_part::Part;
use pm_stripe::{Bound, Halt};
use pm_types::{Key, PageFault, Shape, StoreFault, Value};
use std::alloc::Global;
use std::sync::Wait;

/// Why a scan wasn't answered. No page changed, and nothing was handed over.
#[derive(Clone, Copy, Debug, PartialEq, Eq)]
pub enum ScanStop {
    /// What an operation may need is lacking: the scan may be tried again once it is there.
    Halted(Halt),
    /// Memory ran out: the scan may be tried again.
    Memory,
    /// A page can't be used: open the store again.
    Faulted(PageFault),
}

/// Answers a scan of a cache over a worker's page frames: appends the reply with all pairs of the cache, by rising
/// key. The worker has all partitions of the store, which has this shape.
///
/// The partitions are read one after the other, and pages are made ready for each: see `pairs_in_frames`. Whatever
/// is answered, no page changed, none is in hand, and nothing was handed over. After an error no reply was appended.
pub(crate) fn scan_in_frames<'a, Q: Wait, R: PageReader>(
    bound: &mut Bound<'a, Q, R>,
    alloc: Global,
    shape: Shape,
    cache: u8,
    replies: &mut Replies,
) -> Result<(), ScanStop>
    requires between { IsBetweenLines R.tells R.history R.state bound.old }
    requires shape { shape ≡ bound.old.stripe.shape }
    requires own { OwnsAll bound.old }
    requires cache { cache < CACHES }
    requires spare { 0 < replies.old.spare }
    ensures looks { LooksUp R.tells R.history R.state bound.old bound.new }
    ensures replied { OnOk result (AppendsReply replies.old replies.new) }
    ensures no_reply { OnErr result (replies.new ≡ replies.old) }
    ensures cause { HasScanCause R.state bound.old bound.new result }

    // Where the reader tells, and each partition is well formed, the scan is evaluated as the model says.
    ensures evaluates { R.tells → AllWellFormed shape (frame_pages R.history bound.old)
        → OnOk result (replies.new ≡ with_replies (reply_to shape (Good (Scan cache))
        (pairs_in shape.partitions (frame_pages R.history bound.old)) ∷ []) replies.old) }
    ensures sound { R.tells → AllWellFormed shape (frame_pages R.history bound.old) → ReadsNoBadPage result }

    // Of any store, a page that couldn't be used is one that the scan met.
    ensures meets { R.tells → (may_change : ℕ → Bool)
        → MeetsInScan R.tells may_change shape (frame_pages R.history bound.old) result }
{
    match pairs_by_partition(bound, alloc, shape, cache) {
        Err(stop) => Err(stop),
        Ok(lists) => match join_by_key(alloc, lists) {
            Err(_) => Err(ScanStop::Memory),
            Ok(pairs) => {
                replies.push(Reply::Pairs(PairList { pairs }));
                Ok(())
            }
        },
    }
}

// The pairs of a cache in each partition.
fn pairs_by_partition<'a, Q: Wait, R: PageReader>(
    bound: &mut Bound<'a, Q, R>,
    alloc: Global,
    shape: Shape,
    cache: u8,
) -> Result<Vec<Vec<(Key, Value)>>, ScanStop>
    requires between { IsBetweenLines R.tells R.history R.state bound.old }
    requires shape { shape ≡ bound.old.stripe.shape }
    requires own { OwnsAll bound.old }
    requires cache { cache < CACHES }
    ensures looks { LooksUp R.tells R.history R.state bound.old bound.new }
    ensures cause { HasScanCause R.state bound.old bound.new result }
    ensures pairs { R.tells → AllWellFormed shape (frame_pages R.history bound.old)
        → IfOk result (λ found. map (λ pairs. pairs.items) found.items
        ≡ map (λ part. pairs_of cache (part_map (frame_pages R.history bound.old) part))
        (range_with_len 0 shape.partitions)) }
    ensures sound { R.tells → AllWellFormed shape (frame_pages R.history bound.old) → ReadsNoBadPage result }
    ensures meets { R.tells → (may_change : ℕ → Bool)
        → MeetsInScan R.tells may_change shape (frame_pages R.history bound.old) result }
{
    let Ok(mut found) = Vec::with_capacity(alloc, shape.partitions as usize) else {
        return Err(ScanStop::Memory);
    };
    'each: for part in 0..shape.partitions {
        match pairs_of_partition(bound, alloc, shape, part, cache) {
            Ok(pairs) => found.push_reserved(pairs),
            Err(stop) => return Err(stop),
        }
    }
    Ok(found)
}

// The pairs of a cache in a partition.
fn pairs_of_partition<'a, Q: Wait, R: PageReader>(
    bound: &mut Bound<'a, Q, R>,
    alloc: Global,
    shape: Shape,
    part: u16,
    cache: u8,
) -> Result<Vec<(Key, Value)>, ScanStop>
    requires between { IsBetweenLines R.tells R.history R.state bound.old }
    requires shape { shape ≡ bound.old.stripe.shape }
    requires part { part < shape.partitions }
    requires own { OwnsAll bound.old }
    requires cache { cache < CACHES }
    ensures looks { LooksUp R.tells R.history R.state bound.old bound.new }
    ensures cause { HasScanCause R.state bound.old bound.new result }
    ensures pairs { R.tells → HasWellFormed shape (frame_pages R.history bound.old) part
        → IfOk result (λ pairs. pairs.items ≡ pairs_of cache (part_map (frame_pages R.history bound.old) part)) }
    ensures sound { R.tells → HasWellFormed shape (frame_pages R.history bound.old) part
        → ReadsNoBadPage result }
    ensures meets { R.tells → (may_change : ℕ → Bool)
        → MeetsInScan R.tells may_change shape (frame_pages R.history bound.old) result }
{
    let mut list = PairList {
        pairs: Vec::new(alloc),
    };
    match pairs_in_frames(bound, alloc, &Part::new(shape, part), cache, &mut list) {
        Ok(()) => Ok(list.pairs),
        Err(stop) => Err(stop),
    }
}

/// Appends the pairs of a cache in a partition of the worker's, by rising key.
///
/// Pages are made ready for it, asked for one after the other, and each is given up before the next. Whatever is
/// answered, no page changed, none is in hand, and nothing was handed over. No more than one page is read at a
/// time, but as many empty frames have to be there as for any operation, and as much outbox: else it is `Halted`
/// before a page is read.
///
/// `Failed` comes only where a call on the disk failed, and `BadPage` only of a partition that isn't well formed.
/// After an error some of the pairs may have been appended.
pub fn pairs_in_frames<'a, Q: Wait, R: PageReader>(
    bound: &mut Bound<'a, Q, R>,
    alloc: Global,
    part: &Part,
    cache: u8,
    into: &mut PairList,
) -> Result<(), ScanStop>
    requires between { IsBetweenLines R.tells R.history R.state bound.old }
    requires part { IsPartOf bound.old part.now }
    requires cache { cache < CACHES }
    ensures looks { LooksUp R.tells R.history R.state bound.old bound.new }
    ensures lacking { IsLackingFor bound.old bound.new result }
    ensures cause { HasScanCause R.state bound.old bound.new result }

    // Where the reader tells, and the partition is well formed, the pairs are those of its map.
    ensures pairs { R.tells → HasWellFormed part.now.shape (frame_pages R.history bound.old) part.now.part
        → OnOk result (into.new ≡ into.old ++ pairs_of cache
        (part_map (frame_pages R.history bound.old) part.now.part)) }
    ensures sound { R.tells → HasWellFormed part.now.shape (frame_pages R.history bound.old) part.now.part
        → ReadsNoBadPage result }

    // Of any store, a page that couldn't be used is one that the scan met.
    ensures meets { R.tells → (may_change : ℕ → Bool)
        → MeetsInScan R.tells may_change part.now.shape (frame_pages R.history bound.old) result }
{
    match bound.ready() {
        Err(halt) => Err(ScanStop::Halted(halt)),
        Ok(()) => match read_ready(bound, alloc, part, cache, into) {
            Ok(()) => Ok(()),
            Err(fault) => Err(stop_of(fault)),
        },
    }
}

// Reads the pairs, once `Bound::ready` answered Ok, and gives the pages up that are in hand then.
fn read_ready<'a, Q: Wait, R: PageReader>(
    bound: &mut Bound<'a, Q, R>,
    alloc: Global,
    part: &Part,
    cache: u8,
    into: &mut PairList,
) -> Result<(), StoreFault>
    requires begins { MayBegin R.tells R.history R.state bound.old }
    requires readable { AreReadable R.history bound.old }
    requires part { IsPartOf bound.old part.now }
    requires cache { cache < CACHES }
    ensures looks { LooksUp R.tells R.history R.state bound.old bound.new }
    ensures failed { IsErrOf result StoreFailed
        → HasRisen (R.state bound.old.reader).faults (R.state bound.new.reader).faults }
    ensures no_record { (place : Place) → IsErrOf result (StoreBadRecord place) → ⊥ }
    ensures pairs { R.tells → HasWellFormed part.now.shape (frame_pages R.history bound.old) part.now.part
        → OnOk result (into.new ≡ into.old ++ pairs_of cache
        (part_map (frame_pages R.history bound.old) part.now.part)) }
    ensures sound { R.tells → HasWellFormed part.now.shape (frame_pages R.history bound.old) part.now.part
        → NamesNoBadPage result }
    ensures met { (id : PageId) → IsErrOf result (StoreBad id) → IsMetBy R.tells (Scan cache)
        (part_seen R.history R.state bound.old part.now.part) (part_seen R.history R.state bound.old part.now.part) id }
{
    bound.at(part.number());
    let read = part.pairs(alloc, cache, bound, into);
    bound.let_go();
    read
}

// Why a scan isn't answered whose pairs can't be read. No record of the log is read.
fn stop_of(fault: StoreFault) -> ScanStop
    requires no_record { (place : Place) → fault ≡ StoreBadRecord place → ⊥ }
    ensures failed { result ≡ Faulted PageFailed → fault ≡ StoreFailed }
    ensures bad { (id : PageId) → result ≡ Faulted (PageBad id) → fault ≡ StoreBad id }
    ensures not_halted { (halt : ThisHalt) → result ≡ Halted halt → ⊥ }
{
    match fault {
        StoreFault::Memory(_) => ScanStop::Memory,
        StoreFault::Failed => ScanStop::Faulted(PageFault::Failed),
        StoreFault::BadPage(page) => ScanStop::Faulted(PageFault::BadPage(page)),
        StoreFault::BadRecord(_) => unreachable!(),
    }
}
