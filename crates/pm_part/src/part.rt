//! One partition of a store.

ghost use Rattle.std.specs.Prelude.{◌≡◌, ℕ, ◌^◌, ◌-◌, ◌<◌, ◌≤◌, [], ◌∷◌, ◌++◌, OnOk, IsTrue};
ghost use Rattle.pm_types.specs.declared.limits.TheConstants.{CACHES, OP_PAGES, ROWS_MAX};
ghost use Rattle.pm_types.specs.declared.limits.TheConstants.{PARTITIONS_MAX};
ghost use Rattle.pm_types.specs.Keys.{HasKeyLength, HasValueLength};
ghost use Rattle.pm_types.specs.Shapes.{IsShape};
ghost use Rattle.pm_model.specs.ReplyLists.{with_replies};
ghost use Rattle.pm_model.specs.declared.reply.Reply.{Reply};
ghost use Rattle.pm_pages.specs.Paged.{AllReadable, NoneLent};
ghost use Rattle.pm_pages.specs.Edits.{LooksAtPages, EditsPages};
ghost use Rattle.pm_pages.specs.Rows.{rows_of};
ghost use Rattle.pm_pages.specs.RowMaps.{map_of};
ghost use Rattle.pm_pages.specs.SoundPages.{NoBadPage};
ghost use Rattle.pm_model.specs.Eval.{pairs_of};
ghost use Rattle.pm_part.specs.Reads.{ReadsPages};
ghost use Rattle.pm_part.specs.Commands.{IsPartCmd, IsRefused, RepliesOnce};
ghost use Rattle.pm_part.specs.Faults.{HasPartCause, IsFaultOf, IsFaultOfPut, IsFaultOfGet, IsFaultOfRemove};
ghost use Rattle.pm_part.specs.PairFaults.{HasPairsCause, NamesNoBadPage};
ghost use Rattle.pm_part.specs.Runs.{IsPartitionOf, RunsCmd, KeepsPages};
ghost use Rattle.pm_part.specs.Puts.{IsPartFor};
ghost use Rattle.pm_types.specs.declared.shape.Shape.{Shape};
ghost use Rattle.pm_model.specs.declared.line.Cmd.TheVariants.{Put, Get, Remove};

use crate::entries::find_entry;
use crate::pairs::append_pairs;
use crate::putting::put;
use crate::removing::remove;
use crate::spots::reply_value;
use pm_model::{Cmd, PairList, Replies, Reply};
use pm_pages::Pages;
use pm_types::{PageFault, Shape, StoreFault};
use std::alloc::Global;

/// A partition of a store of some shape: how its rows are put, found and removed, whatever its
/// pages stand on.
#[derive(Clone, Copy, Debug, PartialEq, Eq, Drop)]
pub struct Part {
    shape: Shape,
    part: u16,
    ghost some_rows: { 1 ≤ shape.max_rows },
    ghost few_rows: { shape.max_rows ≤ ROWS_MAX },
    ghost few_partitions: { shape.partitions ≤ PARTITIONS_MAX },
    ghost is_part: { part < shape.partitions },
}

impl Part {
    /// The partition with this number.
    pub fn new(shape: Shape, part: u16) -> Part
        requires shape { IsShape shape }
        requires part { part < shape.partitions }
        ensures shape { result.shape ≡ shape }
        ensures part { result.part ≡ part }
    {
        Part { shape, part }
    }

    /// The partition's number.
    pub fn number(&self) -> u16
        ensures { result ≡ self.now.part }
    {
        self.part
    }

    /// Does a put, get or remove of this partition, and appends its reply. At most 32 pages are
    /// asked for, and no memory is taken.
    ///
    /// Where the store reports its pages and they are those of a well-formed partition, the reply
    /// and the rows are those of the evaluation: `Full` comes exactly where the key is new and the
    /// partition has as many rows as it may have, over all caches. The partition stays well formed.
    ///
    /// Whatever the pages are: a get changes no page, nor does a command whose reply says that it wasn't
    /// accepted, a put into a full partition or a removal of a key that isn't there.
    ///
    /// `Failed` comes only where a call on the disk failed. `BadPage` names a page that is bad, or
    /// one that names a wrong page or row, as the command's own key meets it; it never comes of a
    /// well-formed partition. After an error no reply was appended, and some pages may be half changed.
    pub fn run<P: Pages>(
        &self,
        cmd: &Cmd,
        pages: &mut P,
        replies: &mut Replies,
    ) -> Result<(), PageFault>
        requires ready { P.ready pages.old }
        requires room { OP_PAGES ≤ (P.seen pages.old).spare }
        requires cmd { IsPartCmd self.now.shape self.now.part cmd.now }
        requires readable { AllReadable (P.seen pages.old) }
        requires spare { 0 < replies.old.spare }
        ensures kept { P.kept pages.old pages.new }
        ensures readable { AllReadable (P.seen pages.new) }
        ensures changes { OnOk result (EditsPages P.tells (P.seen pages.old) (P.seen pages.new)
            (λ j. IsTrue ((P.seen pages.new).asked j)) OP_PAGES) }
        ensures keeps { KeepsPages P.tells cmd.now (P.seen pages.old) (P.seen pages.new) replies.old
            replies.new result }
        ensures replied { RepliesOnce replies.old replies.new result }
        ensures cause { HasPartCause P.tells (P.seen pages.old) (P.seen pages.new)
            (IsFaultOf P.tells (P.seen pages.new) cmd.now) result }
        ensures runs { P.tells → IsPartitionOf self.now.shape (P.seen pages.old)
            → (P.seen pages.old).part ≡ self.now.part
            → OnOk result (IsPartitionOf self.now.shape (P.seen pages.new)
            × RunsCmd self.now.shape self.now.part cmd.now (P.seen pages.old).pages
            (P.seen pages.new).pages replies.old replies.new) }
        ensures sound { P.tells → IsPartitionOf self.now.shape (P.seen pages.old) → NoBadPage result }
    {
        match cmd {
            Cmd::Put { cache, key, value } => {
                let max_rows = self.shape.max_rows;
                run_put(pages, max_rows, *cache, key.bytes(), value.bytes(), replies)
            }
            Cmd::Get { cache, key } => run_get(pages, *cache, key.bytes(), replies),
            Cmd::Remove { cache, key } => run_remove(pages, *cache, key.bytes(), replies),
            // Not reached: neither of the two is a command of a partition (`IsPartCmd`).
            Cmd::Scan { .. } => Ok(()),
            Cmd::Checkpoint => Ok(()),
        }
    }

    /// Appends the pairs of a cache in this partition, by rising key. Pages are asked for one after the other, and given up
    /// before more than `OP_PAGES` are in hand.
    ///
    /// `Failed` comes only where a call on the disk failed, and `Memory` where memory ran out.
    /// `BadPage` names a page that is bad, or one that names a wrong page or row; in a well-formed
    /// partition there is none. After an error some of the pairs may have been appended.
    pub fn pairs<P: Pages>(
        &self,
        alloc: Global,
        cache: u8,
        pages: &mut P,
        into: &mut PairList,
    ) -> Result<(), StoreFault>
        requires ready { P.ready pages.old }
        requires none_lent { NoneLent (P.seen pages.old) }
        requires cache { cache < CACHES }
        requires readable { AllReadable (P.seen pages.old) }
        ensures kept { P.kept pages.old pages.new }
        ensures reads { ReadsPages P.tells (P.seen pages.old) (P.seen pages.new) }
        ensures readable { AllReadable (P.seen pages.new) }
        ensures pairs { P.tells → (shape : Shape) → IsPartitionOf shape (P.seen pages.old)
            → OnOk result (into.new ≡ into.old ++ pairs_of cache
            (map_of (rows_of (P.seen pages.old).part (P.seen pages.old).pages))) }
        ensures sound { P.tells → (shape : Shape) → IsPartitionOf shape (P.seen pages.old)
            → NamesNoBadPage result }
        ensures cause { HasPairsCause P.tells (P.seen pages.old) (P.seen pages.new) cache result }
    {
        append_pairs(alloc, cache, pages, &mut into.pairs)
    }
}

fn run_put<P: Pages>(
    pages: &mut P,
    max_rows: u32,
    cache: u8,
    key: &[u8],
    value: &[u8],
    replies: &mut Replies,
) -> Result<(), PageFault>
    requires ready { P.ready pages.old }
    requires room { 32 ≤ (P.seen pages.old).spare }
    requires cache { cache < CACHES }
    requires key { HasKeyLength key.now }
    requires value { HasValueLength value.now }
    requires most { max_rows < 2 ^ 32 - 1 }
    requires readable { AllReadable (P.seen pages.old) }
    requires spare { 0 < replies.old.spare }
    ensures kept { P.kept pages.old pages.new }
    ensures readable { AllReadable (P.seen pages.new) }
    ensures changes { OnOk result (EditsPages P.tells (P.seen pages.old) (P.seen pages.new)
        (λ j. IsTrue ((P.seen pages.new).asked j)) 32) }
    ensures refused { OnOk result (IsRefused (Put cache key.now value.now) replies.old replies.new
        → LooksAtPages P.tells (P.seen pages.old) (P.seen pages.new) 32) }
    ensures replied { RepliesOnce replies.old replies.new result }
    ensures cause { HasPartCause P.tells (P.seen pages.old) (P.seen pages.new)
        (IsFaultOfPut P.tells (P.seen pages.new) cache key.now) result }
    ensures puts { P.tells → (shape : Shape) → IsPartFor shape (P.seen pages.old) max_rows key.now
        → OnOk result (IsPartitionOf shape (P.seen pages.new)
        × RunsCmd shape (P.seen pages.old).part (Put cache key.now value.now)
        (P.seen pages.old).pages (P.seen pages.new).pages replies.old replies.new) }
    ensures sound { P.tells → (shape : Shape) → IsPartitionOf shape (P.seen pages.old) → NoBadPage result }
{
    if put(pages, max_rows, cache, key, value)? {
        replies.push(Reply::Done);
    } else {
        replies.push(Reply::Full);
    }
    Ok(())
}

fn run_get<P: Pages>(
    pages: &mut P,
    cache: u8,
    key: &[u8],
    replies: &mut Replies,
) -> Result<(), PageFault>
    requires ready { P.ready pages.old }
    requires room { 32 ≤ (P.seen pages.old).spare }
    requires cache { cache < CACHES }
    requires readable { AllReadable (P.seen pages.old) }
    requires spare { 0 < replies.old.spare }
    ensures kept { P.kept pages.old pages.new }
    ensures readable { AllReadable (P.seen pages.new) }
    ensures changes { OnOk result (EditsPages P.tells (P.seen pages.old) (P.seen pages.new)
        (λ j. IsTrue ((P.seen pages.new).asked j)) 32) }
    ensures replied { RepliesOnce replies.old replies.new result }
    ensures cause { HasPartCause P.tells (P.seen pages.old) (P.seen pages.new)
        (IsFaultOfGet P.tells (P.seen pages.new) cache key.now) result }
    ensures looks { LooksAtPages P.tells (P.seen pages.old) (P.seen pages.new) 10 }
    ensures gets { P.tells → (shape : Shape) → IsPartitionOf shape (P.seen pages.old)
        → OnOk result (IsPartitionOf shape (P.seen pages.new)
        × RunsCmd shape (P.seen pages.old).part (Get cache key.now) (P.seen pages.old).pages
        (P.seen pages.new).pages replies.old replies.new) }
    ensures sound { P.tells → (shape : Shape) → IsPartitionOf shape (P.seen pages.old) → NoBadPage result }
{
    match find_entry(pages, cache, key)? {
        None => {
            replies.push(Reply::Absent);
            Ok(())
        }
        Some(entry) => reply_value(pages, entry, cache, key, replies),
    }
}

fn run_remove<P: Pages>(
    pages: &mut P,
    cache: u8,
    key: &[u8],
    replies: &mut Replies,
) -> Result<(), PageFault>
    requires ready { P.ready pages.old }
    requires room { 32 ≤ (P.seen pages.old).spare }
    requires cache { cache < CACHES }
    requires readable { AllReadable (P.seen pages.old) }
    requires spare { 0 < replies.old.spare }
    ensures kept { P.kept pages.old pages.new }
    ensures readable { AllReadable (P.seen pages.new) }
    ensures changes { OnOk result (EditsPages P.tells (P.seen pages.old) (P.seen pages.new)
        (λ j. IsTrue ((P.seen pages.new).asked j)) 32) }
    ensures refused { OnOk result (IsRefused (Remove cache key.now) replies.old replies.new
        → LooksAtPages P.tells (P.seen pages.old) (P.seen pages.new) 32) }
    ensures replied { RepliesOnce replies.old replies.new result }
    ensures cause { HasPartCause P.tells (P.seen pages.old) (P.seen pages.new)
        (IsFaultOfRemove P.tells (P.seen pages.new) cache key.now) result }
    ensures removes { P.tells → (shape : Shape) → IsPartitionOf shape (P.seen pages.old)
        → OnOk result (IsPartitionOf shape (P.seen pages.new)
        × RunsCmd shape (P.seen pages.old).part (Remove cache key.now) (P.seen pages.old).pages
        (P.seen pages.new).pages replies.old replies.new) }
    ensures sound { P.tells → (shape : Shape) → IsPartitionOf shape (P.seen pages.old) → NoBadPage result }
{
    let was_there = remove(pages, cache, key)?;
    replies.push(Reply::Was(was_there));
    Ok(())
}
