//! The order in which a checkpoint's pages are written.

ghost use Rattle.std.specs.Prelude.{◌≡◌, ◌≤◌, ◌+◌, [], length};
ghost use Rattle.std.specs.List.Sorted.{IsPermutation, IsNonDecreasingBy};
ghost use Rattle.std.specs.Vec.{vec_capacity};
ghost use Rattle.pm_core.specs.PageSets.{AreOnce, no_page};
ghost use Rattle.pm_ckpt.specs.Frames.{names_of};
ghost use Rattle.pm_ckpt.specs.Writes.{IsOrderOf};

use crate::frame_page::FramePage;
use pm_core::PageSet;
use pm_types::PageId;

/// Puts these pages into a list that has room for them, by rising partition and index, so that what is
/// written to the disk is as consecutive as can be. For `Ckpt::whole_plain` alone, which the program doesn't
/// call.
pub(crate) fn arrange(order: &mut Vec<PageId>, pages: &[PageId])
    requires { length pages.now ≤ vec_capacity order.old }
    ensures order { IsOrderOf pages.now order.new.items }
    ensures capacity { vec_capacity order.new ≡ vec_capacity order.old }
{
    copy(order, pages);
    order.sort_unstable_by_key(|page| page.0);
}

// The same pages in the same order: for `arrange` alone.
fn copy(order: &mut Vec<PageId>, pages: &[PageId])
    requires { length pages.now ≤ vec_capacity order.old }
    ensures items { order.new.items ≡ pages.now }
    ensures capacity { vec_capacity order.new ≡ vec_capacity order.old }
{
    order.clear();
    'each: for page in pages {
        order.push_reserved(*page);
    }
}

/// The same with pages that stand in frames, which are put into that order too.
pub(crate) fn arrange_frames(order: &mut Vec<PageId>, pages: &mut Vec<FramePage>)
    requires { length pages.old.items ≤ vec_capacity order.old }
    ensures pages { IsPermutation pages.old.items pages.new.items }
    ensures order { order.new.items ≡ names_of pages.new.items }
    ensures rising { IsNonDecreasingBy (λ page. page.page.0) pages.new.items }
    ensures capacity { vec_capacity order.new ≡ vec_capacity order.old }
    ensures pages_capacity { vec_capacity pages.new ≡ vec_capacity pages.old }
{
    pages.sort_unstable_by_key(|page| page.page.0);
    name(order, pages);
}

// The names of these pages in the same order.
fn name(order: &mut Vec<PageId>, pages: &[FramePage])
    requires { length pages.now ≤ vec_capacity order.old }
    ensures items { order.new.items ≡ names_of pages.now }
    ensures capacity { vec_capacity order.new ≡ vec_capacity order.old }
{
    order.clear();
    'each: for page in pages {
        order.push_reserved(page.page);
    }
}

/// Adds these pages to an empty set, which has room for them.
pub(crate) fn fill(set: &mut PageSet, pages: &[PageId])
    requires empty { set.old.pages ≡ [] }
    requires once { AreOnce pages.now }
    requires room { length pages.now ≤ set.old.spare }
    ensures pages { set.new.pages ≡ pages.now }
    ensures room { length set.new.pages + set.new.spare ≡ set.old.spare }
{
    'each: for page in pages {
        set.add(*page);
    }
}
