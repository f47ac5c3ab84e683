//! Items taken out of a leaf.

ghost use Rattle.std.specs.Prelude.{◌≡◌, ◌≢◌, ℕ, ◌+◌, ◌/◌, ◌<◌, ◌≤◌, ◌↔◌, List, Some, OnOk, IfOk};
ghost use Rattle.std.specs.Prelude.{IsTrue, length};
ghost use Rattle.pm_types.specs.Pages.{IsNoted};
ghost use Rattle.pm_btpage.specs.IndexPages.{items_of, index_of, with_items, without_item, capacity_of};
ghost use Rattle.pm_btpage.specs.IndexPages.{IsIndexPage};
ghost use Rattle.pm_pages.specs.Paged.{AllReadable, IsLent};
ghost use Rattle.pm_pages.specs.Edits.{EditsPages, RewritesPage, HasDiskCause};
ghost use Rattle.pm_tree_del.specs.Items.{HasItemAt, TakesOut, TakesOutAt};

use pm_btpage::{capacity, count, remove_at};
use pm_pages::Pages;
use pm_types::{PageFault, Patch};

/// Takes an item out of a page that is at hand. Whether the page has less than half its items then.
///
/// It fails only where a call on the disk failed, and changes nothing then.
pub fn take_out<P: Pages>(pages: &mut P, at: u32, i: u16) -> Result<bool, PageFault>
    requires ready { P.ready pages.old }
    requires item { HasItemAt (P.seen pages.old) at i }
    requires readable { AllReadable (P.seen pages.old) }
    ensures kept { P.kept pages.old pages.new }
    ensures edits { EditsPages P.tells (P.seen pages.old) (P.seen pages.new) (λ j. j ≡ at) 0 }
    ensures readable { AllReadable (P.seen pages.new) }
    ensures takes { IfOk result (TakesOutAt (P.seen pages.old) (P.seen pages.new) at i) }
    ensures cause { HasDiskCause (P.seen pages.old) (P.seen pages.new).faults result }
{
    pages.change(at)?;
    Ok(take_lent(pages, at, i))
}

// Takes an item out of a page that was lent.
fn take_lent<P: Pages>(pages: &mut P, at: u32, i: u16) -> bool
    requires ready { P.ready pages.old }
    requires lent { IsLent (P.seen pages.old) at }
    requires item { HasItemAt (P.seen pages.old) at i }
    requires readable { AllReadable (P.seen pages.old) }
    ensures kept { P.kept pages.old pages.new }
    ensures edits { EditsPages P.tells (P.seen pages.old) (P.seen pages.new) (λ j. j ≡ at) 0 }
    ensures readable { AllReadable (P.seen pages.new) }
    ensures takes { TakesOutAt (P.seen pages.old) (P.seen pages.new) at i result }
{
    let mut patch = Patch::none(pages.page_size());
    let few = put_without(pages, at, i, &mut patch);
    pages.note(at, &patch);
    few
}

// Writes a page that was lent without an item. The patch notes it.
fn put_without<P: Pages>(pages: &mut P, at: u32, i: u16, patch: &mut Patch) -> bool
    requires ready { P.ready pages.old }
    requires lent { IsLent (P.seen pages.old) at }
    requires item { HasItemAt (P.seen pages.old) at i }
    requires size { patch.old.page_size ≡ (P.seen pages.old).page_size }
    ensures kept { P.kept pages.old pages.new }
    ensures writes { RewritesPage (P.seen pages.old) (P.seen pages.new) at patch.old patch.new
        (λ was now. TakesOut was now i result) }
{
    let page = pages.page_mut(at);
    without(page, i, patch)
}

fn without(page: &mut [u8], i: u16, patch: &mut Patch) -> bool
    requires page { IsIndexPage page.old }
    requires item { i < length (items_of page.old) }
    requires size { patch.old.page_size ≡ length page.old }
    ensures takes { TakesOut page.old page.new i result }
    ensures noted { IsNoted patch.old patch.new page.old page.new }
{
    remove_at(page, i, patch);
    has_few(page)
}

/// Whether a page has less than half the items that it has room for.
pub fn has_few(page: &[u8]) -> bool
    requires { IsIndexPage page.now }
    ensures { IsTrue result ↔ (length (items_of page.now) < capacity_of (length page.now) / 2) }
{
    count(page) < capacity(page.len() as u32) / 2
}
