//! Changes of one data page, over any pages.

ghost use Rattle.std.specs.Prelude.{◌≡◌, ◌≢◌, ℕ, ◌+◌, ◌<◌, ◌≤◌, List, Some, OnOk, IfOk, IsTrue, length};
ghost use Rattle.pm_types.specs.Pages.{IsNoted};
ghost use Rattle.pm_types.specs.PageSizes.{IsPageSize};
ghost use Rattle.pm_types.specs.Ids.{page_id};
ghost use Rattle.pm_data.specs.DataPages.{data_of, empty_page, IsDataPage};
ghost use Rattle.pm_pages.specs.Paged.{AllReadable, IsLent, CoversByte, WritesPage};
ghost use Rattle.pm_pages.specs.Edits.{EditsPages, RewritesPage, HasDiskCause};
ghost use Rattle.pm_free.specs.DataEdits.{CanEdit, item_in, TakesEdit, EditsData, EditsDataAt, IsEmptyIn};

use pm_data::{fresh, insert, links, remove, set_links};
use pm_pages::Pages;
use pm_types::{PageFault, PageId, Patch};

/// A change of a data page.
#[derive(Clone, Copy, Debug, PartialEq, Eq, Drop)]
pub enum Edit {
    /// The index of the page before it in its chain.
    Before(u32),
    /// The index of the page after it in its chain.
    After(u32),
    /// The indexes of both.
    Links(u32, u32),
    /// The row that is given is put in.
    Insert,
    /// The row of an item is taken out.
    Remove(u8),
}

/// Changes a page, and gives the item of a row that was put in; 0 after any other change.
pub fn edit_on(page: &mut [u8], edit: Edit, row: &[u8], patch: &mut Patch) -> u8
    requires page { IsDataPage page.old }
    requires fits { CanEdit page.old row.now edit }
    requires size { patch.old.page_size ≡ length page.old }
    ensures edits { EditsData page.old row.now edit page.new }
    ensures item { result ≡ item_in (data_of page.old) edit }
    ensures noted { IsNoted patch.old patch.new page.old page.new }
{
    match edit {
        Edit::Before(prev) => {
            let (_, next) = links(page);
            set_links(page, prev, next, patch);
            0
        }
        Edit::After(next) => {
            let (prev, _) = links(page);
            set_links(page, prev, next, patch);
            0
        }
        Edit::Links(prev, next) => {
            set_links(page, prev, next, patch);
            0
        }
        Edit::Insert => insert(page, row, patch),
        Edit::Remove(item) => {
            remove(page, item, patch);
            0
        }
    }
}

/// Changes a page that is at hand, and gives the item of a row that was put in. It fails only where a call
/// on the disk failed, and changes nothing then.
pub fn make_edit<P: Pages>(pages: &mut P, at: u32, edit: Edit, row: &[u8]) -> Result<u8, PageFault>
    requires ready { P.ready pages.old }
    requires takes { TakesEdit (P.seen pages.old) at row.now edit }
    requires readable { AllReadable (P.seen pages.old) }
    ensures kept { P.kept pages.old pages.new }
    ensures edits { EditsPages P.tells (P.seen pages.old) (P.seen pages.new) (λ j. j ≡ at) 0 }
    ensures readable { AllReadable (P.seen pages.new) }
    ensures edited { IfOk result (EditsDataAt (P.seen pages.old) (P.seen pages.new) at row.now edit) }
    ensures cause { HasDiskCause (P.seen pages.old) (P.seen pages.new).faults result }
{
    pages.change(at)?;
    Ok(edit_lent(pages, at, edit, row))
}

// Changes a page that was lent.
fn edit_lent<P: Pages>(pages: &mut P, at: u32, edit: Edit, row: &[u8]) -> u8
    requires ready { P.ready pages.old }
    requires lent { IsLent (P.seen pages.old) at }
    requires takes { TakesEdit (P.seen pages.old) at row.now edit }
    requires readable { AllReadable (P.seen pages.old) }
    ensures kept { P.kept pages.old pages.new }
    ensures edits { EditsPages P.tells (P.seen pages.old) (P.seen pages.new) (λ j. j ≡ at) 0 }
    ensures readable { AllReadable (P.seen pages.new) }
    ensures edited { EditsDataAt (P.seen pages.old) (P.seen pages.new) at row.now edit result }
{
    let mut patch = Patch::none(pages.page_size());
    let item = put_edit(pages, at, edit, row, &mut patch);
    pages.note(at, &patch);
    item
}

// Writes a change of a page that was lent. The patch notes it.
fn put_edit<P: Pages>(pages: &mut P, at: u32, edit: Edit, row: &[u8], patch: &mut Patch) -> u8
    requires ready { P.ready pages.old }
    requires lent { IsLent (P.seen pages.old) at }
    requires takes { TakesEdit (P.seen pages.old) at row.now edit }
    requires size { patch.old.page_size ≡ (P.seen pages.old).page_size }
    ensures kept { P.kept pages.old pages.new }
    ensures writes { RewritesPage (P.seen pages.old) (P.seen pages.new) at patch.old patch.new
        (λ was now. EditsData was row.now edit now × (result ≡ item_in (data_of was) edit)) }
{
    let page = pages.page_mut(at);
    edit_on(page, edit, row, patch)
}

/// Writes a page that was made: a data page without rows and neighbours.
pub fn write_empty<P: Pages>(pages: &mut P, index: u32)
    requires ready { P.ready pages.old }
    requires some { 1 ≤ index }
    requires lent { IsLent (P.seen pages.old) index }
    requires covered { (k : ℕ) → k < (P.seen pages.old).page_size
        → CoversByte ((P.seen pages.old).patch index) k }
    requires readable { AllReadable (P.seen pages.old) }
    ensures kept { P.kept pages.old pages.new }
    ensures edits { EditsPages P.tells (P.seen pages.old) (P.seen pages.new) (λ j. j ≡ index) 0 }
    ensures readable { AllReadable (P.seen pages.new) }
    ensures empty { IsEmptyIn (P.seen pages.new) index (page_id (P.seen pages.old).part index) }
{
    let id = PageId::new(pages.part(), index);
    put_empty(pages, index, id);
}

// Writes a page that was lent.
fn put_empty<P: Pages>(pages: &mut P, index: u32, id: PageId)
    requires ready { P.ready pages.old }
    requires lent { IsLent (P.seen pages.old) index }
    ensures kept { P.kept pages.old pages.new }
    ensures writes { (now : List ℕ) × WritesPage (P.seen pages.old) (P.seen pages.new) index now
        × IsDataPage now × (length now ≡ (P.seen pages.old).page_size) × (data_of now ≡ empty_page id) }
{
    // For the proof alone: a page has one of the sizes that pages may have.
    let _size = pages.page_size();
    let page = pages.page_mut(index);
    fresh(page, id);
}
