//! Changes of one page of a tree, over any pages.

ghost use Rattle.std.specs.Prelude.{◌≡◌, ◌≢◌, ℕ, ◌+◌, ◌<◌, ◌≤◌, List, Some, OnOk, IfOk, IsTrue, length};
ghost use Rattle.pm_types.specs.PageSizes.{IsPageSize};
ghost use Rattle.pm_types.specs.Pages.{IsNoted};
ghost use Rattle.pm_types.specs.Ids.{page_id};
ghost use Rattle.pm_btpage.specs.IndexPages.{index_of, IsIndexPage};
ghost use Rattle.pm_pages.specs.Paged.{AllReadable, IsLent, CoversByte, WritesPage};
ghost use Rattle.pm_pages.specs.Edits.{EditsPages, RewritesPage, HasDiskCause};
ghost use Rattle.pm_tree.specs.Edits.{CanEdit, edited, blank, IsNode, TakesEdit, EditsNode, EditsNodeAt};

use pm_btpage::{cut, fresh_inner, fresh_leaf, insert_at, set_next, set_word, tail};
use pm_pages::Pages;
use pm_types::{PageFault, PageId, Patch};

/// A change of a page of a tree. Some changes take bytes besides: a key, or another page.
#[derive(Clone, Copy, Debug, PartialEq, Eq)]
pub enum Edit {
    /// An item gets this word.
    Word(u16, u64),
    /// An item with the key that is given and this word stands before an item, or after the last.
    Insert(u16, u64),
    /// The index of the leaf after this one.
    Next(u32),
    /// The items from one on are taken out.
    Cut(u16),
    /// The items from one on of the page that is given are written on a page without items.
    Tail(u16),
}

/// Changes a page.
pub fn edit_on(page: &mut [u8], edit: Edit, bytes: &[u8], patch: &mut Patch)
    requires page { IsIndexPage page.old }
    requires fits { CanEdit (length page.old) (index_of page.old) bytes.now edit }
    requires size { patch.old.page_size ≡ length page.old }
    ensures edits { EditsNode page.old bytes.now edit page.new }
    ensures noted { IsNoted patch.old patch.new page.old page.new }
{
    match edit {
        Edit::Word(i, word) => set_word(page, i, word, patch),
        Edit::Insert(i, word) => insert_at(page, i, bytes, word, patch),
        Edit::Next(next) => set_next(page, next, patch),
        Edit::Cut(at) => cut(page, at, patch),
        Edit::Tail(at) => tail(bytes, page, at, patch),
    }
}

/// Changes a page that is at hand. It fails only where a call on the disk failed, and changes nothing then.
pub fn make_edit<P: Pages>(
    pages: &mut P,
    at: u32,
    edit: Edit,
    bytes: &[u8],
) -> Result<(), PageFault>
    requires ready { P.ready pages.old }
    requires takes { TakesEdit (P.seen pages.old) at bytes.now edit }
    requires readable { AllReadable (P.seen pages.old) }
    ensures kept { P.kept pages.old pages.new }
    ensures edits { EditsPages P.tells (P.seen pages.old) (P.seen pages.new) (λ j. j ≡ at) 0 }
    ensures readable { AllReadable (P.seen pages.new) }
    ensures edited { OnOk result (EditsNodeAt (P.seen pages.old) (P.seen pages.new) at bytes.now edit) }
    ensures lent { OnOk result (IsLent (P.seen pages.new) at) }
    ensures cause { HasDiskCause (P.seen pages.old) (P.seen pages.new).faults result }
{
    pages.change(at)?;
    edit_lent(pages, at, edit, bytes);
    Ok(())
}

// Changes a page that was lent.
fn edit_lent<P: Pages>(pages: &mut P, at: u32, edit: Edit, bytes: &[u8])
    requires ready { P.ready pages.old }
    requires lent { IsLent (P.seen pages.old) at }
    requires takes { TakesEdit (P.seen pages.old) at bytes.now edit }
    requires readable { AllReadable (P.seen pages.old) }
    ensures kept { P.kept pages.old pages.new }
    ensures edits { EditsPages P.tells (P.seen pages.old) (P.seen pages.new) (λ j. j ≡ at) 0 }
    ensures readable { AllReadable (P.seen pages.new) }
    ensures edited { EditsNodeAt (P.seen pages.old) (P.seen pages.new) at bytes.now edit }
{
    let mut patch = Patch::none(pages.page_size());
    put_edit(pages, at, edit, bytes, &mut patch);
    pages.note(at, &patch);
}

// Writes a change of a page that was lent. The patch notes it.
fn put_edit<P: Pages>(pages: &mut P, at: u32, edit: Edit, bytes: &[u8], patch: &mut Patch)
    requires ready { P.ready pages.old }
    requires lent { IsLent (P.seen pages.old) at }
    requires takes { TakesEdit (P.seen pages.old) at bytes.now edit }
    requires size { patch.old.page_size ≡ (P.seen pages.old).page_size }
    ensures kept { P.kept pages.old pages.new }
    ensures writes { RewritesPage (P.seen pages.old) (P.seen pages.new) at patch.old patch.new
        (λ was now. EditsNode was bytes.now edit now) }
{
    let page = pages.page_mut(at);
    edit_on(page, edit, bytes, patch);
}

/// Writes a page that was made: a leaf, or an inner page with this first child, without items.
pub fn write_blank<P: Pages>(pages: &mut P, index: u32, first: Option<PageId>)
    requires ready { P.ready pages.old }
    requires some { 1 ≤ index }
    requires lent { IsLent (P.seen pages.old) index }
    requires covered { (k : ℕ) → k < (P.seen pages.old).page_size
        → CoversByte ((P.seen pages.old).patch index) k }
    requires readable { AllReadable (P.seen pages.old) }
    ensures kept { P.kept pages.old pages.new }
    ensures edits { EditsPages P.tells (P.seen pages.old) (P.seen pages.new) (λ j. j ≡ index) 0 }
    ensures readable { AllReadable (P.seen pages.new) }
    ensures node { IsNode (P.seen pages.new) index (blank (page_id (P.seen pages.old).part index) first) }
{
    let id = PageId::new(pages.part(), index);
    put_blank(pages, index, id, first);
}

// Writes a page that was lent.
fn put_blank<P: Pages>(pages: &mut P, index: u32, id: PageId, first: Option<PageId>)
    requires ready { P.ready pages.old }
    requires lent { IsLent (P.seen pages.old) index }
    ensures kept { P.kept pages.old pages.new }
    ensures writes { (now : List ℕ) × WritesPage (P.seen pages.old) (P.seen pages.new) index now
        × IsIndexPage now × (length now ≡ (P.seen pages.old).page_size) × (index_of now ≡ blank id first) }
{
    // For the proof alone: a page has one of the sizes that pages may have.
    let _size = pages.page_size();
    let page = pages.page_mut(index);
    blank_on(page, id, first);
}

fn blank_on(page: &mut [u8], id: PageId, first: Option<PageId>)
    requires { IsPageSize (length page.old) }
    ensures page { IsIndexPage page.new }
    ensures says { index_of page.new ≡ blank id first }
{
    match first {
        None => fresh_leaf(page, id),
        Some(first) => fresh_inner(page, id, first),
    }
}
