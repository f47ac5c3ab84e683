//! Pages that are copied, changed as copies, and written back.

ghost use Rattle.std.specs.Prelude.{◌≡◌, ◌≢◌, ℕ, ◌+◌, ◌<◌, ◌≤◌, List, Some, OnOk, IsTrue, length};
ghost use Rattle.pm_types.specs.Pages.{SameOutside};
ghost use Rattle.pm_types.specs.Spans.{Covers};
ghost use Rattle.pm_btpage.specs.IndexPages.{IsIndexPage};
ghost use Rattle.pm_pages.specs.PageLists.{IsReadable};
ghost use Rattle.pm_pages.specs.Paged.{AllReadable, HasRoomFor, HasPageCause, IsLent, WritesPage};
ghost use Rattle.pm_pages.specs.Edits.{LooksAtPages, EditsPages, HasDiskCause};
ghost use Rattle.pm_tree_del.specs.Copies.{IsCopyOf, TakesBytes};

use pm_pages::Pages;
use pm_types::{PageFault, Patch};

/// Copies the bytes of a page.
pub fn copy_page<P: Pages>(pages: &mut P, index: u32, into: &mut [u8]) -> Result<(), PageFault>
    requires ready { P.ready pages.old }
    requires room { HasRoomFor (P.seen pages.old) index }
    requires some { 1 ≤ index }
    requires size { length into.old ≡ (P.seen pages.old).page_size }
    requires readable { AllReadable (P.seen pages.old) }
    ensures kept { P.kept pages.old pages.new }
    ensures looks { LooksAtPages P.tells (P.seen pages.old) (P.seen pages.new) 1 }
    ensures again { IsTrue ((P.seen pages.old).asked index)
        → LooksAtPages P.tells (P.seen pages.old) (P.seen pages.new) 0 }
    ensures readable { AllReadable (P.seen pages.new) }
    ensures copied { OnOk result (IsCopyOf (P.seen pages.new) index into.new) }
    ensures cause { HasPageCause P.tells (P.seen pages.old) (P.seen pages.new).faults index result }
{
    match pages.view(index)? {
        // Not reached: page `index` isn't the first one.
        None => Ok(()),
        Some(page) => {
            into.copy_from_slice(page);
            Ok(())
        }
    }
}

/// Writes these bytes of an index page over a page that is at hand. The patch covers each byte that differs.
///
/// It fails only where a call on the disk failed, and changes nothing then.
pub fn write_page<P: Pages>(
    pages: &mut P,
    index: u32,
    bytes: &[u8],
    patch: &Patch,
) -> Result<(), PageFault>
    requires ready { P.ready pages.old }
    requires takes { TakesBytes (P.seen pages.old) index bytes.now patch.now }
    requires readable { AllReadable (P.seen pages.old) }
    ensures kept { P.kept pages.old pages.new }
    ensures edits { EditsPages P.tells (P.seen pages.old) (P.seen pages.new) (λ j. j ≡ index) 0 }
    ensures readable { AllReadable (P.seen pages.new) }
    ensures written { OnOk result ((P.seen pages.new).pages index ≡ Some bytes.now) }
    ensures cause { HasDiskCause (P.seen pages.old) (P.seen pages.new).faults result }
{
    pages.change(index)?;
    write_lent(pages, index, bytes, patch);
    Ok(())
}

// Writes bytes over a page that was lent.
fn write_lent<P: Pages>(pages: &mut P, index: u32, bytes: &[u8], patch: &Patch)
    requires ready { P.ready pages.old }
    requires lent { IsLent (P.seen pages.old) index }
    requires takes { TakesBytes (P.seen pages.old) index bytes.now patch.now }
    requires readable { AllReadable (P.seen pages.old) }
    ensures kept { P.kept pages.old pages.new }
    ensures edits { EditsPages P.tells (P.seen pages.old) (P.seen pages.new) (λ j. j ≡ index) 0 }
    ensures readable { AllReadable (P.seen pages.new) }
    ensures written { (P.seen pages.new).pages index ≡ Some bytes.now }
{
    put_bytes(pages, index, bytes);
    pages.note(index, patch);
}

fn put_bytes<P: Pages>(pages: &mut P, index: u32, bytes: &[u8])
    requires ready { P.ready pages.old }
    requires lent { IsLent (P.seen pages.old) index }
    requires size { length bytes.now ≡ (P.seen pages.old).page_size }
    ensures kept { P.kept pages.old pages.new }
    ensures writes { WritesPage (P.seen pages.old) (P.seen pages.new) index bytes.now }
{
    let page = pages.page_mut(index);
    page.copy_from_slice(bytes);
}
