//! The numbers of a partition's meta page, over pages that are asked for one at a time.

ghost use Rattle.std.specs.Prelude.{◌≡◌, ℕ, Some, None, IfOk, IfSome, IfNone, OnOk, IsTrue, List};
ghost use Rattle.pm_meta.specs.MetaPages.{field_of, IsSlot, IsMetaPage};
ghost use Rattle.pm_pages.specs.Paged.{IsTold, HasRoomFor, AllReadable, IsLent, IsFirstAbsent};
ghost use Rattle.pm_pages.specs.Paged.{WritesPage, HasPageCause};
ghost use Rattle.pm_pages.specs.Edits.{LooksAtPages, EditsPages, RewritesPage, HasMeta, IsNumberIn};
ghost use Rattle.pm_pages.specs.Edits.{HasDiskCause};
ghost use Rattle.pm_pages.specs.SparePages.{SetsNumber, MetaBecomes};
ghost use Rattle.pm_types.specs.Pages.{IsNoted};

use crate::pages::Pages;
use pm_meta::{MetaSlot, get, set};
use pm_types::{PageFault, Patch};

/// A number of the meta page; `None` where the partition has none.
///
/// An error comes only where a call on the disk failed, or the meta page is bad. No page is changed.
pub fn find_number<P: Pages>(pages: &mut P, slot: MetaSlot) -> Result<Option<u32>, PageFault>
    requires ready { P.ready pages.old }
    requires room { HasRoomFor (P.seen pages.old) 0 }
    requires slot { IsSlot slot }
    requires readable { AllReadable (P.seen pages.old) }
    ensures kept { P.kept pages.old pages.new }
    ensures looks { LooksAtPages P.tells (P.seen pages.old) (P.seen pages.new) 1 }
    ensures readable { AllReadable (P.seen pages.new) }
    ensures number { IfOk result (λ found. IfSome found (IsNumberIn (P.seen pages.new) slot)) }
    ensures none { IfOk result (λ found. IfNone found (IsFirstAbsent P.tells (P.seen pages.old) 0)) }
    ensures cause { HasPageCause P.tells (P.seen pages.old) (P.seen pages.new).faults 0 result }
{
    match pages.view(0)? {
        None => Ok(None),
        Some(page) => Ok(Some(number_on(page, slot))),
    }
}

fn number_on(page: &[u8], slot: MetaSlot) -> u32
    requires page { IsMetaPage page.now }
    requires slot { IsSlot slot }
    ensures { result ≡ field_of page.now slot }
{
    get(page, slot)
}

/// A number of the meta page, which was asked for before. It fails only where a call on the disk failed.
pub fn number<P: Pages>(pages: &mut P, slot: MetaSlot) -> Result<u32, PageFault>
    requires ready { P.ready pages.old }
    requires meta { HasMeta (P.seen pages.old) }
    requires slot { IsSlot slot }
    requires readable { AllReadable (P.seen pages.old) }
    ensures kept { P.kept pages.old pages.new }
    ensures looks { LooksAtPages P.tells (P.seen pages.old) (P.seen pages.new) 0 }
    ensures readable { AllReadable (P.seen pages.new) }
    ensures number { IfOk result (IsNumberIn (P.seen pages.new) slot) }
    ensures cause { HasDiskCause (P.seen pages.old) (P.seen pages.new).faults result }
{
    match pages.view(0)? {
        // Not reached: the meta page is at hand.
        None => Ok(0),
        Some(page) => Ok(number_on(page, slot)),
    }
}

/// Sets a number of the meta page, which was asked for before. It fails only where a call on the
/// disk failed, and changes nothing then.
pub fn set_number<P: Pages>(pages: &mut P, slot: MetaSlot, value: u32) -> Result<(), PageFault>
    requires ready { P.ready pages.old }
    requires meta { HasMeta (P.seen pages.old) }
    requires slot { IsSlot slot }
    requires readable { AllReadable (P.seen pages.old) }
    ensures kept { P.kept pages.old pages.new }
    ensures edits { EditsPages P.tells (P.seen pages.old) (P.seen pages.new) (λ j. j ≡ 0) 0 }
    ensures readable { AllReadable (P.seen pages.new) }
    ensures sets { OnOk result (MetaBecomes (P.seen pages.old) (P.seen pages.new)
        (λ was now. SetsNumber was now slot value)) }
    ensures cause { HasDiskCause (P.seen pages.old) (P.seen pages.new).faults result }
{
    pages.change(0)?;
    set_lent(pages, slot, value);
    Ok(())
}

// Sets a number of the meta page, which was lent.
fn set_lent<P: Pages>(pages: &mut P, slot: MetaSlot, value: u32)
    requires ready { P.ready pages.old }
    requires lent { IsLent (P.seen pages.old) 0 }
    requires slot { IsSlot slot }
    requires readable { AllReadable (P.seen pages.old) }
    ensures kept { P.kept pages.old pages.new }
    ensures edits { EditsPages P.tells (P.seen pages.old) (P.seen pages.new) (λ j. j ≡ 0) 0 }
    ensures readable { AllReadable (P.seen pages.new) }
    ensures sets { MetaBecomes (P.seen pages.old) (P.seen pages.new)
        (λ was now. SetsNumber was now slot value) }
{
    let mut patch = Patch::none(pages.page_size());
    put_number(pages, slot, value, &mut patch);
    pages.note(0, &patch);
}

// Writes a number of the meta page, which was lent. The patch notes it.
fn put_number<P: Pages>(pages: &mut P, slot: MetaSlot, value: u32, patch: &mut Patch)
    requires ready { P.ready pages.old }
    requires lent { IsLent (P.seen pages.old) 0 }
    requires slot { IsSlot slot }
    requires readable { AllReadable (P.seen pages.old) }
    requires size { patch.old.page_size ≡ (P.seen pages.old).page_size }
    ensures kept { P.kept pages.old pages.new }
    ensures writes { RewritesPage (P.seen pages.old) (P.seen pages.new) 0 patch.old patch.new
        (λ was now. SetsNumber was now slot value × IsMetaPage now) }
{
    let page = pages.page_mut(0);
    set(page, slot, value, patch);
}
