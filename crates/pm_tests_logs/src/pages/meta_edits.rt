//! A safe edit over any pages: the row count of the meta page is set.

ghost use Rattle.std.specs.Prelude.{◌≡◌, ◌≢◌, ℕ, ◌+◌, ◌<◌, ◌≤◌, Some, IsSome, IsTrue, OnErr, OnOk, length};
ghost use Rattle.pm_types.specs.Spans.{Coverage};
ghost use Rattle.pm_pages.specs.Paged.{IsTold, IsThere, HasRoomFor, AllReadable, IsLent, HasPageCause};

use pm_meta::{MetaSlot, set};
use pm_pages::Pages;
use pm_types::{PageFault, Patch};

/// Sets the row count. What is known stays readable.
pub fn set_rows<P: Pages>(pages: &mut P, rows: u32) -> Result<(), PageFault>
    requires ready { P.ready pages.old }
    requires room { HasRoomFor (P.seen pages.old) 0 }
    requires there { IsTold P.tells (P.seen pages.old) 0 → IsThere (P.seen pages.old) 0 }
    requires readable { AllReadable (P.seen pages.old) }
    ensures kept { P.kept pages.old pages.new }
    ensures readable { AllReadable (P.seen pages.new) }
    ensures cause { HasPageCause P.tells (P.seen pages.old) (P.seen pages.new).faults 0 result }
{
    pages.change(0)?;
    set_lent(pages, rows);
    Ok(())
}

fn set_lent<P: Pages>(pages: &mut P, rows: u32)
    requires ready { P.ready pages.old }
    requires lent { IsLent (P.seen pages.old) 0 }
    requires readable { AllReadable (P.seen pages.old) }
    ensures kept { P.kept pages.old pages.new }
    ensures readable { AllReadable (P.seen pages.new) }
    ensures faults { (P.seen pages.old).faults ≤ (P.seen pages.new).faults }
{
    let mut patch = Patch::none(pages.page_size());
    put_rows(pages, rows, &mut patch);
    pages.note(0, &patch);
}

fn put_rows<P: Pages>(pages: &mut P, rows: u32, patch: &mut Patch)
    requires ready { P.ready pages.old }
    requires lent { IsLent (P.seen pages.old) 0 }
    requires readable { AllReadable (P.seen pages.old) }
    requires size { patch.old.page_size ≡ (P.seen pages.old).page_size }
    ensures kept { P.kept pages.old pages.new }
    ensures readable { AllReadable (P.seen pages.new) }
    ensures lent { IsTrue ((P.seen pages.new).lent 0) }
    ensures same_size { (P.seen pages.new).page_size ≡ (P.seen pages.old).page_size }
    ensures size { patch.new.page_size ≡ patch.old.page_size }
    ensures faults { (P.seen pages.old).faults ≤ (P.seen pages.new).faults }
{
    let page = pages.page_mut(0);
    set(page, MetaSlot::Rows, rows, patch);
}
