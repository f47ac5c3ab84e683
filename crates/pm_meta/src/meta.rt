//! The numbers of a meta page: a page made anew, reads and writes.

ghost use Rattle.std.specs.Prelude.{◌≡◌, ◌≢◌, ℕ, length};
ghost use Rattle.pm_types.specs.PageSizes.{IsPageSize};
ghost use Rattle.pm_types.specs.Pages.{IsNoted};
ghost use Rattle.pm_types.specs.Fields.{u64_at};
ghost use Rattle.pm_types.specs.declared.page_id.PageId.{PageId};
ghost use Rattle.pm_meta.specs.declared.slots.MetaSlot.{MetaSlot};
ghost use Rattle.pm_meta.specs.declared.slots.MetaSlot.TheVariants.{Pages};
ghost use Rattle.pm_meta.specs.MetaPages.{field_of, IsSlot, IsInBounds, IsMetaPage, IsStoredMeta};

use crate::layout::{META_KIND, PAGES_AT};
use crate::slots::{MetaSlot, offset};
use pm_types::fields::{get_u32, put_u32, set_u32};
use pm_types::head::put_head;
use pm_types::{PageId, Patch};

/// Makes a meta page of this name: a partition with no other page, and without rows.
///
/// The bytes are those of a new page, which is written as a whole: there is no patch.
pub fn fresh(page: &mut [u8], id: PageId)
    requires { IsPageSize (length page.old) }
    ensures stored { (max_rows : ℕ) → IsStoredMeta id max_rows page.new }
    ensures pages { field_of page.new Pages ≡ 1 }
    ensures others { (slot : MetaSlot) → IsSlot slot → slot ≢ Pages → field_of page.new slot ≡ 0 }
{
    put_head(page, id, META_KIND);
    put_u32(page, PAGES_AT, 1);
}

/// The number in a slot.
pub fn get(page: &[u8], slot: MetaSlot) -> u32
    requires page { IsMetaPage page.now }
    requires slot { IsSlot slot }
    ensures { result ≡ field_of page.now slot }
{
    get_u32(page, offset(slot))
}

/// Sets the number in a slot. Where the page may stand in its file, and the number is in bounds, it still may.
pub fn set(page: &mut [u8], slot: MetaSlot, value: u32, patch: &mut Patch)
    requires page { IsMetaPage page.old }
    requires slot { IsSlot slot }
    requires size { patch.old.page_size ≡ length page.old }
    ensures page { IsMetaPage page.new }
    ensures stored { (id : PageId) (max_rows : ℕ) → IsStoredMeta id max_rows page.old
        → IsInBounds max_rows page.old slot value → IsStoredMeta id max_rows page.new }
    ensures value { field_of page.new slot ≡ value }
    ensures others { (other : MetaSlot) → IsSlot other → other ≢ slot
        → field_of page.new other ≡ field_of page.old other }
    ensures id { u64_at page.new 0 ≡ u64_at page.old 0 }
    ensures noted { IsNoted patch.old patch.new page.old page.new }
{
    set_u32(page, offset(slot), value, patch);
}
