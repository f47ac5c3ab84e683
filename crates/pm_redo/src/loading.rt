//! The base pages of a partition, loaded into memory.

ghost use Rattle.std.specs.Prelude.{◌≡◌, ◌<◌, ◌≤◌, ◌^◌, IfOk, IfSome, IsErrOf, length};
ghost use Rattle.pm_types.specs.declared.page_id.PageId.{PageId};
ghost use Rattle.pm_types.specs.Shapes.{IsShape};
ghost use Rattle.pm_types.specs.Ids.{part_of_id, index_of_id};
ghost use Rattle.pm_disk.specs.Moments.{Does, AllMoments};
ghost use Rattle.pm_disk.specs.States.{HasCause, IsUsable};
ghost use Rattle.pm_pages.specs.PageLists.{pages_in};
ghost use Rattle.pm_pages.specs.Passes.{PassesAt};
ghost use Rattle.pm_core.specs.BasePages.{Partitions};
ghost use Rattle.pm_redo.specs.Loading.{BaseIs, HaveShape, EachPasses, AreCounted, IsBadPage};
ghost use Rattle.pm_redo.specs.Loading.{FailsCheck, FailsThere, HasPageFault, bytes_in};
ghost use Rattle.pm_redo.specs.Pictures.{ReadsPage};
ghost use Rattle.pm_redo.specs.Rebuilding.{IsSame};

use crate::base::Pictures;
use pm_disk::{Failed, Host};
use pm_meta::MetaSlot;
use pm_pages::check_at;
use pm_types::{Page, PageId, Shape, StoreFault};
use std::alloc::{AllocError, Global};

/// Reads the base pages of a partition: the first page, if it is there, and those below the page count that it
/// says. Each is read once, and checked.
///
/// `BadPage` names a page that fails its check, or is below the page count and isn't there. Nothing is changed.
pub fn load_pages<H: Host>(
    alloc: Global,
    host: &mut H,
    pictures: &Pictures,
    shape: &Shape,
    part: u16,
) -> Result<Vec<Page>, StoreFault>
    requires usable { IsUsable (H.Device.state host.old) }
    requires shape { IsShape shape.now }
    requires shaped { HaveShape shape.now pictures.now }
    requires inside { part < shape.now.partitions }
    ensures passes { IfOk result (λ pages. EachPasses shape.now part (pages_in pages.items)) }
    ensures indexed { IfOk result (λ pages. length pages.items ≤ 2 ^ 32) }
    ensures pages { H.Device.tells → (base : Partitions)
        → BaseIs pictures.now (H.Device.history host.old).world base
        → IfOk result (λ pages. AreCounted (base part) (pages_in pages.items)) }
    ensures bad { H.Device.tells → (base : Partitions)
        → BaseIs pictures.now (H.Device.history host.old).world base → (id : PageId)
        → IsErrOf result (StoreFault.BadPage id) → IsBadPage shape.now base id }
    ensures same { H.Device.tells → AllMoments (H.Device.history host.old) (H.Device.history host.new)
        (IsSame (H.Device.history host.old).world) }
    ensures cause { HasPageFault (H.Device.state host.old) (H.Device.state host.new) result }
{
    let mut pages = Vec::new(alloc);
    let Some(meta) = read_page(alloc, host, pictures, shape, part, 0)? else {
        return Ok(pages);
    };
    let count = pm_meta::get(&meta.bytes, MetaSlot::Pages);
    pages.push(meta)?;
    'each: for index in 1..count {
        pages.push(read_counted(alloc, host, pictures, shape, part, index)?)?;
    }
    Ok(pages)
}

// Reads a page that the first one counts, which has to be there.
fn read_counted<H: Host>(
    alloc: Global,
    host: &mut H,
    pictures: &Pictures,
    shape: &Shape,
    part: u16,
    index: u32,
) -> Result<Page, StoreFault>
    requires usable { IsUsable (H.Device.state host.old) }
    requires shape { IsShape shape.now }
    requires shaped { HaveShape shape.now pictures.now }
    ensures passes { IfOk result
        (λ page. PassesAt shape.now.page_size shape.now.max_rows part index page.bytes.items) }
    ensures page { H.Device.tells → (base : Partitions)
        → BaseIs pictures.now (H.Device.history host.old).world base
        → IfOk result (λ page. base part index ≡ Some page.bytes.items) }
    ensures bad { H.Device.tells → (base : Partitions)
        → BaseIs pictures.now (H.Device.history host.old).world base → (id : PageId)
        → IsErrOf result (StoreFault.BadPage id) → FailsCheck shape.now part index (base part index) id }
    ensures does { H.Device.tells → Does (H.Device.history host.old) (H.Device.history host.new) result
        (H.Device.history host.old).world }
    ensures cause { HasPageFault (H.Device.state host.old) (H.Device.state host.new) result }
{
    match read_page(alloc, host, pictures, shape, part, index) {
        Ok(Some(page)) => Ok(page),
        Ok(None) => Err(StoreFault::BadPage(PageId::new(part, index))),
        Err(fault) => Err(fault),
    }
}

// Reads a page and checks it: none where it isn't there.
fn read_page<H: Host>(
    alloc: Global,
    host: &mut H,
    pictures: &Pictures,
    shape: &Shape,
    part: u16,
    index: u32,
) -> Result<Option<Page>, StoreFault>
    requires usable { IsUsable (H.Device.state host.old) }
    requires shape { IsShape shape.now }
    requires shaped { HaveShape shape.now pictures.now }
    ensures passes { IfOk result (λ found. IfSome found
        (λ page. PassesAt shape.now.page_size shape.now.max_rows part index page.bytes.items)) }
    ensures page { H.Device.tells → (base : Partitions)
        → BaseIs pictures.now (H.Device.history host.old).world base
        → IfOk result (λ found. base part index ≡ bytes_in found) }
    ensures bad { H.Device.tells → (base : Partitions)
        → BaseIs pictures.now (H.Device.history host.old).world base → (id : PageId)
        → IsErrOf result (StoreFault.BadPage id) → FailsThere shape.now part index (base part index) id }
    ensures does { H.Device.tells → Does (H.Device.history host.old) (H.Device.history host.new) result
        (H.Device.history host.old).world }
    ensures cause { HasPageFault (H.Device.state host.old) (H.Device.state host.new) result }
{
    let mut page = blank(alloc, shape)?;
    if !fill(host, pictures, part, index, &mut page)? {
        return Ok(None);
    }
    if !check_at(&page.bytes, part, index, shape) {
        return Err(StoreFault::BadPage(PageId::new(part, index)));
    }
    Ok(Some(page))
}

// A page of zeros.
fn blank(alloc: Global, shape: &Shape) -> Result<Page, AllocError>
    ensures { IfOk result (λ page. length page.bytes.items ≡ shape.now.page_size) }
{
    let bytes = vec![in alloc; 0; shape.page_size as usize]?;
    Ok(Page { bytes })
}

// Fills a page with the base page of this partition and index, and answers whether it is there.
fn fill<H: Host>(
    host: &mut H,
    pictures: &Pictures,
    part: u16,
    index: u32,
    page: &mut Page,
) -> Result<bool, Failed>
    requires usable { IsUsable (H.Device.state host.old) }
    requires sized { IfSome pictures.now (λ kept. length page.old.bytes.items ≡ kept.shape.page_size) }
    ensures reads { H.Device.tells → (base : Partitions)
        → BaseIs pictures.now (H.Device.history host.old).world base
        → IfOk result (ReadsPage (base part index) page.new.bytes.items) }
    ensures does { H.Device.tells → Does (H.Device.history host.old) (H.Device.history host.new) result
        (H.Device.history host.old).world }
    ensures cause { HasCause (H.Device.state host.old) (H.Device.state host.new) result }
{
    pictures.read(host, named(part, index), &mut page.bytes)
}

// The name of a page.
fn named(part: u16, index: u32) -> PageId
    ensures part { part_of_id result ≡ part }
    ensures index { index_of_id result ≡ index }
{
    PageId::new(part, index)
}
