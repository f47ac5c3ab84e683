//! The pages of a checkpoint that stand in lists, written to their files: for `Ckpt::whole_plain` alone, which the
//! program doesn't call.

ghost use Rattle.std.specs.Prelude.{◌≡◌, ◌≤◌, All};
ghost use Rattle.pm_types.specs.declared.limits.TheConstants.{PAGE_SIZE_MAX};
ghost use Rattle.pm_disk.specs.Moments.{WritesPage};
ghost use Rattle.pm_disk.specs.States.{HasCause, IsUsable};
ghost use Rattle.pm_ckpt.specs.Writes.{held_in, page_of, IsHeld, WritesPages};

use pm_disk::{Failed, Host, PageWriter};
use pm_pages::PlainPages;
use pm_types::PageId;

/// Writes each of these pages once, in this order, with the bytes that it has. After `Failed` a prefix of
/// them is written, and the next one may be.
pub(crate) fn write_pages<H: Host>(
    host: &mut H,
    pages: &[PlainPages],
    order: &[PageId],
    size: u32,
) -> Result<(), Failed>
    requires usable { IsUsable (H.Device.state host.old) }
    requires size { size ≤ PAGE_SIZE_MAX }
    requires held { All (IsHeld size (held_in pages.now)) order.now }
    ensures writes { H.Device.tells → WritesPages (H.Device.history host.old) (H.Device.history host.new) result
        (held_in pages.now) order.now }
    ensures cause { HasCause (H.Device.state host.old) (H.Device.state host.new) result }
{
    'each: for page in order {
        write_one(host, pages, *page, size)?;
    }
    Ok(())
}

// Writes a page with the bytes that it has.
fn write_one<H: Host>(
    host: &mut H,
    pages: &[PlainPages],
    page: PageId,
    size: u32,
) -> Result<(), Failed>
    requires usable { IsUsable (H.Device.state host.old) }
    requires size { size ≤ PAGE_SIZE_MAX }
    requires held { IsHeld size (held_in pages.now) page }
    ensures writes { H.Device.tells → WritesPage (H.Device.history host.old) (H.Device.history host.new) result
        page (page_of (held_in pages.now) page) }
    ensures cause { HasCause (H.Device.state host.old) (H.Device.state host.new) result }
{
    host.write_page(page, bytes_of(pages, page))
}

// The bytes of a page, none where it isn't there.
fn bytes_of(pages: &[PlainPages], page: PageId) -> &[u8]
    ensures { result.now ≡ page_of (held_in pages.now) page }
{
    match pages.get(page.part() as usize) {
        Some(plain) => match plain.page(page.index()) {
            Some(bytes) => bytes,
            None => &[],
        },
        None => &[],
    }
}
