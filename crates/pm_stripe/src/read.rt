//! A page is read from its partition's file.

ghost use Rattle.std.specs.Prelude.{◌≡◌, IsErrOf, length};
ghost use Rattle.pm_types.specs.PageSizes.{IsPageSize};
ghost use Rattle.pm_types.specs.declared.fault.PageFault.TheVariants.{Failed};
ghost use Rattle.pm_disk.specs.States.{MayRead, IsLaterState, Rose};
ghost use Rattle.pm_locks.specs.Answers.{IsSameLease};
ghost use Rattle.pm_stripe.specs.Reads.{ReadsPage, stored};

use pm_disk::PageReader;
use pm_pages::check_at;
use pm_region::Lease;
use pm_types::{PageFault, PageId, Shape};

/// Reads a page into a frame, and checks it. `false`: the file ends before the page does.
///
/// `Failed` comes only where a call on the disk failed, and `BadPage`, which names the page, only where it
/// fails its check.
// A call of its own: inlined into a longer function, the check of a page takes longer.
#[inline(never)]
pub(crate) fn read_into<R: PageReader>(
    reader: &mut R,
    lease: &mut Lease,
    page: PageId,
    shape: &Shape,
) -> Result<bool, PageFault>
    requires allowed { MayRead (R.state reader.old) page }
    requires size { IsPageSize shape.now.page_size }
    requires long { length lease.old.bytes ≡ shape.now.page_size }
    ensures same { IsSameLease lease.old lease.new }
    ensures long { length lease.new.bytes ≡ shape.now.page_size }
    ensures reads { ReadsPage shape.now page R.tells
        (stored (R.history reader.old).world shape.now.page_size page) result lease.new.bytes }
    ensures world { R.tells → (R.history reader.new).world ≡ (R.history reader.old).world }
    ensures later { IsLaterState (R.state reader.old) (R.state reader.new) }
    ensures failed { IsErrOf result Failed → Rose (R.state reader.old) (R.state reader.new) }
{
    if !reader.read_page(page, lease.bytes_mut())? {
        return Ok(false);
    }
    if !check_at(lease.bytes(), page.part(), page.index(), shape) {
        return Err(PageFault::BadPage(page));
    }
    Ok(true)
}
