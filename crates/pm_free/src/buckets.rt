//! The bucket whose first page takes a row.

ghost use Rattle.std.specs.Prelude.{◌≡◌, ◌≢◌, ℕ, ◌+◌, ◌*◌, ◌<◌, ◌≤◌, ◌↔◌, IfOk, IfSome, IfNone, OnOk};
ghost use Rattle.pm_types.specs.PageSizes.{IsPageSize};
ghost use Rattle.pm_data.specs.declared.layout.TheConstants.{SLOT_LEN};
ghost use Rattle.pm_meta.specs.declared.layout.TheConstants.{BUCKETS};
ghost use Rattle.pm_meta.specs.MetaPages.{IsMetaPage};
ghost use Rattle.pm_pages.specs.Paged.{AllReadable};
ghost use Rattle.pm_pages.specs.Edits.{LooksAtPages, HasMeta, HasDiskCause};
ghost use Rattle.pm_free.specs.Buckets.{IsFirstOn, HasNoneOn, IsHeadFor, HasNoHeadFor, IsHeadIn};
ghost use Rattle.pm_free.specs.Causes.{HasChainCause};
ghost use Rattle.pm_pages.specs.SoundPages.{IsSound, NoBadPage};
ghost use Rattle.pm_free.specs.Chained.{homes_in};

use crate::seats::find_seat;
use pm_meta::{BUCKETS, MetaSlot, get};
use pm_pages::{Pages, number};
use pm_types::{PageFault, PageId};

/// The first page of a bucket's chain.
#[derive(Clone, Copy, Debug, PartialEq, Eq, Drop)]
pub struct Head {
    /// The bucket, below 16.
    pub bucket: u8,
    /// The index of the page.
    pub at: u32,
}

// What a row takes of a page beside its bytes.
const SLOT_BYTES: usize = 4;

// The lowest bucket of which each page has room for a row of this length, in bytes; 16 where there is none.
fn least_bucket(page_size: u32, len: usize) -> u8
    requires size { IsPageSize page_size }
    requires short { len ≤ 1024 }
    ensures { (bucket : ℕ) → bucket < BUCKETS → result ≤ bucket ↔ (len + 4) * BUCKETS ≤ bucket * page_size }
{
    let least = ((len + SLOT_BYTES) * BUCKETS as usize).div_ceil(page_size as usize);
    least.min(BUCKETS as usize) as u8
}

// The first page of the lowest bucket, from one on, that has pages.
fn first_on(page: &[u8], from: u8) -> Option<Head>
    requires page { IsMetaPage page.now }
    ensures some { IfSome result (IsFirstOn page.now from) }
    ensures none { IfNone result (HasNoneOn page.now from BUCKETS) }
{
    'buckets: for bucket in from..BUCKETS {
        let at = get(page, MetaSlot::Bucket(bucket));
        if at != 0 {
            return Some(Head { bucket, at });
        }
    }
    None
}

/// The first page of the lowest bucket that has pages, of those whose pages surely have room for a row of
/// this length. It fails only where a call on the disk failed.
pub fn find_head<P: Pages>(pages: &mut P, len: usize) -> Result<Option<Head>, PageFault>
    requires ready { P.ready pages.old }
    requires meta { HasMeta (P.seen pages.old) }
    requires short { len ≤ 1024 }
    requires readable { AllReadable (P.seen pages.old) }
    ensures kept { P.kept pages.old pages.new }
    ensures looks { LooksAtPages P.tells (P.seen pages.old) (P.seen pages.new) 0 }
    ensures readable { AllReadable (P.seen pages.new) }
    ensures head { IfOk result (λ head. IfSome head (IsHeadFor (P.seen pages.new) len)) }
    ensures none { IfOk result (λ head. IfNone head (HasNoHeadFor (P.seen pages.new) len)) }
    ensures cause { HasDiskCause (P.seen pages.old) (P.seen pages.new).faults result }
{
    let least = least_bucket(pages.page_size(), len);
    match pages.view(0)? {
        // Not reached: the meta page is at hand.
        None => Ok(None),
        Some(page) => Ok(first_on(page, least)),
    }
}

/// Makes sure that the first page of a bucket is a data page of that bucket.
///
/// `Failed` comes only where a call on the disk failed. `BadPage` names the meta page where it isn't so, or
/// the page where that is bad; of sound pages none is bad where it is so.
pub fn check_head<P: Pages>(pages: &mut P, head: Head) -> Result<(), PageFault>
    requires ready { P.ready pages.old }
    requires meta { HasMeta (P.seen pages.old) }
    requires room { 1 ≤ (P.seen pages.old).spare }
    requires readable { AllReadable (P.seen pages.old) }
    requires head { (len : ℕ) × IsHeadFor (P.seen pages.old) len head }
    ensures kept { P.kept pages.old pages.new }
    ensures looks { LooksAtPages P.tells (P.seen pages.old) (P.seen pages.new) 1 }
    ensures readable { AllReadable (P.seen pages.new) }
    ensures page { OnOk result (IsHeadIn (P.seen pages.new) head.at head.bucket) }
    ensures cause { HasChainCause P.tells (P.seen pages.old) (P.seen pages.new) result }
    ensures sound { P.tells → IsSound (P.seen pages.old)
        → homes_in (P.seen pages.old).pages head.at ≡ head.bucket → NoBadPage result }
{
    let count = number(pages, MetaSlot::Pages)?;
    match find_seat(pages, count, head.at)? {
        None => Err(PageFault::BadPage(PageId::new(pages.part(), 0))),
        Some(seat) => {
            if seat.bucket != head.bucket {
                return Err(PageFault::BadPage(PageId::new(pages.part(), 0)));
            }
            Ok(())
        }
    }
}
