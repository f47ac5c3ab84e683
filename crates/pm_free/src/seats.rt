//! What a data page says of its chain.

ghost use Rattle.std.specs.Prelude.{◌≡◌, ◌≢◌, ℕ, ◌+◌, ◌<◌, ◌≤◌, List, Some, IfOk, IfSome, IfNone};
ghost use Rattle.std.specs.Prelude.{IsTrue, length};
ghost use Rattle.pm_data.specs.DataPages.{IsDataPage};
ghost use Rattle.pm_data.specs.declared.layout.TheConstants.{DATA_KIND};
ghost use Rattle.pm_meta.specs.declared.layout.TheConstants.{BUCKETS};
ghost use Rattle.pm_pages.specs.Rows.{kind_of};
ghost use Rattle.pm_pages.specs.Chains.{bucket_of};
ghost use Rattle.pm_pages.specs.PageLists.{IsReadable};
ghost use Rattle.pm_pages.specs.Paged.{HasRoomFor, AllReadable, HasPageCause};
ghost use Rattle.pm_pages.specs.Edits.{LooksAtPages, HasDiskCause};
ghost use Rattle.pm_free.specs.DataEdits.{IsDataAt};
ghost use Rattle.pm_free.specs.Seats.{IsSeatOn, IsSeatIn, IsNoDataIn};

use pm_data::{DATA_KIND, links, room};
use pm_meta::BUCKETS;
use pm_pages::Pages;
use pm_types::PageFault;
use pm_types::head::KIND_AT;

/// What a data page says of its chain.
#[derive(Clone, Copy, Debug, PartialEq, Eq, Drop)]
pub struct Seat {
    /// The index of the page before it; 0 where there is none.
    pub prev: u32,
    /// The index of the page after it; 0 where there is none.
    pub next: u32,
    /// The bucket for the room that it has, below 16.
    pub bucket: u8,
}

/// The bucket of a data page: how many sixteenths of the page are room.
pub fn bucket_on(page: &[u8]) -> u8
    requires { IsDataPage page.now }
    ensures bucket { result ≡ bucket_of page.now }
    ensures few { result < BUCKETS }
{
    (room(page) as usize * BUCKETS as usize / page.len()) as u8
}

// What a data page says of its chain.
fn seat_of(page: &[u8]) -> Seat
    requires { IsDataPage page.now }
    ensures { IsSeatOn page.now result }
{
    let (prev, next) = links(page);
    let bucket = bucket_on(page);
    Seat { prev, next, bucket }
}

fn seat_on(page: &[u8]) -> Option<Seat>
    requires { IsReadable page.now }
    ensures seat { IfSome result (λ seat. IsDataPage page.now × IsSeatOn page.now seat) }
    ensures other { IfNone result (kind_of page.now ≢ DATA_KIND) }
{
    if page[KIND_AT as usize] != DATA_KIND {
        return None;
    }
    Some(seat_of(page))
}

/// What the page with this index says of its chain, in a partition of so many pages; `None` where it is no
/// data page.
///
/// An error comes only where a call on the disk failed, or the page is bad. No page is changed.
pub fn find_seat<P: Pages>(pages: &mut P, count: u32, at: u32) -> Result<Option<Seat>, PageFault>
    requires ready { P.ready pages.old }
    requires room { HasRoomFor (P.seen pages.old) at }
    requires some { 1 ≤ at }
    requires readable { AllReadable (P.seen pages.old) }
    ensures kept { P.kept pages.old pages.new }
    ensures looks { LooksAtPages P.tells (P.seen pages.old) (P.seen pages.new) 1 }
    ensures readable { AllReadable (P.seen pages.new) }
    ensures seat { IfOk result (λ seat. IfSome seat (λ seat.
        (at < count) × IsSeatIn (P.seen pages.new) at seat)) }
    ensures none { IfOk result (λ seat. IfNone seat (IsNoDataIn (P.seen pages.new) count at)) }
    ensures cause { HasPageCause P.tells (P.seen pages.old) (P.seen pages.new).faults at result }
{
    if at >= count {
        return Ok(None);
    }
    match pages.view(at)? {
        // Not reached: page `at` isn't the first one.
        None => Ok(None),
        Some(page) => Ok(seat_on(page)),
    }
}

/// What a data page that is at hand says of its chain. It fails only where a call on the disk failed.
pub fn seat_at<P: Pages>(pages: &mut P, at: u32) -> Result<Seat, PageFault>
    requires ready { P.ready pages.old }
    requires page { IsDataAt (P.seen pages.old) at }
    requires readable { AllReadable (P.seen pages.old) }
    ensures kept { P.kept pages.old pages.new }
    ensures looks { LooksAtPages P.tells (P.seen pages.old) (P.seen pages.new) 0 }
    ensures readable { AllReadable (P.seen pages.new) }
    ensures seat { IfOk result (IsSeatIn (P.seen pages.new) at) }
    ensures cause { HasDiskCause (P.seen pages.old) (P.seen pages.new).faults result }
{
    match pages.view(at)? {
        // Not reached: page `at` is a data page that is at hand.
        None => Ok(Seat {
            prev: 0,
            next: 0,
            bucket: 0,
        }),
        Some(page) => Ok(seat_of(page)),
    }
}
