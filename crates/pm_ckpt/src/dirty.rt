//! Which pages stand in Dirty frames.

ghost use Rattle.std.specs.Prelude.{◌≡◌, ◌≤◌, ◌<◌, ◌+◌, ◌++◌, Some, length, slice_get, vec_len};
ghost use Rattle.std.specs.List.Sorted.{IsPermutation, IsNonDecreasingBy};
ghost use Rattle.std.specs.Vec.{vec_capacity};
ghost use Rattle.pm_ckpt.specs.Dirty.{page_in, dirty_page, dirty_frames, IsSameSight};
ghost use Rattle.pm_ckpt.specs.Dirty.{HaveFrames};
ghost use Rattle.pm_ckpt.specs.Frames.{IsWholeSeat, names_of};

use crate::frame_page::FramePage;
use crate::order::arrange_frames;
use pm_locks::{Locks, PageSeat, Word};
use pm_stripe::Stripe;
use pm_types::{Flag, FrameNo, PageId};

/// Lists the pages that the owners of Dirty frames keep there, by rising partition and index, and names them in a
/// list of their own. Both lists have room for them. There are so many frames.
pub(crate) fn gather(
    locks: &Locks,
    seat: &mut PageSeat,
    stripes: &[Stripe],
    frames: u32,
    pages: &mut Vec<FramePage>,
    order: &mut Vec<PageId>,
)
    requires seat { IsWholeSeat locks.now seat.old }
    requires frames { frames ≡ length locks.now.ranges }
    requires stripes { HaveFrames frames stripes.now }
    requires room { frames ≤ vec_capacity pages.old }
    requires names_room { frames ≤ vec_capacity order.old }
    ensures seat { IsWholeSeat locks.now seat.new }
    ensures same { IsSameSight seat.old.view seat.new.view }
    ensures pages { IsPermutation (dirty_frames locks.now stripes.now seat.old.view) pages.new.items }
    ensures names { order.new.items ≡ names_of pages.new.items }
    ensures rising { IsNonDecreasingBy (λ page. page.page.0) pages.new.items }
    ensures capacity { vec_capacity pages.new ≡ vec_capacity pages.old }
    ensures names_capacity { vec_capacity order.new ≡ vec_capacity order.old }
{
    list_dirty(locks, seat, stripes, frames, pages);
    arrange_frames(order, pages);
}

// The same by rising frame.
fn list_dirty(
    locks: &Locks,
    seat: &mut PageSeat,
    stripes: &[Stripe],
    frames: u32,
    pages: &mut Vec<FramePage>,
)
    requires seat { IsWholeSeat locks.now seat.old }
    requires frames { frames ≡ length locks.now.ranges }
    requires stripes { HaveFrames frames stripes.now }
    requires room { frames ≤ vec_capacity pages.old }
    ensures seat { IsWholeSeat locks.now seat.new }
    ensures same { IsSameSight seat.old.view seat.new.view }
    ensures pages { pages.new.items ≡ dirty_frames locks.now stripes.now seat.old.view }
    ensures capacity { vec_capacity pages.new ≡ vec_capacity pages.old }
{
    pages.clear();
    'each: for f in 0..frames {
        let word = locks.look(seat, f);
        list_one(stripes, f, word, pages);
    }
}

// Adds the page that the owner of a frame with this word keeps there, where the frame is Dirty.
fn list_one(stripes: &[Stripe], f: FrameNo, word: Word, pages: &mut Vec<FramePage>)
    requires stripes { HaveFrames (f + 1) stripes.now }
    requires room { vec_len pages.old < vec_capacity pages.old }
    ensures pages { pages.new.items ≡ pages.old.items ++ dirty_page stripes.now f word }
    ensures capacity { vec_capacity pages.new ≡ vec_capacity pages.old }
{
    if word.flag() != Flag::Dirty {
        return;
    }
    if let Some(page) = page_in(stripes, word.owner(), f) {
        pages.push_reserved(FramePage {
            page,
            frame: f,
            tag: word.tag(),
        });
    }
}

// The page that a worker keeps in a frame.
fn page_in(stripes: &[Stripe], owner: u8, f: FrameNo) -> Option<PageId>
    requires { HaveFrames (f + 1) stripes.now }
    ensures { result ≡ page_in (slice_get stripes.now owner) f }
{
    match stripes.get(owner as usize) {
        Some(stripe) => page_kept(stripe, f),
        None => None,
    }
}

// The page that this stripe keeps in a frame.
fn page_kept(stripe: &Stripe, f: FrameNo) -> Option<PageId>
    requires { f < length stripe.now.places.pages.items }
    ensures { result ≡ page_in (Some stripe.now) f }
{
    match stripe.page_in(f) {
        Some((page, _)) => Some(page),
        None => None,
    }
}
