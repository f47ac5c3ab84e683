//! The frames that a worker has in hand.

ghost use Rattle.pm_stripe.specs.ChangedPages.{is_changed};
ghost use Rattle.std.specs.Prelude.{◌≡◌, ◌<◌, ◌∷◌, length};
ghost use Rattle.std.specs.Vec.{vec_capacity};

use pm_region::Lease;
use pm_types::{Flag, FrameNo, PageId, Patch, Tag};
use std::snapshot::Snapshot;

/// A page that was asked for, with the frame that holds it.
#[derive(Drop)]
pub(crate) struct Held {
    pub(crate) page: PageId,
    pub(crate) frame: FrameNo,
    pub(crate) tag: Tag,
    pub(crate) lease: Lease,
    /// The lease as it was when the page was taken, read or made.
    pub(crate) was: Snapshot<Lease>,
    /// The frame's flag as it was taken.
    pub(crate) flag: Flag,
    /// The page was read from its file or made: the page table doesn't name it yet.
    pub(crate) is_read: bool,
    /// It was lent to be written.
    pub(crate) is_lent: bool,
    /// What of it changed, as far as that was noted.
    pub(crate) patch: Option<Patch>,
}

/// An empty frame.
#[derive(Drop)]
pub(crate) struct Free {
    pub(crate) frame: FrameNo,
    pub(crate) tag: Tag,
    pub(crate) lease: Lease,
}

impl Held {
    /// Whether the operation changed the page: its patch covers a byte.
    pub(crate) fn is_changed(&self) -> bool
        ensures { result ≡ is_changed self.now.patch }
    {
        match &self.patch {
            Some(patch) => patch.is_whole() || patch.len() > 0,
            None => false,
        }
    }
}

/// Takes out the empty frame that is in hand for longest.
pub(crate) fn first_out(free: &mut Vec<Free>) -> Free
    requires { 0 < length free.old.items }
    ensures list { free.old.items ≡ result ∷ free.new.items }
    ensures room { vec_capacity free.new ≡ vec_capacity free.old }
{
    free.remove(0)
}
