//! Pages in hand are lent to be written, and what of them changed is noted.

ghost use Rattle.std.specs.Prelude.{◌≡◌, false, IfSome, IsSome, Some};
ghost use Rattle.std.specs.Borrow.{sem, Lends, Array, u8};
ghost use Rattle.std.specs.Option.{option_map};
ghost use Rattle.pm_types.specs.PageSizes.{IsPageSize};
ghost use Rattle.pm_pages.specs.Paged.{JoinsPatch, IsWhole};
ghost use Rattle.pm_stripe.specs.ChangedPages.{is_changed};
ghost use Rattle.pm_stripe.specs.Kept.{held_at};
ghost use Rattle.pm_stripe.specs.Zeros.{zeroed};

use crate::fetching::place;
use crate::stripe::Stripe;
use pm_region::Lease;
use pm_types::{PageId, Patch};

impl Stripe {
    ghost use Rattle.pm_stripe.specs.Rewrites.{LendsPage, NotesPage, ClearsPage, stripe_with};
    ghost use Rattle.pm_stripe.specs.Shown.{patch_of};
    ghost use Rattle.pm_stripe.specs.contracts.stripe.Stripe.{the_row as stripe_row};

    // Notes that a page in hand was lent to be written.
    pub(crate) fn lend(&mut self, page: PageId)
        requires there { IsSome (held_at self.old.held.items page.0) }
        ensures { LendsPage self.old self.new page }
    {
        let at = place(&self.held, page);
        self.held[at].is_lent = true;
    }

    // Joins a patch to that of a page in hand.
    pub(crate) fn note(&mut self, page: PageId, patch: &Patch)
        requires there { IsSome (held_at self.old.held.items page.0) }
        requires size { IfSome (patch_of (held_at self.old.held.items page.0))
            (λ old. old.page_size ≡ patch.now.page_size) }
        ensures { NotesPage self.old self.new page patch.now }
    {
        let at = place(&self.held, page);
        let joined = joined(&self.held[at].patch, patch);
        self.held[at].patch = Some(joined);
    }

    // Makes a page in hand anew: zeros, lent to be written, and its patch is the whole page.
    pub(crate) fn clear(&mut self, page: PageId)
        requires there { IsSome (held_at self.old.held.items page.0) }
        requires size { IsPageSize self.old.shape.page_size }
        ensures { ClearsPage self.old self.new page }
    {
        let at = place(&self.held, page);
        let whole = whole_patch(self.shape.page_size);
        let held = &mut self.held[at];
        clear(&mut held.lease);
        held.is_lent = true;
        held.patch = Some(whole);
    }

    // The bytes of a page in hand, to be written.
    pub(crate) fn bytes_mut(&mut self, page: PageId) -> &mut [u8]
        requires there { IsSome (held_at self.old.held.items page.0) }
        ensures bytes { option_map (λ held. held.lease.bytes) (held_at self.old.held.items page.0)
            ≡ Some result.now }
        ensures* lends { sem 𝓛 (Lends stripe_row (Array u8 0) self.entry result
            (stripe_with self.entry.now page)) }
    {
        let at = place(&self.held, page);
        self.held[at].lease.bytes_mut()
    }
}

// The patch that covers what both cover.
fn joined(old: &Option<Patch>, patch: &Patch) -> Patch
    requires { IfSome old.now (λ old. old.page_size ≡ patch.now.page_size) }
    ensures joins { JoinsPatch old.now patch.now result }
    ensures changed { is_changed (Some result) ≡ false → is_changed old.now ≡ false }
{
    match old {
        None => patch.copy(),
        Some(old) => {
            // For the proof alone: what every patch keeps (`IsPatch`).
            let _len = old.len();
            let mut both = old.copy();
            both.join(patch);
            both
        }
    }
}

// The patch of a page of this size that is the whole page.
pub(crate) fn whole_patch(page_size: u32) -> Patch
    requires { IsPageSize page_size }
    ensures { IsWhole page_size result }
{
    let mut whole = Patch::none(page_size);
    whole.add(0, page_size as u16);
    whole
}

// Writes zeros over the bytes of a lease.
pub(crate) fn clear(lease: &mut Lease)
    ensures { lease.new ≡ zeroed lease.old }
{
    lease.bytes_mut().fill(0);
}
