//! A worker's pages under code that works over any pages.

ghost use Rattle.std.specs.Prelude.{◌≡◌, ◌≤◌, ◌+◌, IfOk};
ghost use Rattle.pm_types.specs.declared.limits.TheConstants.{OP_PAGES};
ghost use Rattle.pm_pages.specs.Paged.{AllReadable};
ghost use Rattle.pm_pages.specs.Edits.{HasMeta};
ghost use Rattle.pm_pages.specs.SparePages.{TakesPage};
ghost use Rattle.pm_stripe.specs.Begins.{IsOwnPart};
ghost use Rattle.pm_stripe.specs.Bounds.{IsBound};
ghost use Rattle.pm_stripe.specs.Shown.{shown, IsReady, KeepsBound};

use pm_disk::PageReader;
use pm_pages::{Pages, new_page};
use pm_stripe::{Bound, Halt};
use pm_types::{OP_PAGES, PageFault};
use std::sync::Wait;

// Takes a page of a worker's pages for a new use, by code that works over any pages.
fn new_page_here<'a, Q: Wait, R: PageReader>(pages: &mut Bound<'a, Q, R>) -> Result<u32, PageFault>
    requires ready { IsReady R.tells R.history R.state pages.old }
    requires meta { HasMeta (shown R.history R.state pages.old) }
    requires room { 1 ≤ (shown R.history R.state pages.old).spare }
    requires readable { AllReadable (shown R.history R.state pages.old) }
    ensures kept { KeepsBound R.tells R.history R.state pages.old pages.new }
    ensures takes { IfOk result
        (TakesPage R.tells (shown R.history R.state pages.old) (shown R.history R.state pages.new) 1) }
{
    new_page(pages)
}

// Whether a page is there and passes its check.
fn is_had<P: Pages>(pages: &mut P, index: u32) -> bool
    requires ready { P.ready pages.old }
    requires room { 1 ≤ (P.seen pages.old).spare }
    ensures ready { P.ready pages.new }
    ensures room { (P.seen pages.old).spare ≤ (P.seen pages.new).spare + 1 }
{
    matches!(pages.view(index), Ok(Some(_)))
}

// How many of the first 32 pages are there, up to one that isn't: as many as one operation may ask for.
fn look_at_pages<P: Pages>(pages: &mut P) -> u32
    requires ready { P.ready pages.old }
    requires room { OP_PAGES ≤ (P.seen pages.old).spare }
{
    'pages: for index in 0..OP_PAGES {
        if !is_had(pages, index) {
            return index;
        }
    }
    OP_PAGES
}

// The same of a worker's pages, which are made ready for it.
fn look_where_ready<'a, Q: Wait, R: PageReader>(pages: &mut Bound<'a, Q, R>) -> Result<u32, Halt>
    requires bound { IsBound R.tells R.history R.state pages.old }
    requires part { IsOwnPart pages.old pages.old.part }
{
    match pages.ready() {
        Err(halt) => Err(halt),
        Ok(()) => Ok(look_at_pages(pages)),
    }
}
