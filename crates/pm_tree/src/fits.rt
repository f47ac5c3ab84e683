//! Whether an inner page has a place and room for a new child.

ghost use Rattle.std.specs.Prelude.{◌≡◌, ◌≢◌, ℕ, ◌<◌, ◌≤◌, ◌↔◌, IfOk, IsTrue, length};
ghost use Rattle.pm_btpage.specs.IndexPages.{items_of, key_in, IsBelow, IsBetween, IsIndexPage};
ghost use Rattle.pm_pages.specs.PageLists.{IsReadable};
ghost use Rattle.pm_pages.specs.Paged.{AllReadable, HasPageCause};
ghost use Rattle.pm_pages.specs.Edits.{LooksAtPages};
ghost use Rattle.pm_tree.specs.Grown.{IsFitOn, IsFitIn};

use pm_btpage::{INNER_KIND, capacity, count, is_below, key_at};
use pm_pages::Pages;
use pm_types::PageFault;
use pm_types::head::KIND_AT;

/// Whether a page takes a new child.
#[derive(Clone, Copy, Debug, PartialEq, Eq, Drop)]
pub enum Fit {
    /// It has a place for it, and room.
    Room,
    /// It has a place for it, and no room.
    Full,
    /// It has no place for it, or is no inner page.
    Wrong,
}

fn fit_on(page: &[u8], i: u16, key: &[u8]) -> Fit
    requires { IsReadable page.now }
    ensures { IsFitOn page.now key.now i result }
{
    if page[KIND_AT as usize] != INNER_KIND || !stands_at(page, i, key) {
        return Fit::Wrong;
    }
    if count(page) < capacity(page.len() as u32) {
        Fit::Room
    } else {
        Fit::Full
    }
}

// Whether a key stands between the items before place i and those from it on.
fn stands_at(page: &[u8], i: u16, key: &[u8]) -> bool
    requires { IsIndexPage page.now }
    ensures { IsTrue result ↔ IsBetween (items_of page.now) key.now i }
{
    i <= count(page) && is_above(page, i, key) && is_before(page, i, key)
}

/// Whether the key is above the item before place i, if there is one.
pub fn is_above(page: &[u8], i: u16, key: &[u8]) -> bool
    requires page { IsIndexPage page.now }
    requires item { i ≤ length (items_of page.now) }
    ensures { IsTrue result ↔ ((j : ℕ) → j < i → IsBelow (key_in (items_of page.now) j) key.now) }
{
    i == 0 || is_below(key_at(page, i - 1), key)
}

/// Whether the key is below item i, if there is one.
pub fn is_before(page: &[u8], i: u16, key: &[u8]) -> bool
    requires page { IsIndexPage page.now }
    requires item { i ≤ length (items_of page.now) }
    ensures { IsTrue result
        ↔ ((j : ℕ) → i ≤ j → j < length (items_of page.now) → IsBelow key.now (key_in (items_of page.now) j)) }
{
    i == count(page) || is_below(key, key_at(page, i))
}

/// Whether a page that was asked for takes a child from a key on as its child after item i.
pub fn find_fit<P: Pages>(pages: &mut P, at: u32, i: u16, key: &[u8]) -> Result<Fit, PageFault>
    requires ready { P.ready pages.old }
    requires asked { IsTrue ((P.seen pages.old).asked at) }
    requires some { 1 ≤ at }
    requires readable { AllReadable (P.seen pages.old) }
    ensures kept { P.kept pages.old pages.new }
    ensures looks { LooksAtPages P.tells (P.seen pages.old) (P.seen pages.new) 0 }
    ensures readable { AllReadable (P.seen pages.new) }
    ensures fit { IfOk result (IsFitIn (P.seen pages.new) at key.now i) }
    ensures cause { HasPageCause P.tells (P.seen pages.old) (P.seen pages.new).faults at result }
{
    match pages.view(at)? {
        // Not reached: page `at` isn't the first one.
        None => Ok(Fit::Wrong),
        Some(page) => Ok(fit_on(page, i, key)),
    }
}
