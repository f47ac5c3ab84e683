//! Operations of a worker that look at a page and make one, by code that works over any pages.

ghost use Rattle.std.specs.Prelude.{◌≡◌, ◌+◌, ◌≤◌};
ghost use Rattle.pm_stripe.specs.Begins.{IsOwnPart};
ghost use Rattle.pm_stripe.specs.Covers.{NotesChanges};
ghost use Rattle.pm_stripe.specs.Bounds.{IsBound};

use pm_disk::PageReader;
use pm_pages::Pages;
use pm_stripe::{Bound, Halt};
use std::sync::Wait;

// The first byte of a page, where there is one.
fn first_byte<P: Pages>(pages: &mut P, index: u32) -> Option<u8>
    requires ready { P.ready pages.old }
    requires room { 1 ≤ (P.seen pages.old).spare }
    ensures kept { P.kept pages.old pages.new }
    ensures room { (P.seen pages.old).spare ≤ (P.seen pages.new).spare + 1 }
    ensures notes { NotesChanges P.tells (P.seen pages.old) (P.seen pages.new) }
{
    match pages.view(index) {
        Ok(Some(bytes)) => bytes.first().copied(),
        _ => None,
    }
}

// Makes a page anew with this first byte, if that can be done.
fn make_page<P: Pages>(pages: &mut P, index: u32, byte: u8)
    requires ready { P.ready pages.old }
    requires room { 1 ≤ (P.seen pages.old).spare }
    ensures kept { P.kept pages.old pages.new }
    ensures notes { NotesChanges P.tells (P.seen pages.old) (P.seen pages.new) }
{
    if pages.fresh(index).is_err() {
        return;
    }
    if let Some(first) = pages.page_mut(index).first_mut() {
        *first = byte;
    }
}

/// An operation that looks at a page.
pub fn look<'a, Q: Wait, R: PageReader>(
    pages: &mut Bound<'a, Q, R>,
    index: u32,
) -> Result<Option<u8>, Halt>
    requires bound { IsBound R.tells R.history R.state pages.old }
    requires part { IsOwnPart pages.old pages.old.part }
    ensures bound { IsBound R.tells R.history R.state pages.new }
    ensures locks { pages.new.locks ≡ pages.old.locks }
    ensures part { IsOwnPart pages.new pages.new.part }
    ensures stays { pages.new.part ≡ pages.old.part }
{
    pages.ready()?;
    let first = first_byte(pages, index);
    pages.done(1, None);
    Ok(first)
}

/// An operation that makes a page.
pub fn make<'a, Q: Wait, R: PageReader>(
    pages: &mut Bound<'a, Q, R>,
    index: u32,
    byte: u8,
) -> Result<(), Halt>
    requires bound { IsBound R.tells R.history R.state pages.old }
    requires part { IsOwnPart pages.old pages.old.part }
    ensures bound { IsBound R.tells R.history R.state pages.new }
    ensures locks { pages.new.locks ≡ pages.old.locks }
    ensures part { IsOwnPart pages.new pages.new.part }
{
    pages.ready()?;
    make_page(pages, index, byte);
    pages.done(1, None);
    Ok(())
}

/// Looks at a page and makes another one, by an operation that doesn't end.
pub fn leave_in_hand<'a, Q: Wait, R: PageReader>(
    pages: &mut Bound<'a, Q, R>,
    read: u32,
    made: u32,
    byte: u8,
) -> Result<Option<u8>, Halt>
    requires bound { IsBound R.tells R.history R.state pages.old }
    requires part { IsOwnPart pages.old pages.old.part }
    ensures bound { IsBound R.tells R.history R.state pages.new }
    ensures locks { pages.new.locks ≡ pages.old.locks }
    ensures part { IsOwnPart pages.new pages.new.part }
{
    pages.ready()?;
    let first = first_byte(pages, read);
    make_page(pages, made, byte);
    Ok(first)
}

/// Makes pages from 1 up to, but not with, `end`, each by an operation of its own, until one can't begin.
pub fn make_pages<'a, Q: Wait, R: PageReader>(
    pages: &mut Bound<'a, Q, R>,
    end: u32,
) -> Result<u32, Halt>
    requires bound { IsBound R.tells R.history R.state pages.old }
    requires part { IsOwnPart pages.old pages.old.part }
    ensures bound { IsBound R.tells R.history R.state pages.new }
    ensures locks { pages.new.locks ≡ pages.old.locks }
    ensures part { IsOwnPart pages.new pages.new.part }
{
    'pages: for index in 1..end {
        make(pages, index, (index % 251) as u8)?;
    }
    Ok(end)
}
