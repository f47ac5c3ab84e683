//! Operations that note ranges of one page as changed, that make it anew, and that have a logical record alone; and
//! what each of them hands to the log writer.

ghost use Rattle.std.specs.Prelude.{◌≡◌, ℕ, ◌+◌, ◌≤◌, IsTrue, true};
ghost use Rattle.std.specs.Option.{option_copied};
ghost use Rattle.pm_pages.specs.Paged.{IsThere, IsTold};
ghost use Rattle.pm_stripe.specs.Begins.{IsOwnPart};
ghost use Rattle.pm_stripe.specs.Bounds.{IsBound};
ghost use Rattle.pm_stripe.specs.Covers.{NotesChanges};
ghost use Rattle.pm_stripe.specs.Listings.{MayBeLogical, given_record};

use crate::worker_pages::stop::Stop;
use pm_disk::PageReader;
use pm_pages::Pages;
use pm_records::LogRecord;
use pm_stripe::{Bound, Halt};
use pm_types::Patch;
use std::alloc::Global;
use std::sync::Wait;

/// The page that the operations change.
pub const INDEX: u32 = 5;

// The patch of these ranges of a page of 1,024 bytes.
fn patch_of(ranges: &[(u16, u16)]) -> Patch
    ensures { result.page_size ≡ 1024 }
{
    let mut patch = Patch::none(1024);
    'each: for (at, len) in ranges {
        if *at < 1024 && *len <= 1024 - *at {
            patch.add(*at, *len);
        }
    }
    patch
}

// Whether the page is there.
fn is_there<P: Pages>(pages: &mut P) -> bool
    requires ready { P.ready pages.old }
    requires room { 1 ≤ (P.seen pages.old).spare }
    ensures kept { P.kept pages.old pages.new }
    ensures asked { result ≡ true → IsTrue ((P.seen pages.new).asked INDEX) }
    ensures there { result ≡ true → IsThere (P.seen pages.new) INDEX }
    ensures pages { (j : ℕ) → IsTold P.tells (P.seen pages.old) j
        → (P.seen pages.new).pages j ≡ (P.seen pages.old).pages j }
    ensures known { (j : ℕ) → IsTrue ((P.seen pages.old).known j)
        → IsTrue ((P.seen pages.new).known j) }
    ensures size { (P.seen pages.new).page_size ≡ (P.seen pages.old).page_size }
    ensures notes { NotesChanges P.tells (P.seen pages.old) (P.seen pages.new) }
{
    matches!(pages.view(INDEX), Ok(Some(_)))
}

// Notes these ranges of the page, which was asked for, and changes no byte.
fn note_ranges<P: Pages>(pages: &mut P, ranges: &[(u16, u16)])
    requires ready { P.ready pages.old }
    requires asked { IsTrue ((P.seen pages.old).asked INDEX) }
    requires there { IsThere (P.seen pages.old) INDEX }
    ensures kept { P.kept pages.old pages.new }
    ensures notes { NotesChanges P.tells (P.seen pages.old) (P.seen pages.new) }
{
    if pages.change(INDEX).is_err() {
        return;
    }
    if pages.page_size() == 1024 {
        pages.note(INDEX, &patch_of(ranges));
    }
}

// The same, where the page is there.
fn note_if_there<P: Pages>(pages: &mut P, ranges: &[(u16, u16)])
    requires ready { P.ready pages.old }
    requires room { 1 ≤ (P.seen pages.old).spare }
    ensures kept { P.kept pages.old pages.new }
    ensures notes { NotesChanges P.tells (P.seen pages.old) (P.seen pages.new) }
{
    if is_there(pages) {
        note_ranges(pages, ranges);
    }
}

// An operation that notes these ranges of the page.
fn note<'a, Q: Wait, R: PageReader>(
    pages: &mut Bound<'a, Q, R>,
    ranges: &[(u16, u16)],
) -> Result<(), Halt>
    requires bound { IsBound R.tells R.history R.state pages.old }
    requires part { IsOwnPart pages.old pages.old.part }
    ensures bound { IsBound R.tells R.history R.state pages.new }
    ensures part { IsOwnPart pages.new pages.new.part }
{
    pages.ready()?;
    note_if_there(pages, ranges);
    pages.done(1, None);
    Ok(())
}

// Sets three bytes of a page.
fn set_bytes(page: &mut [u8]) {
    if page.len() == 1024 {
        page[32] = 7;
        page[33] = 8;
        page[1023] = 9;
    }
}

// Makes the page anew, with these three bytes, if that can be done.
fn make_page<P: Pages>(pages: &mut P)
    requires ready { P.ready pages.old }
    requires room { 1 ≤ (P.seen pages.old).spare }
    ensures kept { P.kept pages.old pages.new }
    ensures notes { NotesChanges P.tells (P.seen pages.old) (P.seen pages.new) }
{
    if pages.fresh(INDEX).is_err() {
        return;
    }
    set_bytes(pages.page_mut(INDEX));
}

// An operation that makes the page anew.
fn make<'a, Q: Wait, R: PageReader>(pages: &mut Bound<'a, Q, R>) -> Result<(), Halt>
    requires bound { IsBound R.tells R.history R.state pages.old }
    requires part { IsOwnPart pages.old pages.old.part }
    ensures bound { IsBound R.tells R.history R.state pages.new }
    ensures part { IsOwnPart pages.new pages.new.part }
{
    pages.ready()?;
    make_page(pages);
    pages.done(1, None);
    Ok(())
}

/// An operation that asks for no page, with this line and this record.
pub fn log<'a, Q: Wait, R: PageReader>(
    pages: &mut Bound<'a, Q, R>,
    line: u32,
    rec: Option<&LogRecord<'_>>,
) -> Result<(), Halt>
    requires bound { IsBound R.tells R.history R.state pages.old }
    requires part { IsOwnPart pages.old pages.old.part }
    requires logical { MayBeLogical (given_record (option_copied rec)) }
    ensures bound { IsBound R.tells R.history R.state pages.new }
    ensures part { IsOwnPart pages.new pages.new.part }
{
    pages.ready()?;
    pages.done(line, rec);
    Ok(())
}

// A copy of all that the outbox has, which is taken out of it.
fn sent<'a, Q: Wait, R: PageReader>(
    alloc: Global,
    pages: &mut Bound<'a, Q, R>,
) -> Result<Vec<u8>, Stop>
    requires bound { IsBound R.tells R.history R.state pages.old }
    requires part { IsOwnPart pages.old pages.old.part }
    ensures bound { IsBound R.tells R.history R.state pages.new }
    ensures part { IsOwnPart pages.new pages.new.part }
{
    let bytes = Vec::from_slice(alloc, pages.outbox())?;
    let len = pages.outbox().len();
    pages.sent(len);
    Ok(bytes)
}

/// What an operation hands over that notes these ranges of the page.
pub fn noted<'a, Q: Wait, R: PageReader>(
    alloc: Global,
    pages: &mut Bound<'a, Q, R>,
    ranges: &[(u16, u16)],
) -> Result<Vec<u8>, Stop>
    requires bound { IsBound R.tells R.history R.state pages.old }
    requires part { IsOwnPart pages.old pages.old.part }
    ensures bound { IsBound R.tells R.history R.state pages.new }
    ensures part { IsOwnPart pages.new pages.new.part }
{
    note(pages, ranges)?;
    sent(alloc, pages)
}

/// What an operation hands over that makes the page anew.
pub fn made<'a, Q: Wait, R: PageReader>(
    alloc: Global,
    pages: &mut Bound<'a, Q, R>,
) -> Result<Vec<u8>, Stop>
    requires bound { IsBound R.tells R.history R.state pages.old }
    requires part { IsOwnPart pages.old pages.old.part }
    ensures bound { IsBound R.tells R.history R.state pages.new }
    ensures part { IsOwnPart pages.new pages.new.part }
{
    make(pages)?;
    sent(alloc, pages)
}
