//! Callers over any pages: a byte is set on a page, and on two.

ghost use Rattle.std.specs.Prelude.{◌≡◌, ◌≢◌, ℕ, ◌+◌, ◌<◌, ◌≤◌, ◌⊎◌, Some, IsTrue, OnErr, OnOk};
ghost use Rattle.std.specs.Prelude.{IsErrOf, List, length, slice_set};
ghost use Rattle.pm_types.specs.Counts.{HasRisen};
ghost use Rattle.pm_types.specs.PageSizes.{IsPageSize};
ghost use Rattle.pm_types.specs.Spans.{Coverage, Covers};
ghost use Rattle.pm_pages.specs.Paged.{Paged, IsTold, IsThere, HasRoomFor, AsksPage, IsLent};
ghost use Rattle.pm_pages.specs.Paged.{WritesPage, NotesPatch, HasPageCause};
ghost use Rattle.pm_tests_logs.specs.Edits.{SetsByte, SetsTwoBytes, HasTwoCauses};

use pm_pages::Pages;
use pm_types::{PageFault, Patch};

// Views a page, and asks for it to be written.
fn look_and_change<P: Pages>(pages: &mut P, index: u32) -> Result<(), PageFault>
    requires ready { P.ready pages.old }
    requires room { HasRoomFor (P.seen pages.old) index }
    requires there { IsTold P.tells (P.seen pages.old) index → IsThere (P.seen pages.old) index }
    ensures kept { P.kept pages.old pages.new }
    ensures asks { AsksPage P.tells (P.seen pages.old) (P.seen pages.new) index }
    ensures ok { OnOk result (IsLent (P.seen pages.new) index) }
    ensures cause { HasPageCause P.tells (P.seen pages.old) (P.seen pages.new).faults index result }
{
    pages.view(index)?;
    pages.change(index)
}

// Sets a byte of a page that was lent.
fn put_byte<P: Pages>(pages: &mut P, index: u32, at: u16, byte: u8)
    requires ready { P.ready pages.old }
    requires lent { IsTrue ((P.seen pages.old).lent index) }
    requires within { at < (P.seen pages.old).page_size }
    ensures kept { P.kept pages.old pages.new }
    ensures writes { (was : List ℕ) → (P.seen pages.old).pages index ≡ Some was
        → WritesPage (P.seen pages.old) (P.seen pages.new) index (slice_set was at byte) }
{
    let page = pages.page_mut(index);
    page[at as usize] = byte;
}

// Notes a byte of a page that was lent.
fn note_byte<P: Pages>(pages: &mut P, index: u32, at: u16)
    requires ready { P.ready pages.old }
    requires lent { IsTrue ((P.seen pages.old).lent index) }
    requires within { at < (P.seen pages.old).page_size }
    ensures kept { P.kept pages.old pages.new }
    ensures notes { (patch : Coverage) × Covers patch at
        × NotesPatch P.tells (P.seen pages.old) (P.seen pages.new) index patch }
{
    let mut patch = Patch::none(pages.page_size());
    patch.add(at, 1);
    pages.note(index, &patch);
}

/// Sets a byte of a page.
pub fn set_byte<P: Pages>(pages: &mut P, index: u32, at: u16, byte: u8) -> Result<(), PageFault>
    requires ready { P.ready pages.old }
    requires room { HasRoomFor (P.seen pages.old) index }
    requires there { IsTold P.tells (P.seen pages.old) index → IsThere (P.seen pages.old) index }
    requires within { at < (P.seen pages.old).page_size }
    ensures kept { P.kept pages.old pages.new }
    ensures ok { OnOk result (SetsByte P.tells (P.seen pages.old) (P.seen pages.new) index at byte) }
    ensures err { OnErr result (AsksPage P.tells (P.seen pages.old) (P.seen pages.new) index) }
    ensures cause { HasPageCause P.tells (P.seen pages.old) (P.seen pages.new).faults index result }
{
    look_and_change(pages, index)?;
    put_byte(pages, index, at, byte);
    note_byte(pages, index, at);
    Ok(())
}

/// Sets a byte of two pages.
pub fn set_byte_twice<P: Pages>(
    pages: &mut P,
    first: u32,
    second: u32,
    at: u16,
    byte: u8,
) -> Result<(), PageFault>
    requires ready { P.ready pages.old }
    requires room { 2 ≤ (P.seen pages.old).spare }
    requires two { first ≢ second }
    requires there { IsTold P.tells (P.seen pages.old) first → IsThere (P.seen pages.old) first }
    requires also { IsTold P.tells (P.seen pages.old) second → IsThere (P.seen pages.old) second }
    requires within { at < (P.seen pages.old).page_size }
    ensures kept { P.kept pages.old pages.new }
    ensures ok { OnOk result (SetsTwoBytes P.tells (P.seen pages.old) (P.seen pages.new) first second at byte) }
    ensures cause { HasTwoCauses P.tells (P.seen pages.old) (P.seen pages.new).faults first second result }
{
    set_byte(pages, first, at, byte)?;
    set_byte(pages, second, at, byte)
}
