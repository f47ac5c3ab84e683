//! The pages of a partition, asked for one at a time.

ghost use Rattle.std.specs.Prelude.{◌≡◌, ℕ, ◌≤◌, List, Some, IsTrue, IfOk, IfSome, IfNone, OnErr, OnOk, length};
ghost use Rattle.std.specs.Borrow.{sem, Lends, Array, u8};
ghost use Rattle.std.specs.Io.BufRead.{Rests};
ghost use Rattle.pm_types.specs.PageSizes.{IsPageSize};
ghost use Rattle.pm_pages.specs.Paged.{Paged, IsTold, IsThere, HasRoomFor, NoneLent, AsksPage};
ghost use Rattle.pm_pages.specs.Paged.{AsksInVain, LendsNone, IsPageIn, IsFirstAbsent, IsInHand};
ghost use Rattle.pm_pages.specs.Paged.{IsLent, WritesPage, MakesPage, NotesPatch, GivesUpPages};
ghost use Rattle.pm_pages.specs.Paged.{HasPageCause, HasGapCause};

use pm_types::{PageFault, Patch};

/// The pages of a partition, lent one at a time, over a store of whose content maybe nothing is known.
///
/// Each call has the condition that the last `ready` answered Ok, which the ghost `ready` says. That call
/// isn't of the trait: it is `pm_stripe::Bound::ready`, or `PlainPages::ready`. A call that asks for a page
/// has another condition: fewer than `OP_PAGES` different pages were asked for since then, or this page was
/// among them. A call that fails, or whose page isn't there, doesn't count.
pub trait Pages {
    /// Whether contracts know the content of pages that weren't read.
    ghost tells: { Type 0 };
    /// What contracts see of the pages.
    ghost seen: { Self → Paged };
    /// The last `ready` answered Ok, and all is in order.
    ghost ready: { Self → Type 0 };
    /// What no call changes of all else that the pages stand on.
    ghost kept: { Self → Self → Type 0 };
    /// The same pages, with these bytes as one of them.
    ghost written: { Self → ℕ → List ℕ → Self };

    /// How many bytes each page has.
    fn page_size(&self) -> u32
        requires { ready self.now }
        ensures size { result ≡ (seen self.now).page_size }
        ensures page_size { IsPageSize result };

    /// The partition's number, by which pages are named.
    fn part(&self) -> u16
        requires { ready self.now }
        ensures { result ≡ (seen self.now).part };

    /// The bytes of a page. `None` comes only where page 0 is asked for and the partition has none.
    ///
    /// `Failed` comes only where a call on the disk failed, and `BadPage`, which names the page,
    /// only where it isn't there or fails its check. No page is changed, whatever is answered.
    fn view(&mut self, index: u32) -> Result<Option<&[u8]>, PageFault>
        requires ready { ready self.old }
        requires room { HasRoomFor (seen self.old) index }
        ensures page { IfOk result (λ page. IfSome page (λ bytes.
            IsPageIn tells (seen self.old) index bytes.now)) }
        ensures none { IfOk result (λ page. IfNone page (IsFirstAbsent tells (seen self.old) index)) }
        ensures* rests { sem 𝓛 (Rests Self.row self.entry (λ left.
            kept self.entry.now left
            × AsksPage tells (seen self.entry.now) (seen left) index
            × LendsNone (seen self.entry.now) (seen left)
            × HasPageCause tells (seen self.entry.now) (seen left).faults index result
            × IfOk result (λ page. IfSome page (λ bytes. IsInHand (seen left) index bytes.now)
            × IfNone page ((seen self.entry.now).spare ≤ (seen left).spare))
            × OnErr result ((seen self.entry.now).spare ≤ (seen left).spare))) };

    /// Asks for a page to be written, which `page_mut` then lends. `note` says which bytes may have changed.
    ///
    /// An error has a cause as in `view`. No page is changed, and none is lent besides.
    fn change(&mut self, index: u32) -> Result<(), PageFault>
        requires ready { ready self.old }
        requires room { HasRoomFor (seen self.old) index }
        requires there { IsTold tells (seen self.old) index → IsThere (seen self.old) index }
        ensures kept { kept self.old self.new }
        ensures asks { AsksPage tells (seen self.old) (seen self.new) index }
        ensures lent { OnOk result (IsLent (seen self.new) index) }
        ensures unchanged { OnErr result (AsksInVain tells (seen self.old) (seen self.new) index) }
        ensures cause { HasPageCause tells (seen self.old) (seen self.new).faults index result };

    /// Makes a page of zeros, new or in place of what it was, which `page_mut` then lends. Its
    /// patch is the whole page.
    ///
    /// `Failed` comes only where a call on the disk failed, and `BadPage` only where the page
    /// before this one, which it names, isn't there. No page is changed then, and none is lent
    /// besides.
    fn fresh(&mut self, index: u32) -> Result<(), PageFault>
        requires ready { ready self.old }
        requires room { HasRoomFor (seen self.old) index }
        ensures kept { kept self.old self.new }
        ensures makes { OnOk result (MakesPage tells (seen self.old) (seen self.new) index) }
        ensures unchanged { OnErr result (AsksInVain tells (seen self.old) (seen self.new) index) }
        ensures cause { HasGapCause tells (seen self.old) (seen self.new).faults index result };

    /// Lends the bytes of a page that `change` or `fresh` made ready for it since `ready`.
    fn page_mut(&mut self, index: u32) -> &mut [u8]
        requires ready { ready self.old }
        requires lent { IsTrue ((seen self.old).lent index) }
        ensures page { (seen self.old).pages index ≡ Some result.now }
        ensures size { length result.now ≡ (seen self.old).page_size }
        ensures* lends { sem 𝓛 (Lends Self.row (Array u8 0) self.entry result (written self.entry.now index)) };

    /// Joins a patch to that of a page which was lent since `ready`.
    fn note(&mut self, index: u32, patch: &Patch)
        requires ready { ready self.old }
        requires lent { IsTrue ((seen self.old).lent index) }
        requires size { patch.now.page_size ≡ (seen self.old).page_size }
        ensures kept { kept self.old self.new }
        ensures notes { NotesPatch tells (seen self.old) (seen self.new) index patch.now };

    /// Gives up the pages that were asked for since `ready`, none of which was lent to be written.
    fn let_go(&mut self)
        requires ready { ready self.old }
        requires none_lent { NoneLent (seen self.old) }
        ensures kept { kept self.old self.new }
        ensures gives_up { GivesUpPages tells (seen self.old) (seen self.new) };

    ghost kept_refl: { (s : Self) → kept s s };

    ghost kept_then: { (s t u : Self) → kept s t → kept t u → kept s u };

    ghost kept_ready: { (s t : Self) → kept s t → ready s → ready t };

    ghost writes: { (s : Self) (i : ℕ) (bytes : List ℕ) → ready s → IsTrue ((seen s).lent i)
        → length bytes ≡ (seen s).page_size → WritesPage (seen s) (seen (written s i bytes)) i bytes };

    ghost kept_written: { (s : Self) (i : ℕ) (bytes : List ℕ) → ready s → IsTrue ((seen s).lent i)
        → length bytes ≡ (seen s).page_size → kept s (written s i bytes) };
}
