//! The pages of a partition as a list in memory.

ghost use Rattle.std.specs.Prelude.{◌≡◌, ℕ, ◌+◌, ◌^◌, ◌<◌, ◌≤◌, ◌++◌, [], ◌∷◌, None, Some, IfOk, OnOk};
ghost use Rattle.std.specs.Prelude.{OnErr, MatchOption, All, length, replicate};
ghost use Rattle.std.specs.Vec.{vec_capacity};
ghost use Rattle.std.specs.Borrow.{sem, Lends, Array, u8};
ghost use Rattle.pm_types.specs.PageSizes.{IsPageSize};
ghost use Rattle.pm_types.specs.declared.limits.TheConstants.{OP_PAGES};
ghost use Rattle.pm_types.specs.contracts.page.Page.{the_row as page_row};
ghost use Rattle.pm_pages.specs.Asked.{IsNextChanged};
ghost use Rattle.pm_pages.specs.PageLists.{pages_in};
ghost use Rattle.pm_pages.specs.PlainRooms.{AreZeros, IsOfSize};
ghost use Rattle.pm_pages.specs.Plain.{shown, refilled, plain_seen, plain_count, ArePlain};
ghost use Rattle.pm_pages.specs.Plain.{ArePlainReady, MakesReady};

use crate::asked::{Asked, ask, entry, lend, make, next_changed, note};
use crate::pages::Pages;
use pm_types::{OP_PAGES, Page, PageFault, PageId, Patch, Shape};
use std::alloc::{AllocError, Global};

/// Pages of a partition as a list of vectors, with a patch for each that was changed since `ready`.
///
/// Every page counts as read: `view` and `change` look at no check, and no call on a disk can fail.
///
/// Tests and `pm_bench` alone use it: the program's pages stand in page frames (`pm_stripe::Bound`).
#[derive(Drop)]
pub struct PlainPages {
    // The store's shape.
    shape: Shape,
    part: u16,
    pages: Vec<Page>,
    // Pages of zeros, for those that are made.
    rooms: Vec<Page>,
    // The pages that were asked for since `ready`.
    asked: Vec<Asked>,
}

impl PlainPages {
    /// No page yet, of a partition with this number, in a store of this shape.
    pub fn new(alloc: Global, shape: &Shape, part: u16) -> Result<PlainPages, AllocError>
        requires { IsPageSize shape.now.page_size }
        ensures plain { IfOk result ArePlain }
        ensures shows { IfOk result (λ made. shown made ≡ record {
          page_size = shape.now.page_size;
          max_rows = shape.now.max_rows;
          part = part;
          pages = [];
          asked = [];
        }) }
    {
        PlainPages::of(alloc, shape, part, Vec::new(alloc))
    }

    /// These pages, of a partition with this number, in a store of this shape. Each has an index of 32 bits.
    pub fn of(
        alloc: Global,
        shape: &Shape,
        part: u16,
        pages: Vec<Page>,
    ) -> Result<PlainPages, AllocError>
        requires size { IsPageSize shape.now.page_size }
        requires sized { All (IsOfSize shape.now.page_size) pages.items }
        requires indexed { length pages.items ≤ 2 ^ 32 }
        ensures plain { IfOk result ArePlain }
        ensures shows { IfOk result (λ made. shown made ≡ record {
          page_size = shape.now.page_size;
          max_rows = shape.now.max_rows;
          part = part;
          pages = pages.items;
          asked = [];
        }) }
    {
        let asked = Vec::with_capacity(alloc, OP_PAGES as usize)?;
        Ok(PlainPages {
            shape: *shape,
            part,
            pages,
            rooms: Vec::new(alloc),
            asked,
        })
    }

    /// How many pages there are.
    pub fn len(&self) -> usize
        ensures { result ≡ plain_count self.now }
    {
        self.pages.len()
    }

    /// The bytes of a page, if it is there.
    pub fn page(&self, index: u32) -> Option<&[u8]>
        ensures { MatchOption result ((plain_seen self.now).pages index ≡ None)
            (λ bytes. (plain_seen self.now).pages index ≡ Some bytes.now) }
    {
        match self.pages.get(index as usize) {
            Some(page) => Some(page.bytes.as_slice()),
            None => None,
        }
    }

    /// A page's patch since `ready`: `None` where none was noted and the page wasn't made since.
    pub fn patch(&self, index: u32) -> Option<Patch>
        ensures { result ≡ (plain_seen self.now).patch index }
    {
        match entry(&self.asked, index) {
            Some(entry) => match &entry.patch {
                Some(patch) => Some(patch.copy()),
                None => None,
            },
            None => None,
        }
    }

    /// The lowest index, from `from` on, of a page that was changed since `ready`: one that was made, or of
    /// which a patch was noted that covers a byte. `None` where there is none.
    pub fn next_changed(&self, from: u32) -> Option<u32>
        ensures { IsNextChanged (plain_seen self.now).patch from result }
    {
        next_changed(&self.asked, from)
    }

    /// Makes room for `OP_PAGES` new pages, and begins anew to count the pages that are asked for.
    /// No page has a patch then.
    ///
    /// Out of memory leaves the pages as before, and what was asked for and noted.
    pub fn ready(&mut self, alloc: Global) -> Result<(), AllocError>
        requires { ArePlain self.old }
        ensures plain { ArePlain self.new }
        ensures ready { OnOk result (ArePlainReady self.new) }
        ensures makes_ready { OnOk result (MakesReady (plain_seen self.old) (plain_seen self.new)) }
        ensures unchanged { OnErr result (shown self.new ≡ shown self.old) }
        ensures still_ready { OnErr result (ArePlainReady self.old → ArePlainReady self.new) }
    {
        fill_rooms(alloc, &mut self.rooms, self.shape.page_size)?;
        self.pages.reserve(OP_PAGES as usize)?;
        self.asked.clear();
        Ok(())
    }
}

// Makes as many pages of zeros as may be needed. Those that are there stay, whatever is answered.
fn fill_rooms(alloc: Global, rooms: &mut Vec<Page>, page_size: u32) -> Result<(), AllocError>
    requires { All (AreZeros page_size) rooms.old.items }
    ensures zeros { All (AreZeros page_size) rooms.new.items }
    ensures more { length rooms.old.items ≤ length rooms.new.items }
    ensures enough { OnOk result (OP_PAGES ≤ length rooms.new.items) }
{
    'rooms: for _ in rooms.len()..OP_PAGES as usize {
        rooms.push(zeros(alloc, page_size)?)?;
    }
    Ok(())
}

// A page of zeros.
fn zeros(alloc: Global, page_size: u32) -> Result<Page, AllocError>
    ensures { IfOk result (AreZeros page_size) }
{
    let bytes = vec![in alloc; 0; page_size as usize]?;
    Ok(Page { bytes })
}

// Writes zeros over a page.
fn clear(page: &mut Page)
    ensures { page.new.bytes.items ≡ replicate (length page.old.bytes.items) 0 }
{
    page.bytes.as_mut_slice().fill(0);
}

// The bytes of a page, to be written: a function of its own, since a loan isn't followed through two fields.
fn bytes_of_mut(page: &mut Page) -> &mut [u8]
    ensures page { result.now ≡ page.old.bytes.items }
    ensures* lends { sem 𝓛 (Lends page_row (Array u8 0) page.entry result (refilled page.entry.now)) }
{
    page.bytes.as_mut_slice()
}

// Takes a page of zeros out of those that are kept.
fn take_room(rooms: &mut Vec<Page>) -> Page
    requires { 0 < length rooms.old.items }
    ensures zeros { (size : ℕ) → All (AreZeros size) rooms.old.items → AreZeros size result }
    ensures rest { (size : ℕ) → All (AreZeros size) rooms.old.items
        → All (AreZeros size) rooms.new.items }
    ensures len { length rooms.new.items + 1 ≡ length rooms.old.items }
{
    rooms.pop().unwrap()
}

// Appends a page, for which there is room.
fn append(pages: &mut Vec<Page>, page: Page)
    requires { length pages.old.items < vec_capacity pages.old }
    ensures appended { pages.new.items ≡ pages.old.items ++ page ∷ [] }
    ensures capacity { vec_capacity pages.old ≤ vec_capacity pages.new }
{
    pages.push(page).unwrap();
}

impl Pages for PlainPages {
    ghost use Rattle.pm_pages.specs.Plain.{plain_seen, ArePlainReady, KeepsPlain, plain_written};
    ghost use Rattle.pm_pages.specs.PlainLaws as laws;

    ghost tells = { Unit {0} };

    ghost seen = { plain_seen };

    ghost ready = { ArePlainReady };

    ghost kept = { KeepsPlain };

    ghost written = { plain_written };

    fn page_size(&self) -> u32 {
        self.shape.page_size
    }

    fn part(&self) -> u16 {
        self.part
    }

    fn view(&mut self, index: u32) -> Result<Option<&[u8]>, PageFault> {
        if (index as usize) < self.pages.len() {
            ask(&mut self.asked, index);
            return Ok(Some(self.pages[index as usize].bytes.as_slice()));
        }
        if index == 0 {
            return Ok(None);
        }
        Err(PageFault::BadPage(PageId::new(self.part, index)))
    }

    fn change(&mut self, index: u32) -> Result<(), PageFault> {
        lend(&mut self.asked, index);
        Ok(())
    }

    fn fresh(&mut self, index: u32) -> Result<(), PageFault> {
        if index as usize > self.pages.len() {
            return Err(PageFault::BadPage(PageId::new(self.part, index - 1)));
        }
        make(&mut self.asked, index, self.shape.page_size);
        if (index as usize) < self.pages.len() {
            clear(&mut self.pages[index as usize]);
            return Ok(());
        }
        let room = take_room(&mut self.rooms);
        append(&mut self.pages, room);
        Ok(())
    }

    fn page_mut(&mut self, index: u32) -> &mut [u8] {
        bytes_of_mut(&mut self.pages[index as usize])
    }

    fn note(&mut self, index: u32, patch: &Patch) {
        note(&mut self.asked, index, patch);
    }

    fn let_go(&mut self) {
        self.asked.clear();
    }

    ghost kept_refl = { laws.kept_refl };

    ghost kept_then = { laws.kept_then };

    ghost kept_ready = { λ p q keeps. keeps.ready };

    ghost writes = { laws.writes };

    ghost kept_written = { laws.kept_written };
}
