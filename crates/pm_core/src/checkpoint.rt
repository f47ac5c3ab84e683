//! A checkpoint as typed states: it is begun from `Idle`, its pages are written while it is
//! `Begun`, and it is finished.
//!
//!     Idle --begin--> Begun --finish--> Ended --idle--> Idle
//!                     wrote: these pages are in their files

ghost use Rattle.std.specs.Prelude.{◌≡◌, ◌+◌, length, reverse, [], IfOk, Some, None};
ghost use Rattle.std.specs.Vec.{vec_capacity};
ghost use Rattle.pm_disk.specs.States.{HasCause, IsUsable};
ghost use Rattle.pm_marks.specs.Slots.{IsMark};
ghost use Rattle.pm_core.specs.BasePages.{Partitions};
ghost use Rattle.pm_core.specs.States.{State};
ghost use Rattle.pm_core.specs.Calls.{MakesSteps, begin_steps, finish_steps};
ghost use Rattle.pm_core.specs.PageSets.{no_page, without_page, left_after, AreAmong, AreOnce};

use crate::forcing::force_parts;
use crate::page_set::PageSet;
use pm_disk::{Failed, Host};
use pm_marks::{write_end, write_start};
use pm_types::{Mark, PageId};
use std::marker::Model;

/// No checkpoint runs.
#[derive(Drop)]
pub struct Idle {
    set: Option<PageSet>,
}

impl Model for Idle {
    ghost use Rattle.std.specs.Prelude.{Option};
    ghost use Rattle.pm_core.specs.PageSets.{PageList};

    ghost Value = { Option PageList };

    ghost view = { λ idle. idle.set };
}

impl Idle {
    /// No checkpoint runs, and the next one's pages are kept in this set, which is empty.
    pub fn new(set: PageSet) -> Idle
        requires { set.pages ≡ [] }
        ensures { result ≡ Some set }
    {
        Idle { set: Some(set) }
    }

    /// Gives the set that it keeps, none exactly where it was taken before.
    pub fn take_set(&mut self) -> Option<PageSet>
        ensures taken { result ≡ self.old }
        ensures left { self.new ≡ None }
    {
        self.set.take()
    }

    /// Begins a checkpoint with these pages: writes its start marker and forces it. After `Failed`
    /// the marker may be written or not, and the store has to be opened again.
    pub fn begin<H: Host>(self, host: &mut H, mark: Mark, set: PageSet) -> Result<Begun, Failed>
        requires usable { IsUsable (H.Device.state host.old) }
        requires mark { IsMark mark }
        ensures begun { IfOk result (λ begun. begun ≡ record { mark = mark; set = set; left = set.pages }) }
        ensures steps { H.Device.tells → (s : State) (rebuilt : Partitions)
            → MakesSteps (H.Device.history host.old) (H.Device.history host.new) result
            (begin_steps mark rebuilt) s }
        ensures cause { HasCause (H.Device.state host.old) (H.Device.state host.new) result }
    {
        write_start(host, &mark)?;
        let PageSet { pages, mut left } = set;
        left.reverse();
        Ok(Begun { mark, pages, left })
    }
}

/// A checkpoint runs: its start marker is in force, and its pages are to be written.
#[derive(Drop)]
pub struct Begun {
    mark: Mark,
    pages: Vec<PageId>,
    // Those that are not written yet, the last of them first: the next one in the set's order is at the end.
    left: Vec<PageId>,
}

impl Model for Begun {
    ghost use Rattle.std.specs.Prelude.{◌≡◌, ◌-◌, length, reverse};
    ghost use Rattle.std.specs.Vec.{vec_capacity};
    ghost use Rattle.pm_core.specs.PageSets.{AreOnce, Running};

    ghost Value = { Running };

    ghost view = { λ begun. record {
      mark = begun.mark;
      set = record {
        pages = begun.pages.items;
        spare = vec_capacity begun.pages - length begun.pages.items;
      };
      left = reverse begun.left.items;
    } };

    ghost invariant = { λ begun. (vec_capacity begun.left ≡ vec_capacity begun.pages)
        × AreOnce (reverse begun.left.items) };
}

impl Begun {
    /// Notes that these pages are written. Each of them is a page of the checkpoint. In the set's order each
    /// takes the same time, and in another one a search of those that are left.
    pub fn wrote(&mut self, pages: &[PageId])
        requires { AreAmong pages.now self.old.set.pages }
        ensures { self.new ≡ record self.old { left = left_after pages.now self.old.left } }
    {
        forget_all(&mut self.left, pages);
    }

    /// Finishes the checkpoint, each of whose pages is written: forces the files of its pages, and
    /// then writes its end marker and forces it. After `Failed` some of this may be done, and the
    /// store has to be opened again.
    pub fn finish<H: Host>(self, host: &mut H) -> Result<Ended, Failed>
        requires usable { IsUsable (H.Device.state host.old) }
        requires mark { IsMark self.mark }
        requires written { self.left ≡ [] }
        ensures ended { IfOk result
            (λ ended. ended ≡ record { mark = self.mark; room = length self.set.pages + self.set.spare }) }
        ensures steps { H.Device.tells → (s : State)
            → MakesSteps (H.Device.history host.old) (H.Device.history host.new) result
            (finish_steps self.mark self.set.pages) s }
        ensures cause { HasCause (H.Device.state host.old) (H.Device.state host.new) result }
    {
        force_parts(host, &self.pages)?;
        write_end(host, &self.mark)?;
        let Begun { mark, pages, left } = self;
        Ok(Ended { mark, pages, left })
    }
}

/// A checkpoint is ended: its end marker is in force.
#[derive(Drop)]
pub struct Ended {
    mark: Mark,
    pages: Vec<PageId>,
    left: Vec<PageId>,
}

impl Model for Ended {
    ghost use Rattle.std.specs.Prelude.{◌≡◌};
    ghost use Rattle.std.specs.Vec.{vec_capacity};
    ghost use Rattle.pm_core.specs.PageSets.{Finished};

    ghost Value = { Finished };

    ghost view = { λ ended. record { mark = ended.mark; room = vec_capacity ended.pages } };

    ghost invariant = { λ ended. vec_capacity ended.left ≡ vec_capacity ended.pages };
}

impl Ended {
    /// The checkpoint's mark.
    pub fn mark(&self) -> Mark
        ensures { result ≡ self.now.mark }
    {
        self.mark
    }

    /// No checkpoint runs, and the set of this one's pages is kept, emptied.
    pub fn idle(self) -> Idle
        ensures { result ≡ Some (no_page self.room) }
    {
        let Ended {
            mut pages,
            mut left,
            ..
        } = self;
        pages.clear();
        left.clear();
        Idle {
            set: Some(PageSet { pages, left }),
        }
    }
}

// Takes pages out of those that are not written, which stand the last of them first.
fn forget_all(left: &mut Vec<PageId>, pages: &[PageId])
    requires { AreOnce (reverse left.old.items) }
    ensures left { reverse left.new.items ≡ left_after pages.now (reverse left.old.items) }
    ensures once { AreOnce (reverse left.new.items) }
    ensures capacity { vec_capacity left.new ≡ vec_capacity left.old }
{
    'each: for page in pages {
        forget(left, *page);
    }
}

// Takes a page out of those that are not written.
fn forget(left: &mut Vec<PageId>, page: PageId)
    requires { AreOnce (reverse left.old.items) }
    ensures left { reverse left.new.items ≡ without_page page (reverse left.old.items) }
    ensures once { AreOnce (reverse left.new.items) }
    ensures capacity { vec_capacity left.new ≡ vec_capacity left.old }
{
    let Some(next) = left.pop() else {
        return;
    };
    if next.0 == page.0 {
        return;
    }
    left.retain(|other| other.0 != page.0);
    left.push_reserved(next);
}
