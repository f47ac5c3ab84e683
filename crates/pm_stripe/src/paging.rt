//! A worker's pages as those of the partition that is meant.

use crate::bound::Bound;
use crate::fetching::place;
use pm_disk::PageReader;
use pm_pages::Pages;
use pm_types::{PageFault, PageId, Patch};
use std::sync::Wait;

// A page in hand is looked up by its name among those in hand, of which there are 32 at most.
impl<'a, Q: Wait, R: PageReader> Pages for Bound<'a, Q, R> {
    ghost use Rattle.pm_stripe.specs.Rewrites.{bound_with};
    ghost use Rattle.pm_stripe.specs.Shown.{shown, IsReady, KeepsBound};
    ghost use Rattle.pm_stripe.specs.ShownLaws as laws;

    ghost tells = { R.tells };

    ghost seen = { shown R.history R.state };

    ghost ready = { IsReady R.tells R.history R.state };

    ghost kept = { KeepsBound R.tells R.history R.state };

    ghost written = { bound_with };

    fn page_size(&self) -> u32 {
        self.stripe.shape.page_size
    }

    fn part(&self) -> u16 {
        self.part
    }

    fn view(&mut self, index: u32) -> Result<Option<&[u8]>, PageFault> {
        let page = PageId::new(self.part, index);
        let known = place(&self.stripe.held, page);
        if known < self.stripe.held.len() {
            return Ok(Some(self.stripe.held[known].lease.bytes()));
        }
        match self.stripe.bring(self.rt, self.locks, &mut self.seat, &mut self.reader, page) {
            Err(fault) => Err(fault),
            Ok(true) => {
                let at = place(&self.stripe.held, page);
                Ok(Some(self.stripe.held[at].lease.bytes()))
            }
            Ok(false) => {
                if index == 0 {
                    Ok(None)
                } else {
                    Err(PageFault::BadPage(page))
                }
            }
        }
    }

    fn change(&mut self, index: u32) -> Result<(), PageFault> {
        let page = PageId::new(self.part, index);
        match self.stripe.fetch(self.rt, self.locks, &mut self.seat, &mut self.reader, page) {
            Err(fault) => Err(fault),
            Ok(true) => {
                self.stripe.lend(page);
                Ok(())
            }
            Ok(false) => Err(PageFault::BadPage(page)),
        }
    }

    fn fresh(&mut self, index: u32) -> Result<(), PageFault> {
        let page = PageId::new(self.part, index);
        self.stripe.make(self.rt, self.locks, &mut self.seat, page);
        Ok(())
    }

    fn page_mut(&mut self, index: u32) -> &mut [u8] {
        let page = PageId::new(self.part, index);
        self.stripe.bytes_mut(page)
    }

    fn note(&mut self, index: u32, patch: &Patch) {
        let page = PageId::new(self.part, index);
        self.stripe.note(page, patch);
    }

    fn let_go(&mut self) {
        self.stripe.give_up(self.locks, &mut self.seat);
    }

    ghost kept_refl = { laws.kept_refl R.tells R.history R.state };

    ghost kept_then = { laws.kept_then R.tells R.history R.state };

    ghost kept_ready = { λ s t keeps ready. (keeps.leaves ready).ready };

    ghost writes = { laws.writes R.tells R.history R.state };

    ghost kept_written = { laws.kept_written R.tells R.history R.state };
}
