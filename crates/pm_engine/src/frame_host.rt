//! A round of lines and a scan over the pages of an open store, with a host that lends a reader.

ghost use Rattle.std.specs.Prelude.{◌≡◌, ◌+◌, ◌^◌, ◌≤◌, ℕ, Some, true, false, length, slice_get, IfOk, IsErrOf, OnErr, ◌<◌};
ghost use Rattle.pm_types.specs.declared.fault.PageFault.TheVariants.{Failed as PageFailed};
ghost use Rattle.pm_types.specs.declared.limits.TheConstants.{CACHES};
ghost use Rattle.pm_types.specs.declared.page_id.PageId.{PageId};
ghost use Rattle.pm_types.specs.Counts.{HasRisen};
ghost use Rattle.pm_disk.specs.States.{IsLaterState, IsUsable, Rose};
ghost use Rattle.pm_model.specs.declared.line.Line.{Line as ThisLine};
ghost use Rattle.pm_engine.specs.declared.frame_lines.Stop.TheVariants.{Faulted};
ghost use Rattle.pm_engine.specs.declared.frame_scans.ScanStop.TheVariants.{Faulted as ScanFaulted};
ghost use Rattle.pm_engine.specs.FrameScans.{may_go_on_after};
ghost use Rattle.pm_engine.specs.FrameStores.{HasCleanPages};
ghost use Rattle.pm_engine.specs.FrameHosts.{IsStoreLine, RunsRound, RunsRoundOver, ChangesNoWorld, may_go_on};
ghost use Rattle.pm_engine.specs.FrameHosts.{count_after};
ghost use Rattle.pm_engine.specs.FrameHosts.{ScansStore};

use crate::frame_lines::Stop;
use crate::frame_rounds::{RoundEnd, lines_in_frames};
use crate::frame_scans::{ScanStop, scan_in_frames};
use crate::frame_store::FrameStore;
use pm_disk::{Host, Lent, PageReader};
use pm_model::{Line, Replies};
use pm_stripe::Bound;
use std::alloc::{AllocError, Global};
use std::sync::Wait;

impl FrameStore {
    /// Does the lines of a round over the pages of the store, from one of them on, until all are done or one can't
    /// be: see `lines_in_frames`. The host lends a reader for them, and has it back afterwards.
    ///
    /// Out of memory, which is said by `Err`, leaves all as it was. After a fault the store isn't open any more:
    /// nothing is to be done with it but to close it.
    pub(crate) fn run_round<Q: Wait, H: Host>(
        self,
        rt: &Q,
        host: &mut H,
        lines: &[Line],
        from: usize,
        first: u32,
        replies: &mut Replies,
    ) -> (FrameStore, Result<RoundEnd, AllocError>)
        requires open { self.is_open ≡ true }
        requires usable { IsUsable (H.state host.old) }
        requires clean { H.tells → HasCleanPages self (H.history host.old).world }
        requires lines { (i : ℕ) (line : ThisLine) → slice_get lines.now i ≡ Some line → IsStoreLine line }
        requires from { from ≤ length lines.now }
        requires numbers { first + length lines.now ≤ 2 ^ 32 }
        requires room { length lines.now ≤ from + replies.old.spare }
        ensures runs { IfOk result.1 (RunsRoundOver Q H.Reader.tells H.Reader.history H.Reader.state first from
            lines.now self result.0 (H.history host.old).world replies.old replies.new (H.state host.old)
            (H.state host.new)) }
        ensures failed { IfOk result.1 (λ end. end.stop ≡ Some (Faulted PageFailed)
            → Rose (H.state host.old) (H.state host.new)) }
        ensures unchanged { OnErr result.1 ((result.0 ≡ self) × (replies.new ≡ replies.old)) }
        ensures world { H.tells → ChangesNoWorld (H.history host.old) (H.history host.new) }
        ensures later { IsLaterState (H.state host.old) (H.state host.new) }
    {
        match host.lend(&[], 1) {
            Err(error) => (self, Err(error)),
            Ok(mut lent) => {
                let reader = lent.readers.pop().unwrap();
                let (store, reader, end) = self.run_lines(rt, reader, lines, from, first, replies);
                lent.readers.push_reserved(reader);
                host.take_back(lent);
                (store, Ok(end))
            }
        }
    }

    /// Answers a scan of a cache: appends the reply with all pairs of the cache in the store, by rising key. The host
    /// lends a reader for it, and has it back afterwards. No page changes, and nothing is handed over.
    ///
    /// `Halted`, as where frames are lacking, and `Memory` leave the store open, and the scan may be tried again.
    /// After a fault it isn't open any more: nothing is to be done with it but to close it. After each error no reply
    /// was appended.
    pub(crate) fn scan<Q: Wait, H: Host>(
        self,
        rt: &Q,
        alloc: Global,
        host: &mut H,
        cache: u8,
        replies: &mut Replies,
    ) -> (FrameStore, Result<(), ScanStop>)
        requires open { self.is_open ≡ true }
        requires usable { IsUsable (H.state host.old) }
        requires clean { H.tells → HasCleanPages self (H.history host.old).world }
        requires cache { cache < CACHES }
        requires spare { 0 < replies.old.spare }
        ensures scans { ScansStore H.tells cache self result.0 (H.history host.old).world replies.old replies.new
            result.1 }
        ensures failed { IsErrOf result.1 (ScanFaulted PageFailed) → Rose (H.state host.old) (H.state host.new) }
        ensures world { H.tells → ChangesNoWorld (H.history host.old) (H.history host.new) }
        ensures later { IsLaterState (H.state host.old) (H.state host.new) }
    {
        match host.lend(&[], 1) {
            Err(_) => (self, Err(ScanStop::Memory)),
            Ok(mut lent) => {
                let reader = lent.readers.pop().unwrap();
                let (store, reader, answer) = self.scan_with(rt, alloc, reader, cache, replies);
                lent.readers.push_reserved(reader);
                host.take_back(lent);
                (store, answer)
            }
        }
    }

    // Answers a scan with this reader, and gives it back.
    fn scan_with<Q: Wait, R: PageReader>(
        self,
        rt: &Q,
        alloc: Global,
        reader: R,
        cache: u8,
        replies: &mut Replies,
    ) -> (FrameStore, R, Result<(), ScanStop>)
        requires open { self.is_open ≡ true }
        requires usable { IsUsable (R.state reader) }
        requires each { (id : PageId) → (R.state reader).access.reads id ≡ true }
        requires clean { R.tells → HasCleanPages self (R.history reader).world }
        requires cache { cache < CACHES }
        requires spare { 0 < replies.old.spare }
        ensures scans { ScansStore R.tells cache self result.0 (R.history reader).world replies.old replies.new
            result.2 }
        ensures failed { IsErrOf result.2 (ScanFaulted PageFailed)
            → HasRisen (R.state reader).faults (R.state result.1).faults }
    {
        let FrameStore {
            shape,
            region,
            locks,
            seat,
            stripe,
            dirty,
            is_open: _,
        } = self;
        let was = stripe.outbox().len();
        let mut bound = Bound::new(rt, &locks, stripe, seat, reader);
        let answer = scan_in_frames(&mut bound, alloc, shape, cache, replies);
        let (stripe, seat, reader) = bound.end();
        let is_open = goes_on_after(&answer);
        let dirty = count_after(dirty, is_open, was, stripe.outbox().len());
        let store = FrameStore {
            shape,
            region,
            locks,
            seat,
            stripe,
            dirty,
            is_open,
        };
        (store, reader, answer)
    }

    // Does the lines of a round with this reader, and gives it back.
    fn run_lines<Q: Wait, R: PageReader>(
        self,
        rt: &Q,
        reader: R,
        lines: &[Line],
        from: usize,
        first: u32,
        replies: &mut Replies,
    ) -> (FrameStore, R, RoundEnd)
        requires open { self.is_open ≡ true }
        requires usable { IsUsable (R.state reader) }
        requires each { (id : PageId) → (R.state reader).access.reads id ≡ true }
        requires clean { R.tells → HasCleanPages self (R.history reader).world }
        requires lines { (i : ℕ) (line : ThisLine) → slice_get lines.now i ≡ Some line → IsStoreLine line }
        requires from { from ≤ length lines.now }
        requires numbers { first + length lines.now ≤ 2 ^ 32 }
        requires room { length lines.now ≤ from + replies.old.spare }
        ensures runs { RunsRound Q R.tells R.history R.state first from lines.now self result.0
            (R.history reader).world replies.old replies.new result.1 result.2 }
        ensures failed { result.2.stop ≡ Some (Faulted PageFailed)
            → HasRisen (R.state reader).faults (R.state result.1).faults }
    {
        let FrameStore {
            shape,
            region,
            locks,
            seat,
            stripe,
            dirty,
            is_open: _,
        } = self;
        let was = stripe.outbox().len();
        let mut bound = Bound::new(rt, &locks, stripe, seat, reader);
        let end = lines_in_frames(&mut bound, shape, lines, from, first, replies);
        let (stripe, seat, reader) = bound.end();
        let is_open = goes_on(end);
        let dirty = count_after(dirty, is_open, was, stripe.outbox().len());
        let store = FrameStore {
            shape,
            region,
            locks,
            seat,
            stripe,
            dirty,
            is_open,
        };
        (store, reader, end)
    }
}

// Whether a round that ended so may be followed by another one.
fn goes_on(end: RoundEnd) -> bool
    ensures { result ≡ may_go_on end.stop }
{
    match end.stop {
        None => true,
        Some(Stop::Halted(_)) => true,
        Some(Stop::Faulted(_)) => false,
    }
}

// What is remembered, after a round, of how many frames have a page that stays there: the count as it was, where the round
// met no fault and left the outbox as long as it was, so that it handed nothing over.
fn count_after(counted: Option<u32>, is_open: bool, was: usize, now: usize) -> Option<u32>
    ensures { result ≡ count_after counted is_open was now }
{
    if is_open && was == now {
        return counted;
    }
    None
}

// Whether more may be done with a store after a scan that was answered so.
fn goes_on_after(answer: &Result<(), ScanStop>) -> bool
    ensures { result ≡ may_go_on_after answer.now }
{
    match answer {
        Ok(()) => true,
        Err(ScanStop::Halted(_)) => true,
        Err(ScanStop::Memory) => true,
        Err(ScanStop::Faulted(_)) => false,
    }
}
