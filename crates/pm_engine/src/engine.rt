//! The engine over page frames.

ghost use Rattle.std.specs.Prelude.{◌≡◌, ◌≤◌, [], Some, length};
ghost use Rattle.pm_types.specs.declared.limits.TheConstants.{SEGMENT_BYTES_MAX};
ghost use Rattle.pm_engine.specs.RunningStores.{IsMarkIn};

use crate::frame_store::FrameStore;
use crate::log_count::LogCount;
use pm_ckpt::Ckpt;
use pm_segments::Log;
use std::marker::Model;

/// A store that is open: its pages in page frames, its log, to which the record of each accepted line is appended and
/// after it those of the pages that it changed, and what its next checkpoint needs.
///
/// After `Failed` and `BadPage` no call but `close` is to be made: the store on the disk is as a crash would leave it.
/// Out of memory leaves it open.
#[derive(Drop)]
pub struct Engine {
    pub(crate) pages: FrameStore,
    // It holds a buffer for a record of any length, and the engine goes by value through many calls: so it is on the
    // heap.
    pub(crate) log: Box<Log>,
    pub(crate) ckpt: Ckpt,
    // From where the bytes of log are counted that a restart would apply.
    pub(crate) began: LogCount,
    // The numbers of the accepted lines whose records were handed to the log, in the order in which they were. A line's
    // is there also where its records couldn't be appended whole.
    pub(crate) order: Vec<u32>,
}

impl Model for Engine {
    ghost use Rattle.std.specs.Coded.{codes};
    ghost use Rattle.pm_ptable.specs.PageTable.{pages_code};
    ghost use Rattle.pm_engine.specs.Engines.{FrameRunning, IsEngine};

    ghost Value = { FrameRunning };

    ghost coded = { Prim.hlevel (codes, pages_code) };

    ghost view = { λ engine. record {
      store = engine.pages;
      log = engine.log.value;
      ckpt = engine.ckpt;
      began = engine.began;
      order = engine.order.items;
    } };

    ghost invariant = { λ engine. IsEngine (record {
      store = engine.pages;
      log = engine.log.value;
      ckpt = engine.ckpt;
      began = engine.began;
      order = engine.order.items;
    }) };
}

impl Engine {
    /// An engine over the pages of an open store, and its log, that has made no line yet.
    pub(crate) fn new(pages: FrameStore, log: Box<Log>, ckpt: Ckpt, order: Vec<u32>) -> Engine
        requires shape { ckpt.shape ≡ pages.shape }
        requires mark { IsMarkIn ckpt.mark }
        requires room { ckpt.room ≡ Some (length pages.locks.ranges) }
        requires from_one { 1 ≤ log.value.end.seg }
        requires size_to { log.value.segment_bytes ≤ SEGMENT_BYTES_MAX }
        requires sent { pages.stripe.outbox ≡ [] }
        ensures { result ≡ record {
          store = pages;
          log = log.value;
          ckpt = ckpt;
          began = record { found = 0; total = log.value.total };
          order = order.items;
        } }
    {
        let total = log.appended();
        Engine {
            pages,
            log,
            ckpt,
            began: LogCount { found: 0, total },
            order,
        }
    }

    /// The same engine, which counts from now on all bytes that its log appended, and these that were found before.
    pub(crate) fn counting_from(self, found: u64) -> Engine
        ensures { result ≡ record self { began = record { found = found; total = 0 } } }
    {
        let mut engine = self;
        engine.began = LogCount { found, total: 0 };
        engine
    }

    /// Gives the memory of the page frames back, and the numbers of the accepted lines whose records were handed to
    /// the log, in the order in which they were, whether they could be appended or not.
    pub fn close(self) -> Vec<u32>
        ensures { result.items ≡ self.order }
    {
        let Engine {
            pages,
            log: _,
            ckpt: _,
            began: _,
            order,
        } = self;
        pages.close();
        order
    }
}
