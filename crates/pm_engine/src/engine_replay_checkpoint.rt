//! A record at a place of the log, applied again, and the checkpoint that is made first where what it needs is lacking.

ghost use Rattle.std.specs.Prelude.{◌≡◌, true, IsErrOf};
ghost use Rattle.pm_types.specs.declared.fault.StoreFault.{StoreFault};
ghost use Rattle.pm_types.specs.declared.place.Place.{Place as ThisPlace};
ghost use Rattle.pm_disk.specs.States.{IsUsable};
ghost use Rattle.pm_records.specs.Records.{record_of};
ghost use Rattle.pm_marks.specs.Slots.{IsMarkPlace};
ghost use Rattle.pm_segments.specs.Ends.{EndsThere};
ghost use Rattle.pm_engine.specs.Batches.{HasPlainFault};
ghost use Rattle.pm_engine.specs.FrameReplayCheckpoints.{ChecksInFrames, ReplaysRecord, applied_once};
ghost use Rattle.pm_engine.specs.FrameStores.{HasCleanPages};
ghost use Rattle.pm_engine.specs.Openings.{CountsFaults};

use crate::engine::Engine;
use crate::engine_checkpoint::begin_place;
use crate::engine_replay::Applied;
use crate::log_count::LogCount;
use pm_disk::Host;
use pm_model::Replies;
use pm_types::{Lack, Place, StoreFault};
use std::alloc::Global;
use std::sync::Wait;

impl Engine {
    /// Makes the next checkpoint while the log is applied again, of the pages that stay in their frames. A restart
    /// applies the log from `replay` on then. It takes no memory.
    ///
    /// After `Failed` the engine is closed, and a prefix of the steps was made: the store on the disk holds what it
    /// held.
    pub(crate) fn checkpoint_from<H: Host>(
        &mut self,
        host: &mut H,
        replay: Place,
    ) -> Result<(), StoreFault>
        requires usable { IsUsable (H.Device.state host.old) }
        requires is_open { self.old.store.is_open ≡ true }
        requires replay { IsMarkPlace replay }
        requires end { H.Device.tells → EndsThere self.old.log (H.Device.history host.old).world }
        requires clean { H.Device.tells → HasCleanPages self.old.store (H.Device.history host.old).world }
        ensures checks { ChecksInFrames H.Device.tells replay self.old self.new
            (H.Device.history host.old) (H.Device.history host.new) result }
        ensures cause { HasPlainFault (H.Device.state host.old) (H.Device.state host.new) result }
    {
        // The next CP_BEGIN stands in a segment that a place may name.
        let _begin = begin_place(&*self.log);
        match self
            .pages
            .checkpoint(host, &mut *self.log, &mut self.ckpt, Some(replay))
        {
            Err(_) => Err(StoreFault::Failed),
            Ok(()) => {
                let total = self.log.appended();
                self.began = LogCount { found: 0, total };
                Ok(())
            }
        }
    }

    /// Applies the record that stands at this place of the log again, and answers whether it can be applied. Where
    /// what its operation may need is lacking, a checkpoint is made first, after which a restart applies the log from
    /// that record on.
    ///
    /// `Memory` also comes where it is lacking even then. After `Failed` and `BadPage` the engine is open no more.
    pub(crate) fn apply_at<Q: Wait, H: Host>(
        self,
        rt: &Q,
        alloc: Global,
        host: &mut H,
        at: Place,
        kind: u8,
        payload: &[u8],
        replies: &mut Replies,
    ) -> (Engine, Result<bool, StoreFault>)
        requires open { self.store.is_open ≡ true }
        requires usable { IsUsable (H.Device.state host.old) }
        requires at { IsMarkPlace at }
        requires end { H.Device.tells → EndsThere self.log (H.Device.history host.old).world }
        requires clean { H.Device.tells → HasCleanPages self.store (H.Device.history host.old).world }
        ensures replays { ReplaysRecord H.Device.tells at (record_of kind payload.now) self result.0
            (H.Device.history host.old) (H.Device.history host.new) result.1 }
        ensures no_record { (place : ThisPlace) → IsErrOf result.1 (StoreFault.BadRecord place) → ⊥ }
        ensures cause { CountsFaults (H.Device.state host.old) (H.Device.state host.new) result.1 }
    {
        let (engine, applied) = self.apply_record(rt, alloc, host, kind, payload, replies);
        match applied {
            Err(fault) => (engine, Err(fault)),
            Ok(applied) => match applied {
                Applied::Done => (engine, Ok(true)),
                Applied::Bad => (engine, Ok(false)),
                Applied::Halted(_) => {
                    engine.apply_after_checkpoint(rt, alloc, host, at, kind, payload, replies)
                }
            },
        }
    }

    // The same, by an engine that makes a checkpoint first.
    fn apply_after_checkpoint<Q: Wait, H: Host>(
        self,
        rt: &Q,
        alloc: Global,
        host: &mut H,
        at: Place,
        kind: u8,
        payload: &[u8],
        replies: &mut Replies,
    ) -> (Engine, Result<bool, StoreFault>)
        requires open { self.store.is_open ≡ true }
        requires usable { IsUsable (H.Device.state host.old) }
        requires at { IsMarkPlace at }
        requires end { H.Device.tells → EndsThere self.log (H.Device.history host.old).world }
        requires clean { H.Device.tells → HasCleanPages self.store (H.Device.history host.old).world }
        ensures replays { ReplaysRecord H.Device.tells at (record_of kind payload.now) self result.0
            (H.Device.history host.old) (H.Device.history host.new) result.1 }
        ensures no_record { (place : ThisPlace) → IsErrOf result.1 (StoreFault.BadRecord place) → ⊥ }
        ensures cause { CountsFaults (H.Device.state host.old) (H.Device.state host.new) result.1 }
    {
        let mut engine = self;
        match engine.checkpoint_from(host, at) {
            Err(fault) => (engine, Err(fault)),
            Ok(()) => {
                let (engine, applied) = engine.apply_record(
                    rt, alloc, host, kind, payload, replies,
                );
                (engine, applied_once(applied))
            }
        }
    }
}

// Whether a record could be applied, where it isn't tried once more.
fn applied_once(applied: Result<Applied, StoreFault>) -> Result<bool, StoreFault>
    ensures { result ≡ applied_once applied }
{
    match applied {
        Ok(Applied::Done) => Ok(true),
        Ok(Applied::Bad) => Ok(false),
        Ok(Applied::Halted(_)) => Err(StoreFault::Memory(Lack::Frames)),
        Err(fault) => Err(fault),
    }
}
