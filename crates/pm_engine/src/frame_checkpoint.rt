//! A checkpoint of the pages of an open store.

ghost use Rattle.std.specs.Prelude.{◌≡◌, ℕ, List, [], Some, true, length, OnOk, OnErr};
ghost use Rattle.pm_types.specs.declared.shape.Shape.{Shape};
ghost use Rattle.pm_types.specs.Shapes.{IsShape};
ghost use Rattle.pm_disk.specs.Moments.{AllMoments};
ghost use Rattle.pm_disk.specs.States.{HasCause, IsUsable};
ghost use Rattle.pm_marks.specs.Slots.{IsMark};
ghost use Rattle.pm_segments.specs.Ends.{EndsThere};
ghost use Rattle.pm_core.specs.Calls.{ChangesDisk};
ghost use Rattle.pm_core.specs.States.{State};
ghost use Rattle.pm_ckpt.specs.Checkpoints.{CanCheckpoint, MakesWhole};
ghost use Rattle.pm_ckpt.specs.Marked.{mark_for};
ghost use Rattle.pm_engine.specs.FrameCheckpoints.{MakesCheckpoint, FailsCheckpoint};
ghost use Rattle.pm_engine.specs.FrameDirty.{ListsDirty, dirty_names, dirty_bytes};

use crate::frame_store::FrameStore;
use pm_ckpt::Ckpt;
use pm_disk::{Failed, Host};
use pm_segments::Log;
use pm_types::Place;
use std::slice;

impl FrameStore {
    /// Makes the next checkpoint of the store, of the pages that stay in their frames: see `Ckpt::whole`. Afterwards
    /// each page that isn't in a frame is read from its partition's file. It takes no memory.
    ///
    /// After `Failed` the store isn't open any more: nothing is to be done with it but to close it.
    pub(crate) fn checkpoint<H: Host>(
        &mut self,
        host: &mut H,
        log: &mut Log,
        ckpt: &mut Ckpt,
        replay: Option<Place>,
    ) -> Result<(), Failed>
        requires open { self.old.is_open ≡ true }
        requires sent { self.old.stripe.outbox ≡ [] }
        requires usable { IsUsable (H.Device.state host.old) }
        requires shape { ckpt.old.shape ≡ self.old.shape }
        requires room { ckpt.old.room ≡ Some (length self.old.locks.ranges) }
        requires mark { IsShape self.old.shape → IsMark (mark_for ckpt.old log.old replay) }
        requires end { H.Device.tells → EndsThere log.old (H.Device.history host.old).world }
        ensures mark { IsMark (mark_for ckpt.old log.old replay) }
        ensures dirty { ListsDirty self.old (dirty_names self.old) (dirty_bytes self.old) }
        ensures made { OnOk result (MakesCheckpoint H.Device.tells (mark_for ckpt.old log.old replay)
            ckpt.old ckpt.new log.old log.new (H.Device.history host.old).world (H.Device.history host.new).world
            self.old self.new) }
        ensures failed { OnErr result (FailsCheckpoint ckpt.old ckpt.new self.old self.new) }

        // From each state of the disk machine in which this checkpoint may be made: its steps were, each of
        // which meets its guard.
        ensures steps { H.Device.tells → (wanted : Shape) (told : List ℕ → ℕ) (s : State)
            → (can : CanCheckpoint wanted told s log.old (mark_for ckpt.old log.old replay)
            (dirty_bytes self.old) (dirty_names self.old) (H.Device.history host.old).world)
            → MakesWhole told (H.Device.history host.old) (H.Device.history host.new) result log.old
            (mark_for ckpt.old log.old replay) can.rebuilt (dirty_bytes self.old) (dirty_names self.old) s }
        ensures disk { H.Device.tells → AllMoments (H.Device.history host.old) (H.Device.history host.new)
            (ChangesDisk (H.Device.history host.old).world) }
        ensures cause { HasCause (H.Device.state host.old) (H.Device.state host.new) result }
    {
        match ckpt.whole(
            host,
            log,
            &self.locks,
            &mut self.seat,
            slice::from_ref(&self.stripe),
            replay,
        ) {
            Err(failed) => {
                self.dirty = None;
                self.is_open = false;
                Err(failed)
            }
            Ok(()) => {
                self.stripe.has_files();
                self.dirty = None;
                Ok(())
            }
        }
    }
}
