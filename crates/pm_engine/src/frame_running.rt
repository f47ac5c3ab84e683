//! Laws on a store over page frames that runs, and its checkpoints. The functions do nothing: their contracts are the
//! laws.

ghost use Rattle.std.specs.Prelude.{ℕ, ◌≡◌, ◌<◌, ◌+◌, ◌^◌, List, [], map, true, None};
ghost use Rattle.pm_types.specs.declared.page_id.PageId.{PageId};
ghost use Rattle.pm_types.specs.declared.shape.Shape.{Shape};
ghost use Rattle.pm_disk.specs.Worlds.{World};
ghost use Rattle.pm_model.specs.declared.line.Line.{Line};
ghost use Rattle.pm_model.specs.Eval.{Pairs};
ghost use Rattle.pm_core.specs.BasePages.{Partitions};
ghost use Rattle.pm_core.specs.Machine.{CanAll, states, worlds};
ghost use Rattle.pm_core.specs.States.{State};
ghost use Rattle.pm_ckpt.specs.Checkpoints.{CanCheckpoint, IsStateAfter, whole_steps};
ghost use Rattle.pm_ckpt.specs.Dirty.{IsNext};
ghost use Rattle.pm_ckpt.specs.Marked.{mark_for};
ghost use Rattle.pm_ckpt.specs.Writes.{Writing, IsOrderOf, written_page};
ghost use Rattle.pm_engine.specs.FrameCheckpoints.{IsCheckpointed};
ghost use Rattle.pm_engine.specs.FrameDirty.{ListsDirty, dirty_names, dirty_bytes};
ghost use Rattle.pm_engine.specs.Engines.{FrameRunning, NamesDirty, HasLastingLinesIn, running_in};
ghost use Rattle.pm_engine.specs.FrameStores.{FrameStoreView, IsFrameStore, HasCleanPages};
ghost use Rattle.pm_engine.specs.RunningStores.{number_of};
ghost use Rattle.pm_engine.specs.RunningLines.{HasRun};
ghost use Rattle.pm_engine.specs.RunningStores.{HasSegmentsFor};

/// What a checkpoint of an open store writes are the pages that stay in their frames, each once, with the bytes that
/// the store has of them, whatever its partitions' files have.
pub fn a_checkpoint_writes_what_stays()
    ensures { (store : FrameStoreView) → IsFrameStore store → store.is_open ≡ true → store.stripe.outbox ≡ []
        → ListsDirty store (dirty_names store) (dirty_bytes store) }
{}

/// Where such a store runs, it does so with these names as those of its logged pages, whichever way they were named
/// before, and its next checkpoint may be made of these pages.
pub fn a_store_in_frames_may_be_checkpointed()
    ensures named { (wanted : Shape) (told : List ℕ → ℕ) (from : ℕ) (start : Pairs) (lines : List Line)
        (engine : FrameRunning) (s : State) (world : World) (names logged : List PageId) (bytes : Partitions)
        → ListsDirty engine.store names bytes → NamesDirty engine.store logged
        → HasRun wanted told from start lines (running_in engine world logged) s world
        → HasRun wanted told from start lines (running_in engine world names) s world }
    ensures checkpoint { (wanted : Shape) (told : List ℕ → ℕ) (from : ℕ) (start : Pairs) (lines : List Line)
        (engine : FrameRunning) (s : State) (world : World) (names : List PageId) (bytes : Partitions)
        → ListsDirty engine.store names bytes → engine.ckpt.shape ≡ engine.store.shape
        → number_of engine.ckpt.mark + 1 < 2 ^ 64 → HasSegmentsFor engine.log 1
        → HasRun wanted told from start lines (running_in engine world names) s world
        → CanCheckpoint wanted told s engine.log (mark_for engine.ckpt engine.log None) bytes names world }
{}

/// After the steps of that checkpoint the store has done the same lines, all of which last, with the pages that its
/// frames and its files have then. No page is logged: none stays in its frame.
pub fn a_checkpoint_leaves_a_store_in_frames()
    ensures { (wanted : Shape) (told : List ℕ → ℕ) (from : ℕ) (start : Pairs) (lines : List Line)
        (before after : FrameRunning) (s : State) (world now : World) (names : List PageId) (bytes : Partitions)
        → ListsDirty before.store names bytes → before.ckpt.shape ≡ before.store.shape
        → number_of before.ckpt.mark + 1 < 2 ^ 64 → HasSegmentsFor before.log 1
        → HasRun wanted told from start lines (running_in before world names) s world
        → (can : CanCheckpoint wanted told s before.log (mark_for before.ckpt before.log None) bytes names world)
        → (writings : List Writing) → IsOrderOf names (map written_page writings)
        → CanAll told (whole_steps before.log (mark_for before.ckpt before.log None) can.rebuilt bytes writings s
        world) s world
        → IsStateAfter before.log (mark_for before.ckpt before.log None)
        (states (whole_steps before.log (mark_for before.ckpt before.log None) can.rebuilt bytes writings s world)
        s world)
        → now ≡ worlds (whole_steps before.log (mark_for before.ckpt before.log None) can.rebuilt bytes writings s
        world) s world
        → IsNext (mark_for before.ckpt before.log None) before.ckpt after.ckpt before.log after.log
        → IsCheckpointed (Unit {0}) world now before.store after.store → HasCleanPages before.store world
        → HasLastingLinesIn wanted told from start lines after now }
{}
