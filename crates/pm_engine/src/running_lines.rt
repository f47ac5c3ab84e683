//! Laws on the lines that a store does while it runs, and on what a crash leaves of them. The functions do
//! nothing: their contracts are the laws.

ghost use Rattle.std.specs.Prelude.{ℕ, ◌≡◌, ◌<◌, ◌+◌, ◌^◌, ◌++◌, List, [], ◌∷◌, length};
ghost use Rattle.pm_types.specs.declared.shape.Shape.{Shape};
ghost use Rattle.pm_frame.specs.Frames.{Frame};
ghost use Rattle.pm_disk.specs.Worlds.{World};
ghost use Rattle.pm_model.specs.declared.line.Line.{Line};
ghost use Rattle.pm_model.specs.Eval.{Pairs, after};
ghost use Rattle.pm_records.specs.LogSteps.{Force};
ghost use Rattle.pm_core.specs.BasePages.{Partitions};
ghost use Rattle.pm_core.specs.Calls.{MakesPrefix};
ghost use Rattle.pm_core.specs.Held.{pairs_in};
ghost use Rattle.pm_core.specs.Machine.{DiskStep, CanAll, states, worlds};
ghost use Rattle.pm_core.specs.Rounds.{on_log};
ghost use Rattle.pm_core.specs.States.{State};
ghost use Rattle.pm_ckpt.specs.Checkpoints.{CanCheckpoint, IsStateAfter, whole_steps};
ghost use Rattle.pm_ckpt.specs.Marked.{number_after};
ghost use Rattle.pm_ckpt.specs.Writes.{Writing};
ghost use Rattle.pm_engine.specs.AppendRuns.{append_all_steps};
ghost use Rattle.pm_engine.specs.RunningStores.{number_of};
ghost use Rattle.pm_engine.specs.PageLogs.{NotedPages};
ghost use Rattle.pm_engine.specs.RunningLines.{HasRun, CrashHoldsLines, SameDisk, says_nothing};
ghost use Rattle.pm_engine.specs.RunningStores.{StoreState, IsRunning, HasSegmentsFor, map_of, mark_after};
ghost use Rattle.pm_engine.specs.RunningStores.{checkpointed};
ghost use Rattle.pm_engine.specs.RunningSteps.{appended_to, MakesPages, operation_frames};
ghost use Rattle.pm_engine.specs.RunningSteps.{operation_names};

/// The lines that a store has done go on while it runs: at rest there are none, with nothing pending of its
/// log; a line that changes no map is one more; and so is a line that an operation did, once its records are
/// appended. A force makes no difference, nor what is read of the input or said.
pub fn a_running_store_does_lines()
    ensures rest { (wanted : Shape) (told : List ℕ → ℕ) (store : StoreState) (s : State) (world : World)
        → IsRunning wanted told store s world → s.pending ≡ []
        → HasRun wanted told (length s.order) (map_of store) [] store s world }
    ensures unchanged { (wanted : Shape) (told : List ℕ → ℕ) (from : ℕ) (start : Pairs) (lines : List Line)
        (store : StoreState) (s : State) (world : World) (line : Line)
        → HasRun wanted told from start lines store s world
        → after store.shape line (map_of store) ≡ map_of store
        → HasRun wanted told from start (lines ++ line ∷ []) store s world }
    ensures done { (wanted : Shape) (told : List ℕ → ℕ) (from : ℕ) (start : Pairs) (lines : List Line)
        (store : StoreState) (s : State) (world : World) (line : Line) (part : ℕ) (noted : NotedPages)
        (frame : Frame) (pages : Partitions)
        → HasRun wanted told from start lines store s world → MakesPages store part noted frame pages
        → pairs_in store.shape.partitions pages ≡ after store.shape line (map_of store)
        → HasSegmentsFor store.log (length (operation_frames store noted frame))
        → HasRun wanted told from start (lines ++ line ∷ [])
        (appended_to store (operation_frames store noted frame) pages (operation_names store noted))
        (states (on_log (append_all_steps store.log (operation_frames store noted frame))) s world)
        (worlds (on_log (append_all_steps store.log (operation_frames store noted frame))) s world) }
    ensures forced { (wanted : Shape) (told : List ℕ → ℕ) (from : ℕ) (start : Pairs) (lines : List Line)
        (store : StoreState) (s : State) (world : World) → HasRun wanted told from start lines store s world
        → HasRun wanted told from start lines store (states (on_log (Force ∷ [])) s world)
        (worlds (on_log (Force ∷ [])) s world) }
    ensures beside { (wanted : Shape) (from : ℕ) (start : Pairs) (lines : List Line) (store : StoreState)
        (s : State) (world now : World) → HasRun wanted says_nothing from start lines store s world
        → SameDisk world now → HasRun wanted says_nothing from start lines store s now }
{}

/// A checkpoint of a store that has done lines leaves it so.
pub fn a_checkpoint_keeps_the_lines()
    ensures { (wanted : Shape) (told : List ℕ → ℕ) (from : ℕ) (start : Pairs) (lines : List Line)
        (store : StoreState) (s : State) (world : World) → HasRun wanted told from start lines store s world
        → number_after store.mark < 2 ^ 64 → HasSegmentsFor store.log 1
        → (can : CanCheckpoint wanted told s store.log (mark_after store) store.pages store.logged world)
        → (writings : List Writing)
        → CanAll told
        (whole_steps store.log (mark_after store) can.rebuilt store.pages writings s world) s world
        → IsStateAfter store.log (mark_after store)
        (states (whole_steps store.log (mark_after store) can.rebuilt store.pages writings s world) s world)
        → HasRun wanted told from start lines (checkpointed store)
        (states (whole_steps store.log (mark_after store) can.rebuilt store.pages writings s world) s world)
        (worlds (whole_steps store.log (mark_after store) can.rebuilt store.pages writings s world) s world) }
{}

/// Where a store has done lines, and steps that meet their guards, as those of appends, forces and checkpoints,
/// lead on to where it has done others: whatever a crash leaves at any moment between is sound, and holds the
/// map after a prefix of the lines. Its log ends at most one segment after the store's, and the checkpoint in
/// force has at most the number of the store's.
pub fn a_crash_leaves_a_prefix_of_the_lines()
    ensures { (wanted : Shape) (told : List ℕ → ℕ) (from : ℕ) (start : Pairs) (lines others : List Line)
        (store new : StoreState) (s : State) (world now : World) (steps : List DiskStep)
        → HasRun wanted told from start lines store s world → CanAll told steps s world
        → HasRun wanted told from start others new (states steps s world) (worlds steps s world)
        → MakesPrefix steps s world now → CrashHoldsLines (new.log.end.seg + 1) (number_of new.mark)
        wanted store.shape start others now }
{}
