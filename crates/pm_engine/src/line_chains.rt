//! Laws on lines that a store does one after the other while it runs. The functions do nothing: their contracts
//! are the laws.

ghost use Rattle.std.specs.Prelude.{ℕ, ◌≡◌, ◌≤◌, ◌+◌, ◌*◌, ◌++◌, List, length};
ghost use Rattle.pm_types.specs.declared.limits.TheConstants.{OP_PAGES};
ghost use Rattle.pm_types.specs.declared.page_id.PageId.{PageId};
ghost use Rattle.pm_types.specs.declared.shape.Shape.{Shape};
ghost use Rattle.pm_frame.specs.Frames.{Frame};
ghost use Rattle.pm_disk.specs.Worlds.{World};
ghost use Rattle.pm_model.specs.declared.line.Line.{Line};
ghost use Rattle.pm_model.specs.Eval.{Pairs};
ghost use Rattle.pm_core.specs.BasePages.{Partitions};
ghost use Rattle.pm_core.specs.Machine.{CanAll, states, worlds};
ghost use Rattle.pm_core.specs.PageSets.{AreOnce};
ghost use Rattle.pm_core.specs.Rounds.{on_log};
ghost use Rattle.pm_core.specs.States.{State};
ghost use Rattle.pm_engine.specs.AppendRuns.{append_all_steps};
ghost use Rattle.pm_engine.specs.LineChains.{StepsLines, NameTheSame, renamed};
ghost use Rattle.pm_engine.specs.RunningLines.{HasRun};
ghost use Rattle.pm_engine.specs.RunningSteps.{appended_to};
ghost use Rattle.pm_engine.specs.RunningStores.{StoreState, IsRunning, HasSegmentsFor};

/// A store that runs may append what lines hand over that lead it from step to step to these pages, and has done
/// these lines too then. An operation is at most its record and those of as many pages as it may change.
pub fn a_running_store_does_all_lines()
    ensures can { (wanted : Shape) (told : List ℕ → ℕ) (from : ℕ) (start : Pairs) (lines more : List Line)
        (store : StoreState) (s : State) (world : World) (frames : List Frame) (pages : Partitions)
        (logged : List PageId) → HasRun wanted told from start lines store s world
        → StepsLines store more frames pages logged → HasSegmentsFor store.log (length frames)
        → CanAll told (on_log (append_all_steps store.log frames)) s world }
    ensures done { (wanted : Shape) (told : List ℕ → ℕ) (from : ℕ) (start : Pairs) (lines more : List Line)
        (store : StoreState) (s : State) (world : World) (frames : List Frame) (pages : Partitions)
        (logged : List PageId) → HasRun wanted told from start lines store s world
        → StepsLines store more frames pages logged → HasSegmentsFor store.log (length frames)
        → HasRun wanted told from start (lines ++ more) (appended_to store frames pages logged)
        (states (on_log (append_all_steps store.log frames)) s world)
        (worlds (on_log (append_all_steps store.log frames)) s world) }
    ensures few { (store : StoreState) (more : List Line) (frames : List Frame) (pages : Partitions)
        (logged : List PageId) → StepsLines store more frames pages logged
        → length frames ≤ (OP_PAGES + 1) * length more }
{}

/// Of the names of a store's logged pages only counts which they are: it runs with the same names in any order,
/// each once, and has done the same lines.
pub fn logged_pages_have_no_order()
    ensures runs { (wanted : Shape) (told : List ℕ → ℕ) (store : StoreState) (s : State) (world : World)
        (names : List PageId) → IsRunning wanted told store s world → NameTheSame store.logged names
        → AreOnce names → IsRunning wanted told (renamed store names) s world }
    ensures done { (wanted : Shape) (told : List ℕ → ℕ) (from : ℕ) (start : Pairs) (lines : List Line)
        (store : StoreState) (s : State) (world : World) (names : List PageId)
        → HasRun wanted told from start lines store s world → NameTheSame store.logged names → AreOnce names
        → HasRun wanted told from start lines (renamed store names) s world }
{}
