//! Laws on a store that runs over the disk machine. The functions do nothing: their contracts are the laws.

ghost use Rattle.std.specs.Prelude.{ℕ, ◌≡◌, ◌<◌, ◌≤◌, ◌^◌, ◌++◌, List, [], ◌∷◌, All, length, Option};
ghost use Rattle.pm_types.specs.declared.shape.Shape.{Shape};
ghost use Rattle.pm_types.specs.declared.page_id.PageId.{PageId};
ghost use Rattle.pm_types.specs.declared.shape.Mark.{Mark};
ghost use Rattle.pm_types.specs.Shapes.{IsShape};
ghost use Rattle.pm_frame.specs.declared.limits.TheConstants.{FRAME_END_MAX};
ghost use Rattle.pm_frame.specs.Frames.{Frame};
ghost use Rattle.pm_disk.specs.Images.{NothingPending};
ghost use Rattle.pm_disk.specs.Worlds.{World};
ghost use Rattle.pm_core.specs.BasePages.{Partitions, pages_of};
ghost use Rattle.pm_model.specs.Eval.{Pairs};
ghost use Rattle.pm_records.specs.FirstRecords.{restart_frame};
ghost use Rattle.pm_records.specs.LogSteps.{Force};
ghost use Rattle.pm_segments.specs.Appends.{append_steps};
ghost use Rattle.pm_segments.specs.Ends.{LogEnd, IsLogEnd};
ghost use Rattle.pm_marks.specs.InForce.{Checkpoint};
ghost use Rattle.pm_marks.specs.Slots.{IsMark};
ghost use Rattle.pm_core.specs.Machine.{CanAll, states, worlds};
ghost use Rattle.pm_core.specs.Rounds.{on_log};
ghost use Rattle.pm_core.specs.Stands.{Stands};
ghost use Rattle.pm_core.specs.States.{State};
ghost use Rattle.pm_redo.specs.Restoring.{IsRestored, mark_of};
ghost use Rattle.pm_ckpt.specs.Checkpoints.{CanCheckpoint, IsStateAfter, whole_steps};
ghost use Rattle.pm_ckpt.specs.Marked.{number_after};
ghost use Rattle.pm_ckpt.specs.Writes.{IsHeld, Writing};
ghost use Rattle.pm_engine.specs.RunningStores.{StoreState, RunsOver, IsRunning, HasSegmentsFor};
ghost use Rattle.pm_engine.specs.RunningStores.{map_of, mark_after};
ghost use Rattle.pm_engine.specs.AppendRuns.{append_all_steps};
ghost use Rattle.pm_engine.specs.PageLogs.{NotedPages, noted_frames};
ghost use Rattle.pm_engine.specs.OpenedStores.{BeginWithFirst, IsRestoredStore, opened_store};
ghost use Rattle.pm_engine.specs.RunningStores.{checkpointed};
ghost use Rattle.pm_engine.specs.RunningSteps.{appended_to, SayPages, SayPagesOver, MakesPages};
ghost use Rattle.pm_engine.specs.RunningSteps.{ChangesStore, operation_frames, operation_names};

/// A store that was restored may append its RESTART, and its log runs then: its pages are those of the files
/// that count, none is logged, and the newest map is the one that it held. Once the lines that the log has from
/// the replay place on are applied again to the pages, the store runs.
///
/// A restart leaves such a store, since no file of pages has a page and not its first one.
pub fn a_restored_store_may_be_opened()
    ensures restored { (wanted : Shape) (told : List ℕ → ℕ) (checkpoint : Checkpoint) (s t : State)
        (world : World) (log : LogEnd)
        → IsRestored checkpoint s t → Stands wanted told t world → IsShape t.shape → IsLogEnd log
        → log.end ≡ s.at → log.end.off ≤ FRAME_END_MAX → HasSegmentsFor log 1 → NothingPending world
        → IsRestoredStore wanted told t.shape log (mark_of checkpoint) t world }
    ensures can { (wanted : Shape) (told : List ℕ → ℕ) (shape : Shape) (log : LogEnd) (mark : Option Mark)
        (s : State) (world : World)
        → IsRestoredStore wanted told shape log mark s world → HasSegmentsFor log 1
        → CanAll told (on_log (append_steps log (restart_frame shape))) s world }
    ensures runs { (wanted : Shape) (told : List ℕ → ℕ) (shape : Shape) (log : LogEnd) (mark : Option Mark)
        (s : State) (world : World)
        → IsRestoredStore wanted told shape log mark s world → HasSegmentsFor log 1
        → RunsOver wanted told (opened_store shape log mark s) s.map
        (states (on_log (append_steps log (restart_frame shape))) s world)
        (worlds (on_log (append_steps log (restart_frame shape))) s world) }
    ensures files { (size : ℕ) (files : ℕ → Option (List ℕ)) → BeginWithFirst (pages_of size files) }
{}

/// A store whose log runs may append frames that say how its pages came to be what they are now, and its log
/// runs then, with these pages. Where a frame doesn't fit, the log goes on in the next segment.
pub fn a_running_store_may_append()
    ensures can { (wanted : Shape) (told : List ℕ → ℕ) (store : StoreState) (before after : Pairs) (s : State)
        (world : World) (frames : List Frame) (pages : Partitions) (logged : List PageId)
        → RunsOver wanted told store before s world → SayPagesOver store before after frames pages logged
        → HasSegmentsFor store.log (length frames)
        → CanAll told (on_log (append_all_steps store.log frames)) s world }
    ensures runs { (wanted : Shape) (told : List ℕ → ℕ) (store : StoreState) (before after : Pairs) (s : State)
        (world : World) (frames : List Frame) (pages : Partitions) (logged : List PageId)
        → RunsOver wanted told store before s world → SayPagesOver store before after frames pages logged
        → HasSegmentsFor store.log (length frames)
        → RunsOver wanted told (appended_to store frames pages logged) after
        (states (on_log (append_all_steps store.log frames)) s world)
        (worlds (on_log (append_all_steps store.log frames)) s world) }
{}

/// The logical record of an operation, and after it the records of the pages that it changed, say how the pages
/// came to be what they are; where the log has the logical record already, as it has at a restart, those of the
/// pages say it alone.
pub fn an_operation_says_its_pages()
    ensures done { (wanted : Shape) (told : List ℕ → ℕ) (store : StoreState) (s : State) (world : World)
        (part : ℕ) (noted : NotedPages) (frame : Frame) (pages : Partitions)
        → IsRunning wanted told store s world → MakesPages store part noted frame pages
        → SayPages store (operation_frames store noted frame) pages (operation_names store noted) }
    ensures replayed { (wanted : Shape) (told : List ℕ → ℕ) (store : StoreState) (pairs : Pairs) (s : State)
        (world : World) (part : ℕ) (noted : NotedPages) (pages : Partitions)
        → RunsOver wanted told store pairs s world → ChangesStore store part noted pages
        → SayPagesOver store pairs pairs (noted_frames noted store.logged) pages (operation_names store noted) }
{}

/// The log of a store that runs may be forced, and the store runs then. All that was appended is lasting, and
/// the map that lasts is the map of its pages.
pub fn a_running_store_may_force()
    ensures can { (wanted : Shape) (told : List ℕ → ℕ) (store : StoreState) (s : State) (world : World)
        → IsRunning wanted told store s world → CanAll told (on_log (Force ∷ [])) s world }
    ensures runs { (wanted : Shape) (told : List ℕ → ℕ) (store : StoreState) (s : State) (world : World)
        → IsRunning wanted told store s world
        → IsRunning wanted told store (states (on_log (Force ∷ [])) s world)
        (worlds (on_log (Force ∷ [])) s world) }
    ensures lasts { (wanted : Shape) (told : List ℕ → ℕ) (store : StoreState) (s : State) (world : World)
        → IsRunning wanted told store s world
        → (states (on_log (Force ∷ [])) s world).map ≡ map_of store }
    ensures order { (wanted : Shape) (told : List ℕ → ℕ) (store : StoreState) (s : State) (world : World)
        → IsRunning wanted told store s world
        → (states (on_log (Force ∷ [])) s world).order ≡ s.order ++ s.pending }
{}

/// A store that runs may be checkpointed at any time: its next checkpoint's mark is one that a marker may say,
/// each logged page is there, and once its CP_BEGIN is appended and forced the start marker may be written, for
/// exactly the logged pages.
pub fn a_running_store_may_be_checkpointed()
    ensures mark { (wanted : Shape) (told : List ℕ → ℕ) (store : StoreState) (s : State) (world : World)
        → IsRunning wanted told store s world → number_after store.mark < 2 ^ 64 → IsMark (mark_after store) }
    ensures held { (wanted : Shape) (told : List ℕ → ℕ) (store : StoreState) (s : State) (world : World)
        → IsRunning wanted told store s world
        → All (IsHeld store.shape.page_size store.pages) store.logged }
    ensures checkpoint { (wanted : Shape) (told : List ℕ → ℕ) (store : StoreState) (s : State) (world : World)
        → IsRunning wanted told store s world → number_after store.mark < 2 ^ 64
        → HasSegmentsFor store.log 1
        → CanCheckpoint wanted told s store.log (mark_after store) store.pages store.logged world }
{}

/// After its checkpoint the store runs: no page is logged, the new start marker is in force, and the segments
/// that it doesn't need are no longer kept. `Ckpt::whole_plain` says that it makes such steps.
pub fn a_checkpoint_leaves_a_running_store()
    ensures { (wanted : Shape) (told : List ℕ → ℕ) (store : StoreState) (s : State) (world : World)
        → IsRunning wanted told store s world → number_after store.mark < 2 ^ 64
        → HasSegmentsFor store.log 1
        → (can : CanCheckpoint wanted told s store.log (mark_after store) store.pages store.logged world)
        → (writings : List Writing)
        → CanAll told
        (whole_steps store.log (mark_after store) can.rebuilt store.pages writings s world) s world
        → IsStateAfter store.log (mark_after store)
        (states (whole_steps store.log (mark_after store) can.rebuilt store.pages writings s world) s world)
        → IsRunning wanted told (checkpointed store)
        (states (whole_steps store.log (mark_after store) can.rebuilt store.pages writings s world) s world)
        (worlds (whole_steps store.log (mark_after store) can.rebuilt store.pages writings s world) s world) }
{}
