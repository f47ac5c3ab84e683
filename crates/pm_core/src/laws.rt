//! Laws on disks and on runs of the disk machine. The functions do nothing: their contracts are the laws.

ghost use Rattle.std.specs.Prelude.{◌≡◌, ◌⊎◌, ◌↔◌, ◌+◌, ◌<◌, ◌≤◌, ℕ, List, length, take, Option, None};
ghost use Rattle.std.specs.Prelude.{◌∷◌, ◌++◌, Some, fold};
ghost use Rattle.std.specs.FinMap.{empty};
ghost use Rattle.pm_types.specs.declared.shape.Shape.{Shape};
ghost use Rattle.pm_types.specs.Shapes.{IsShape};
ghost use Rattle.pm_disk.specs.Images.{Image, LeavesAll};
ghost use Rattle.pm_disk.specs.Files.{File, bytes_of, content};
ghost use Rattle.pm_disk.specs.Worlds.{World, empty_world, slot_at};
ghost use Rattle.pm_disk.specs.declared.mark.TheConstants.{SLOT_LEN};
ghost use Rattle.pm_model.specs.Eval.{Pairs};
ghost use Rattle.pm_records.specs.Records.{Record, Restart};
ghost use Rattle.pm_marks.specs.InForce.{Checkpoint, Started, Ended};
ghost use Rattle.pm_marks.specs.MarkWrites.{HasFirstSlot};
ghost use Rattle.pm_core.specs.BasePages.{Partitions, base_of, rebuilt_from, since_restart};
ghost use Rattle.pm_core.specs.PageLaws.{Grows, after_record};
ghost use Rattle.pm_core.specs.LogAlone.{Holds};
ghost use Rattle.pm_core.specs.Held.{HoldsWith, in_force};
ghost use Rattle.pm_core.specs.Sound.{LogIsAlone, Sound, SoundImage, IsTrueImage};
ghost use Rattle.pm_core.specs.States.{State};
ghost use Rattle.pm_core.specs.Machine.{DiskStep, OthersStay, CanStart, CanAll, states, worlds};
ghost use Rattle.pm_core.specs.FirstRun.{first_mark, first_run};
ghost use Rattle.pm_core.specs.Calls.{MakesPrefix, begin_steps, finish_steps, CanFinish};
ghost use Rattle.pm_core.specs.Stands.{Stands};
ghost use Rattle.pm_types.specs.declared.page_id.PageId.{PageId};
ghost use Rattle.pm_types.specs.declared.shape.Mark.{Mark};
ghost use Rattle.pm_core.specs.Rounds.{PageStep, on_log, on_pages, joined};
ghost use Rattle.pm_core.specs.Starts.{CanBegin, start_state, appended};
ghost use Rattle.pm_core.specs.Prefixes.{IsUpTo, KeepsPrefix, last_number};
ghost use Rattle.pm_records.specs.LogSteps.{Step, world_after, DoesPrefix};

/// A folder without files is sound, and holds the empty map and the wanted shape.
pub fn a_folder_without_files_is_sound()
    ensures sound { (wanted : Shape) → IsShape wanted → Sound wanted empty_world wanted empty }
{}

/// Where no slot of a marker file is valid and no partition file holds a whole page, the log alone
/// says what is held.
pub fn the_log_alone_says_it()
    ensures same { (wanted : Shape) (image : Image) (shape : Shape) (pairs : Pairs)
        → LogIsAlone shape.page_size image
        → SoundImage wanted image shape pairs ↔ Holds wanted image shape pairs }
{}

/// With a checkpoint in force a disk holds one shape and one map.
pub fn held_is_one_map()
    ensures one { (wanted : Shape) (checkpoint : Checkpoint) (image : Image) (shape other : Shape)
        (pairs more : Pairs)
        → HoldsWith wanted checkpoint image shape pairs → HoldsWith wanted checkpoint image other more
        → (shape ≡ other) × (pairs ≡ more) }
{}

/// Where the base pages only grow, the disk holds what it held: pages that don't count may be anything.
pub fn junk_pages_change_no_map()
    ensures holds { (wanted : Shape) (checkpoint : Checkpoint) (image : Image)
        (files : ℕ → Option (List ℕ)) (shape : Shape) (pairs : Pairs)
        → (holds : HoldsWith wanted checkpoint image shape pairs)
        → ((part : ℕ) → part < shape.partitions
        → Grows (base_of checkpoint holds.rebuilt image.pages part)
        (base_of checkpoint holds.rebuilt files part))
        → HoldsWith wanted checkpoint (record image { pages = files }) shape pairs }
{}

/// A page that the log rebuilds is its last snapshot with the later deltas applied in order, and
/// nothing before the last RESTART counts.
pub fn a_page_is_its_last_snapshot_with_its_deltas()
    ensures page { (shape : Shape) (records : List Record) (pages : Partitions) (part index : ℕ)
        → part < shape.partitions
        → rebuilt_from shape records ≡ Some pages
        → pages part index ≡ fold (after_record part index) None records }
    ensures restart { (before records : List Record) (shape : Shape)
        → since_restart (before ++ Restart shape ∷ records) ≡ since_restart records }
{}

/// The crash law. From a sound disk with nothing pending, and for every list of steps that meet
/// their guards: whatever a crash leaves at any moment, as long as no sum is right by chance, is
/// sound, and holds the map of the start after a prefix of the records that the list appends, which
/// has all that were forced by then.
///
/// The replies that were begun by then speak of no record that wasn't forced.
pub fn a_crash_leaves_a_prefix()
    ensures map { (wanted : Shape) (told : List ℕ → ℕ) (world : World) (shape : Shape) (pairs : Pairs)
        → (can : CanBegin wanted told world shape pairs) → (steps : List DiskStep)
        → CanAll told steps (start_state wanted world shape pairs can.sound) world → (k : ℕ) (image : Image)
        → LeavesAll (worlds (take k steps) (start_state wanted world shape pairs can.sound) world) image
        → IsTrueImage (worlds (take k steps) (start_state wanted world shape pairs can.sound) world) image
        → KeepsPrefix wanted shape pairs
        (appended (states steps (start_state wanted world shape pairs can.sound) world))
        (length (states (take k steps) (start_state wanted world shape pairs can.sound) world).order) image }
    ensures said { (wanted : Shape) (told : List ℕ → ℕ) (world : World) (shape : Shape) (pairs : Pairs)
        → (can : CanBegin wanted told world shape pairs) → (steps : List DiskStep)
        → CanAll told steps (start_state wanted world shape pairs can.sound) world → (k : ℕ)
        → told (worlds (take k steps) (start_state wanted world shape pairs can.sound) world).said
        ≤ length (states (take k steps) (start_state wanted world shape pairs can.sound) world).order }
{}

/// The crash law of a round. After steps that meet their guards, steps of the log and steps of the
/// pages are made side by side, of which each list meets its guards by itself: at each pair of a
/// moment of the one and a moment of the other, whatever a crash leaves is sound, and holds the map
/// after a prefix of the appended records that has all that were forced by then.
///
/// The same holds of a disk that is as a state says, and after the round it is as the state after
/// the log's steps says.
pub fn a_round_leaves_a_prefix()
    ensures map { (wanted : Shape) (told : List ℕ → ℕ) (world : World) (shape : Shape) (pairs : Pairs)
        → (can : CanBegin wanted told world shape pairs) → (steps : List DiskStep)
        → CanAll told steps (start_state wanted world shape pairs can.sound) world
        → (mid : State) → mid ≡ states steps (start_state wanted world shape pairs can.sound) world
        → (now : World) → now ≡ worlds steps (start_state wanted world shape pairs can.sound) world
        → (logged : List Step) (paged : List PageStep) → CanAll told (on_log logged) mid now
        → CanAll told (on_pages paged) mid now
        → (j k : ℕ) (image : Image)
        → LeavesAll (joined now (worlds (take j (on_log logged)) mid now)
        (worlds (take k (on_pages paged)) mid now)) image
        → IsTrueImage (joined now (worlds (take j (on_log logged)) mid now)
        (worlds (take k (on_pages paged)) mid now)) image
        → KeepsPrefix wanted shape pairs (appended (states (on_log logged) mid now))
        (length (states (take j (on_log logged)) mid now).order) image }
    ensures here { (wanted : Shape) (told : List ℕ → ℕ) (s : State) (world : World) (logged : List Step)
        (paged : List PageStep)
        → Stands wanted told s world → CanAll told (on_log logged) s world
        → CanAll told (on_pages paged) s world → (j k : ℕ) (image : Image)
        → LeavesAll (joined world (worlds (take j (on_log logged)) s world)
        (worlds (take k (on_pages paged)) s world)) image
        → IsTrueImage (joined world (worlds (take j (on_log logged)) s world)
        (worlds (take k (on_pages paged)) s world)) image
        → KeepsPrefix wanted s.shape s.first (appended (states (on_log logged) s world))
        (length (states (take j (on_log logged)) s world).order) image }
    ensures after { (wanted : Shape) (told : List ℕ → ℕ) (s : State) (world : World) (logged : List Step)
        (paged : List PageStep)
        → Stands wanted told s world → CanAll told (on_log logged) s world
        → CanAll told (on_pages paged) s world
        → Stands wanted told (states (on_log logged) s world)
        (joined world (worlds (on_log logged) s world) (worlds (on_pages paged) s world)) }
{}

/// A sound disk with nothing pending is as the machine's first state says, and after steps that
/// meet their guards a disk is as the state after them says.
pub fn a_disk_stands_for_its_state()
    ensures first { (wanted : Shape) (told : List ℕ → ℕ) (world : World) (shape : Shape) (pairs : Pairs)
        → (can : CanBegin wanted told world shape pairs)
        → Stands wanted told (start_state wanted world shape pairs can.sound) world }
    ensures later { (wanted : Shape) (told : List ℕ → ℕ) (s : State) (world : World) (steps : List DiskStep)
        → Stands wanted told s world → CanAll told steps s world
        → Stands wanted told (states steps s world) (worlds steps s world) }
{}

/// The crash law of one call. Where a disk is as a state says, and a call makes steps that meet
/// their guards, or a prefix of them: whatever a crash leaves then is sound, and holds the map
/// after a prefix of the appended records that has all that were forced before the call.
pub fn a_call_leaves_a_prefix()
    ensures map { (wanted : Shape) (told : List ℕ → ℕ) (s : State) (world : World) (steps : List DiskStep)
        → Stands wanted told s world → CanAll told steps s world → (now : World) → MakesPrefix steps s world now
        → (image : Image) → LeavesAll now image → IsTrueImage now image
        → KeepsPrefix wanted s.shape s.first (appended (states steps s world)) (length s.order) image }
{}

/// What a crash leaves of one call goes no further than the call, where no marker was pending before it: its log
/// ends at most one segment after the one in which the log ends after the call, and the checkpoint in force has
/// at most the number of the last one whose start marker the call writes, or wrote before.
pub fn a_crash_leaves_nothing_later()
    ensures { (wanted : Shape) (told : List ℕ → ℕ) (s : State) (world : World) (steps : List DiskStep)
        → Stands wanted told s world → s.soon ≡ None → CanAll told steps s world
        → (now : World) → MakesPrefix steps s world now
        → (image : Image) → LeavesAll now image → IsTrueImage now image
        → (shape : Shape) (pairs : Pairs) (sound : SoundImage wanted image shape pairs)
        → IsUpTo ((states steps s world).end.seg + 1) (last_number (states steps s world))
        wanted image shape pairs sound }
{}

/// The steps of a checkpoint's calls meet their guards: those of `Idle::begin` where its start
/// marker may be written, and those of `Begun::finish` where each page that the log rebuilds is in
/// its file.
pub fn a_checkpoint_meets_its_guards()
    ensures begin { (told : List ℕ → ℕ) (mark : Mark) (rebuilt : Partitions) (s : State) (world : World)
        → CanStart mark rebuilt s world → CanAll told (begin_steps mark rebuilt) s world }
    ensures finish { (wanted : Shape) (told : List ℕ → ℕ) (mark : Mark) (pages : List PageId) (s : State)
        (world : World)
        → Stands wanted told s world → CanFinish mark pages s world
        → CanAll told (finish_steps mark pages) s world }
{}

/// There are sound stores with a checkpoint in force, of each shape that a store may have: one with
/// its end marker, and one without.
pub fn stores_with_a_checkpoint_are_sound()
    ensures ended { (wanted shape : Shape) → IsShape shape
        → (image : Image) × (mark : Mark) × (in_force image ≡ Ended mark)
        × SoundImage wanted image shape empty }
    ensures started { (wanted shape : Shape) → IsShape shape
        → (image : Image) × (mark : Mark) × (in_force image ≡ Started mark)
        × SoundImage wanted image shape empty }
{}

/// There is a run that meets its guards, from a folder without files: the log is begun and goes on in its
/// second segment, in which a checkpoint begins, writes a page and ends, the first segment is dropped, which
/// has bytes, and a byte is said. So no guard is one that nobody can meet.
pub fn a_run_meets_its_guards()
    ensures begins { (shape : Shape) → IsShape shape → CanBegin shape length empty_world shape empty }
    ensures run { (shape : Shape) → IsShape shape → (can : CanBegin shape length empty_world shape empty)
        → CanAll length (first_run shape) (start_state shape empty_world shape empty can.sound) empty_world }
    ensures ends { (shape : Shape) → IsShape shape → (can : CanBegin shape length empty_world shape empty)
        → (states (first_run shape)
        (start_state shape empty_world shape empty can.sound) empty_world).now.checkpoint
        ≡ Ended (first_mark shape) }
{}

/// A marker's write leaves the other slot as it reads, where the first slot of the file is there in full, and
/// where each slot is there in full or not at all.
pub fn a_marker_leaves_the_other()
    ensures first { (mark : Mark) (file : File) → HasFirstSlot file → OthersStay mark file }
    ensures whole { (mark : Mark) (file : File) → ((slot : ℕ) → slot < 2
        → (slot_at slot + SLOT_LEN ≤ length (bytes_of (content file)))
        ⊎ (length (bytes_of (content file)) ≤ slot_at slot))
        → OthersStay mark file }
{}

/// Steps of the log, one after the other, are steps of the machine: so what `pm_segments` promises
/// of a call is what the law asks.
pub fn calls_of_the_log_are_steps()
    ensures worlds { (steps : List Step) (s : State) (world : World)
        → worlds (on_log steps) s world ≡ world_after steps s.end world }
    ensures moment { (steps : List Step) (s : State) (world now : World) → DoesPrefix steps s.end world now
        → MakesPrefix (on_log steps) s world now }
{}
