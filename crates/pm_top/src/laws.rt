//! Runs and crashes follow each other. The functions do nothing: each states a law of the
//! definitions that `top` promises by.

ghost use Rattle.std.specs.Prelude.{List};
ghost use Rattle.std.specs.FinMap.{empty};
ghost use Rattle.pm_types.specs.declared.shape.Shape.{Shape};
ghost use Rattle.pm_types.specs.Shapes.{IsShape};
ghost use Rattle.pm_disk.specs.Images.{Image};
ghost use Rattle.pm_disk.specs.Worlds.{World};
ghost use Rattle.pm_model.specs.Eval.{Pairs, after_all};
ghost use Rattle.pm_core.specs.LogAlone.{image_of};
ghost use Rattle.pm_core.specs.Sound.{SoundImage};
ghost use Rattle.pm_engine.specs.RunningLines.{SameDisk};
ghost use Rattle.pm_top.specs.Chains.{Follows, IsFoundAfter, IsFresh, Stage, found_last, lines_kept};
ghost use Rattle.pm_top.specs.Crashes.{HasNumbers};
ghost use Rattle.pm_top.specs.Promises.{IsLeft, IsStart, last_after, number_after};
ghost use Rattle.pm_top.specs.Served.{script_of};

/// A run may begin over a fresh folder, which holds the empty map.
pub fn a_fresh_folder_is_a_start()
    ensures { (wanted : Shape) (world : World) → IsShape wanted → IsFresh world
        → IsStart wanted world wanted empty }
{}

/// A run may begin over what a run that was done has left, as long as there are numbers for more segments
/// and checkpoints.
pub fn what_a_done_run_leaves_is_a_start()
    ensures { (wanted shape : Shape) (old new world : World) (pairs : Pairs)
        → (start : IsStart wanted old shape pairs)
        → (left : IsLeft wanted (last_after start) (number_after start) old new shape pairs)
        → HasNumbers wanted (image_of new) shape (after_all shape (script_of old.input) pairs) left.sound
        → SameDisk new world → IsStart wanted world shape (after_all shape (script_of old.input) pairs) }
{}

/// A run may begin over what a crash has left, as long as there are numbers for more segments and checkpoints.
pub fn what_a_crash_leaves_is_a_start()
    ensures { (wanted shape : Shape) (image : Image) (world : World) (pairs : Pairs)
        → (sound : SoundImage wanted image shape pairs) → HasNumbers wanted image shape pairs sound
        → IsFoundAfter image world → IsStart wanted world shape pairs }
{}

/// Over any sequence of runs and crashes the store is one over which a run may begin, as long as there are
/// numbers for more segments and checkpoints. It holds the map after the lines that count, run after run:
/// of a run that was done all its lines, and of one that crashed a prefix of its order, which has each line
/// that was acknowledged.
pub fn runs_and_crashes_follow_each_other()
    ensures { (wanted shape : Shape) (start : World) (pairs : Pairs) (stages : List Stage)
        → IsStart wanted start shape pairs → Follows wanted shape start pairs stages
        → IsStart wanted (found_last start stages) shape (after_all shape (lines_kept stages) pairs) }
{}
