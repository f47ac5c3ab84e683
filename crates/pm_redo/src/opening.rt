//! What a restart does before it replays the log.

ghost use Rattle.std.specs.Prelude.{◌≡◌, ℕ, List, None, IfOk, IfErr, OnOk, IsErrOf};
ghost use Rattle.pm_types.specs.declared.place.Place.{Place};
ghost use Rattle.pm_types.specs.declared.shape.Shape.{Shape};
ghost use Rattle.pm_types.specs.Shapes.{IsShape};
ghost use Rattle.pm_disk.specs.States.{IsUsable};
ghost use Rattle.pm_model.specs.Eval.{Pairs};
ghost use Rattle.pm_records.specs.LogFiles.{contents};
ghost use Rattle.pm_core.specs.Held.{in_force};
ghost use Rattle.pm_core.specs.LogAlone.{image_of};
ghost use Rattle.pm_core.specs.Starts.{CanBegin};
ghost use Rattle.pm_redo.specs.Differences.{difference_from};
ghost use Rattle.pm_redo.specs.Faults.{HasOpenFault};
ghost use Rattle.pm_redo.specs.FoundMarks.{replay_from};
ghost use Rattle.pm_redo.specs.Restoring.{found_shape, ComparesShape, IsBadRestore, OnlyRestores};
ghost use Rattle.pm_redo.specs.Restoring.{left_state, IsBase, IsFit, RestoresWithin, RestoresAll};

use crate::cutting::restore_log;
use crate::difference::difference_from;
use crate::found::{FIRST, Found, find};
use pm_disk::Host;
use pm_segments::Log;
use pm_types::{Mark, OpenFault, Place, Shape, StoreFault};
use std::alloc::Global;

/// What a restart found before it replays the log, and the log, cut where it ends.
#[derive(Drop)]
pub struct Base {
    /// The store's shape; an empty store has none.
    pub shape: Option<Shape>,
    /// The start marker in force, if there is one.
    pub mark: Option<Mark>,
    /// From where the log is to be replayed.
    pub replay: Place,
    /// Where the log ended.
    pub log_end: Place,
    /// The log, which goes on from there.
    pub log: Log,
}

/// Does what a restart does before it replays the log. It reads the markers, compares the shape that the
/// store has with the wanted one, rebuilds the pages of a checkpoint that has no end marker, cuts the
/// log where it ends, and ends that checkpoint: it writes the rebuilt pages, forces their files, and then
/// writes the end marker and forces it.
///
/// The log counts as kept each segment that is there right below those that the start marker names, where
/// earlier crashes left some: the next checkpoint removes them.
///
/// `Shape` comes exactly where the store has a shape and it differs, unless a call failed or memory ran
/// out: it names the first field that does. `BadRecord` comes only where the store isn't sound: where
/// without a start marker the first record is no RESTART, where the log doesn't rebuild the pages, and where
/// the replay place is past its segment's end. After both nothing was changed. After `Failed` and `Memory`
/// the store holds what it held, and is to be restored again.
pub fn restore<H: Host>(alloc: Global, host: &mut H, wanted: &Shape) -> Result<Base, OpenFault>
    requires usable { IsUsable (H.Device.state host.old) }
    requires wanted { IsShape wanted.now }
    ensures base { IfOk result (λ base. IsFit wanted.now base × (H.Device.tells → IsBase
        (in_force (image_of (H.Device.history host.old).world)) wanted.now
        (contents (H.Device.history host.old).world.log) (H.Device.history host.new).world base)) }

    // Which field differs, and which record is bad.
    ensures compared { H.Device.tells → IfErr result (ComparesShape (difference_from (found_shape
        (in_force (image_of (H.Device.history host.old).world))
        (contents (H.Device.history host.old).world.log)) wanted.now)) }
    ensures alike { H.Device.tells → OnOk result (difference_from (found_shape
        (in_force (image_of (H.Device.history host.old).world))
        (contents (H.Device.history host.old).world.log)) wanted.now ≡ None) }
    ensures bad { H.Device.tells → (at : Place)
        → IsErrOf result (OpenFault.Store (StoreFault.BadRecord at)) → IsBadRestore
        (in_force (image_of (H.Device.history host.old).world))
        (contents (H.Device.history host.old).world.log) at }
    ensures only { H.Device.tells → OnlyRestores (difference_from (found_shape
        (in_force (image_of (H.Device.history host.old).world))
        (contents (H.Device.history host.old).world.log)) wanted.now)
        (H.Device.history host.old) (H.Device.history host.new) result }

    // What it makes of a sound store with nothing pending, and what a crash leaves meanwhile.
    ensures within { H.Device.tells → (told : List ℕ → ℕ) (shape : Shape) (pairs : Pairs)
        → (can : CanBegin wanted.now told (H.Device.history host.old).world shape pairs)
        → RestoresWithin wanted.now told shape pairs (left_state can)
        (H.Device.history host.old) (H.Device.history host.new) }
    ensures restored { H.Device.tells → (told : List ℕ → ℕ) (shape : Shape) (pairs : Pairs)
        → (can : CanBegin wanted.now told (H.Device.history host.old).world shape pairs)
        → OnOk result (RestoresAll wanted.now told (in_force (image_of (H.Device.history host.old).world))
        shape pairs (left_state can) (H.Device.history host.old) (H.Device.history host.new)) }
    ensures cause { HasOpenFault (H.Device.state host.old) (H.Device.state host.new) result }
{
    let found = find(alloc, host)?;
    if let Some(field) = difference_from(&found.shape, wanted) {
        return Err(OpenFault::Shape(field));
    }
    let log = restore_log(alloc, host, &found.marks, wanted.segment_bytes)?;
    Ok(found.with_log(log))
}

impl Found {
    // The base with this log.
    fn with_log(self, log: Log) -> Base
        ensures { result ≡ record {
          shape = self.shape;
          mark = self.marks.start;
          replay = replay_from self.marks;
          log_end = log.end;
          log = log;
        } }
    {
        let replay = match self.marks.start {
            Some(mark) => mark.replay,
            None => FIRST,
        };
        Base {
            shape: self.shape,
            mark: self.marks.start,
            replay,
            log_end: log.end(),
            log,
        }
    }
}
