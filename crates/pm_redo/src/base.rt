//! The base pages of a store.

ghost use Rattle.std.specs.Prelude.{◌≡◌, length, IfOk, IsErrOf, IfSome};
ghost use Rattle.std.specs.Option.{option_map};
ghost use Rattle.pm_types.specs.declared.place.Place.{Place};
ghost use Rattle.pm_types.specs.Ids.{part_of_id, index_of_id};
ghost use Rattle.pm_types.specs.Shapes.{IsShape};
ghost use Rattle.pm_disk.specs.Moments.{Does, AllMoments};
ghost use Rattle.pm_disk.specs.States.{HasCause, IsUsable};
ghost use Rattle.pm_records.specs.LogFiles.{contents};
ghost use Rattle.pm_marks.specs.InForce.{Checkpoint};
ghost use Rattle.pm_marks.specs.Slots.{IsMark};
ghost use Rattle.pm_core.specs.BasePages.{base_of, no_pages};
ghost use Rattle.pm_core.specs.Held.{in_force};
ghost use Rattle.pm_core.specs.LogAlone.{image_of};
ghost use Rattle.pm_redo.specs.Faults.{HasStoreFault};
ghost use Rattle.pm_redo.specs.Pictures.{rebuilt_in, shape_in, marked_shape, ArePictures, files_in, ReadsPage};
ghost use Rattle.pm_redo.specs.Rebuilding.{CanNotRebuildFor, IsSame};

use crate::log_pages::rebuild;
use crate::rebuilt_pages::RebuiltPages;
use pm_disk::{Failed, Host};
use pm_marks::{is_mark, read_marks};
use pm_types::{Mark, PageId, Shape, StoreFault};
use std::alloc::Global;
use std::marker::Model;

/// The base pages of a store: those in its partitions' files, with the pages laid over that the log
/// rebuilds for a checkpoint without its end marker. Without a start marker there are none.
#[derive(Drop)]
pub struct Pictures {
    // The pages that were rebuilt, where there is a start marker.
    rebuilt: Option<RebuiltPages>,
}

impl Model for Pictures {
    ghost use Rattle.std.specs.Prelude.{Option};
    ghost use Rattle.pm_redo.specs.PageMaps.{PageMap};

    ghost Value = { Option PageMap };

    ghost view = { λ pictures. pictures.rebuilt };
}

impl Pictures {
    /// The shape of the pages: none where there is no start marker.
    pub fn shape(&self) -> Option<Shape>
        ensures { result ≡ shape_in self.now }
    {
        match &self.rebuilt {
            Some(rebuilt) => Some(rebuilt.shape()),
            None => None,
        }
    }

    /// The pages of the partitions' files alone, for a store whose checkpoint has its end marker; none where it has
    /// no start marker. It takes no memory. Not used by the program yet.
    pub fn of_files(alloc: Global, mark: &Option<Mark>) -> Pictures
        requires fits { IfSome mark.now IsMark }
        ensures shaped { shape_in result ≡ option_map (λ mark. mark.shape) mark.now }
        ensures none_rebuilt { rebuilt_in result ≡ no_pages }
    {
        match mark {
            Some(mark) => Pictures {
                rebuilt: Some(RebuiltPages::new(alloc, mark.shape)),
            },
            None => Pictures { rebuilt: None },
        }
    }

    /// Fills `into`, which is as long as a page, with a base page, and answers true. It answers false
    /// exactly where there is no such page. After `Failed` nothing is known of `into`.
    pub fn read<H: Host>(&self, host: &mut H, page: PageId, into: &mut [u8]) -> Result<bool, Failed>
        requires usable { IsUsable (H.Device.state host.old) }
        requires sized { IfSome self.now (λ kept. length into.old ≡ kept.shape.page_size) }
        ensures reads { H.Device.tells → (checkpoint : Checkpoint)
            → shape_in self.now ≡ marked_shape checkpoint → IfOk result (ReadsPage
            (base_of checkpoint (rebuilt_in self.now) (files_in (H.Device.history host.old).world)
            (part_of_id page) (index_of_id page)) into.new) }
        ensures does { H.Device.tells → Does (H.Device.history host.old) (H.Device.history host.new) result
            (H.Device.history host.old).world }
        ensures cause { HasCause (H.Device.state host.old) (H.Device.state host.new) result }
    {
        match &self.rebuilt {
            Some(rebuilt) => rebuilt.read(host, page, into),
            None => Ok(false),
        }
    }
}

/// Reads the markers, and rebuilds the pages of a checkpoint that has no end marker. Nothing is changed.
///
/// `BadRecord` comes exactly where the log doesn't rebuild them, unless a call failed or memory ran
/// out: it names the place that is bad.
pub fn base_pages<H: Host>(alloc: Global, host: &mut H) -> Result<Pictures, StoreFault>
    requires usable { IsUsable (H.Device.state host.old) }
    ensures limits { IfOk result (λ pictures. IfSome (shape_in pictures) IsShape) }
    ensures pictures { H.Device.tells → IfOk result (λ pictures. ArePictures pictures
        (in_force (image_of (H.Device.history host.old).world))
        (contents (H.Device.history host.old).world.log)) }
    ensures bad { H.Device.tells → (at : Place) → IsErrOf result (StoreFault.BadRecord at)
        → CanNotRebuildFor (in_force (image_of (H.Device.history host.old).world))
        (contents (H.Device.history host.old).world.log) at }
    ensures same { H.Device.tells → AllMoments (H.Device.history host.old) (H.Device.history host.new)
        (IsSame (H.Device.history host.old).world) }
    ensures cause { HasStoreFault (H.Device.state host.old) (H.Device.state host.new) result }
{
    let marks = read_marks(host)?;
    let Some(mark) = marks.start else {
        return Ok(Pictures { rebuilt: None });
    };
    // What is read of a valid slot is a mark. Where the host tells nothing, this test alone shows it.
    if !is_mark(&mark) {
        return Err(StoreFault::BadRecord(mark.begin));
    }
    if marks.ended {
        let rebuilt = RebuiltPages::new(alloc, mark.shape);
        return Ok(Pictures {
            rebuilt: Some(rebuilt),
        });
    }
    match rebuild(alloc, host, &mark) {
        Ok(rebuilt) => Ok(Pictures {
            rebuilt: Some(rebuilt),
        }),
        Err(fault) => Err(fault),
    }
}
