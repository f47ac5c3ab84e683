//! What follows for a sound store. The functions do nothing: their contracts are the laws.

ghost use Rattle.pm_types.specs.declared.page_id.PageId.{PageId};
ghost use Rattle.pm_types.specs.declared.place.Place.{Place};
ghost use Rattle.pm_types.specs.declared.shape.Shape.{Shape};
ghost use Rattle.pm_disk.specs.Worlds.{World};
ghost use Rattle.pm_model.specs.Eval.{Pairs};
ghost use Rattle.pm_records.specs.LogFiles.{contents};
ghost use Rattle.pm_core.specs.BasePages.{Partitions};
ghost use Rattle.pm_core.specs.Held.{AllWellFormed, in_force};
ghost use Rattle.pm_core.specs.LogAlone.{image_of};
ghost use Rattle.pm_core.specs.Sound.{Sound};
ghost use Rattle.pm_redo.specs.Loading.{IsBadPage};
ghost use Rattle.pm_redo.specs.Restoring.{IsBadRestore};

/// In a sound store no record is bad: a restart names one only in another.
pub fn a_sound_store_has_no_bad_record()
    ensures { (wanted : Shape) (world : World) (shape : Shape) (pairs : Pairs)
        → Sound wanted world shape pairs → (at : Place)
        → IsBadRestore (in_force (image_of world)) (contents world.log) at → ⊥ }
{}

/// Where each partition's base pages are well formed none of them is bad, so that all of them are loaded unless a
/// call fails or memory runs out.
pub fn no_well_formed_page_is_bad()
    ensures { (shape : Shape) (base : Partitions) (id : PageId) → AllWellFormed shape base
        → IsBadPage shape base id → ⊥ }
{}
