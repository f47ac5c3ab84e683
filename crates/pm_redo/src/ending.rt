//! The end of a checkpoint that a restart found without its end marker.

ghost use Rattle.std.specs.Prelude.{◌≡◌, ℕ, List, [], OnOk};
ghost use Rattle.pm_types.specs.declared.shape.Shape.{Shape};
ghost use Rattle.pm_types.specs.declared.shape.Mark.{Mark};
ghost use Rattle.pm_disk.specs.Moments.{AllMoments};
ghost use Rattle.pm_disk.specs.States.{HasCause, IsUsable};
ghost use Rattle.pm_marks.specs.Slots.{IsMark};
ghost use Rattle.pm_core.specs.Calls.{AreRebuilt, ChangesDisk, MakesSteps, finish_steps};
ghost use Rattle.pm_core.specs.States.{State};
ghost use Rattle.pm_redo.specs.Ending.{IsUnended, BeginsSteps, WritesOne, WritesPages, MayEnd};
ghost use Rattle.pm_redo.specs.Ending.{EndsCheckpoint, LaysPages};
ghost use Rattle.pm_redo.specs.PageMaps.{kept_pages};

use crate::rebuilt_pages::RebuiltPages;
use pm_core::force_parts;
use pm_disk::{Failed, Host};
use pm_marks::write_end;
use pm_types::{Mark, PageId};

/// Writes the pages that were rebuilt to their files, forces these files, and then writes the end marker
/// and forces it. After `Failed` some of this may be done, and it is to be done again.
pub(crate) fn end_checkpoint<H: Host>(
    host: &mut H,
    mark: &Mark,
    rebuilt: &RebuiltPages,
    pages: &Vec<PageId>,
) -> Result<(), Failed>
    requires usable { IsUsable (H.Device.state host.old) }
    requires mark { IsMark mark.now }
    ensures begun { H.Device.tells → (wanted : Shape) (told : List ℕ → ℕ) (s : State)
        → MayEnd wanted told mark.now rebuilt.now pages.now.items s (H.Device.history host.old).world
        → BeginsSteps told s (H.Device.history host.old) (H.Device.history host.new) }
    ensures ended { H.Device.tells → (wanted : Shape) (told : List ℕ → ℕ) (s : State)
        → MayEnd wanted told mark.now rebuilt.now pages.now.items s (H.Device.history host.old).world
        → OnOk result (EndsCheckpoint told mark.now s (H.Device.history host.old) (H.Device.history host.new)) }
    ensures pages { H.Device.tells → AreRebuilt pages.now.items (kept_pages rebuilt.now)
        → OnOk result (LaysPages rebuilt.now (H.Device.history host.old).world
        (H.Device.history host.new).world) }
    ensures log { H.Device.tells → OnOk result
        ((H.Device.history host.new).world.log ≡ (H.Device.history host.old).world.log) }
    ensures disk { H.Device.tells → AllMoments (H.Device.history host.old) (H.Device.history host.new)
        (ChangesDisk (H.Device.history host.old).world) }
    ensures cause { HasCause (H.Device.state host.old) (H.Device.state host.new) result }
{
    write_pages(host, rebuilt, pages)?;
    finish(host, mark, pages)
}

// Writes pages to their files.
fn write_pages<H: Host>(
    host: &mut H,
    rebuilt: &RebuiltPages,
    pages: &Vec<PageId>,
) -> Result<(), Failed>
    requires usable { IsUsable (H.Device.state host.old) }
    ensures begun { H.Device.tells → (told : List ℕ → ℕ) (mark : Mark) (s : State)
        → IsUnended mark rebuilt.now s
        → BeginsSteps told s (H.Device.history host.old) (H.Device.history host.new) }
    ensures written { H.Device.tells → (told : List ℕ → ℕ) (mark : Mark) (s : State)
        → IsUnended mark rebuilt.now s → OnOk result (WritesPages told rebuilt.now pages.now.items [] s
        (H.Device.history host.old) (H.Device.history host.new)) }
    ensures log { H.Device.tells → OnOk result
        ((H.Device.history host.new).world.log ≡ (H.Device.history host.old).world.log) }
    ensures disk { H.Device.tells → AllMoments (H.Device.history host.old) (H.Device.history host.new)
        (ChangesDisk (H.Device.history host.old).world) }
    ensures cause { HasCause (H.Device.state host.old) (H.Device.state host.new) result }
{
    'each: for page in pages {
        write_one(host, rebuilt, *page)?;
    }
    Ok(())
}

// Writes a page to its file, if it is one that was rebuilt.
fn write_one<H: Host>(host: &mut H, rebuilt: &RebuiltPages, page: PageId) -> Result<(), Failed>
    requires usable { IsUsable (H.Device.state host.old) }
    ensures begun { H.Device.tells → (told : List ℕ → ℕ) (mark : Mark) (s : State)
        → IsUnended mark rebuilt.now s
        → BeginsSteps told s (H.Device.history host.old) (H.Device.history host.new) }
    ensures written { H.Device.tells → (told : List ℕ → ℕ) (mark : Mark) (s : State)
        → IsUnended mark rebuilt.now s → OnOk result (WritesOne told rebuilt.now page s
        (H.Device.history host.old) (H.Device.history host.new)) }
    ensures log { H.Device.tells → OnOk result
        ((H.Device.history host.new).world.log ≡ (H.Device.history host.old).world.log) }
    ensures disk { H.Device.tells → AllMoments (H.Device.history host.old) (H.Device.history host.new)
        (ChangesDisk (H.Device.history host.old).world) }
    ensures cause { HasCause (H.Device.state host.old) (H.Device.state host.new) result }
{
    match rebuilt.page(page) {
        Some(bytes) => host.write_page(page, bytes),
        None => Ok(()),
    }
}

// Forces the files of these pages' partitions, and then writes the end marker and forces it.
fn finish<H: Host>(host: &mut H, mark: &Mark, pages: &Vec<PageId>) -> Result<(), Failed>
    requires usable { IsUsable (H.Device.state host.old) }
    requires mark { IsMark mark.now }
    ensures steps { H.Device.tells → (s : State)
        → MakesSteps (H.Device.history host.old) (H.Device.history host.new) result
        (finish_steps mark.now pages.now.items) s }
    ensures cause { HasCause (H.Device.state host.old) (H.Device.state host.new) result }
{
    force_parts(host, pages)?;
    write_end(host, mark)
}
