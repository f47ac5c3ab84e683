//! The forcing of the page files that a checkpoint wrote.

ghost use Rattle.std.specs.Prelude.{◌≡◌};
ghost use Rattle.pm_types.specs.declared.limits.TheConstants.{PARTITIONS_MAX};
ghost use Rattle.pm_disk.specs.States.{HasCause, IsUsable};
ghost use Rattle.pm_core.specs.Calls.{MakesSteps, force_steps};
ghost use Rattle.pm_core.specs.PageSets.{has_part};
ghost use Rattle.pm_core.specs.States.{State};

use pm_disk::{Failed, Host};
use pm_types::{PARTITIONS_MAX, PageId};

/// Forces the file of each partition that one of these pages is of, by rising number, once each.
///
/// `Failed` comes only where a call on the disk failed: those before it are forced then, and none after it is.
pub fn force_parts<H: Host>(host: &mut H, pages: &Vec<PageId>) -> Result<(), Failed>
    requires usable { IsUsable (H.Device.state host.old) }
    ensures steps { H.Device.tells → (s : State)
        → MakesSteps (H.Device.history host.old) (H.Device.history host.new) result
        (force_steps 0 PARTITIONS_MAX pages.now.items) s }
    ensures cause { HasCause (H.Device.state host.old) (H.Device.state host.new) result }
{
    'each: for part in 0..PARTITIONS_MAX {
        force_part(host, part, pages)?;
    }
    Ok(())
}

// Forces a partition's file, where one of the pages is of it.
fn force_part<H: Host>(host: &mut H, part: u16, pages: &Vec<PageId>) -> Result<(), Failed>
    requires usable { IsUsable (H.Device.state host.old) }
    ensures steps { H.Device.tells → (s : State)
        → MakesSteps (H.Device.history host.old) (H.Device.history host.new) result
        (force_steps part 1 pages.now.items) s }
    ensures cause { HasCause (H.Device.state host.old) (H.Device.state host.new) result }
{
    if has_part(part, pages) {
        host.force_pages(part)?;
    }
    Ok(())
}

// Whether one of the pages is of this partition.
fn has_part(part: u16, pages: &Vec<PageId>) -> bool
    ensures { result ≡ has_part part pages.now.items }
{
    'each: for page in pages {
        if page.part() == part {
            return true;
        }
    }
    false
}
