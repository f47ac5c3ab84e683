//! One step on what a host holds.

ghost use Rattle.std.specs.Prelude.{◌≡◌, OnOk, OnErr};
ghost use Rattle.pm_disk.specs.Worlds.{World};
ghost use Rattle.pm_disk_mem.specs.Steps.{CanStep, HoldsWorld, stepped};

use crate::console::Console;
use crate::files::Files;
use crate::step::Step;
use std::alloc::{AllocError, Global};

/// Makes the step. Out of memory leaves all as it was.
pub fn make(
    alloc: Global,
    files: &mut Files,
    console: &mut Console,
    step: &Step,
) -> Result<(), AllocError>
    requires { CanStep step.now files.old console.old }
    ensures made { OnOk result ((w : World) → HoldsWorld files.old console.old w
        → HoldsWorld files.new console.new (stepped step.now w)) }
    ensures unchanged { OnErr result ((w : World) → HoldsWorld files.old console.old w
        → HoldsWorld files.new console.new w) }
    ensures script { console.new.script ≡ console.old.script }
{
    match step {
        Step::Change(file, change) => files.change(alloc, *file, change.copy(alloc)?),
        Step::Force(file) => {
            files.force(*file);
            Ok(())
        }
        Step::Print(bytes) => console.say(bytes),
        Step::Take(count) => {
            console.take(*count);
            Ok(())
        }
    }
}
