//! The configuration of a run, read from its folder.

ghost use Rattle.std.specs.Prelude.{◌≡◌, ◌+◌, Some, take, IfOk, IsErrOf};
ghost use Rattle.pm_types.specs.declared.fault.Field.{Field};
ghost use Rattle.pm_disk.specs.Moments.{AllMoments};
ghost use Rattle.pm_disk.specs.States.{IsUsable};
ghost use Rattle.pm_config.specs.declared.limits.TheConstants.{CONFIG_BYTES_MAX as most_bytes};
ghost use Rattle.pm_config.specs.Limits.{IsConfig};
ghost use Rattle.pm_engine.specs.Batches.{HasPlainFault};
ghost use Rattle.pm_redo.specs.Rebuilding.{IsSame};
ghost use Rattle.pm_top.specs.RunCauses.{HasConfigCause};
ghost use Rattle.pm_top.specs.Configurations.{AsksFor, config_fault};

use pm_config::{CONFIG_BYTES_MAX, Config, ConfigFault, read_config_text};
use pm_disk::Host;
use pm_types::{Field, StoreFault};
use std::alloc::Global;

/// Why a run has no configuration.
#[derive(Clone, Copy, Debug, PartialEq, Eq)]
pub enum ConfigError {
    /// A call on the disk failed.
    Failed,
    /// Memory ran out.
    Memory,
    /// The configuration is refused: the first of the tests that refuses it has this name.
    Refused(Field),
}

/// What the configuration of the folder that is bound asks for.
pub fn read_config<H: Host>(alloc: Global, host: &mut H) -> Result<Config, ConfigError>
    requires usable { IsUsable (H.state host.old) }
    ensures within_limits { IfOk result IsConfig }
    ensures asked { H.tells → IfOk result (λ config. AsksFor (H.history host.old).world config.shape) }
    ensures refused { H.tells → (field : Field) → IsErrOf result (ConfigError.Refused field) →
        config_fault (H.history host.old).world ≡ Some field }
    ensures same { H.tells → AllMoments (H.history host.old) (H.history host.new) (IsSame
        (H.history host.old).world) }
    ensures cause { HasConfigCause (H.state host.old) (H.state host.new) result }
{
    let bytes = match config_bytes(alloc, host) {
        Ok(bytes) => bytes,
        Err(StoreFault::Failed) => return Err(ConfigError::Failed),
        Err(_) => return Err(ConfigError::Memory),
    };
    match read_config_text(alloc, &bytes) {
        Ok(config) => Ok(config),
        Err(ConfigFault::Bad(field)) => Err(ConfigError::Refused(field)),
        Err(ConfigFault::Memory) => Err(ConfigError::Memory),
    }
}

// The first bytes of the configuration: one more than it may have, by which a longer one shows.
fn config_bytes<H: Host>(alloc: Global, host: &mut H) -> Result<Vec<u8>, StoreFault>
    requires usable { IsUsable (H.state host.old) }
    ensures first { H.tells → IfOk result
        (λ bytes. bytes.items ≡ take (most_bytes + 1) (H.history host.old).world.config) }
    ensures same { H.tells → AllMoments (H.history host.old) (H.history host.new) (IsSame
        (H.history host.old).world) }
    ensures cause { HasPlainFault (H.state host.old) (H.state host.new) result }
{
    let mut bytes = vec![in alloc; 0; CONFIG_BYTES_MAX + 1]?;
    match host.read_config(&mut bytes) {
        Ok(count) => {
            bytes.truncate(count);
            Ok(bytes)
        }
        Err(_) => Err(StoreFault::Failed),
    }
}
