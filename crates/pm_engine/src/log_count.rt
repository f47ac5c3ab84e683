//! How many bytes of log a restart would apply, and how many may stand.

ghost use Rattle.std.specs.Prelude.{◌≡◌, ◌+◌, ◌-◌, nat_lt, length, IfOk};
ghost use Rattle.pm_disk.specs.Moments.{AllMoments, Does};
ghost use Rattle.pm_disk.specs.States.{HasCause, IsUsable};
ghost use Rattle.pm_records.specs.LogFiles.{contents};
ghost use Rattle.pm_redo.specs.Rebuilding.{IsSame};
ghost use Rattle.pm_engine.specs.LogCounts.{CountsAtLeast, idle_bytes, log_bytes};

use pm_config::Config;
use pm_disk::{Failed, Host};
use pm_types::Place;

// A run that ends, and an opening, leave at most this share of `checkpoint_bytes` to be applied again. A larger share
// makes the next opening slower, a smaller one makes more of the runs end with a checkpoint.
const IDLE_SHARE: u64 = 8;

// But they make no checkpoint for less than this many bytes of log: each costs forces of the log, of the partitions'
// files and of both markers, and so does a short run at its end then.
const IDLE_BYTES_MIN: u64 = 1_048_576;

/// From where an engine counts the bytes of its log.
#[derive(Clone, Copy, Debug, PartialEq, Eq)]
pub struct LogCount {
    /// The bytes of log that were found when the store was opened, and none once the engine made a checkpoint.
    pub found: u64,
    /// The bytes that the log had appended when the count began.
    pub total: u64,
}

impl LogCount {
    /// Whether more than so many bytes are counted, where the log has appended `total`.
    pub(crate) fn is_over(self, total: u64, most: u64) -> bool
        ensures { result ≡ nat_lt most (self.found + (total - self.total)) }
    {
        let since = total.saturating_sub(self.total);
        since > most || self.found > most - since
    }
}

/// How many bytes of log a run that ends, or an opening, may leave to be applied again.
pub(crate) fn idle_bytes(config: &Config) -> u64
    ensures { result ≡ idle_bytes config.now }
{
    let share = config.checkpoint_bytes / IDLE_SHARE;
    config.checkpoint_bytes.min(share.max(IDLE_BYTES_MIN))
}

/// How many bytes of log stand from one place up to another one.
pub(crate) fn log_bytes<H: Host>(host: &mut H, from: Place, end: Place) -> Result<u64, Failed>
    requires usable { IsUsable (H.Device.state host.old) }
    ensures counted { H.Device.tells → IfOk result (λ bytes. CountsAtLeast bytes
        (log_bytes (contents (H.Device.history host.old).world.log) from end)) }
    ensures same { H.Device.tells → AllMoments (H.Device.history host.old) (H.Device.history host.new)
        (IsSame (H.Device.history host.old).world) }
    ensures cause { HasCause (H.Device.state host.old) (H.Device.state host.new) result }
{
    let mut seg = from.seg;
    let mut bytes: u64 = 0;
    'segments: while seg < end.seg {
        let len = segment_len(host, seg)?;
        bytes = bytes.saturating_add(len);
        seg += 1;
    }
    let to_end = bytes.saturating_add(u64::from(end.off));
    Ok(to_end.saturating_sub(u64::from(from.off)))
}

// How many bytes a segment has.
fn segment_len<H: Host>(host: &mut H, seg: u64) -> Result<u64, Failed>
    requires usable { IsUsable (H.Device.state host.old) }
    ensures len { H.Device.tells
        → IfOk result (λ len. len ≡ length (contents (H.Device.history host.old).world.log seg)) }
    ensures does { H.Device.tells → Does (H.Device.history host.old) (H.Device.history host.new) result
        (H.Device.history host.old).world }
    ensures cause { HasCause (H.Device.state host.old) (H.Device.state host.new) result }
{
    match host.seg_len(seg)? {
        Some(len) => Ok(len),
        None => Ok(0),
    }
}
