//! The begin of a checkpoint: its record in the log, and its start marker.

ghost use Rattle.std.specs.Prelude.{◌≡◌, OnOk, IfOk, length};
ghost use Rattle.pm_disk.specs.States.{HasCause, IsUsable};
ghost use Rattle.pm_marks.specs.Slots.{IsMark};
ghost use Rattle.pm_records.specs.LogSteps.{DoesSteps};
ghost use Rattle.pm_segments.specs.Appends.{grown};
ghost use Rattle.pm_segments.specs.Ends.{EndsThere};
ghost use Rattle.pm_core.specs.BasePages.{Partitions};
ghost use Rattle.pm_core.specs.Calls.{MakesSteps};
ghost use Rattle.pm_core.specs.States.{State};
ghost use Rattle.pm_ckpt.specs.Marked.{begin_frame, begin_log};
ghost use Rattle.pm_ckpt.specs.Checkpoints.{opening_steps};

use pm_core::{Begun, Idle, PageSet};
use pm_disk::{Failed, Host};
use pm_frame::CP_BEGIN;
use pm_records::{CP_BEGIN_LEN, LogRecord, encode};
use pm_segments::Log;
use pm_types::Mark;

/// Begins the checkpoint with this mark and these pages: appends its CP_BEGIN, forces the log past it, and
/// then writes the start marker and forces it. After `Failed` a prefix of this was done.
pub(crate) fn begin_marked<H: Host>(
    host: &mut H,
    log: &mut Log,
    idle: Idle,
    mark: Mark,
    set: PageSet,
) -> Result<Begun, Failed>
    requires usable { IsUsable (H.Device.state host.old) }
    requires mark { IsMark mark }
    requires end { H.Device.tells → EndsThere log.old (H.Device.history host.old).world }
    ensures begun { IfOk result (λ begun. begun ≡ record { mark = mark; set = set; left = set.pages }) }
    ensures grown { OnOk result (log.new ≡ grown log.old (begin_frame mark)) }
    ensures ends { H.Device.tells → OnOk result (EndsThere log.new (H.Device.history host.new).world) }
    ensures steps { H.Device.tells → (s : State) (rebuilt : Partitions) → s.end ≡ log.old.end
        → MakesSteps (H.Device.history host.old) (H.Device.history host.new) result
        (opening_steps log.old mark rebuilt) s }
    ensures cause { HasCause (H.Device.state host.old) (H.Device.state host.new) result }
{
    append_begin(host, log, &mark)?;
    idle.begin(host, mark, set)
}

// Appends the CP_BEGIN of this mark, and forces the log past it.
fn append_begin<H: Host>(host: &mut H, log: &mut Log, mark: &Mark) -> Result<(), Failed>
    requires usable { IsUsable (H.Device.state host.old) }
    requires mark { IsMark mark.now }
    requires end { H.Device.tells → EndsThere log.old (H.Device.history host.old).world }
    ensures grown { OnOk result (log.new ≡ grown log.old (begin_frame mark.now)) }
    ensures ends { H.Device.tells → OnOk result (EndsThere log.new (H.Device.history host.new).world) }
    ensures steps { H.Device.tells → DoesSteps (H.Device.history host.old) (H.Device.history host.new) result
        (begin_log log.old mark.now) log.old.end }
    ensures cause { HasCause (H.Device.state host.old) (H.Device.state host.new) result }
{
    let payload = begin_payload(mark);
    log.append(host, CP_BEGIN, &payload)?;
    log.force(host)
}

// The payload of a mark's CP_BEGIN.
#[tactic(auto, unfolding(pm_records::specs::Records::payload_of))]
fn begin_payload(mark: &Mark) -> [u8; CP_BEGIN_LEN]
    requires { IsMark mark.now }
    ensures { result ≡ (begin_frame mark.now).payload }
{
    let mut payload = [0; CP_BEGIN_LEN];
    let begin = LogRecord::CpBegin {
        number: mark.number,
        replay: mark.replay,
    };
    encode(&begin, &mut payload);
    payload
}
