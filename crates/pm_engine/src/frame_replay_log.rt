//! The records of the log from the replay place on, applied again one after the other over page frames.

ghost use Rattle.std.specs.Prelude.{◌≡◌, ◌≤◌, true, OnOk, IsErrOf};
ghost use Rattle.pm_types.specs.declared.place.Place.{Place as ThisPlace};
ghost use Rattle.pm_frame.specs.declared.limits.TheConstants.{SEGMENT_END_MAX as last_end};
ghost use Rattle.pm_disk.specs.States.{IsUsable};
ghost use Rattle.pm_marks.specs.Slots.{IsMarkPlace};
ghost use Rattle.pm_segments.specs.Ends.{EndsThere};
ghost use Rattle.pm_segments.specs.Scans.{IsAhead};
ghost use Rattle.pm_engine.specs.FrameReplayLogs.{AppliesNextIn, ReplaysScan};
ghost use Rattle.pm_engine.specs.FrameReplayLogs.{StepsReplay, ReplaysLog};
ghost use Rattle.pm_engine.specs.FrameStores.{HasCleanPages};
ghost use Rattle.pm_engine.specs.Openings.{CountsFaults};

use crate::engine::Engine;
use crate::replay_log::{has_numbers, keep_ahead, may_stand};
use pm_disk::Host;
use pm_model::Replies;
use pm_segments::{Scan, segment_of};
use pm_types::{Lack, Place, StoreFault};
use std::alloc::Global;
use std::sync::Wait;

// Applies the next record of the log again. `BadRecord` names its place where it can't be applied, or where none
// stands, and `Memory` also comes where there may be no numbers for the segments of a checkpoint and of the record's
// pages, or where frames are lacking even after a checkpoint.
fn replay_next_in_frames<Q: Wait, H: Host>(
    rt: &Q,
    alloc: Global,
    host: &mut H,
    engine: Engine,
    scan: &mut Scan,
    replies: &mut Replies,
) -> (Engine, Result<(), StoreFault>)
    requires open { engine.store.is_open ≡ true }
    requires usable { IsUsable (H.Device.state host.old) }
    requires from_one { 1 ≤ scan.old.next.seg }
    requires end { H.Device.tells → EndsThere engine.log (H.Device.history host.old).world }
    requires clean { H.Device.tells → HasCleanPages engine.store (H.Device.history host.old).world }
    requires ahead { H.Device.tells → IsAhead scan.old (H.Device.history host.old).world }
    ensures steps { StepsReplay H.Device.tells scan.old scan.new engine result.0 (H.Device.history host.old)
        (H.Device.history host.new) result.1 }
    ensures cause { CountsFaults (H.Device.state host.old) (H.Device.state host.new) result.1 }
{
    let before = engine.log.end();
    let place = scan.next_place();
    if !has_numbers(before) {
        return (engine, Err(StoreFault::Memory(Lack::Numbers)));
    }
    if !may_stand(place) {
        return (engine, Err(StoreFault::BadRecord(place)));
    }
    let (engine, applied) = apply_next_in_frames(rt, alloc, host, engine, scan, replies);
    match applied {
        Err(fault) => (engine, Err(fault)),
        Ok(can) => {
            if !can {
                return (engine, Err(StoreFault::BadRecord(place)));
            }
            keep_ahead(scan, before);
            (engine, Ok(()))
        }
    }
}

// Applies the next record of the log again, if there is one, and answers whether there is one that can be applied.
fn apply_next_in_frames<Q: Wait, H: Host>(
    rt: &Q,
    alloc: Global,
    host: &mut H,
    engine: Engine,
    scan: &mut Scan,
    replies: &mut Replies,
) -> (Engine, Result<bool, StoreFault>)
    requires open { engine.store.is_open ≡ true }
    requires usable { IsUsable (H.Device.state host.old) }
    requires at { IsMarkPlace scan.old.next }
    requires end { H.Device.tells → EndsThere engine.log (H.Device.history host.old).world }
    requires clean { H.Device.tells → HasCleanPages engine.store (H.Device.history host.old).world }
    requires ahead { H.Device.tells → IsAhead scan.old (H.Device.history host.old).world }
    ensures next { AppliesNextIn H.Device.tells scan.old scan.new engine result.0 (H.Device.history host.old)
        (H.Device.history host.new) result.1 }
    ensures bound { OnOk result.1 (scan.new.next.off ≤ last_end) }
    ensures ahead { H.Device.tells → OnOk result.1 (IsAhead scan.new (H.Device.history host.old).world) }
    ensures no_record { (at : ThisPlace) → IsErrOf result.1 (StoreFault.BadRecord at) → ⊥ }
    ensures cause { CountsFaults (H.Device.state host.old) (H.Device.state host.new) result.1 }
{
    let place = scan.next_place();
    match scan.next(host) {
        Err(_) => (engine, Err(StoreFault::Failed)),
        Ok(found) => match found {
            None => (engine, Ok(false)),
            Some(frame) => {
                engine.apply_at(rt, alloc, host, place, frame.kind, frame.payload, replies)
            }
        },
    }
}

/// Applies the records of the log from `from` on up to `end`, where the log ended before the RESTART, over the page
/// frames of a store that is opened. What is appended meanwhile comes after that, and isn't looked at. Where frames are
/// lacking for the pages of a record, a checkpoint is made first, so that a restart applies the log from that record
/// on.
///
/// `BadRecord` names a record that is in no grammar, or is a put that meets a full partition, or a place before `end`
/// at which none stands, and `BadPage` a page that can't be used. `Memory` also comes where the log runs out of numbers
/// for its segments, and where frames are lacking even after a checkpoint. After an error nothing is to be done with
/// the engine but to close it.
pub(crate) fn replay_in_frames<Q: Wait, H: Host>(
    rt: &Q,
    alloc: Global,
    host: &mut H,
    engine: Engine,
    from: Place,
    end: Place,
) -> (Engine, Result<(), StoreFault>)
    requires open { engine.store.is_open ≡ true }
    requires usable { IsUsable (H.Device.state host.old) }
    requires from_one { 1 ≤ from.seg }
    requires within { from.off ≤ last_end }
    requires there { H.Device.tells → EndsThere engine.log (H.Device.history host.old).world }
    requires clean { H.Device.tells → HasCleanPages engine.store (H.Device.history host.old).world }
    ensures replays { ReplaysLog H.Device.tells from end engine result.0 (H.Device.history host.old)
        (H.Device.history host.new) result.1 }
    ensures cause { CountsFaults (H.Device.state host.old) (H.Device.state host.new) result.1 }
{
    match Scan::new(alloc, from) {
        Err(_) => (engine, Err(StoreFault::Memory(Lack::Bytes))),
        Ok(mut scan) => match Replies::with_room(alloc, 1) {
            Err(_) => (engine, Err(StoreFault::Memory(Lack::Bytes))),
            Ok(mut replies) => replay_all(rt, alloc, host, engine, &mut scan, end, &mut replies),
        },
    }
}

// Applies the records from where the scan goes on up to `end`.
fn replay_all<Q: Wait, H: Host>(
    rt: &Q,
    alloc: Global,
    host: &mut H,
    engine: Engine,
    scan: &mut Scan,
    end: Place,
    replies: &mut Replies,
) -> (Engine, Result<(), StoreFault>)
    requires open { engine.store.is_open ≡ true }
    requires usable { IsUsable (H.Device.state host.old) }
    requires from_one { 1 ≤ scan.old.next.seg }
    requires within { scan.old.next.off ≤ last_end }
    requires there { H.Device.tells → EndsThere engine.log (H.Device.history host.old).world }
    requires clean { H.Device.tells → HasCleanPages engine.store (H.Device.history host.old).world }
    requires ahead { H.Device.tells → IsAhead scan.old (H.Device.history host.old).world }
    ensures replays { ReplaysScan H.Device.tells scan.old end engine result.0 (H.Device.history host.old)
        (H.Device.history host.new) result.1 }
    ensures cause { CountsFaults (H.Device.state host.old) (H.Device.state host.new) result.1 }
{
    let mut running = engine;
    'frames: loop {
        let next = scan.next_place();
        let _segment = segment_of(next);
        if next == end {
            return (running, Ok(()));
        }
        let (after, answer) = replay_next_in_frames(rt, alloc, host, running, scan, replies);
        running = after;
        match answer {
            Err(fault) => return (running, Err(fault)),
            Ok(()) => {}
        }
    }
}
