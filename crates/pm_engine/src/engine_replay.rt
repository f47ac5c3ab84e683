//! A record of the log, applied again by an engine over page frames whose store is opened.

ghost use Rattle.std.specs.Prelude.{◌≡◌, ◌<◌, ◌≤◌, ◌+◌, true, false, Some, length, vec_capacity, IfOk, OnOk, IsErrOf};
ghost use Rattle.pm_types.specs.declared.fault.PageFault.TheVariants.{Failed as PageFailed};
ghost use Rattle.pm_types.specs.declared.fault.StoreFault.{StoreFault};
ghost use Rattle.pm_types.specs.declared.place.Place.{Place as ThisPlace};
ghost use Rattle.pm_disk.specs.States.{IsUsable, Rose};
ghost use Rattle.pm_records.specs.Records.{IsLogical, Logical, record_of};
ghost use Rattle.pm_segments.specs.Ends.{EndsThere};
ghost use Rattle.pm_model.specs.declared.line.Line.TheVariants.{Good};
ghost use Rattle.pm_model.specs.Batches.{HasCache};
ghost use Rattle.pm_engine.specs.declared.frame_lines.Stop.TheVariants.{Faulted};
ghost use Rattle.pm_engine.specs.Batches.{HasPlainFault};
ghost use Rattle.pm_engine.specs.EngineReplays.{AppliesRecord, EvaluatesAgain, GoesOnInFrames, applied_as};
ghost use Rattle.pm_engine.specs.FrameStores.{HasCleanPages};
ghost use Rattle.pm_engine.specs.Records.{IsKeyOf};
ghost use Rattle.pm_engine.specs.Openings.{CountsFaults};
ghost use Rattle.pm_engine.specs.Replays.{line_in};

use crate::engine::Engine;
use crate::frame_lines::Stop;
use pm_disk::Host;
use pm_model::{Cmd, Replies};
use pm_records::{LogRecord, PUT, decode};
use pm_stripe::Halt;
use pm_types::{Key, Lack, StoreFault, Value};
use std::alloc::{AllocError, Global};
use std::sync::Wait;

/// What became of a record that was to be applied again.
#[derive(Clone, Copy, Debug, PartialEq, Eq)]
pub enum Applied {
    /// The pages are as the record says.
    Done,
    /// It is in no grammar, or is a put that meets a full partition. Nothing changed.
    Bad,
    /// What its operation may need is lacking. Nothing changed, and it may be tried again once it is there.
    Halted(Halt),
}

impl Engine {
    /// Applies a record of the log again, and says what became of it. The records of the pages that it changed are
    /// appended.
    ///
    /// `BadPage` names a page that can't be used, and `Failed` says that a call on the disk failed: the engine is open
    /// no more. `Memory` leaves the engine and the disk as they were.
    pub(crate) fn apply_record<Q: Wait, H: Host>(
        self,
        rt: &Q,
        alloc: Global,
        host: &mut H,
        kind: u8,
        payload: &[u8],
        replies: &mut Replies,
    ) -> (Engine, Result<Applied, StoreFault>)
        requires open { self.store.is_open ≡ true }
        requires usable { IsUsable (H.Device.state host.old) }
        requires end { H.Device.tells → EndsThere self.log (H.Device.history host.old).world }
        requires clean { H.Device.tells → HasCleanPages self.store (H.Device.history host.old).world }
        ensures applies { AppliesRecord H.Device.tells (record_of kind payload.now) self result.0
            (H.Device.history host.old) (H.Device.history host.new) result.1 }
        ensures unchanged { (lack : Lack) → IsErrOf result.1 (StoreFault.Memory lack) → (result.0 ≡ self)
            × (H.Device.tells → (H.Device.history host.new).world ≡ (H.Device.history host.old).world) }

        // Each fault has its cause.
        ensures no_record { (at : ThisPlace) → IsErrOf result.1 (StoreFault.BadRecord at) → ⊥ }
        ensures cause { CountsFaults (H.Device.state host.old) (H.Device.state host.new) result.1 }
    {
        match decode(kind, payload) {
            Ok(
                LogRecord::Logical {
                    op,
                    cache,
                    key,
                    value,
                },
            ) => self.apply_logical(rt, alloc, host, op, cache, key, value, replies),
            Ok(LogRecord::Restart { .. }) => (self, Ok(Applied::Done)),
            Ok(LogRecord::Seal) => (self, Ok(Applied::Done)),
            Ok(LogRecord::Snapshot { .. }) => (self, Ok(Applied::Done)),
            Ok(LogRecord::Delta { .. }) => (self, Ok(Applied::Done)),
            Ok(LogRecord::CpBegin { .. }) => (self, Ok(Applied::Done)),
            Err(_) => (self, Ok(Applied::Bad)),
        }
    }

    // Applies a put or a remove. A remove of an absent key changes nothing.
    fn apply_logical<Q: Wait, H: Host>(
        self,
        rt: &Q,
        alloc: Global,
        host: &mut H,
        op: u8,
        cache: u8,
        key: &[u8],
        value: &[u8],
        replies: &mut Replies,
    ) -> (Engine, Result<Applied, StoreFault>)
        requires open { self.store.is_open ≡ true }
        requires usable { IsUsable (H.Device.state host.old) }
        requires logical { IsLogical op cache key.now value.now }
        requires end { H.Device.tells → EndsThere self.log (H.Device.history host.old).world }
        requires clean { H.Device.tells → HasCleanPages self.store (H.Device.history host.old).world }
        ensures applies { AppliesRecord H.Device.tells (Some (Logical op cache key.now value.now)) self result.0
            (H.Device.history host.old) (H.Device.history host.new) result.1 }
        ensures unchanged { (lack : Lack) → IsErrOf result.1 (StoreFault.Memory lack) → (result.0 ≡ self)
            × (H.Device.tells → (H.Device.history host.new).world ≡ (H.Device.history host.old).world) }
        ensures no_record { (at : ThisPlace) → IsErrOf result.1 (StoreFault.BadRecord at) → ⊥ }
        ensures cause { CountsFaults (H.Device.state host.old) (H.Device.state host.new) result.1 }
    {
        match prepare(alloc, op, cache, key, value, replies) {
            Err(_) => (self, Err(StoreFault::Memory(Lack::Bytes))),
            Ok((cmd, mut numbers)) => {
                let (engine, answer) = self.apply_command(
                    rt,
                    host,
                    key,
                    &cmd,
                    &mut numbers,
                    replies,
                );
                match answer {
                    Err(fault) => (engine, Err(fault)),
                    Ok(answer) => (engine, applied_by(op == PUT, answer)),
                }
            }
        }
    }

    // Applies a command of this key again. What it handed over is appended, and the number of its operation is put
    // into `numbers`, which is no order.
    //
    // `Failed` comes where that couldn't be appended, and the engine is open no more. `Memory` leaves the engine and
    // the disk as they were.
    fn apply_command<Q: Wait, H: Host>(
        self,
        rt: &Q,
        host: &mut H,
        key: &[u8],
        cmd: &Cmd,
        numbers: &mut Vec<u32>,
        replies: &mut Replies,
    ) -> (Engine, Result<Result<bool, Stop>, StoreFault>)
        requires open { self.store.is_open ≡ true }
        requires usable { IsUsable (H.Device.state host.old) }
        requires end { H.Device.tells → EndsThere self.log (H.Device.history host.old).world }
        requires clean { H.Device.tells → HasCleanPages self.store (H.Device.history host.old).world }
        requires cache { HasCache (Good cmd.now) }
        requires key { IsKeyOf key.now cmd.now }
        requires room { length numbers.old.items + 1 ≤ vec_capacity numbers.old }
        requires spare { 0 < replies.old.spare }
        ensures goes_on { GoesOnInFrames H.Device.tells self result.0 (H.Device.history host.old)
            (H.Device.history host.new) }
        ensures answers { IfOk result.1 (EvaluatesAgain H.Device.tells cmd.now self result.0
            (H.Device.history host.old).world (H.Device.history host.new).world replies.old replies.new) }
        ensures unchanged { (lack : Lack) → IsErrOf result.1 (StoreFault.Memory lack) → (result.0 ≡ self)
            × (H.Device.tells → (H.Device.history host.new).world ≡ (H.Device.history host.old).world) }
        ensures closed { IsErrOf result.1 StoreFault.Failed → result.0.store.is_open ≡ false }
        ensures failed { IfOk result.1 (λ answer. IsErrOf answer (Faulted PageFailed)
            → Rose (H.Device.state host.old) (H.Device.state host.new)) }
        ensures cause { HasPlainFault (H.Device.state host.old) (H.Device.state host.new) result.1 }
    {
        let Engine {
            pages,
            mut log,
            ckpt,
            began,
            order,
        } = self;
        let (mut pages, ran) = pages.apply(rt, host, key, cmd, replies);
        match ran {
            Err(_) => {
                let unchanged = Engine {
                    pages,
                    log,
                    ckpt,
                    began,
                    order,
                };
                (unchanged, Err(StoreFault::Memory(Lack::Bytes)))
            }
            Ok(answer) => match pages.append_outbox(host, &mut *log, numbers) {
                Err(_) => {
                    pages.shut();
                    let closed = Engine {
                        pages,
                        log,
                        ckpt,
                        began,
                        order,
                    };
                    (closed, Err(StoreFault::Failed))
                }
                Ok(()) => {
                    let done = Engine {
                        pages,
                        log,
                        ckpt,
                        began,
                        order,
                    };
                    (done, Ok(answer))
                }
            },
        }
    }
}

// What applying a logical record again needs of memory: its command, room for its reply, and room for the number of
// its operation.
fn prepare(
    alloc: Global,
    op: u8,
    cache: u8,
    key: &[u8],
    value: &[u8],
    replies: &mut Replies,
) -> Result<(Cmd, Vec<u32>), AllocError>
    requires logical { IsLogical op cache key.now value.now }
    ensures command { IfOk result (λ r. Good r.0 ≡ line_in op cache key.now value.now) }
    ensures cache { IfOk result (λ r. HasCache (Good r.0)) }
    ensures key { IfOk result (λ r. IsKeyOf key.now r.0) }
    ensures room { IfOk result (λ r. length r.1.items + 1 ≤ vec_capacity r.1) }
    ensures spare { OnOk result (0 < replies.new.spare) }
{
    let cmd = command_of(alloc, op, cache, key, value)?;
    make_room(alloc, replies)?;
    let numbers = Vec::with_capacity(alloc, 1)?;
    Ok((cmd, numbers))
}

// The command from which a logical record came.
fn command_of(alloc: Global, op: u8, cache: u8, key: &[u8], value: &[u8]) -> Result<Cmd, AllocError>
    requires logical { IsLogical op cache key.now value.now }
    ensures command { IfOk result (λ cmd. Good cmd ≡ line_in op cache key.now value.now) }
    ensures cache { IfOk result (λ cmd. HasCache (Good cmd)) }
    ensures key { IfOk result (λ cmd. IsKeyOf key.now cmd) }
{
    let name = Key::of(alloc, key)?;
    if op == PUT {
        let value = Value::of(alloc, value)?;
        return Ok(Cmd::Put {
            cache,
            key: name,
            value,
        });
    }
    Ok(Cmd::Remove { cache, key: name })
}

// What became of a record whose command was answered so. A remove of an absent key is applied by changing nothing.
fn applied_by(is_put: bool, answer: Result<bool, Stop>) -> Result<Applied, StoreFault>
    ensures { result ≡ applied_as is_put answer }
{
    match answer {
        Ok(true) => Ok(Applied::Done),
        Ok(false) => {
            if is_put {
                return Ok(Applied::Bad);
            }
            Ok(Applied::Done)
        }
        Err(Stop::Halted(halt)) => Ok(Applied::Halted(halt)),
        Err(Stop::Faulted(fault)) => Err(fault.into()),
    }
}

// Makes room for one reply. Only a list that memory ran out for has none after it was cleared.
fn make_room(alloc: Global, replies: &mut Replies) -> Result<(), AllocError>
    ensures { OnOk result (0 < replies.new.spare) }
{
    replies.clear(alloc)?;
    if replies.spare() == 0 {
        *replies = Replies::with_room(alloc, 1)?;
    }
    Ok(())
}
