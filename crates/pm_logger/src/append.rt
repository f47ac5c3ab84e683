//! Records and operations, appended to the log.

ghost use Rattle.std.specs.Prelude.{◌≡◌, ◌<◌, [], ◌∷◌, false, ◌||◌, ◌==◌, length, List, IsSome, OnOk, is_ok};
ghost use Rattle.pm_types.specs.declared.limits.TheConstants.{BATCH_LINES_MAX as most_lines};
ghost use Rattle.pm_frame.specs.declared.kinds.TheConstants.{LOGICAL as logical_kind};
ghost use Rattle.pm_frame.specs.Frames.{Frame};
ghost use Rattle.pm_disk.specs.States.{HasCause, IsUsable};
ghost use Rattle.pm_segments.specs.Ends.{EndsThere};
ghost use Rattle.pm_logger.specs.LogCalls.{AppendFrame, DoesCalls, named_line};
ghost use Rattle.pm_logger.specs.LogCalls.{record_calls, force_calls, next_since, operation_calls};
ghost use Rattle.pm_records.specs.Operations.{Operation, frame_of, MayBeLogged, SpellRecords};
ghost use Rattle.pm_records.specs.Operations.{AreRecords, SpellOperation, IsWhole};
ghost use Rattle.pm_logger.specs.Writers.{writer};

use crate::operation::{first_record, operation_head_of};
use crate::tally::Tally;
use pm_disk::{Failed, LogFile};
use pm_frame::LOGICAL;
use pm_records::OPERATION_HEAD_LEN;
use pm_segments::Log;

/// Appends an operation, and forces the log where it is the last of so many.
pub(crate) fn append_operation<L: LogFile>(
    log: &mut Log,
    dev: &mut L,
    tally: &mut Tally,
    operation: &[u8],
) -> Result<(), Failed>
    requires usable { IsUsable (L.state dev.old) }
    requires whole { IsWhole operation.now }
    requires room { length tally.old.lines < most_lines }
    requires end { L.tells → EndsThere log.old (L.history dev.old).world }
    ensures appended { (spelled : Operation) → SpellOperation operation.now spelled
        → DoesCalls L.tells (writer (L.history dev.old) log.old tally.old)
        (writer (L.history dev.new) log.new tally.new) (is_ok result)
        (operation_calls tally.old.since spelled) }
    ensures since { OnOk result (tally.new.since ≡ next_since tally.old.since) }
    ensures cause { HasCause (L.state dev.old) (L.state dev.new) result }
{
    let (line, records) = parts_of(operation);
    append_records(log, dev, tally, line, records)?;
    count_operation(log, dev, tally)
}

// The number of an operation's line, and the bytes of its records.
fn parts_of(operation: &[u8]) -> (u32, &[u8])
    requires { IsWhole operation.now }
    ensures line { (spelled : Operation) → SpellOperation operation.now spelled → result.0 ≡ spelled.line }
    ensures records { (spelled : Operation) → SpellOperation operation.now spelled
        → SpellRecords result.1.now spelled.records }
{
    let Some((head, records)) = operation.split_first_chunk::<OPERATION_HEAD_LEN>() else {
        unreachable!()
    };
    (operation_head_of(head).0, records)
}

// Counts an operation that was appended, and forces the log where so many were since it was forced last.
fn count_operation<L: LogFile>(log: &mut Log, dev: &mut L, tally: &mut Tally) -> Result<(), Failed>
    requires usable { IsUsable (L.state dev.old) }
    requires end { L.tells → EndsThere log.old (L.history dev.old).world }
    ensures forced { DoesCalls L.tells (writer (L.history dev.old) log.old tally.old)
        (writer (L.history dev.new) log.new tally.new) (is_ok result) (force_calls tally.old.since) }
    ensures since { tally.new.since ≡ next_since tally.old.since }
    ensures cause { HasCause (L.state dev.old) (L.state dev.new) result }
{
    if tally.count() {
        return log.force(dev);
    }
    Ok(())
}

// Appends records, one after the other, and notes the line at the first logical one.
fn append_records<L: LogFile>(
    log: &mut Log,
    dev: &mut L,
    tally: &mut Tally,
    line: u32,
    records: &[u8],
) -> Result<(), Failed>
    requires usable { IsUsable (L.state dev.old) }
    requires records { AreRecords records.now }
    requires room { length tally.old.lines < most_lines }
    requires end { L.tells → EndsThere log.old (L.history dev.old).world }
    ensures appended { (frames : List Frame) → SpellRecords records.now frames
        → DoesCalls L.tells (writer (L.history dev.old) log.old tally.old)
        (writer (L.history dev.new) log.new tally.new) (is_ok result) (record_calls line false frames) }
    ensures since { tally.new.since ≡ tally.old.since }
    ensures cause { HasCause (L.state dev.old) (L.state dev.new) result }
{
    let mut rest = records;
    let mut is_named = false;
    'each: while let Some(first) = first_record(rest) {
        let named = named_line(line, is_named, first.kind);
        append_record(log, dev, tally, named, first.kind, first.payload)?;
        is_named = names_line(is_named, first.kind);
        rest = first.rest;
    }
    Ok(())
}

// The line, where a record of this kind is the first logical one.
fn named_line(line: u32, is_named: bool, kind: u8) -> Option<u32>
    ensures { result ≡ named_line line is_named kind }
{
    if kind == LOGICAL && !is_named {
        Some(line)
    } else {
        None
    }
}

// Whether the line is named once a record of this kind was appended.
fn names_line(is_named: bool, kind: u8) -> bool
    ensures { result ≡ (is_named || kind == logical_kind) }
{
    is_named || kind == LOGICAL
}

// Appends a record, and notes the line that it is named for, where its write was tried.
fn append_record<L: LogFile>(
    log: &mut Log,
    dev: &mut L,
    tally: &mut Tally,
    line: Option<u32>,
    kind: u8,
    payload: &[u8],
) -> Result<(), Failed>
    requires usable { IsUsable (L.state dev.old) }
    requires logged { MayBeLogged kind (length payload.now) }
    requires room { IsSome line → length tally.old.lines < most_lines }
    requires end { L.tells → EndsThere log.old (L.history dev.old).world }
    ensures appended { DoesCalls L.tells (writer (L.history dev.old) log.old tally.old)
        (writer (L.history dev.new) log.new tally.new) (is_ok result)
        (AppendFrame line (frame_of kind payload.now) ∷ []) }
    ensures since { tally.new.since ≡ tally.old.since }
    ensures cause { HasCause (L.state dev.old) (L.state dev.new) result }
{
    let appended = log.append(dev, kind, payload);
    tally.note(log.tried(), line);
    appended?;
    Ok(())
}
