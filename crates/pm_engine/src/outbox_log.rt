//! What an outbox holds, appended to the log, and its numbers, put into the order.

ghost use Rattle.std.specs.Prelude.{◌≡◌, ◌≤◌, ◌<◌, ◌^◌, ◌++◌, ℕ, List, length, vec_capacity};
ghost use Rattle.pm_frame.specs.Frames.{Frame};
ghost use Rattle.pm_disk.specs.States.{HasCause, IsUsable};
ghost use Rattle.pm_records.specs.Operations.{Operation, IsOperation, AreRecords, SpellRecords, IsLogged};
ghost use Rattle.pm_records.specs.Operations.{operation_head, operation_bytes, record_head, record_bytes};
ghost use Rattle.pm_records.specs.Operations.{records_bytes};
ghost use Rattle.pm_segments.specs.Ends.{EndsThere};
ghost use Rattle.pm_engine.specs.AppendRuns.{AppendsAll};
ghost use Rattle.pm_engine.specs.OutboxLogs.{SpellOperationRecords, AreOperationBytes};
ghost use Rattle.pm_engine.specs.OutboxLogs.{BeginsWithOperation, BeginsWithRecord};
ghost use Rattle.pm_engine.specs.OutboxLogs.{SpellNumbers, HasNumberRoom};

use pm_disk::{Failed, LogFile};
use pm_records::{OPERATION_HEAD_LEN, RECORD_HEAD_LEN};
use pm_segments::Log;

/// Puts the number of each operation that these bytes are, as those of an outbox, at the end of `order`, one after the
/// other. It takes no memory.
pub fn note_operations(bytes: &[u8], order: &mut Vec<u32>)
    requires { HasNumberRoom bytes.now (length order.old.items) (vec_capacity order.old) }
    ensures { (numbers : List ℕ) → SpellNumbers bytes.now numbers → order.new.items ≡ order.old.items ++ numbers }
{
    let mut rest = bytes;
    'each: while !rest.is_empty() {
        let number = operation_number(rest);
        let (_, after) = split_operation(rest);
        order.push_reserved(number);
        rest = after;
    }
}

/// Appends the records of the operations that these bytes are, as those of an outbox, one after the other. It takes no
/// memory.
///
/// After `Failed` a prefix of the records was appended, the last of them in part or not at all. Nothing is to
/// be appended any more.
pub fn append_operations<L: LogFile>(dev: &mut L, log: &mut Log, bytes: &[u8]) -> Result<(), Failed>
    requires usable { IsUsable (L.state dev.old) }
    requires operations { AreOperationBytes bytes.now }
    requires end { L.tells → EndsThere log.old (L.history dev.old).world }
    ensures appends { (frames : List Frame) → SpellOperationRecords bytes.now frames
        → AppendsAll L.tells (L.history dev.old) (L.history dev.new) result log.old log.new frames }
    ensures cause { HasCause (L.state dev.old) (L.state dev.new) result }
{
    let mut rest = bytes;
    'each: while !rest.is_empty() {
        let (records, after) = split_operation(rest);
        append_records(dev, log, records)?;
        rest = after;
    }
    Ok(())
}

// Appends records, one after the other.
fn append_records<L: LogFile>(dev: &mut L, log: &mut Log, records: &[u8]) -> Result<(), Failed>
    requires usable { IsUsable (L.state dev.old) }
    requires records { AreRecords records.now }
    requires end { L.tells → EndsThere log.old (L.history dev.old).world }
    ensures appends { (frames : List Frame) → SpellRecords records.now frames
        → AppendsAll L.tells (L.history dev.old) (L.history dev.new) result log.old log.new frames }
    ensures cause { HasCause (L.state dev.old) (L.state dev.new) result }
{
    let mut rest = records;
    'each: while !rest.is_empty() {
        let (kind, payload, after) = split_record(rest);
        log.append(dev, kind, payload)?;
        rest = after;
    }
    Ok(())
}

// The records of the operation at the front of these bytes, and what follows it.
fn split_operation(bytes: &[u8]) -> (&[u8], &[u8])
    requires { BeginsWithOperation bytes.now }
    ensures records { (operation : Operation) (more : List ℕ) → IsOperation operation
        → bytes.now ≡ operation_bytes operation ++ more → result.0.now ≡ records_bytes operation.records }
    ensures rest { (operation : Operation) (more : List ℕ) → IsOperation operation
        → bytes.now ≡ operation_bytes operation ++ more → result.1.now ≡ more }
{
    let len = records_len(bytes);
    let (_, after) = bytes.split_at(OPERATION_HEAD_LEN);
    after.split_at(len as usize)
}

// Kind and payload of the record at the front of these bytes, and what follows it.
fn split_record(bytes: &[u8]) -> (u8, &[u8], &[u8])
    requires { BeginsWithRecord bytes.now }
    ensures kind { (frame : Frame) (more : List ℕ) → IsLogged frame → bytes.now ≡ record_bytes frame ++ more
        → result.0 ≡ frame.kind }
    ensures payload { (frame : Frame) (more : List ℕ) → IsLogged frame → bytes.now ≡ record_bytes frame ++ more
        → result.1.now ≡ frame.payload }
    ensures rest { (frame : Frame) (more : List ℕ) → IsLogged frame → bytes.now ≡ record_bytes frame ++ more
        → result.2.now ≡ more }
{
    let len = payload_len(bytes);
    let (head, after) = bytes.split_at(RECORD_HEAD_LEN);
    let (payload, rest) = after.split_at(len as usize);
    (head[0], payload, rest)
}

// The number of its line that an operation's head says.
fn operation_number(bytes: &[u8]) -> u32
    requires { OPERATION_HEAD_LEN ≤ length bytes.now }
    ensures { (line len : ℕ) (more : List ℕ) → line < 2 ^ 32 → bytes.now ≡ operation_head line len ++ more
        → result ≡ line }
{
    u32::from_le_bytes([bytes[0], bytes[1], bytes[2], bytes[3]])
}

// The length of its records that an operation's head says.
fn records_len(bytes: &[u8]) -> u32
    requires { OPERATION_HEAD_LEN ≤ length bytes.now }
    ensures { (line len : ℕ) (more : List ℕ) → len < 2 ^ 32 → bytes.now ≡ operation_head line len ++ more
        → result ≡ len }
{
    u32::from_le_bytes([bytes[4], bytes[5], bytes[6], bytes[7]])
}

// The length of its payload that a record's head says.
fn payload_len(bytes: &[u8]) -> u32
    requires { RECORD_HEAD_LEN ≤ length bytes.now }
    ensures { (kind len : ℕ) (more : List ℕ) → len < 2 ^ 32 → bytes.now ≡ record_head kind len ++ more
        → result ≡ len }
{
    u32::from_le_bytes([bytes[1], bytes[2], bytes[3], bytes[4]])
}
