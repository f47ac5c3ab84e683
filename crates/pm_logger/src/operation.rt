//! Operations, read from bytes.

ghost use Rattle.std.specs.Prelude.{◌≡◌, ◌≤◌, ◌<◌, ◌+◌, ◌↔◌, ◌++◌, ℕ, List, IsTrue, IfSome, IfNone};
ghost use Rattle.std.specs.Prelude.{length, take, drop};
ghost use Rattle.pm_logger.specs.Fronts.{IsFront};
ghost use Rattle.pm_records.specs.Operations.{frame_of, record_head, record_bytes, operation_head};
ghost use Rattle.pm_records.specs.Operations.{MayBeLogged, IsLogged, AreRecords, BeginsWithNoRecord};

use pm_frame::{DELTA, LOGICAL, PAYLOAD_MAX};
use pm_records::{OPERATION_HEAD_LEN, RECORD_HEAD_LEN};
use pm_types::OUTBOX;

/// The record at the front of an operation's records, and what follows it.
#[derive(Clone, Copy)]
pub(crate) struct FirstRecord<'a> {
    pub(crate) kind: u8,
    pub(crate) payload: &'a [u8],
    pub(crate) rest: &'a [u8],
}

/// The record at the front of these bytes, none exactly where no record stands there.
pub(crate) fn first_record(bytes: &[u8]) -> Option<FirstRecord<'_>>
    ensures logged { IfSome result (λ first. IsLogged (frame_of first.kind first.payload.now)) }
    ensures spelled { IfSome result
        (λ first. bytes.now ≡ record_bytes (frame_of first.kind first.payload.now) ++ first.rest.now) }
    ensures none { IfNone result (BeginsWithNoRecord bytes.now) }
{
    let Some((head, after)) = bytes.split_first_chunk::<RECORD_HEAD_LEN>() else {
        return None;
    };
    let (kind, len) = record_head_of(head);
    if !is_logged(kind, len as usize) {
        return None;
    }
    if after.len() < len as usize {
        return None;
    }
    let (payload, rest) = after.split_at(len as usize);
    Some(FirstRecord {
        kind,
        payload,
        rest,
    })
}

/// Whether these bytes are records and nothing else.
pub(crate) fn are_records(bytes: &[u8]) -> bool
    ensures { IsTrue result ↔ AreRecords bytes.now }
{
    let mut rest = bytes;
    'each: while !rest.is_empty() {
        let Some(first) = first_record(rest) else {
            return false;
        };
        rest = first.rest;
    }
    true
}

/// What stands at the front of the bytes that a worker handed over.
#[derive(Clone, Copy, PartialEq, Eq, Debug)]
pub(crate) enum Front {
    /// An operation of so many bytes.
    Whole(usize),
    /// A part of an operation, as far as its head says.
    Begun,
    /// No operation, whatever follows.
    Bad,
}

/// What stands at the front of these bytes. Whether records are as they should be is looked at once they are
/// all there.
pub(crate) fn front_of(bytes: &[u8]) -> Front
    ensures { IsFront bytes.now result }
{
    let Some((head, after)) = bytes.split_first_chunk::<OPERATION_HEAD_LEN>() else {
        return Front::Begun;
    };
    let (_, len) = operation_head_of(head);
    if OUTBOX - OPERATION_HEAD_LEN < len as usize {
        return Front::Bad;
    }
    if after.len() < len as usize {
        return Front::Begun;
    }
    if !are_records(&after[..len as usize]) {
        return Front::Bad;
    }
    Front::Whole(OPERATION_HEAD_LEN + len as usize)
}

// Whether an operation may have a record of this kind, with so many bytes of payload.
fn is_logged(kind: u8, payload_len: usize) -> bool
    ensures { IsTrue result ↔ MayBeLogged kind payload_len }
{
    LOGICAL <= kind && kind <= DELTA && payload_len <= PAYLOAD_MAX
}

// The kind and the payload's length that a record's head says.
fn record_head_of(head: &[u8; RECORD_HEAD_LEN]) -> (u8, u32)
    ensures { head.now ≡ record_head result.0 result.1 }
{
    let len = u32::from_le_bytes([head[1], head[2], head[3], head[4]]);
    (head[0], len)
}

/// The line's number and the length of its records that an operation's head says.
pub(crate) fn operation_head_of(head: &[u8; OPERATION_HEAD_LEN]) -> (u32, u32)
    ensures { head.now ≡ operation_head result.0 result.1 }
{
    let line = u32::from_le_bytes([head[0], head[1], head[2], head[3]]);
    let len = u32::from_le_bytes([head[4], head[5], head[6], head[7]]);
    (line, len)
}
