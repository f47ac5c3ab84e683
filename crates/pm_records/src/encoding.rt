//! Records, written as payloads.

ghost use Rattle.std.specs.Prelude.{◌≡◌, ◌+◌, ◌≤◌, ◌++◌, length};
ghost use Rattle.std.specs.Int.{w64, to_le_bytes};
ghost use Rattle.pm_records.specs.Records.{Logical, CpBegin, IsRecord, IsLogical, payload_of, logical_head};
ghost use Rattle.pm_records.specs.Views.{record_view};

use crate::limits::{CP_BEGIN_LEN, LOGICAL_HEAD_LEN, PAGE_NAME_LEN, SHAPE_LEN};
use crate::record::LogRecord;
use crate::shape::shape_bytes;
use pm_frame::PAYLOAD_MAX;
use pm_types::{PageId, Place};

/// How many bytes the record's payload has.
#[tactic(auto, unfolding(crate::specs::Records::payload_of, crate::specs::Shapes::shape_bytes), using(crate::proofs::DeltaLengths::delta_short))]
pub fn encoded_len(rec: &LogRecord<'_>) -> usize
    requires { IsRecord (record_view rec.now) }
    ensures len { result ≡ length (payload_of (record_view rec.now)) }
    ensures short { result ≤ PAYLOAD_MAX }
{
    match rec {
        LogRecord::Logical { key, value, .. } => LOGICAL_HEAD_LEN + key.len() + value.len(),
        LogRecord::Snapshot { bytes, .. } => PAGE_NAME_LEN + bytes.len(),
        LogRecord::Delta { ranges, .. } => PAGE_NAME_LEN + ranges.len(),
        LogRecord::CpBegin { .. } => CP_BEGIN_LEN,
        LogRecord::Restart { .. } => SHAPE_LEN,
        LogRecord::Seal => 0,
    }
}

/// Writes the record's payload over all of `into`.
#[tactic(auto, unfolding(crate::specs::Records::payload_of))]
pub fn encode(rec: &LogRecord<'_>, into: &mut [u8])
    requires fits { IsRecord (record_view rec.now) }
    requires room { length into.old ≡ length (payload_of (record_view rec.now)) }
    ensures { into.new ≡ payload_of (record_view rec.now) }
{
    match rec {
        LogRecord::Logical {
            op,
            cache,
            key,
            value,
        } => write_logical(*op, *cache, key, value, into),
        LogRecord::Snapshot { page, bytes } => write_named(*page, bytes, into),
        LogRecord::Delta { page, ranges } => write_named(*page, ranges, into),
        LogRecord::CpBegin { number, replay } => {
            into.copy_from_slice(&cp_begin_bytes(*number, *replay));
        }
        LogRecord::Restart { shape } => into.copy_from_slice(&shape_bytes(shape)),
        LogRecord::Seal => {}
    }
}

#[tactic(auto, unfolding(crate::specs::Records::payload_of))]
fn write_logical(op: u8, cache: u8, key: &[u8], value: &[u8], into: &mut [u8])
    requires fits { IsLogical op cache key.now value.now }
    requires room { length into.old ≡ LOGICAL_HEAD_LEN + length key.now + length value.now }
    ensures { into.new ≡ payload_of (Logical op cache key.now value.now) }
{
    let (head, rest) = into.split_at_mut(LOGICAL_HEAD_LEN);
    let (key_bytes, value_bytes) = rest.split_at_mut(key.len());
    head.copy_from_slice(&logical_head(op, cache, key.len() as u8, value.len() as u32));
    key_bytes.copy_from_slice(key);
    value_bytes.copy_from_slice(value);
}

fn logical_head(op: u8, cache: u8, key_len: u8, value_len: u32) -> [u8; LOGICAL_HEAD_LEN]
    ensures { result ≡ logical_head op cache key_len value_len }
{
    let mut head = [op, cache, key_len, 0, 0, 0, 0];
    head[3..7].copy_from_slice(&value_len.to_le_bytes());
    head
}

// Writes the page's name and these bytes after it.
fn write_named(page: PageId, bytes: &[u8], into: &mut [u8])
    requires { length into.old ≡ PAGE_NAME_LEN + length bytes.now }
    ensures { into.new ≡ to_le_bytes w64 page.0 ++ bytes.now }
{
    let (name, rest) = into.split_at_mut(PAGE_NAME_LEN);
    name.copy_from_slice(&page.0.to_le_bytes());
    rest.copy_from_slice(bytes);
}

#[tactic(auto, unfolding(crate::specs::Records::payload_of))]
fn cp_begin_bytes(number: u64, replay: Place) -> [u8; CP_BEGIN_LEN]
    ensures { result ≡ payload_of (CpBegin number replay) }
{
    let mut bytes = [0; CP_BEGIN_LEN];
    bytes[0..8].copy_from_slice(&number.to_le_bytes());
    bytes[8..16].copy_from_slice(&replay.seg.to_le_bytes());
    bytes[16..20].copy_from_slice(&replay.off.to_le_bytes());
    bytes
}
