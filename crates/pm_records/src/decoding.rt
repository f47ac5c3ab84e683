//! Records, read from payloads.

ghost use Rattle.std.specs.Prelude.{◌≡◌, ◌≤◌, ◌↔◌, IsTrue, IfOk, Some};
ghost use Rattle.pm_records.specs.PageRecords.{IsSnapshot, IsPageDelta};
ghost use Rattle.pm_records.specs.Records.{Record, IsRecord, IsLogical, kind_of, payload_of, record_of};
ghost use Rattle.pm_records.specs.Views.{record_view, record_read};

use crate::limits::{CP_BEGIN_LEN, LOGICAL_HEAD_LEN, PAGE_NAME_LEN, PUT, REMOVE, SHAPE_LEN};
use crate::page_name::is_page_name;
use crate::record::{BadPayload, LogRecord};
use crate::shape::shape_of;
use pm_frame::{CP_BEGIN, DELTA, LOGICAL, RESTART, SEAL, SNAPSHOT};
use pm_types::fields::{get_u32, get_u64};
use pm_types::ranges::is_delta;
use pm_types::{CACHES, KEY_MAX, PAGE_SIZE_MAX, PageId, Place, VALUE_MAX, is_page_size, is_shape};

/// The record of this kind that the payload is, all of it.
///
/// It is refused exactly where the payload is not in its kind's grammar, and where there is no such kind.
pub fn decode(kind: u8, payload: &[u8]) -> Result<LogRecord<'_>, BadPayload>
    ensures exact { record_read result ≡ record_of kind payload.now }

    // What is read is in the grammar, and spelled so.
    ensures fits { IfOk result (λ found. IsRecord (record_view found)) }
    ensures kind { IfOk result (λ found. kind ≡ kind_of (record_view found)) }
    ensures spelled { IfOk result (λ found. payload.now ≡ payload_of (record_view found)) }

    // Whatever record is spelled is read.
    ensures read { (spelled : Record) → IsRecord spelled → kind ≡ kind_of spelled
        → payload.now ≡ payload_of spelled → record_read result ≡ Some spelled }
{
    match kind {
        LOGICAL => logical_of(payload),
        SNAPSHOT => snapshot_of(payload),
        DELTA => delta_of(payload),
        CP_BEGIN => cp_begin_of(payload),
        RESTART => restart_of(payload),
        SEAL => seal_of(payload),
        _ => Err(BadPayload),
    }
}

fn logical_of(payload: &[u8]) -> Result<LogRecord<'_>, BadPayload>
    ensures { record_read result ≡ record_of LOGICAL payload.now }
{
    let Some((head, rest)) = payload.split_first_chunk::<LOGICAL_HEAD_LEN>() else {
        return Err(BadPayload);
    };
    let key_len = usize::from(head[2]);
    let value_len = u32::from_le_bytes([head[3], head[4], head[5], head[6]]) as usize;
    if rest.len() != key_len + value_len {
        return Err(BadPayload);
    }
    let (key, value) = rest.split_at(key_len);
    if !is_logical(head[0], head[1], key, value) {
        return Err(BadPayload);
    }
    Ok(LogRecord::Logical {
        op: head[0],
        cache: head[1],
        key,
        value,
    })
}

fn is_logical(op: u8, cache: u8, key: &[u8], value: &[u8]) -> bool
    ensures { IsTrue result ↔ IsLogical op cache key.now value.now }
{
    let value_max = match op {
        PUT => VALUE_MAX,
        REMOVE => 0,
        _ => return false,
    };
    cache < CACHES && (1..=KEY_MAX).contains(&key.len()) && value.len() <= value_max
}

fn snapshot_of(payload: &[u8]) -> Result<LogRecord<'_>, BadPayload>
    ensures { record_read result ≡ record_of SNAPSHOT payload.now }
{
    let Some((name, bytes)) = payload.split_first_chunk::<PAGE_NAME_LEN>() else {
        return Err(BadPayload);
    };
    let page = PageId(u64::from_le_bytes(*name));
    if !is_snapshot(page, bytes) {
        return Err(BadPayload);
    }
    Ok(LogRecord::Snapshot { page, bytes })
}

fn is_snapshot(page: PageId, bytes: &[u8]) -> bool
    ensures { IsTrue result ↔ IsSnapshot page bytes.now }
{
    is_page_name(page) && bytes.len() <= PAGE_SIZE_MAX && is_page_size(bytes.len() as u32)
}

fn delta_of(payload: &[u8]) -> Result<LogRecord<'_>, BadPayload>
    ensures { record_read result ≡ record_of DELTA payload.now }
{
    let Some((name, ranges)) = payload.split_first_chunk::<PAGE_NAME_LEN>() else {
        return Err(BadPayload);
    };
    let page = PageId(u64::from_le_bytes(*name));
    if !is_page_delta(page, ranges) {
        return Err(BadPayload);
    }
    Ok(LogRecord::Delta { page, ranges })
}

fn is_page_delta(page: PageId, ranges: &[u8]) -> bool
    ensures { IsTrue result ↔ IsPageDelta page ranges.now }
{
    is_page_name(page) && is_delta(ranges, PAGE_SIZE_MAX)
}

fn cp_begin_of(payload: &[u8]) -> Result<LogRecord<'_>, BadPayload>
    ensures { record_read result ≡ record_of CP_BEGIN payload.now }
{
    if payload.len() != CP_BEGIN_LEN {
        return Err(BadPayload);
    }
    let number = get_u64(payload, 0);
    if !is_checkpoint(number) {
        return Err(BadPayload);
    }
    let replay = Place {
        seg: get_u64(payload, 8),
        off: get_u32(payload, 16),
    };
    Ok(LogRecord::CpBegin { number, replay })
}

// Whether a checkpoint may have this number: they are numbered from 1.
fn is_checkpoint(number: u64) -> bool
    ensures { IsTrue result ↔ 1 ≤ number }
{
    number >= 1
}

fn restart_of(payload: &[u8]) -> Result<LogRecord<'_>, BadPayload>
    ensures { record_read result ≡ record_of RESTART payload.now }
{
    let Ok(bytes) = <&[u8; SHAPE_LEN]>::try_from(payload) else {
        return Err(BadPayload);
    };
    let shape = shape_of(bytes);
    if !is_shape(&shape) {
        return Err(BadPayload);
    }
    Ok(LogRecord::Restart { shape })
}

fn seal_of(payload: &[u8]) -> Result<LogRecord<'_>, BadPayload>
    ensures { record_read result ≡ record_of SEAL payload.now }
{
    if !payload.is_empty() {
        return Err(BadPayload);
    }
    Ok(LogRecord::Seal)
}
