//! Records of an operation, as bytes.

ghost use Rattle.std.specs.Prelude.{◌≡◌, ◌+◌, ◌≤◌, ◌⊎◌, ◌++◌, false, length, take, IsTrue};
ghost use Rattle.std.specs.Int.{w64, to_le_bytes};
ghost use Rattle.pm_types.specs.PageSizes.{IsPageSize};
ghost use Rattle.pm_types.specs.Spans.{IsPatch};
ghost use Rattle.pm_records.specs.PageNames.{IsPageName};
ghost use Rattle.pm_records.specs.Records.{Delta, IsRecord, payload_of};
ghost use Rattle.pm_records.specs.Views.{record_view};
ghost use Rattle.pm_pages.specs.Deltas.{delta_of, delta_len};
ghost use Rattle.pm_records.specs.Operations.{IsLogged, record_head, record_bytes};
ghost use Rattle.pm_stripe.specs.ChangedPages.{frame_for, has_bytes, page_record};

use crate::limits::PAGE_EXTRA;
use pm_frame::DELTA;
use pm_pages::{ranges_len, write_ranges};
use pm_records::{LogRecord, PAGE_NAME_LEN, RECORD_HEAD_LEN, encode, encoded_len, kind_of};
use pm_types::{PageId, Patch};

/// Writes a record to the front of `into`, and gives where it ends.
pub(crate) fn write_record(rec: &LogRecord<'_>, into: &mut [u8]) -> usize
    requires fits { IsRecord (record_view rec.now) }
    requires room { RECORD_HEAD_LEN + length (payload_of (record_view rec.now)) ≤ length into.old }
    ensures size { length into.new ≡ length into.old }
    ensures end { result ≡ RECORD_HEAD_LEN + length (payload_of (record_view rec.now)) }
    ensures written { take result into.new ≡ record_bytes (frame_for (record_view rec.now)) }
{
    let len = encoded_len(rec);
    let end = RECORD_HEAD_LEN + len;
    let (written, _) = into.split_at_mut(end);
    let (head, payload) = written.split_at_mut(RECORD_HEAD_LEN);
    head.copy_from_slice(&record_head(kind_of(rec), len as u32));
    encode(rec, payload);
    end
}

// What a record has before its payload.
#[tactic(auto, unfolding(pm_records::specs::Operations::record_head))]
fn record_head(kind: u8, len: u32) -> [u8; RECORD_HEAD_LEN]
    ensures { result ≡ record_head kind len }
{
    let mut head = [kind, 0, 0, 0, 0];
    head[1..5].copy_from_slice(&len.to_le_bytes());
    head
}

/// Writes the record of a page that an operation changed to the front of `into`, and gives where it ends.
///
/// It has the ranges that were changed, or the whole page, where the log has not had it yet or the patch is
/// the whole page.
#[tactic(auto, using(crate::proofs::Spelling::snapshot_long, crate::proofs::Spelling::snapshot_logged))]
pub(crate) fn write_page(
    page: PageId,
    bytes: &[u8],
    patch: &Patch,
    is_logged: bool,
    into: &mut [u8],
) -> usize
    requires named { IsPageName page }
    requires sized { IsPageSize (length bytes.now) }
    requires patched { patch.now.page_size ≡ length bytes.now }
    requires some { IsTrue (has_bytes patch.now) }
    requires room { length bytes.now + PAGE_EXTRA ≤ length into.old }
    ensures size { length into.new ≡ length into.old }
    ensures short { result ≤ length bytes.now + PAGE_EXTRA }
    ensures logged { IsLogged (frame_for (page_record (record {
      page = page;
      bytes = bytes.now;
      patch = patch.now;
      is_logged = is_logged;
    }))) }
    ensures written { take result into.new ≡ record_bytes (frame_for (page_record (record {
      page = page;
      bytes = bytes.now;
      patch = patch.now;
      is_logged = is_logged;
    }))) }
    ensures fits { IsPatch patch.now }
{
    // For the proof alone: what every patch keeps (`IsPatch`).
    let _ranges = patch.len();
    if is_logged && !patch.is_whole() {
        write_delta(page, bytes, patch, into)
    } else {
        write_record(&LogRecord::Snapshot { page, bytes }, into)
    }
}

// Writes the record of a page whose patch has ranges.
fn write_delta(page: PageId, bytes: &[u8], patch: &Patch, into: &mut [u8]) -> usize
    requires sized { IsPageSize (length bytes.now) }
    requires patched { patch.now.page_size ≡ length bytes.now }
    requires part { patch.now.whole ≡ false }
    requires some { 1 ≤ length patch.now.spans }
    requires room { length bytes.now + PAGE_EXTRA ≤ length into.old }
    ensures size { length into.new ≡ length into.old }
    ensures end { result ≡ RECORD_HEAD_LEN + PAGE_NAME_LEN + delta_len patch.now.spans }
    ensures short { result ≤ length bytes.now + PAGE_EXTRA }
    ensures logged { IsLogged (frame_for (Delta page (delta_of bytes.now patch.now.spans))) }
    ensures written { take result into.new
        ≡ record_bytes (frame_for (Delta page (delta_of bytes.now patch.now.spans))) }
{
    // For the proof alone: a patch has few ranges, of at most half the page.
    let _count = patch.len();
    let len = PAGE_NAME_LEN + ranges_len(patch);
    let end = RECORD_HEAD_LEN + len;
    let (written, _) = into.split_at_mut(end);
    let (head, payload) = written.split_at_mut(RECORD_HEAD_LEN);
    let (name, ranges) = payload.split_at_mut(PAGE_NAME_LEN);
    head.copy_from_slice(&record_head(DELTA, len as u32));
    name.copy_from_slice(&page.0.to_le_bytes());
    write_ranges(bytes, patch, ranges);
    end
}
