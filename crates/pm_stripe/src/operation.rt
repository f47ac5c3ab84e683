//! An operation, as the bytes that the log writer takes.

ghost use Rattle.std.specs.Prelude.{◌≡◌, ◌+◌, ◌≤◌, ◌↔◌, [], length, take, IsTrue, MatchOption};
ghost use Rattle.pm_records.specs.Operations.{SpellRecords, operation_head};
ghost use Rattle.pm_stripe.specs.ChangedPages.{is_changed};
ghost use Rattle.std.specs.Option.{option_copied};
ghost use Rattle.pm_stripe.specs.Listings.{IsLoggable, AreLoggable, NoneFrom, IsNextFrom, pages_room};
ghost use Rattle.pm_stripe.specs.Listings.{IsChangedFrom};
ghost use Rattle.pm_stripe.specs.Listings.{WritesPage, WritesPages, MayBeLogical, given_record};
ghost use Rattle.pm_stripe.specs.Listings.{after_logical, HandsOver};

use crate::held::Held;
use crate::limits::PAGE_EXTRA;
use crate::record::{write_page, write_record};
use pm_records::{LogRecord, OPERATION_HEAD_LEN};
use pm_types::{Flag, OP_EXTRA, OUTBOX};

/// Writes what an operation hands to the log writer to the front of `into`, and gives where it ends.
///
/// Its logical record comes first, where one is given, and then a record of each page that it changed, by
/// rising name. Of an operation without a record nothing is written.
pub(crate) fn write_operation(
    line: u32,
    rec: Option<&LogRecord<'_>>,
    held: &[Held],
    into: &mut [u8],
) -> usize
    requires logical { MayBeLogical (given_record (option_copied rec)) }
    requires loggable { AreLoggable held.now }
    requires room { pages_room held.now + OP_EXTRA ≤ length into.old }
    requires short { length into.old ≤ OUTBOX }
    ensures size { length into.new ≡ length into.old }
    ensures within { result ≤ length into.new }
    ensures written { HandsOver line (given_record (option_copied rec.entry)) held.now (take result into.new) }
{
    let (head, records) = into.split_at_mut(OPERATION_HEAD_LEN);
    let logical_end = write_logical(rec, records);
    let (_, pages) = records.split_at_mut(logical_end);
    let end = logical_end + write_pages(held, pages);
    if end == 0 {
        return 0;
    }
    head.copy_from_slice(&operation_head(line, end as u32));
    OPERATION_HEAD_LEN + end
}

// What an operation has before its records.
#[tactic(auto, unfolding(pm_records::specs::Operations::operation_head))]
fn operation_head(line: u32, len: u32) -> [u8; OPERATION_HEAD_LEN]
    ensures { result ≡ operation_head line len }
{
    let mut head = [0; OPERATION_HEAD_LEN];
    head[0..4].copy_from_slice(&line.to_le_bytes());
    head[4..8].copy_from_slice(&len.to_le_bytes());
    head
}

// Writes the logical record, where one is given, to the front of `into`, and gives where it ends.
fn write_logical(rec: Option<&LogRecord<'_>>, into: &mut [u8]) -> usize
    requires logical { MayBeLogical (given_record (option_copied rec)) }
    requires room { OP_EXTRA ≤ OPERATION_HEAD_LEN + length into.old }
    ensures size { length into.new ≡ length into.old }
    ensures short { OPERATION_HEAD_LEN + result ≤ OP_EXTRA }
    ensures written { SpellRecords (take result into.new)
        (after_logical (given_record (option_copied rec.entry)) []) }
{
    match rec {
        Some(rec) => write_record(rec, into),
        None => 0,
    }
}

// Writes a record of each page that was changed, by rising name, to the front of `into`, and gives where the
// last one ends.
fn write_pages(held: &[Held], into: &mut [u8]) -> usize
    requires loggable { AreLoggable held.now }
    requires room { pages_room held.now ≤ length into.old }
    ensures size { length into.new ≡ length into.old }
    ensures short { result ≤ pages_room held.now }
    ensures written { WritesPages held.now (take result into.new) }
{
    let mut end = 0;
    let mut low = 0;
    'pages: while let Some(place) = next_changed(held, low) {
        let page = &held[place];
        let (_, rest) = into.split_at_mut(end);
        end += write_held(page, rest);
        low = page.page.0 + 1;
    }
    end
}

// The place of the page that was changed and has the least name from `low` on.
fn next_changed(held: &[Held], low: u64) -> Option<usize>
    requires { AreLoggable held.now }
    ensures { MatchOption result (NoneFrom held.now low) (IsNextFrom held.now low) }
{
    let mut place = held.len();
    let mut least = u64::MAX;
    'each: for i in 0..held.len() {
        if is_before(&held[i], low, least) {
            place = i;
            least = held[i].page.0;
        }
    }
    if place < held.len() {
        Some(place)
    } else {
        None
    }
}

// Whether the page was changed and has a name from `low` on, below `high`.
fn is_before(page: &Held, low: u64, high: u64) -> bool
    ensures { IsTrue result ↔ IsChangedFrom page.now low high }
{
    page.is_changed() && low <= page.page.0 && page.page.0 < high
}

// Writes the record of a page in hand that was changed to the front of `into`, and gives where it ends.
fn write_held(held: &Held, into: &mut [u8]) -> usize
    requires loggable { IsLoggable held.now }
    requires changed { IsTrue (is_changed held.now.patch) }
    requires room { length held.now.lease.bytes + PAGE_EXTRA ≤ length into.old }
    ensures size { length into.new ≡ length into.old }
    ensures short { result ≤ length held.now.lease.bytes + PAGE_EXTRA }
    ensures written { WritesPage held.now (take result into.new) }
{
    match &held.patch {
        Some(patch) => write_page(
            held.page,
            held.lease.bytes(),
            patch,
            held.flag == Flag::Dirty,
            into,
        ),
        // Not reached: a page that was changed has a patch.
        None => 0,
    }
}
