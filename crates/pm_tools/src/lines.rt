//! The lines of a log's records.

ghost use Rattle.std.specs.Prelude.{◌≡◌, ◌++◌, codes, decimal, OnOk, IfOk};
ghost use Rattle.pm_types.specs.DeltaRanges.{number_of};
ghost use Rattle.pm_types.specs.Keys.{HasKeyLength, HasValueLength};
ghost use Rattle.pm_records.specs.Records.{IsRecord, IsLogical, record_of};
ghost use Rattle.pm_records.specs.PageRecords.{IsPageDelta};
ghost use Rattle.pm_records.specs.Views.{record_view};
ghost use Rattle.pm_tools.specs.Lines.{change_text, delta_text, end_line, key_text, line_of, page_text, place_text, record_text};
ghost use Rattle.pm_tools.specs.Listings.{ReadsRecord};

use crate::listing::Next;
use itoa::Buffer;
use pm_records::{LogRecord, PUT, decode};
use pm_script::append_field;
use pm_types::{PageId, Place};
use std::alloc::AllocError;

// The hexadecimal digits of a page's name.
const PAGE_DIGITS: usize = 16;

/// Reads the record of a frame, and writes what its line says in place of the bytes.
pub(crate) fn read_record(kind: u8, payload: &[u8], into: &mut Vec<u8>) -> Result<Next, AllocError>
    ensures { IfOk result (λ next. ReadsRecord next into.new.items (record_of kind payload.now)) }
{
    into.clear();
    let Ok(found) = decode(kind, payload) else {
        return Ok(Next::Bad);
    };
    append_record(&found, into)?;
    Ok(Next::Record)
}

/// Appends the line of a record at this place, by what it says.
pub(crate) fn append_line(at: Place, text: &[u8], into: &mut Vec<u8>) -> Result<(), AllocError>
    ensures { OnOk result (into.new.items ≡ into.old.items ++ line_of at text.now) }
{
    append_place(at, into)?;
    into.extend_from_slice(b" ")?;
    into.extend_from_slice(text)?;
    into.extend_from_slice(b"\n")
}

/// Appends the line that names the log's end.
pub(crate) fn append_end(at: Place, into: &mut Vec<u8>) -> Result<(), AllocError>
    ensures { OnOk result (into.new.items ≡ into.old.items ++ end_line at) }
{
    into.extend_from_slice(b"end ")?;
    append_place(at, into)?;
    into.extend_from_slice(b"\n")
}

fn append_place(at: Place, into: &mut Vec<u8>) -> Result<(), AllocError>
    ensures { OnOk result (into.new.items ≡ into.old.items ++ place_text at) }
{
    into.extend_from_slice(Buffer::new().format(at.seg).as_bytes())?;
    into.extend_from_slice(b":")?;
    into.extend_from_slice(Buffer::new().format(at.off).as_bytes())
}

// Appends what a record's line says after its place.
fn append_record(found: &LogRecord<'_>, into: &mut Vec<u8>) -> Result<(), AllocError>
    requires { IsRecord (record_view found.now) }
    ensures { OnOk result (into.new.items ≡ into.old.items ++ record_text (record_view found.now)) }
{
    match found {
        LogRecord::Logical {
            op,
            cache,
            key,
            value,
        } => append_change(*op, *cache, key, value, into),
        LogRecord::Snapshot { page, .. } => append_snapshot(*page, into),
        LogRecord::Delta { page, ranges } => append_delta(*page, ranges, into),
        LogRecord::CpBegin { number, .. } => append_begin(*number, into),
        LogRecord::Restart { .. } => into.extend_from_slice(b"restart"),
        LogRecord::Seal => into.extend_from_slice(b"seal"),
    }
}

fn append_change(
    op: u8,
    cache: u8,
    key: &[u8],
    value: &[u8],
    into: &mut Vec<u8>,
) -> Result<(), AllocError>
    requires { IsLogical op cache key.now value.now }
    ensures { OnOk result (into.new.items ≡ into.old.items ++ change_text op cache key.now value.now) }
{
    if op == PUT {
        into.extend_from_slice(b"put ")?;
        append_key(cache, key, into)?;
        into.extend_from_slice(b" ")?;
        append_field(value, into)
    } else {
        into.extend_from_slice(b"remove ")?;
        append_key(cache, key, into)
    }
}

fn append_key(cache: u8, key: &[u8], into: &mut Vec<u8>) -> Result<(), AllocError>
    requires { HasKeyLength key.now }
    ensures { OnOk result (into.new.items ≡ into.old.items ++ key_text cache key.now) }
{
    into.extend_from_slice(Buffer::new().format(cache).as_bytes())?;
    into.extend_from_slice(b" ")?;
    append_field(key, into)
}

fn append_snapshot(page: PageId, into: &mut Vec<u8>) -> Result<(), AllocError>
    ensures { OnOk result (into.new.items ≡ into.old.items ++ (codes "snapshot " ++ page_text page)) }
{
    into.extend_from_slice(b"snapshot ")?;
    append_page(page, into)
}

fn append_delta(page: PageId, ranges: &[u8], into: &mut Vec<u8>) -> Result<(), AllocError>
    requires { IsPageDelta page ranges.now }
    ensures { OnOk result (into.new.items ≡ into.old.items ++ delta_text page (number_of ranges.now)) }
{
    into.extend_from_slice(b"delta ")?;
    append_page(page, into)?;
    into.extend_from_slice(b" ")?;
    into.extend_from_slice(Buffer::new().format(ranges[0]).as_bytes())
}

fn append_begin(number: u64, into: &mut Vec<u8>) -> Result<(), AllocError>
    ensures { OnOk result (into.new.items ≡ into.old.items ++ (codes "begin " ++ decimal number)) }
{
    into.extend_from_slice(b"begin ")?;
    into.extend_from_slice(Buffer::new().format(number).as_bytes())
}

/// Appends the name of a page, in 16 lower-case hexadecimal digits.
pub fn append_page(page: PageId, into: &mut Vec<u8>) -> Result<(), AllocError>
    ensures { OnOk result (into.new.items ≡ into.old.items ++ page_text page) }
{
    let mut digits = [0; PAGE_DIGITS];
    hex::encode_to_slice(page.0.to_be_bytes(), &mut digits).unwrap();
    into.extend_from_slice(&digits)
}
