//! The rows of a partition, read off its pages.

ghost use Rattle.std.specs.Prelude.{◌≡◌, ℕ, ◌+◌, ◌<◌, ◌≤◌, ◌^◌, ◌++◌, Some, IsSome, IfOk, OnOk, length, IsTrue, ◌↔◌};
ghost use Rattle.pm_types.specs.declared.page.Page.{Page};
ghost use Rattle.pm_types.specs.Ids.{page_id};
ghost use Rattle.pm_data.specs.Rows.{IsRow};
ghost use Rattle.pm_data.specs.DataPages.{IsDataPage};
ghost use Rattle.pm_pages.specs.PageLists.{pages_in, IsReadable, AreReadable};
ghost use Rattle.pm_pages.specs.Rows.{page_at, page_count, row_of, rows_on, rows_of};

use crate::row::Row;
use crate::well_formed::listed::{is_of, page, page_count};
use pm_data::{DATA_KIND, SLOTS_MAX, cache_in, key_in, value_in};
use pm_types::{Key, Link, Page, PageId, Value};
use std::alloc::{AllocError, Global};

/// The rows of a partition, by page and item.
pub fn rows_of(alloc: Global, part: u16, pages: &[Page]) -> Result<Vec<Row>, AllocError>
    requires { AreReadable (pages_in pages.now) }
    ensures rows { IfOk result (λ rows. rows.items ≡ rows_of part (pages_in pages.now)) }
    ensures few { page_count (pages_in pages.now) < 2 ^ 32 }
{
    let mut rows = Vec::new(alloc);
    'pages: for i in 0..page_count(pages) {
        add_rows(alloc, PageId::new(part, i), page(pages, i), &mut rows)?;
    }
    Ok(rows)
}

// Appends the rows of a page.
fn add_rows(alloc: Global, id: PageId, page: &[u8], rows: &mut Vec<Row>) -> Result<(), AllocError>
    requires { IsReadable page.now }
    ensures { OnOk result (rows.new.items ≡ rows.old.items ++ rows_on id page.now) }
{
    if !is_of(page, DATA_KIND) {
        return Ok(());
    }
    'items: for item in 0..SLOTS_MAX as u8 {
        if let Some(row) = pm_data::row(page, item) {
            rows.push(read_row(alloc, Link::new(id, item), row)?)?;
        }
    }
    Ok(())
}

// The row that these bytes are.
fn read_row(alloc: Global, link: Link, row: &[u8]) -> Result<Row, AllocError>
    requires { IsRow row.now }
    ensures { IfOk result (λ read. read ≡ row_of link row.now) }
{
    Ok(Row {
        cache: cache_in(row),
        key: Key::of(alloc, key_in(row))?,
        value: Value::of(alloc, value_in(row))?,
        link,
    })
}
