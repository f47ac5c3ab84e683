//! The items of an index page: reads, and the changes of one item.

ghost use Rattle.std.specs.Prelude.{◌≡◌, ◌+◌, ◌-◌, ◌<◌, ◌≤◌, length, replicate};
ghost use Rattle.pm_types.specs.Pages.{SameOutside, IsNoted};
ghost use Rattle.pm_types.specs.Spans.{IsInSpan, span_of};
ghost use Rattle.pm_types.specs.Fields.{bytes_at, Writes};
ghost use Rattle.pm_types.specs.Keys.{HasKeyLength};
ghost use Rattle.pm_btpage.specs.IndexPages.{index_of, items_of, item_at, offset_of, key_in, word_in};
ghost use Rattle.pm_btpage.specs.IndexPages.{with_items, with_item, with_word, capacity_of, IsBetween};
ghost use Rattle.pm_btpage.specs.IndexPages.{IsItem, IsIndexPage};

use crate::head::{count, set_count};
use crate::layout::{ITEM_LEN, ITEMS_AT, WORD_IN_ITEM};
use crate::spans::raise_items;
use pm_types::fields::{get_u64, put_bytes, put_u64, put_zeros, set_u64};
use pm_types::{KEY_MAX, PAGE_SIZE_MAX, Patch};

/// Where an item stands, in bytes from the page's start.
pub fn offset(i: u16) -> u16
    requires { offset_of i ≤ PAGE_SIZE_MAX }
    ensures { result ≡ offset_of i }
{
    ITEMS_AT + ITEM_LEN * i
}

/// The key of an item.
pub fn key_at(page: &[u8], i: u16) -> &[u8]
    requires page { IsIndexPage page.now }
    requires item { i < length (items_of page.now) }
    ensures key { result.now ≡ key_in (items_of page.now) i }
    ensures length { HasKeyLength result.now }
{
    stored_key(page, i)
}

/// The key of an item whose bytes are sound, whatever the rest of the page is.
pub fn stored_key(page: &[u8], i: u16) -> &[u8]
    requires within { offset_of i + ITEM_LEN ≤ length page.now }
    requires long { length page.now ≤ PAGE_SIZE_MAX }
    requires sound { IsItem page.now i }
    ensures key { result.now ≡ (item_at page.now i).key }
    ensures length { HasKeyLength result.now }
{
    let from = offset(i) as usize + 1;
    let len = page[from - 1] as usize;
    &page[from..from + len]
}

/// The word of an item.
pub fn word_at(page: &[u8], i: u16) -> u64
    requires page { IsIndexPage page.now }
    requires item { i < length (items_of page.now) }
    ensures { result ≡ word_in (items_of page.now) i }
{
    get_u64(page, offset(i) + WORD_IN_ITEM)
}

/// Sets the word of an item.
pub fn set_word(page: &mut [u8], i: u16, word: u64, patch: &mut Patch)
    requires page { IsIndexPage page.old }
    requires item { i < length (items_of page.old) }
    requires size { patch.old.page_size ≡ length page.old }
    ensures page { IsIndexPage page.new }
    ensures says { index_of page.new
        ≡ with_items (index_of page.old) (with_word (items_of page.old) i word) }
    ensures noted { IsNoted patch.old patch.new page.old page.new }
{
    set_u64(page, offset(i) + WORD_IN_ITEM, word, patch);
}

/// Puts an item before item i, or after the last.
pub fn insert_at(page: &mut [u8], i: u16, key: &[u8], word: u64, patch: &mut Patch)
    requires page { IsIndexPage page.old }
    requires room { length (items_of page.old) < capacity_of (length page.old) }
    requires some { 1 ≤ length key.now }
    requires short { length key.now ≤ KEY_MAX }
    requires order { IsBetween (items_of page.old) key.now i }
    requires size { patch.old.page_size ≡ length page.old }
    ensures page { IsIndexPage page.new }
    ensures says { index_of page.new ≡ with_items (index_of page.old)
        (with_item (items_of page.old) i (record { key = key.now; word = word })) }
    ensures noted { IsNoted patch.old patch.new page.old page.new }
{
    let number = count(page);
    raise_items(page, i, number, patch);
    set_item(page, i, key, word, patch);
    set_count(page, number + 1, patch);
}

// Writes an item over the bytes of place i, which the patch notes.
fn set_item(page: &mut [u8], i: u16, key: &[u8], word: u64, patch: &mut Patch)
    requires within { offset_of i + ITEM_LEN ≤ length page.old }
    requires long { length page.old ≤ PAGE_SIZE_MAX }
    requires some { 1 ≤ length key.now }
    requires short { length key.now ≤ KEY_MAX }
    requires size { patch.old.page_size ≡ length page.old }
    ensures item { item_at page.new i ≡ record { key = key.now; word = word } }
    ensures sound { IsItem page.new i }
    ensures writes { Writes (span_of (offset_of i) ITEM_LEN)
        page.old page.new patch.old patch.new }
{
    put_item(page, i, key, word);
    patch.add(offset(i), ITEM_LEN);
}

// Writes an item over the bytes of place i. No patch notes it.
fn put_item(page: &mut [u8], i: u16, key: &[u8], word: u64)
    requires within { offset_of i + ITEM_LEN ≤ length page.old }
    requires long { length page.old ≤ PAGE_SIZE_MAX }
    requires some { 1 ≤ length key.now }
    requires short { length key.now ≤ KEY_MAX }
    ensures item { item_at page.new i ≡ record { key = key.now; word = word } }
    ensures sound { IsItem page.new i }
    ensures outside { SameOutside (IsInSpan (span_of (offset_of i) ITEM_LEN)) page.old page.new }
{
    let at = offset(i);
    put_bytes(page, at, &[key.len() as u8]);
    put_bytes(page, at + 1, key);
    pad_key(page, at, key.len() as u16);
    put_u64(page, at + WORD_IN_ITEM, word);
}

// Writes zeros after the key of the item that begins at an offset.
fn pad_key(page: &mut [u8], at: u16, len: u16)
    requires within { at + WORD_IN_ITEM ≤ length page.old }
    requires long { length page.old ≤ PAGE_SIZE_MAX }
    requires short { len ≤ KEY_MAX }
    ensures zeros { bytes_at page.new (at + 1 + len) (KEY_MAX - len) ≡ replicate (KEY_MAX - len) 0 }
    ensures outside { SameOutside (IsInSpan (span_of (at + 1 + len) (KEY_MAX - len)))
        page.old page.new }
{
    put_zeros(page, at + 1 + len, KEY_MAX as u16 - len);
}
