//! Commands on a small partition of which one byte is turned: each call returns.

ghost use Rattle.std.specs.Prelude.{◌≡◌, ◌<◌};
ghost use Rattle.pm_types.specs.Shapes.{IsShape};
ghost use Rattle.pm_pages.specs.Paged.{AllReadable};
ghost use Rattle.pm_pages.specs.Plain.{plain_seen, ArePlain};
ghost use Rattle.pm_part.specs.Commands.{IsPartCmd};

use crate::parts::commands::{answered, get_of, is_done, pairs_in, put_of, remove_of, shape_of};
use crate::turned::{copied, opened, turned};
use pm_model::{Cmd, Reply};
use pm_pages::PlainPages;
use pm_types::{Page, Shape};
use std::process::Abort;

// The rows of a small partition: so many keys of cache 3 are put, each with a value of this length, and some of
// the first are removed again. So many pages it has then.
#[derive(Clone, Copy)]
struct Rows {
    put: u32,
    len: usize,
    removed: u32,
    pages: usize,
}

// Three data pages, pages 1, 3 and 4, with two, three and one rows: each is alone in its chain.
const SHORT: Rows = Rows {
    put: 6,
    len: 300,
    removed: 0,
    pages: 5,
};

// A data page for each row: pages 6, 5 and 4 are one chain. Pages 3 and 1 can be taken, and 3 names 1.
const LONG: Rows = Rows {
    put: 5,
    len: 600,
    removed: 2,
    pages: 7,
};

// A partition with these rows.
fn small_partition(rt: &(impl Abort + AllocGlobal), shape: Shape, rows: Rows) -> PlainPages
    requires shape { IsShape shape }
    requires partitions { shape.partitions ≡ 1 }
    ensures plain { ArePlain result }
    ensures readable { AllReadable (plain_seen result) }
{
    let mut pages = PlainPages::new(rt.alloc(), &shape, 0).expect(rt, "a partition");
    'keys: for i in 0..rows.put {
        let cmd = put_of(rt, &shape, 3, i, rows.len);
        answered(rt, shape, &mut pages, &cmd, &Reply::Done);
    }
    remove_first(rt, shape, &mut pages, rows.removed);
    pages
}

// Removes the first keys of cache 3.
fn remove_first(rt: &(impl Abort + AllocGlobal), shape: Shape, pages: &mut PlainPages, count: u32)
    requires plain { ArePlain pages.old }
    requires readable { AllReadable (plain_seen pages.old) }
    requires shape { IsShape shape }
    requires partitions { shape.partitions ≡ 1 }
    ensures plain { ArePlain pages.new }
    ensures readable { AllReadable (plain_seen pages.new) }
{
    'keys: for i in 0..count {
        let cmd = remove_of(rt, &shape, 3, i);
        answered(rt, shape, pages, &cmd, &Reply::Was(true));
    }
}

// How many partitions with a turned byte could be opened, and how many calls on them were done, or failed.
#[derive(Clone, Copy)]
struct Counts {
    opened: u32,
    done: u32,
    failed: u32,
}

impl Counts {
    fn count(&mut self, done: bool) {
        if done {
            self.done = self.done.saturating_add(1);
        } else {
            self.failed = self.failed.saturating_add(1);
        }
    }
}

// Does a command, and counts it, if it appended a reply exactly where it was done.
fn call(
    rt: &(impl Abort + AllocGlobal),
    shape: Shape,
    pages: &mut PlainPages,
    cmd: &Cmd,
    counts: &mut Counts,
)
    requires plain { ArePlain pages.old }
    requires readable { AllReadable (plain_seen pages.old) }
    requires shape { IsShape shape }
    requires partitions { shape.partitions ≡ 1 }
    requires cmd { IsPartCmd shape 0 cmd.now }
    ensures plain { ArePlain pages.new }
    ensures readable { AllReadable (plain_seen pages.new) }
{
    if let Some(done) = is_done(rt, shape, pages, cmd) {
        counts.count(done);
    }
}

// Gets, overwrites in three ways and removes a key, whose value has this length: five calls.
fn calls_of(
    rt: &(impl Abort + AllocGlobal),
    shape: Shape,
    pages: &mut PlainPages,
    number: u32,
    len: usize,
    counts: &mut Counts,
)
    requires plain { ArePlain pages.old }
    requires readable { AllReadable (plain_seen pages.old) }
    requires shape { IsShape shape }
    requires partitions { shape.partitions ≡ 1 }
    ensures plain { ArePlain pages.new }
    ensures readable { AllReadable (plain_seen pages.new) }
{
    let get = get_of(rt, &shape, 3, number);
    call(rt, shape, pages, &get, counts);
    'lengths: for put_len in [len, len.saturating_sub(1), 900] {
        let put = put_of(rt, &shape, 3, number, put_len);
        call(rt, shape, pages, &put, counts);
    }
    let remove = remove_of(rt, &shape, 3, number);
    call(rt, shape, pages, &remove, counts);
}

// Reads the pairs of cache 3, and then calls for each key.
fn calls(
    rt: &(impl Abort + AllocGlobal),
    shape: Shape,
    rows: Rows,
    pages: PlainPages,
    counts: &mut Counts,
)
    requires plain { ArePlain pages }
    requires readable { AllReadable (plain_seen pages) }
    requires shape { IsShape shape }
    requires partitions { shape.partitions ≡ 1 }
{
    let mut pages = pages;
    let pairs = pairs_in(rt, shape, &mut pages, 3);
    counts.count(pairs.is_some());
    'keys: for i in 0..rows.put {
        calls_of(rt, shape, &mut pages, i, rows.len, counts);
    }
}

// Turns bits of each byte of a page in its turn, and calls, where each page passes its check still.
fn calls_on_turned(
    rt: &(impl Abort + AllocGlobal),
    shape: Shape,
    rows: Rows,
    pages: &[Page],
    index: usize,
    bits: u8,
) -> Counts
    requires shape { IsShape shape }
    requires partitions { shape.partitions ≡ 1 }
{
    let mut counts = Counts {
        opened: 0,
        done: 0,
        failed: 0,
    };
    for at in 0..1024 {
        let all = turned(rt, pages, index, at, bits);
        if let Some(found) = opened(rt.alloc(), &shape, 0, all).expect(rt, "pages") {
            counts.opened = counts.opened.saturating_add(1);
            calls(rt, shape, rows, found, &mut counts);
        }
    }
    counts
}

// Turns bits of each byte of a page of a small partition: at least so many bytes can be turned so that the page
// passes its check still, at least so many calls fail then, and each of them returns.
fn all_return(
    rt: &(impl Abort + AllocGlobal),
    rows: Rows,
    index: usize,
    bits: u8,
    least: u32,
    failed: u32,
) {
    let shape = shape_of(1024, 300);
    let pages = copied(rt, &small_partition(rt, shape, rows));
    let counts = calls_on_turned(rt, shape, rows, &pages, index, bits);
    let returned = counts.done.saturating_add(counts.failed);
    let calls = rows.put.saturating_mul(5).saturating_add(1);
    let found = (pages.len(), counts.opened, counts.done, counts.failed);
    assert!(rt;
        pages.len() == rows.pages
            && counts.opened >= least
            && counts.failed >= failed
            && returned == counts.opened.saturating_mul(calls),
        "page {index}, bits {bits}: {found:?}"
    );
}

// In the meta page the last bits of the numbers can be turned; of six keys in the leaf, the bytes after the
// first, and the bytes of their links but for the flag; in a page that can be taken, the name of the next one.
#[test]
fn a_turned_byte_of_a_meta_page_a_leaf_or_a_reuse_page_stops_no_call(rt: HostRuntime) {
    all_return(&rt, SHORT, 0, 1, 34, 1);
    all_return(&rt, SHORT, 0, 255, 1, 0);
    all_return(&rt, SHORT, 2, 1, 100, 1);
    all_return(&rt, SHORT, 2, 255, 100, 1);
    all_return(&rt, LONG, 3, 1, 1, 0);
}

// In a data page the bytes of values can be turned, and those of keys.
#[test]
fn a_turned_byte_of_the_first_data_page_stops_no_call(rt: HostRuntime) {
    all_return(&rt, SHORT, 1, 1, 900, 1);
}

// A page in a chain of its own, and one with a page before it and one after it, whose names can be turned too.
#[test]
fn a_turned_byte_of_a_later_data_page_stops_no_call(rt: HostRuntime) {
    all_return(&rt, SHORT, 3, 255, 600, 1);
    all_return(&rt, LONG, 5, 1, 600, 1);
}
