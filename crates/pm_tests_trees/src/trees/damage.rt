//! Calls on a small tree of which one byte is turned: each of them returns.

ghost use Rattle.std.specs.Prelude.{IfSome};
ghost use Rattle.pm_pages.specs.Paged.{AllReadable};
ghost use Rattle.pm_pages.specs.Plain.{plain_seen, ArePlain};

use crate::trees::calls::{get, put, remove};
use crate::trees::keys::{Order, key_of, link_of_row};
use crate::trees::pages::{SHAPE, partition};
use crate::trees::puts::small_tree;
use crate::turned::{copied, opened, turned};
use pm_pages::PlainPages;
use pm_types::{Page, PageFault};
use std::process::Abort;

// The pages with a turned byte, if each of them passes its check still.
fn opened_turned(
    rt: &(impl Abort + AllocGlobal),
    pages: &[Page],
    index: usize,
    at: usize,
    bits: u8,
) -> Option<PlainPages>
    ensures plain { IfSome result ArePlain }
    ensures readable { IfSome result (λ made. AllReadable (plain_seen made)) }
{
    let all = turned(rt, pages, index, at, bits);
    opened(rt.alloc(), &SHAPE, 2, all).expect(rt, "pages")
}

// Looks for keys in pages, and then puts them.
fn get_and_put(rt: &(impl Abort + AllocGlobal), pages: PlainPages)
    requires plain { ArePlain pages }
    requires readable { AllReadable (plain_seen pages) }
{
    let mut pages = pages;
    'gets: for i in 0..28 {
        let key = key_of(rt, Order::Mixed, i);
        get(rt, &mut pages, key.bytes());
    }
    'puts: for i in 0..28 {
        let key = key_of(rt, Order::Mixed, i);
        put(rt, &mut pages, key.bytes(), link_of_row(i));
    }
}

// How many bytes of a page can be turned so that each page passes its check still. Looks for keys in such pages
// and puts them.
fn survivals(rt: &(impl Abort + AllocGlobal), pages: &[Page], index: usize, bits: u8) -> u16 {
    let mut count = 0u16;
    for at in 0..1024 {
        if let Some(found) = opened_turned(rt, pages, index, at, bits) {
            get_and_put(rt, found);
            count = count.saturating_add(1);
        }
    }
    count
}

#[test]
fn a_turned_byte_of_a_small_tree_stops_no_call(rt: HostRuntime) {
    let pages = copied(&rt, &small_tree(&rt));
    for (index, least) in [(0, 1), (1, 100), (2, 100), (3, 10)] {
        for bits in [1, 255] {
            let count = survivals(&rt, &pages, index, bits);
            assert!(rt; count >= least, "page {index}: {count}");
        }
    }
}

// How many keys are put into the other tree.
const KEYS: u16 = 21;

// A tree of 21 keys: the root over three leaves of 7.
fn tree_of_three_leaves(rt: &(impl Abort + AllocGlobal)) -> PlainPages
    ensures plain { ArePlain result }
    ensures readable { AllReadable (plain_seen result) }
{
    let mut pages = partition(rt, &SHAPE);
    'keys: for i in 0..KEYS {
        let key = key_of(rt, Order::Rising, i);
        put(rt, &mut pages, key.bytes(), link_of_row(i));
    }
    pages
}

// How many trees with a turned byte could be opened, and how many removals from them were done, or found a bad
// page.
#[derive(Clone, Copy)]
struct Counts {
    opened: u32,
    done: u32,
    bad: u32,
}

// Counts the removals of all keys from pages.
fn removals(rt: &(impl Abort + AllocGlobal), pages: PlainPages, counts: &mut Counts)
    requires plain { ArePlain pages }
    requires readable { AllReadable (plain_seen pages) }
{
    let mut pages = pages;
    'keys: for i in 0..KEYS {
        let key = key_of(rt, Order::Rising, i);
        match remove(rt, &mut pages, key.bytes()) {
            Ok(_) => counts.done = counts.done.saturating_add(1),
            Err(PageFault::BadPage(_)) => counts.bad = counts.bad.saturating_add(1),
            Err(PageFault::Failed) => {}
        }
    }
}

// Turns bits of each byte of a page in its turn, and removes all keys from the pages, where each passes its
// check still.
fn removals_of_turned(
    rt: &(impl Abort + AllocGlobal),
    pages: &[Page],
    index: usize,
    bits: u8,
) -> Counts {
    let mut counts = Counts {
        opened: 0,
        done: 0,
        bad: 0,
    };
    for at in 0..1024 {
        if let Some(found) = opened_turned(rt, pages, index, at, bits) {
            counts.opened = counts.opened.saturating_add(1);
            removals(rt, found, &mut counts);
        }
    }
    counts
}

// For each page: how many of its bytes can be turned at least so that it passes its check still, and how many
// bad pages the removals find then at least. Any byte of a key after its two bytes of number can be turned, and
// in a leaf any of the four bytes of the page in a link: in the leaves 21 + 28, 70 + 28 and 119 + 28, in the
// root 7 + 14. A turned pointer to a page, or a turned key of the root, names a page in the wrong place.
const TURNED: [(usize, u32, u32); 5] = [(0, 1, 0), (1, 49, 1), (2, 98, 1), (3, 21, 1), (4, 147, 0)];

// Looks at what the removals of a page's turned bytes came to.
fn look(rt: &impl Abort, counts: Counts, index: usize, least: u32, bad: u32) {
    let found = (counts.opened, counts.done, counts.bad);
    let ended = counts.done.saturating_add(counts.bad) == counts.opened.saturating_mul(21);
    assert!(rt;
        counts.opened >= least && counts.bad >= bad && ended,
        "page {index}: {found:?}"
    );
}

#[test]
fn a_turned_byte_of_a_small_tree_stops_no_removal(rt: HostRuntime) {
    let pages = copied(&rt, &tree_of_three_leaves(&rt));
    assert!(rt; pages.len() == 5);
    for (index, least, bad) in TURNED {
        for bits in [1, 255] {
            look(
                &rt,
                removals_of_turned(&rt, &pages, index, bits),
                index,
                least,
                bad,
            );
        }
    }
}
