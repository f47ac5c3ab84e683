//! Removals beside a map of the standard library.

ghost use Rattle.std.specs.Prelude.{◌≤◌};
ghost use Rattle.pm_types.specs.PageSizes.{IsPageSize};
ghost use Rattle.pm_pages.specs.Paged.{AllReadable};
ghost use Rattle.pm_pages.specs.Plain.{plain_seen, ArePlain};

use crate::trees::calls::root_of;
use crate::trees::keys::Order;
use crate::trees::maps::{get_all, put_all, put_both, remove_all, remove_both};
use crate::trees::pages::{SHAPE, look_at_bytes, look_at_reuse, look_at_tree, partition, shape_of};
use pm_pages::PlainPages;
use pm_types::{Key, Link, Shape};
use std::collections::BTreeMap;
use std::process::Abort;

// How many keys there are in each order.
const KEYS: u16 = 1000;

// How many keys are put or removed in each order.
const STEPS: u16 = 10_000;

// A number in which each bit hangs on all bits of i.
fn scattered(i: u16) -> u32 {
    let once = u32::from(i).wrapping_mul(2_654_435_761);
    let twice = (once ^ (once / 32_768)).wrapping_mul(739_982_445);
    twice ^ (twice / 4096)
}

// The number of the key of step i: each key in its turn, or any key.
fn number_at(order: Order, i: u16) -> u16 {
    match order {
        Order::Rising | Order::Falling => i % KEYS,
        Order::Mixed => (scattered(i) % 1000) as u16,
    }
}

// How many of ten steps are removals, about step i: the tree grows and shrinks by turns.
fn removals_at(i: u16) -> u32 {
    match i / 2000 {
        0 => 3,
        1 => 7,
        2 => 2,
        3 => 8,
        _ => 3,
    }
}

// Puts or removes the key of step i.
fn step(
    rt: &(impl Abort + AllocGlobal),
    pages: &mut PlainPages,
    map: &mut BTreeMap<Key, Link>,
    order: Order,
    i: u16,
)
    requires plain { ArePlain pages.old }
    requires readable { AllReadable (plain_seen pages.old) }
    ensures plain { ArePlain pages.new }
    ensures readable { AllReadable (plain_seen pages.new) }
{
    let number = number_at(order, i);
    if scattered(i) / 4096 % 10 < removals_at(i) {
        remove_both(rt, pages, map, order, number);
    } else {
        put_both(rt, pages, map, order, number);
    }
}

// Puts and removes keys at random: pages and map agree at each step and, after each 2,000, on all keys, and the
// pages are a tree after each `every` steps.
fn steps(
    rt: &(impl Abort + AllocGlobal),
    shape: &Shape,
    pages: &mut PlainPages,
    map: &mut BTreeMap<Key, Link>,
    order: Order,
    every: u16,
)
    requires size { IsPageSize shape.now.page_size }
    requires some { 1 ≤ every }
    requires plain { ArePlain pages.old }
    requires readable { AllReadable (plain_seen pages.old) }
    ensures plain { ArePlain pages.new }
    ensures readable { AllReadable (plain_seen pages.new) }
{
    'steps: for i in 0..STEPS {
        step(rt, pages, map, order, i);
        if i % every == 0 {
            look_at_tree(rt, shape, pages);
        }
        if i % 2000 == 1999 {
            get_all(rt, pages, map, order, KEYS);
        }
    }
    look_at_tree(rt, shape, pages);
}

// Does so from a meta page alone, and removes all keys then: the pages of the tree are for reuse.
fn agree(rt: &(impl Abort + AllocGlobal), shape: &Shape, order: Order, every: u16)
    requires size { IsPageSize shape.now.page_size }
    requires some { 1 ≤ every }
{
    let mut pages = partition(rt, shape);
    let mut map = BTreeMap::new(rt.alloc());
    steps(rt, shape, &mut pages, &mut map, order, every);
    assert!(rt; !map.is_empty() && pages.len() >= 3);
    remove_all(rt, &mut pages, &mut map, order, 0, KEYS);
    assert!(rt; map.is_empty());
    look_at_reuse(rt, shape, &mut pages);
}

// Does so with pages of a size, in each order of the keys.
fn all_agree(rt: &(impl Abort + AllocGlobal), size: u8, every: u16)
    requires { 1 ≤ every }
{
    for order in [Order::Rising, Order::Falling, Order::Mixed] {
        agree(rt, &shape_of(size), order, every);
    }
}

#[test]
fn removals_in_pages_of_1024_bytes_are_a_maps(rt: HostRuntime) {
    all_agree(&rt, 0, 100);
}

#[test]
fn removals_in_pages_of_2048_bytes_are_a_maps(rt: HostRuntime) {
    all_agree(&rt, 1, 500);
}

#[test]
fn removals_in_pages_of_4096_bytes_are_a_maps(rt: HostRuntime) {
    all_agree(&rt, 2, 500);
}

#[test]
fn removals_in_pages_of_8192_bytes_are_a_maps(rt: HostRuntime) {
    all_agree(&rt, 3, 500);
}

#[test]
fn removals_in_pages_of_16384_bytes_are_a_maps(rt: HostRuntime) {
    all_agree(&rt, 4, 500);
}

// Looks which page is the root of cache 3.
fn look_at_root(rt: &(impl Abort + AllocGlobal), pages: &mut PlainPages, wanted: u32)
    requires plain { ArePlain pages.old }
    requires readable { AllReadable (plain_seen pages.old) }
    ensures plain { ArePlain pages.new }
    ensures readable { AllReadable (plain_seen pages.new) }
{
    assert_eq!(rt; root_of(rt, pages), wanted);
}

#[test]
fn a_root_over_two_leaves_becomes_one_leaf(rt: HostRuntime) {
    let mut pages = partition(&rt, &SHAPE);
    let mut map = BTreeMap::new(rt.alloc());
    put_all(&rt, &mut pages, &mut map, Order::Rising, 0, 14);
    look_at_root(&rt, &mut pages, 3);
    look_at_bytes(&rt, &pages, 3, &[(8, 3), (10, 1)]);
    remove_all(&rt, &mut pages, &mut map, Order::Rising, 0, 8);
    look_at_root(&rt, &mut pages, 1);
    look_at_bytes(&rt, &pages, 1, &[(8, 2), (10, 6)]);
    look_at_bytes(&rt, &pages, 2, &[(8, 5)]);
    look_at_bytes(&rt, &pages, 3, &[(8, 5)]);
    get_all(&rt, &mut pages, &map, Order::Rising, 20);
    remove_all(&rt, &mut pages, &mut map, Order::Rising, 8, 14);
    look_at_root(&rt, &mut pages, 0);
    look_at_bytes(&rt, &pages, 1, &[(8, 5)]);
}
