//! Puts beside a map of the standard library.

ghost use Rattle.std.specs.Prelude.{◌≤◌};
ghost use Rattle.pm_types.specs.PageSizes.{IsPageSize};
ghost use Rattle.pm_pages.specs.Paged.{AllReadable};
ghost use Rattle.pm_pages.specs.Plain.{plain_seen, ArePlain};

use crate::trees::calls::root_of;
use crate::trees::keys::Order;
use crate::trees::maps::{get_all, put_all};
use crate::trees::pages::{SHAPE, look_at_bytes, look_at_tree, partition, shape_of};
use pm_pages::PlainPages;
use pm_types::Shape;
use std::collections::BTreeMap;
use std::process::Abort;

// Looks that pages have a tree.
fn look_at_root(rt: &(impl Abort + AllocGlobal), shape: &Shape, pages: &mut PlainPages)
    requires size { IsPageSize shape.now.page_size }
    requires plain { ArePlain pages.old }
    requires readable { AllReadable (plain_seen pages.old) }
    ensures plain { ArePlain pages.new }
    ensures readable { AllReadable (plain_seen pages.new) }
{
    assert!(rt; root_of(rt, pages) != 0);
    look_at_tree(rt, shape, pages);
}

// Puts keys by the thousand: pages and map agree all the while, and are a tree after each thousand. As many
// other keys aren't found.
fn agree(rt: &(impl Abort + AllocGlobal), shape: &Shape, order: Order, thousands: u16)
    requires size { IsPageSize shape.now.page_size }
    requires few { thousands ≤ 30 }
{
    let mut pages = partition(rt, shape);
    let mut map = BTreeMap::new(rt.alloc());
    'thousands: for n in 0..thousands {
        put_all(rt, &mut pages, &mut map, order, n * 1000, n * 1000 + 1000);
        look_at_root(rt, shape, &mut pages);
    }
    get_all(rt, &mut pages, &map, order, thousands * 2000);
}

#[test]
fn puts_agree_with_a_map(rt: HostRuntime) {
    for size in 0..5 {
        for order in [Order::Rising, Order::Falling, Order::Mixed] {
            agree(&rt, &shape_of(size), order, 2);
        }
    }
}

/// A tree of 14 keys: the root over two leaves.
pub fn small_tree(rt: &(impl Abort + AllocGlobal)) -> PlainPages
    ensures plain { ArePlain result }
    ensures readable { AllReadable (plain_seen result) }
{
    let mut pages = partition(rt, &SHAPE);
    let mut map = BTreeMap::new(rt.alloc());
    put_all(rt, &mut pages, &mut map, Order::Mixed, 0, 14);
    pages
}

#[test]
fn fourteen_keys_make_an_inner_root_over_two_leaves(rt: HostRuntime) {
    let pages = small_tree(&rt);
    assert!(rt; pages.len() == 4);
    look_at_bytes(&rt, &pages, 3, &[(8, 3), (10, 1)]);
    look_at_bytes(&rt, &pages, 1, &[(8, 2), (16, 2)]);
    look_at_bytes(&rt, &pages, 2, &[(8, 2), (16, 0)]);
}
