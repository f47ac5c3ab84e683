//! Puts, removals and look-ups in cache 3, each with room for the pages that it asks for.

ghost use Rattle.std.specs.Prelude.{◌≤◌};
ghost use Rattle.pm_types.specs.Keys.{HasKeyLength};
ghost use Rattle.pm_pages.specs.Paged.{AllReadable};
ghost use Rattle.pm_pages.specs.Plain.{plain_seen, ArePlain};

use pm_meta::MetaSlot;
use pm_pages::{Pages, PlainPages, find_number};
use pm_tree::{tree_get, tree_put};
use pm_tree_del::tree_remove;
use pm_types::{Link, PageFault};
use std::process::Abort;

// Puts a link at a key of cache 3, and gives what the key had; `None` where the put fails.
fn put_over<P: Pages>(pages: &mut P, key: &[u8], link: u64) -> Option<Option<Link>>
    requires ready { P.ready pages.old }
    requires room { 18 ≤ (P.seen pages.old).spare }
    requires key { HasKeyLength key.now }
    requires readable { AllReadable (P.seen pages.old) }
    ensures kept { P.kept pages.old pages.new }
    ensures readable { AllReadable (P.seen pages.new) }
{
    match find_number(pages, MetaSlot::Pages) {
        Ok(Some(_)) => match tree_put(pages, 3, key, Link(link)) {
            Ok(was) => Some(was),
            Err(_) => None,
        },
        Ok(None) => None,
        Err(_) => None,
    }
}

/// Puts a link at a key of cache 3, and gives what the key had; `None` where the put fails.
pub fn put(
    rt: &(impl Abort + AllocGlobal),
    pages: &mut PlainPages,
    key: &[u8],
    link: u64,
) -> Option<Option<Link>>
    requires plain { ArePlain pages.old }
    requires readable { AllReadable (plain_seen pages.old) }
    requires key { HasKeyLength key.now }
    ensures plain { ArePlain pages.new }
    ensures readable { AllReadable (plain_seen pages.new) }
{
    pages.ready(rt.alloc()).expect(rt, "room");
    put_over(pages, key, link)
}

// Removes a key of cache 3, and gives what it had.
fn remove_over<P: Pages>(pages: &mut P, key: &[u8]) -> Result<Option<Link>, PageFault>
    requires ready { P.ready pages.old }
    requires room { 16 ≤ (P.seen pages.old).spare }
    requires readable { AllReadable (P.seen pages.old) }
    ensures kept { P.kept pages.old pages.new }
    ensures readable { AllReadable (P.seen pages.new) }
{
    tree_remove(pages, 3, key)
}

/// Removes a key of cache 3, and gives what it had.
pub fn remove(
    rt: &(impl Abort + AllocGlobal),
    pages: &mut PlainPages,
    key: &[u8],
) -> Result<Option<Link>, PageFault>
    requires plain { ArePlain pages.old }
    requires readable { AllReadable (plain_seen pages.old) }
    ensures plain { ArePlain pages.new }
    ensures readable { AllReadable (plain_seen pages.new) }
{
    pages.ready(rt.alloc()).expect(rt, "room");
    remove_over(pages, key)
}

// The link of a key of cache 3; `None` where the look-up fails.
fn get_over<P: Pages>(pages: &mut P, key: &[u8]) -> Option<Option<Link>>
    requires ready { P.ready pages.old }
    requires room { 9 ≤ (P.seen pages.old).spare }
    requires readable { AllReadable (P.seen pages.old) }
    ensures kept { P.kept pages.old pages.new }
    ensures readable { AllReadable (P.seen pages.new) }
{
    match tree_get(pages, 3, key) {
        Ok(link) => Some(link),
        Err(_) => None,
    }
}

/// The link of a key of cache 3; `None` where the look-up fails.
pub fn get(
    rt: &(impl Abort + AllocGlobal),
    pages: &mut PlainPages,
    key: &[u8],
) -> Option<Option<Link>>
    requires plain { ArePlain pages.old }
    requires readable { AllReadable (plain_seen pages.old) }
    ensures plain { ArePlain pages.new }
    ensures readable { AllReadable (plain_seen pages.new) }
{
    pages.ready(rt.alloc()).expect(rt, "room");
    get_over(pages, key)
}

// The root of cache 3; 0 where there is none.
fn root_over<P: Pages>(pages: &mut P) -> u32
    requires ready { P.ready pages.old }
    requires room { 1 ≤ (P.seen pages.old).spare }
    requires readable { AllReadable (P.seen pages.old) }
    ensures kept { P.kept pages.old pages.new }
    ensures readable { AllReadable (P.seen pages.new) }
{
    match find_number(pages, MetaSlot::Root(3)) {
        Ok(Some(root)) => root,
        Ok(None) => 0,
        Err(_) => 0,
    }
}

/// The root of cache 3; 0 where there is none.
pub fn root_of(rt: &(impl Abort + AllocGlobal), pages: &mut PlainPages) -> u32
    requires plain { ArePlain pages.old }
    requires readable { AllReadable (plain_seen pages.old) }
    ensures plain { ArePlain pages.new }
    ensures readable { AllReadable (plain_seen pages.new) }
{
    pages.ready(rt.alloc()).expect(rt, "room");
    root_over(pages)
}
