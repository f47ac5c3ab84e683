//! Steps on the tree of a cache, each an operation of its own, over any pages.

ghost use Rattle.std.specs.Prelude.{◌≤◌, IfSome, OnOk};
ghost use Rattle.pm_types.specs.Keys.{HasKeyLength};
ghost use Rattle.pm_pages.specs.Paged.{AllReadable};
ghost use Rattle.pm_pages.specs.Plain.{plain_seen, ArePlain};
ghost use Rattle.pm_stripe.specs.Bounds.{IsBound};
ghost use Rattle.pm_stripe.specs.Covers.{NotesChanges};
ghost use Rattle.pm_stripe.specs.Idle.{IsIdle};

use crate::worker_pages::stop::Stop;
use pm_disk::PageReader;
use pm_meta::MetaSlot;
use pm_pages::{Pages, PlainPages, find_number};
use pm_stripe::Bound;
use pm_tree::{Place, find_place, tree_get, tree_put};
use pm_tree_del::tree_remove;
use pm_types::Link;
use std::alloc::Global;
use std::sync::Wait;

// The cache of the tree.
const CACHE: u8 = 3;

/// What is done with a key and the tree.
#[derive(Clone, Copy)]
pub enum TreeStep {
    /// This link is put at the key.
    Put(Link),
    /// The key is looked for.
    Find,
    /// The key is removed.
    Remove,
    /// The root is looked for, whatever the key is.
    Root,
    /// The key's place is looked for in the page with this index, as on the way from the root to its leaf.
    Place(u32),
}

/// What a step found.
#[derive(Clone, Copy, Debug, PartialEq, Eq, Drop)]
pub enum Told {
    /// The link that the key had before, if it was there.
    Had(Option<Link>),
    /// The index of the root, 0 where there is no tree.
    Root(u32),
    /// Where the key stands in the page.
    Place(Place),
}

// Puts a link at a key; `None` where that fails.
fn put_over<P: Pages>(pages: &mut P, key: &[u8], link: Link) -> Option<Told>
    requires ready { P.ready pages.old }
    requires room { 18 ≤ (P.seen pages.old).spare }
    requires key { HasKeyLength key.now }
    requires readable { AllReadable (P.seen pages.old) }
    ensures kept { P.kept pages.old pages.new }
    ensures readable { AllReadable (P.seen pages.new) }
    ensures notes { IfSome result (λ _. NotesChanges P.tells (P.seen pages.old) (P.seen pages.new)) }
{
    match find_number(pages, MetaSlot::Pages) {
        Ok(Some(_)) => match tree_put(pages, CACHE, key, link) {
            Ok(was) => Some(Told::Had(was)),
            Err(_) => None,
        },
        Ok(None) => None,
        Err(_) => None,
    }
}

// Looks for a key; `None` where that fails.
fn find_over<P: Pages>(pages: &mut P, key: &[u8]) -> Option<Told>
    requires ready { P.ready pages.old }
    requires room { 9 ≤ (P.seen pages.old).spare }
    requires readable { AllReadable (P.seen pages.old) }
    ensures kept { P.kept pages.old pages.new }
    ensures readable { AllReadable (P.seen pages.new) }
    ensures notes { IfSome result (λ _. NotesChanges P.tells (P.seen pages.old) (P.seen pages.new)) }
{
    match tree_get(pages, CACHE, key) {
        Ok(link) => Some(Told::Had(link)),
        Err(_) => None,
    }
}

// Removes a key; `None` where that fails.
fn remove_over<P: Pages>(pages: &mut P, key: &[u8]) -> Option<Told>
    requires ready { P.ready pages.old }
    requires room { 16 ≤ (P.seen pages.old).spare }
    requires readable { AllReadable (P.seen pages.old) }
    ensures kept { P.kept pages.old pages.new }
    ensures readable { AllReadable (P.seen pages.new) }
    ensures notes { IfSome result (λ _. NotesChanges P.tells (P.seen pages.old) (P.seen pages.new)) }
{
    match tree_remove(pages, CACHE, key) {
        Ok(was) => Some(Told::Had(was)),
        Err(_) => None,
    }
}

// Looks for the root; `None` where that fails.
fn root_over<P: Pages>(pages: &mut P) -> Option<Told>
    requires ready { P.ready pages.old }
    requires room { 1 ≤ (P.seen pages.old).spare }
    requires readable { AllReadable (P.seen pages.old) }
    ensures kept { P.kept pages.old pages.new }
    ensures readable { AllReadable (P.seen pages.new) }
    ensures notes { IfSome result (λ _. NotesChanges P.tells (P.seen pages.old) (P.seen pages.new)) }
{
    match find_number(pages, MetaSlot::Root(CACHE)) {
        Ok(Some(root)) => Some(Told::Root(root)),
        Ok(None) => None,
        Err(_) => None,
    }
}

// Looks for a key's place in a page; `None` where that fails.
fn place_over<P: Pages>(pages: &mut P, at: u32, key: &[u8]) -> Option<Told>
    requires ready { P.ready pages.old }
    requires room { 2 ≤ (P.seen pages.old).spare }
    requires readable { AllReadable (P.seen pages.old) }
    ensures kept { P.kept pages.old pages.new }
    ensures readable { AllReadable (P.seen pages.new) }
    ensures notes { IfSome result (λ _. NotesChanges P.tells (P.seen pages.old) (P.seen pages.new)) }
{
    match find_number(pages, MetaSlot::Pages) {
        Ok(Some(count)) => match find_place(pages, count, at, key) {
            Ok(place) => Some(Told::Place(place)),
            Err(_) => None,
        },
        Ok(None) => None,
        Err(_) => None,
    }
}

// Does a step; `None` where it fails.
fn step_over<P: Pages>(pages: &mut P, key: &[u8], step: TreeStep) -> Option<Told>
    requires ready { P.ready pages.old }
    requires room { 18 ≤ (P.seen pages.old).spare }
    requires key { HasKeyLength key.now }
    requires readable { AllReadable (P.seen pages.old) }
    ensures kept { P.kept pages.old pages.new }
    ensures readable { AllReadable (P.seen pages.new) }
    ensures notes { IfSome result (λ _. NotesChanges P.tells (P.seen pages.old) (P.seen pages.new)) }
{
    match step {
        TreeStep::Put(link) => put_over(pages, key, link),
        TreeStep::Find => find_over(pages, key),
        TreeStep::Remove => remove_over(pages, key),
        TreeStep::Root => root_over(pages),
        TreeStep::Place(at) => place_over(pages, at, key),
    }
}

/// Does a step as the operation with this line.
pub fn step_bound<'a, Q: Wait, R: PageReader>(
    pages: &mut Bound<'a, Q, R>,
    key: &[u8],
    step: TreeStep,
    line: u32,
) -> Result<Told, Stop>
    requires idle { IsIdle R.tells R.history R.state pages.old }
    requires key { HasKeyLength key.now }
    ensures bound { IsBound R.tells R.history R.state pages.new }
    ensures idle { OnOk result (IsIdle R.tells R.history R.state pages.new) }
{
    pages.ready()?;
    match step_over(pages, key, step) {
        Some(told) => {
            pages.done(line, None);
            Ok(told)
        }
        None => Err(Stop::Failed),
    }
}

/// Does a step over a list of pages.
pub fn step_plain(
    alloc: Global,
    plain: &mut PlainPages,
    key: &[u8],
    step: TreeStep,
) -> Result<Told, Stop>
    requires plain { ArePlain plain.old }
    requires readable { AllReadable (plain_seen plain.old) }
    requires key { HasKeyLength key.now }
    ensures plain { ArePlain plain.new }
    ensures readable { AllReadable (plain_seen plain.new) }
{
    plain.ready(alloc)?;
    match step_over(plain, key, step) {
        Some(told) => Ok(told),
        None => Err(Stop::Failed),
    }
}
