//! What is made of two pages that stand side by side, where one has too few items.

ghost use Rattle.std.specs.Prelude.{◌≡◌, ℕ, ◌+◌, ◌/◌, ◌<◌, ◌≤◌, true, false, length};
ghost use Rattle.pm_types.specs.Keys.{HasKeyLength};
ghost use Rattle.pm_types.specs.Pages.{IsNoted};
ghost use Rattle.pm_btpage.specs.IndexPages.{items_of, index_of, key_in, capacity_of, IsIndexPage};
ghost use Rattle.pm_pages.specs.PageLists.{IsReadable};
ghost use Rattle.pm_tree_del.specs.Neighbours.{joined_items, AreOfOneKind, AreApart, IsMend, Merges, Shares};

use crate::neighbours::{are_apart, are_of_one_kind, has_place_for, joined_count};
use crate::sharing::{join, move_first, move_first_child, move_last, move_last_child, set_key};
use pm_btpage::{capacity, count, is_leaf, key_at, remove_at};
use pm_tree::Separator;
use pm_types::Patch;

/// What was made of two pages that stand side by side.
#[derive(Clone, Copy, Debug, PartialEq, Eq, Drop)]
pub enum Mend {
    /// The left one has the items of both, and the parent has the right one no more.
    Merged,
    /// They share their items anew, and a key of the parent parts them.
    Shared,
    /// They don't stand side by side, and nothing was changed.
    Wrong,
}

/// What changed of two pages and of the one above them.
#[derive(Debug, Drop)]
pub struct Patches {
    pub parent: Patch,
    pub left: Patch,
    pub right: Patch,
}

/// Mends two pages, of which one may have too few items: the left one gets the items of both if it has room for
/// them, and else an item goes from the one to the other. The key of the parent's item `place` parts them.
pub fn mend_pages(
    parent: &mut [u8],
    left: &mut [u8],
    right: &mut [u8],
    place: u16,
    patches: &mut Patches,
) -> Mend
    requires parent { IsIndexPage parent.old }
    requires item { place < length (items_of parent.old) }
    requires left { IsReadable left.old }
    requires right { IsReadable right.old }
    requires left_length { length left.old ≡ length parent.old }
    requires right_length { length right.old ≡ length parent.old }
    requires parent_size { patches.old.parent.page_size ≡ length parent.old }
    requires left_size { patches.old.left.page_size ≡ length parent.old }
    requires right_size { patches.old.right.page_size ≡ length parent.old }
    ensures mends { IsMend parent.old left.old right.old place parent.new left.new right.new result }
    ensures parent_noted { IsNoted patches.old.parent patches.new.parent parent.old parent.new }
    ensures left_noted { IsNoted patches.old.left patches.new.left left.old left.new }
    ensures right_noted { IsNoted patches.old.right patches.new.right right.old right.new }
{
    if !are_of_one_kind(left, right) {
        return Mend::Wrong;
    }
    let key = Separator::of(key_at(parent, place));
    if !are_apart(left, right, key.key()) {
        return Mend::Wrong;
    }
    if joined_count(left, right) <= capacity(left.len() as u32) {
        join(left, right, key.key(), &mut patches.left);
        remove_at(parent, place, &mut patches.parent);
        return Mend::Merged;
    }
    share(parent, left, right, place, key.key(), patches)
}

// Lets two pages, whose items have no room in one, share them so that neither has too few.
fn share(
    parent: &mut [u8],
    left: &mut [u8],
    right: &mut [u8],
    place: u16,
    key: &[u8],
    patches: &mut Patches,
) -> Mend
    requires parent { IsIndexPage parent.old }
    requires item { place < length (items_of parent.old) }
    requires left { IsIndexPage left.old }
    requires right { IsIndexPage right.old }
    requires kind { AreOfOneKind left.old right.old }
    requires key { key.now ≡ key_in (items_of parent.old) place }
    requires key_length { HasKeyLength key.now }
    requires apart { AreApart (index_of left.old).leaf (items_of left.old) (items_of right.old) key.now }
    requires many { capacity_of (length left.old) < length
        (joined_items (index_of left.old).leaf (index_of left.old) (index_of right.old) key.now) }
    requires left_length { length left.old ≡ length parent.old }
    requires right_length { length right.old ≡ length parent.old }
    requires parent_size { patches.old.parent.page_size ≡ length parent.old }
    requires left_size { patches.old.left.page_size ≡ length parent.old }
    requires right_size { patches.old.right.page_size ≡ length parent.old }
    ensures mends { IsMend parent.old left.old right.old place parent.new left.new right.new result }
    ensures parent_noted { IsNoted patches.old.parent patches.new.parent parent.old parent.new }
    ensures left_noted { IsNoted patches.old.left patches.new.left left.old left.new }
    ensures right_noted { IsNoted patches.old.right patches.new.right right.old right.new }
{
    let half = capacity(left.len() as u32) / 2;
    if count(left) < half {
        take_first(parent, left, right, place, key, patches)
    } else if count(right) < half {
        take_last(parent, left, right, place, key, patches)
    } else {
        Mend::Shared
    }
}

// The right page's first item, or child, goes to the end of the left page.
fn take_first(
    parent: &mut [u8],
    left: &mut [u8],
    right: &mut [u8],
    place: u16,
    key: &[u8],
    patches: &mut Patches,
) -> Mend
    requires parent { IsIndexPage parent.old }
    requires item { place < length (items_of parent.old) }
    requires left { IsIndexPage left.old }
    requires right { IsIndexPage right.old }
    requires kind { AreOfOneKind left.old right.old }
    requires key { key.now ≡ key_in (items_of parent.old) place }
    requires key_length { HasKeyLength key.now }
    requires apart { AreApart (index_of left.old).leaf (items_of left.old) (items_of right.old) key.now }
    requires many { capacity_of (length left.old) < length
        (joined_items (index_of left.old).leaf (index_of left.old) (index_of right.old) key.now) }
    requires few { length (items_of left.old) < capacity_of (length left.old) / 2 }
    requires left_length { length left.old ≡ length parent.old }
    requires right_length { length right.old ≡ length parent.old }
    requires parent_size { patches.old.parent.page_size ≡ length parent.old }
    requires left_size { patches.old.left.page_size ≡ length parent.old }
    requires right_size { patches.old.right.page_size ≡ length parent.old }
    ensures mends { IsMend parent.old left.old right.old place parent.new left.new right.new result }
    ensures parent_noted { IsNoted patches.old.parent patches.new.parent parent.old parent.new }
    ensures left_noted { IsNoted patches.old.left patches.new.left left.old left.new }
    ensures right_noted { IsNoted patches.old.right patches.new.right right.old right.new }
{
    if is_leaf(left) {
        if !has_place_for(parent, place, key_at(right, 1)) {
            return Mend::Wrong;
        }
        set_key(parent, place, key_at(right, 1), &mut patches.parent);
        move_first(left, right, &mut patches.left, &mut patches.right);
        Mend::Shared
    } else {
        if !has_place_for(parent, place, key_at(right, 0)) {
            return Mend::Wrong;
        }
        set_key(parent, place, key_at(right, 0), &mut patches.parent);
        move_first_child(left, right, key, &mut patches.left, &mut patches.right);
        Mend::Shared
    }
}

// The left page's last item, or child, goes to the front of the right page.
fn take_last(
    parent: &mut [u8],
    left: &mut [u8],
    right: &mut [u8],
    place: u16,
    key: &[u8],
    patches: &mut Patches,
) -> Mend
    requires parent { IsIndexPage parent.old }
    requires item { place < length (items_of parent.old) }
    requires left { IsIndexPage left.old }
    requires right { IsIndexPage right.old }
    requires kind { AreOfOneKind left.old right.old }
    requires key { key.now ≡ key_in (items_of parent.old) place }
    requires key_length { HasKeyLength key.now }
    requires apart { AreApart (index_of left.old).leaf (items_of left.old) (items_of right.old) key.now }
    requires many { capacity_of (length left.old) < length
        (joined_items (index_of left.old).leaf (index_of left.old) (index_of right.old) key.now) }
    requires few { length (items_of right.old) < capacity_of (length left.old) / 2 }
    requires left_length { length left.old ≡ length parent.old }
    requires right_length { length right.old ≡ length parent.old }
    requires parent_size { patches.old.parent.page_size ≡ length parent.old }
    requires left_size { patches.old.left.page_size ≡ length parent.old }
    requires right_size { patches.old.right.page_size ≡ length parent.old }
    ensures mends { IsMend parent.old left.old right.old place parent.new left.new right.new result }
    ensures parent_noted { IsNoted patches.old.parent patches.new.parent parent.old parent.new }
    ensures left_noted { IsNoted patches.old.left patches.new.left left.old left.new }
    ensures right_noted { IsNoted patches.old.right patches.new.right right.old right.new }
{
    let last = count(left) - 1;
    if !has_place_for(parent, place, key_at(left, last)) {
        return Mend::Wrong;
    }
    set_key(parent, place, key_at(left, last), &mut patches.parent);
    if is_leaf(left) {
        move_last(left, right, &mut patches.left, &mut patches.right);
    } else {
        move_last_child(left, right, key, &mut patches.left, &mut patches.right);
    }
    Mend::Shared
}
