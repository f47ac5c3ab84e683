//! Whether two pages stand side by side below an inner page.

ghost use Rattle.std.specs.Prelude.{◌≡◌, ℕ, ◌+◌, ◌<◌, ◌≤◌, ◌↔◌, IsTrue, List, [], true, length};
ghost use Rattle.pm_btpage.specs.IndexPages.{items_of, index_of, key_in, IsBelow, IsIndexPage};
ghost use Rattle.pm_pages.specs.PageLists.{IsReadable};
ghost use Rattle.pm_tree_del.specs.Neighbours.{joined_items, AreOfOneKind, AreApart, HasPlaceFor};

use pm_btpage::{INNER_KIND, LEAF_KIND, count, is_leaf, key_at};
use pm_tree::{is_above, is_before};
use pm_types::head::KIND_AT;

/// Whether both are pages of a tree, and of one kind.
pub fn are_of_one_kind(left: &[u8], right: &[u8]) -> bool
    requires left { IsReadable left.now }
    requires right { IsReadable right.now }
    ensures { IsTrue result ↔ AreOfOneKind left.now right.now }
{
    let kind = left[KIND_AT as usize];
    (kind == LEAF_KIND || kind == INNER_KIND) && right[KIND_AT as usize] == kind
}

/// Whether the left page's keys are below the right one's, and of inner pages the key that parts them between.
pub fn are_apart(left: &[u8], right: &[u8], key: &[u8]) -> bool
    requires left { IsIndexPage left.now }
    requires right { IsIndexPage right.now }
    ensures { IsTrue result ↔ AreApart (index_of left.now).leaf (items_of left.now)
        (items_of right.now) key.now }
{
    if is_leaf(left) {
        are_leaves_apart(left, right)
    } else {
        is_above(left, count(left), key) && is_before(right, 0, key)
    }
}

fn are_leaves_apart(left: &[u8], right: &[u8]) -> bool
    requires left { IsIndexPage left.now }
    requires right { IsIndexPage right.now }
    ensures { IsTrue result ↔ AreApart true (items_of left.now) (items_of right.now) [] }
{
    count(right) == 0 || is_above(left, count(left), key_at(right, 0))
}

/// How many items both pages have in one row: of inner pages the key that parts them is one more.
pub fn joined_count(left: &[u8], right: &[u8]) -> u16
    requires left { IsIndexPage left.now }
    requires right { IsIndexPage right.now }
    ensures { (key : List ℕ) → result
        ≡ length (joined_items (index_of left.now).leaf (index_of left.now) (index_of right.now) key) }
{
    if is_leaf(left) {
        count(left) + count(right)
    } else {
        count(left) + 1 + count(right)
    }
}

/// Whether a key may stand in item i of an inner page.
pub fn has_place_for(parent: &[u8], i: u16, key: &[u8]) -> bool
    requires page { IsIndexPage parent.now }
    requires item { i < length (items_of parent.now) }
    ensures { IsTrue result ↔ HasPlaceFor (items_of parent.now) i key.now }
{
    is_above(parent, i, key) && is_before(parent, i + 1, key)
}
