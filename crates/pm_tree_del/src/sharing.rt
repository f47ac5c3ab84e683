//! Items that go from one page to the one beside it.

ghost use Rattle.std.specs.Prelude.{◌≡◌, ◌≢◌, ℕ, ◌+◌, ◌-◌, ◌<◌, ◌≤◌, true, false, List, [], ◌∷◌, ◌++◌};
ghost use Rattle.std.specs.Prelude.{drop, take, length};
ghost use Rattle.pm_types.specs.Keys.{HasKeyLength};
ghost use Rattle.pm_types.specs.Pages.{IsNoted};
ghost use Rattle.pm_btpage.specs.IndexPages.{items_of, index_of, key_in, word_in, with_items};
ghost use Rattle.pm_btpage.specs.IndexPages.{with_link, without_item, capacity_of, AllBelow, IsBelow};
ghost use Rattle.pm_btpage.specs.IndexPages.{IsIndexPage};
ghost use Rattle.pm_tree_del.specs.Neighbours.{joined, joined_items, with_key, AreApart, HasPlaceFor};

use pm_btpage::{
    count, cut, first, insert_at, is_leaf, key_at, merge, next, remove_at, set_first, set_next,
    word_at,
};
use pm_types::{PageId, Patch};

/// Puts the items of the right page after those of the left one. Of inner pages the key that parts them goes
/// between, with the right one's first child; a left leaf gets the right one's link.
pub fn join(left: &mut [u8], right: &[u8], key: &[u8], patch: &mut Patch)
    requires left { IsIndexPage left.old }
    requires right { IsIndexPage right.now }
    requires kind { (index_of right.now).leaf ≡ (index_of left.old).leaf }
    requires sizes { length right.now ≡ length left.old }
    requires key { HasKeyLength key.now }
    requires apart { AreApart (index_of left.old).leaf (items_of left.old) (items_of right.now) key.now }
    requires room { length (joined_items (index_of left.old).leaf (index_of left.old)
        (index_of right.now) key.now) ≤ capacity_of (length left.old) }
    requires size { patch.old.page_size ≡ length left.old }
    ensures page { IsIndexPage left.new }
    ensures says { index_of left.new ≡ joined (index_of left.old) (index_of right.now) key.now }
    ensures noted { IsNoted patch.old patch.new left.old left.new }
{
    if is_leaf(left) {
        join_leaves(left, right, patch);
    } else {
        join_inner(left, right, key, patch);
    }
}

fn join_leaves(left: &mut [u8], right: &[u8], patch: &mut Patch)
    requires left { IsIndexPage left.old }
    requires right { IsIndexPage right.now }
    requires left_kind { (index_of left.old).leaf ≡ true }
    requires right_kind { (index_of right.now).leaf ≡ true }
    requires sizes { length right.now ≡ length left.old }
    requires apart { AllBelow (items_of left.old) (items_of right.now) }
    requires room { length (items_of left.old ++ items_of right.now) ≤ capacity_of (length left.old) }
    requires size { patch.old.page_size ≡ length left.old }
    ensures page { IsIndexPage left.new }
    ensures says { index_of left.new
        ≡ with_link (with_items (index_of left.old) (items_of left.old ++ items_of right.now))
        (index_of right.now).link }
    ensures noted { IsNoted patch.old patch.new left.old left.new }
{
    merge(left, right, patch);
    set_next(left, next(right), patch);
}

fn join_inner(left: &mut [u8], right: &[u8], key: &[u8], patch: &mut Patch)
    requires left { IsIndexPage left.old }
    requires right { IsIndexPage right.now }
    requires left_kind { (index_of left.old).leaf ≡ false }
    requires right_kind { (index_of right.now).leaf ≡ false }
    requires sizes { length right.now ≡ length left.old }
    requires key { HasKeyLength key.now }
    requires apart { AreApart false (items_of left.old) (items_of right.now) key.now }
    requires room { length (items_of left.old
        ++ (record { key = key.now; word = (index_of right.now).link } ∷ items_of right.now))
        ≤ capacity_of (length left.old) }
    requires size { patch.old.page_size ≡ length left.old }
    ensures page { IsIndexPage left.new }
    ensures says { index_of left.new
        ≡ with_items (index_of left.old)
        (items_of left.old ++ (record { key = key.now; word = (index_of right.now).link } ∷
        items_of right.now)) }
    ensures noted { IsNoted patch.old patch.new left.old left.new }
{
    let end = count(left);
    insert_at(left, end, key, first(right).0, patch);
    merge(left, right, patch);
}

/// Puts another key into an item of an inner page.
pub fn set_key(parent: &mut [u8], i: u16, key: &[u8], patch: &mut Patch)
    requires page { IsIndexPage parent.old }
    requires item { i < length (items_of parent.old) }
    requires key { HasKeyLength key.now }
    requires place { HasPlaceFor (items_of parent.old) i key.now }
    requires size { patch.old.page_size ≡ length parent.old }
    ensures page { IsIndexPage parent.new }
    ensures says { index_of parent.new
        ≡ with_items (index_of parent.old) (with_key (items_of parent.old) i key.now) }
    ensures noted { IsNoted patch.old patch.new parent.old parent.new }
{
    let word = word_at(parent, i);
    remove_at(parent, i, patch);
    insert_at(parent, i, key, word, patch);
}

/// Moves the first item of the right leaf to the end of the left one.
pub fn move_first(
    left: &mut [u8],
    right: &mut [u8],
    left_patch: &mut Patch,
    right_patch: &mut Patch,
)
    requires left { IsIndexPage left.old }
    requires right { IsIndexPage right.old }
    requires sizes { length right.old ≡ length left.old }
    requires apart { AllBelow (items_of left.old) (items_of right.old) }
    requires room { length (items_of left.old) < capacity_of (length left.old) }
    requires item { 0 < length (items_of right.old) }
    requires left_size { left_patch.old.page_size ≡ length left.old }
    requires right_size { right_patch.old.page_size ≡ length right.old }
    ensures left_page { IsIndexPage left.new }
    ensures left { index_of left.new
        ≡ with_items (index_of left.old) (items_of left.old ++ take 1 (items_of right.old)) }
    ensures right_page { IsIndexPage right.new }
    ensures right { index_of right.new ≡ with_items (index_of right.old) (drop 1 (items_of right.old)) }
    ensures left_noted { IsNoted left_patch.old left_patch.new left.old left.new }
    ensures right_noted { IsNoted right_patch.old right_patch.new right.old right.new }
{
    let end = count(left);
    insert_at(left, end, key_at(right, 0), word_at(right, 0), left_patch);
    remove_at(right, 0, right_patch);
}

/// Moves the last item of the left leaf to the front of the right one.
pub fn move_last(left: &mut [u8], right: &mut [u8], left_patch: &mut Patch, right_patch: &mut Patch)
    requires left { IsIndexPage left.old }
    requires right { IsIndexPage right.old }
    requires sizes { length right.old ≡ length left.old }
    requires apart { AllBelow (items_of left.old) (items_of right.old) }
    requires room { length (items_of right.old) < capacity_of (length right.old) }
    requires item { 0 < length (items_of left.old) }
    requires left_size { left_patch.old.page_size ≡ length left.old }
    requires right_size { right_patch.old.page_size ≡ length right.old }
    ensures left_page { IsIndexPage left.new }
    ensures left { index_of left.new
        ≡ with_items (index_of left.old) (take (length (items_of left.old) - 1) (items_of left.old)) }
    ensures right_page { IsIndexPage right.new }
    ensures right { index_of right.new
        ≡ with_items (index_of right.old)
        (drop (length (items_of left.old) - 1) (items_of left.old) ++ items_of right.old) }
    ensures left_noted { IsNoted left_patch.old left_patch.new left.old left.new }
    ensures right_noted { IsNoted right_patch.old right_patch.new right.old right.new }
{
    let last = count(left) - 1;
    insert_at(
        right,
        0,
        key_at(left, last),
        word_at(left, last),
        right_patch,
    );
    cut(left, last, left_patch);
}

/// Moves the first child of the right inner page to the end of the left one, where this key parts the pages.
pub fn move_first_child(
    left: &mut [u8],
    right: &mut [u8],
    key: &[u8],
    left_patch: &mut Patch,
    right_patch: &mut Patch,
)
    requires left { IsIndexPage left.old }
    requires right { IsIndexPage right.old }
    requires left_kind { (index_of left.old).leaf ≡ false }
    requires right_kind { (index_of right.old).leaf ≡ false }
    requires sizes { length right.old ≡ length left.old }
    requires key { HasKeyLength key.now }
    requires apart { AreApart false (items_of left.old) (items_of right.old) key.now }
    requires room { length (items_of left.old) < capacity_of (length left.old) }
    requires item { 0 < length (items_of right.old) }
    requires left_size { left_patch.old.page_size ≡ length left.old }
    requires right_size { right_patch.old.page_size ≡ length right.old }
    ensures left_page { IsIndexPage left.new }
    ensures left { index_of left.new
        ≡ with_items (index_of left.old)
        (items_of left.old ++ (record { key = key.now; word = (index_of right.old).link } ∷ [])) }
    ensures right_page { IsIndexPage right.new }
    ensures right { index_of right.new
        ≡ with_link (with_items (index_of right.old) (drop 1 (items_of right.old)))
        (word_in (items_of right.old) 0) }
    ensures left_noted { IsNoted left_patch.old left_patch.new left.old left.new }
    ensures right_noted { IsNoted right_patch.old right_patch.new right.old right.new }
{
    let end = count(left);
    insert_at(left, end, key, first(right).0, left_patch);
    let child = PageId(word_at(right, 0));
    remove_at(right, 0, right_patch);
    set_first(right, child, right_patch);
}

/// Moves the last child of the left inner page to the front of the right one, where this key parts the pages.
pub fn move_last_child(
    left: &mut [u8],
    right: &mut [u8],
    key: &[u8],
    left_patch: &mut Patch,
    right_patch: &mut Patch,
)
    requires left { IsIndexPage left.old }
    requires right { IsIndexPage right.old }
    requires left_kind { (index_of left.old).leaf ≡ false }
    requires right_kind { (index_of right.old).leaf ≡ false }
    requires sizes { length right.old ≡ length left.old }
    requires key { HasKeyLength key.now }
    requires apart { AreApart false (items_of left.old) (items_of right.old) key.now }
    requires room { length (items_of right.old) < capacity_of (length right.old) }
    requires item { 0 < length (items_of left.old) }
    requires left_size { left_patch.old.page_size ≡ length left.old }
    requires right_size { right_patch.old.page_size ≡ length right.old }
    ensures left_page { IsIndexPage left.new }
    ensures left { index_of left.new
        ≡ with_items (index_of left.old) (take (length (items_of left.old) - 1) (items_of left.old)) }
    ensures right_page { IsIndexPage right.new }
    ensures right { index_of right.new
        ≡ with_link (with_items (index_of right.old)
        (record { key = key.now; word = (index_of right.old).link } ∷ items_of right.old))
        (word_in (items_of left.old) (length (items_of left.old) - 1)) }
    ensures left_noted { IsNoted left_patch.old left_patch.new left.old left.new }
    ensures right_noted { IsNoted right_patch.old right_patch.new right.old right.new }
{
    let last = count(left) - 1;
    let was = first(right).0;
    insert_at(right, 0, key, was, right_patch);
    set_first(right, PageId(word_at(left, last)), right_patch);
    cut(left, last, left_patch);
}
