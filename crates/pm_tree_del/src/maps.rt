//! Laws of items as a sorted map, from which a key is removed.

ghost use Rattle.std.specs.Prelude.{◌≡◌, ◌≢◌, ℕ, List, None};
ghost use Rattle.pm_btpage.specs.IndexPages.{Item, IsRising};
ghost use Rattle.pm_tree.specs.Maps.{get_in};
ghost use Rattle.pm_tree_del.specs.Maps.{remove_in};

/// After a removal the key has nothing, every other key has what it had, and the keys rise still.
///
/// A law on definitions: the function does nothing.
pub fn removes_are_a_maps()
    ensures here { (items : List Item) (key : List ℕ) → IsRising items
        → get_in (remove_in items key) key ≡ None }
    ensures others { (items : List Item) (key other : List ℕ) → IsRising items → other ≢ key
        → get_in (remove_in items key) other ≡ get_in items other }
    ensures rising { (items : List Item) (key : List ℕ) → IsRising items → IsRising (remove_in items key) }
{}
