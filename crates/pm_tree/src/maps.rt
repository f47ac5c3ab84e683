//! Laws of items as a sorted map.

ghost use Rattle.std.specs.Prelude.{◌≡◌, ◌≢◌, ℕ, List, Some};
ghost use Rattle.pm_btpage.specs.IndexPages.{Item, IsRising};
ghost use Rattle.pm_tree.specs.Maps.{get_in, put_in};

/// After a put the key has its word, every other key has what it had, and the keys rise still.
///
/// A law on definitions: the function does nothing.
pub fn puts_are_a_maps()
    ensures here { (items : List Item) (key : List ℕ) (word : ℕ)
        → get_in (put_in items key word) key ≡ Some word }
    ensures others { (items : List Item) (key other : List ℕ) (word : ℕ) → other ≢ key
        → get_in (put_in items key word) other ≡ get_in items other }
    ensures rising { (items : List Item) (key : List ℕ) (word : ℕ) → IsRising items
        → IsRising (put_in items key word) }
{}
