//! Lists of pairs, joined by rising key.

ghost use Rattle.std.specs.Prelude.{◌≡◌, All, IfOk, map};
ghost use Rattle.std.specs.Bool.{⊤};
ghost use Rattle.pm_engine.specs.Merges.{is_below, HasRisingKeys, JoinsByKey};

use itertools::{Itertools, MergePredicate};
use pm_types::{Key, Value};
use std::alloc::{AllocError, Global};

// Of two pairs the one with the lower key comes first.
#[derive(Drop)]
struct ByKey;

impl MergePredicate<(Key, Value)> for ByKey {
    ghost can_test = { λ _. ⊤ };

    ghost computes = { λ _ first. first ≡ is_below };

    fn is_first(&mut self, left: &(Key, Value), right: &(Key, Value)) -> bool {
        left.0 < right.0
    }
}

/// Joins lists of pairs: where each is by rising key, all pairs are then. Keys and values are moved, none is copied:
/// of `n` pairs in `k` lists each takes about as many comparisons as `k` has bits.
pub(crate) fn join_by_key(
    alloc: Global,
    lists: Vec<Vec<(Key, Value)>>,
) -> Result<Vec<(Key, Value)>, AllocError>
    ensures { All (λ list. HasRisingKeys list.items) lists.items
        → IfOk result (λ pairs. JoinsByKey (map (λ list. list.items) lists.items) pairs.items) }
{
    let merged = lists.into_iter().kmerge_by(alloc, ByKey)?;
    merged.collect_vec(alloc)
}
