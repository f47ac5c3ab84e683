//! Laws of a store over pages.

ghost use Rattle.std.specs.Prelude.{ℕ, ◌≡◌, ◌≤◌, ◌<◌, List, false, IsPermutation};
ghost use Rattle.std.specs.FinMap as map;
ghost use Rattle.std.specs.List.{flat_map, range_with_len};
ghost use Rattle.pm_types.specs.declared.shape.Shape.{Shape};
ghost use Rattle.pm_model.specs.declared.cache_key.CacheKey.{CacheKey};
ghost use Rattle.pm_model.specs.declared.line.Line.{Line};
ghost use Rattle.pm_model.specs.Partitions.{part_of};
ghost use Rattle.pm_model.specs.Orders.{part_of_line, is_barrier};
ghost use Rattle.pm_model.specs.Eval.{reply_to, after, is_accepted, pairs_of};
ghost use Rattle.pm_core.specs.BasePages.{Partitions};
ghost use Rattle.pm_core.specs.Held.{AllWellFormed, pairs_in};
ghost use Rattle.pm_engine.specs.Merges.{HasRisingKeys};
ghost use Rattle.pm_engine.specs.PagedStores.{part_map, RunsOnPart};

/// The map of a store has at a key what the map of the key's partition has. A line with a key is
/// answered by its partition alone, and what it does to that partition's map it does to the store's.
/// The pairs of a cache are those of the partitions, joined by rising key.
pub fn a_store_is_its_partitions()
    ensures value { (shape : Shape) (pages : Partitions) → AllWellFormed shape pages → (at : CacheKey)
        → 1 ≤ shape.partitions → map.get (pairs_in shape.partitions pages) at
        ≡ map.get (part_map pages (part_of at.key shape.partitions)) at }
    ensures reply { (shape : Shape) (pages : Partitions) → AllWellFormed shape pages → (part : ℕ) (line : Line)
        → part < shape.partitions → part_of_line shape line ≡ part → is_barrier line ≡ false
        → reply_to shape line (pairs_in shape.partitions pages) ≡ reply_to shape line (part_map pages part) }
    ensures accepted { (shape : Shape) (pages : Partitions) → AllWellFormed shape pages
        → (part : ℕ) (line : Line) → part < shape.partitions → part_of_line shape line ≡ part
        → is_accepted shape line (pairs_in shape.partitions pages)
        ≡ is_accepted shape line (part_map pages part) }
    ensures after { (shape : Shape) (part : ℕ) (line : Line) (old new : Partitions) → part < shape.partitions
        → part_of_line shape line ≡ part → AllWellFormed shape old → RunsOnPart shape part line old new
        → pairs_in shape.partitions new ≡ after shape line (pairs_in shape.partitions old) }
    ensures pairs { (shape : Shape) (pages : Partitions) → 1 ≤ shape.partitions → AllWellFormed shape pages
        → (cache : ℕ) (pairs : List (List ℕ × List ℕ))
        → IsPermutation (flat_map (λ part. pairs_of cache (part_map pages part))
        (range_with_len 0 shape.partitions)) pairs
        → HasRisingKeys pairs → pairs ≡ pairs_of cache (pairs_in shape.partitions pages) }
{}
