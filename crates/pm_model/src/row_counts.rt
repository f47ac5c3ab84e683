//! How many rows each partition has.

ghost use Rattle.std.specs.Prelude.{◌≡◌, ℕ, ◌^◌, ◌<◌, Some, None, is_some, false, not, IfOk, OnOk, OnErr};
ghost use Rattle.std.specs.BTreeMap.{btree_map_len, keys, get, insert_entry, IsOrdered, IsUnchanged, Updates};
ghost use Rattle.std.specs.FinMap.{from_entries};
ghost use Rattle.pm_types.specs.declared.limits.TheConstants.{PARTITIONS_MAX};
ghost use Rattle.pm_model.specs.Counts.{count_of, AreCountsOf, AreKept, HasOneMore};
ghost use Rattle.pm_model.specs.Eval.{cache_key_cmp, rows_of};
ghost use Rattle.pm_model.specs.Partitions.{ArePartitions, part_of};

use crate::cache_key::CacheKey;
use crate::partition::part_of;
use pm_types::{PARTITIONS_MAX, Value};
use std::alloc::AllocError;
use std::collections::BTreeMap;

// One count for each partition that a store may have.
const COUNTS: usize = PARTITIONS_MAX as usize;

/// The number of rows of each partition over all caches, of so many partitions. For `PlainMap` alone, which the
/// program doesn't use.
#[derive(Drop)]
pub(crate) struct RowCounts {
    partitions: u16,
    rows: [usize; COUNTS],
}

impl RowCounts {
    // No row is counted.
    fn none(partitions: u16) -> RowCounts
        ensures partitions { result.partitions ≡ partitions }
        ensures none { (part : ℕ) → count_of result part ≡ 0 }
    {
        RowCounts {
            partitions,
            rows: [0; COUNTS],
        }
    }

    // The counts of these pairs. It goes once over all of them.
    fn of(partitions: u16, pairs: &BTreeMap<CacheKey, Value>) -> RowCounts
        requires { ArePartitions partitions }
        ensures partitions { result.partitions ≡ partitions }
        ensures counts { AreCountsOf result (keys pairs.now) }
    {
        let mut counts = RowCounts::none(partitions);
        'each: for at in pairs.keys() {
            counts.add(part_of(at.key.bytes(), partitions));
        }
        counts
    }

    // How many rows the partition has.
    fn get(&self, part: u16) -> usize
        requires { part < PARTITIONS_MAX }
        ensures { result ≡ count_of self.now part }
    {
        self.rows[part as usize]
    }

    // Counts one row more.
    fn add(&mut self, part: u16)
        requires below { part < PARTITIONS_MAX }
        requires fits { count_of self.old part < 2 ^ 63 }
        ensures { HasOneMore part self.old self.new }
    {
        self.rows[part as usize] += 1;
    }

    // Counts one row less.
    fn take(&mut self, part: u16)
        requires below { part < PARTITIONS_MAX }
        requires some { 0 < count_of self.old part }
        ensures { HasOneMore part self.new self.old }
    {
        self.rows[part as usize] -= 1;
    }
}

/// How many rows of these pairs the partition has, of so many partitions.
///
/// Where the rows are not yet counted for as many, they are from now on: the first call goes over all pairs.
#[tactic(auto, using(crate::proofs::CacheKeys::entries_are))]
pub(crate) fn rows_counted(
    pairs: &BTreeMap<CacheKey, Value>,
    counts: &mut Option<RowCounts>,
    partitions: u16,
    part: u16,
) -> usize
    requires ordered { IsOrdered cache_key_cmp pairs.now }
    requires kept { AreKept counts.old (keys pairs.now) }
    requires partitions { ArePartitions partitions }
    requires below { part < partitions }
    ensures rows { result ≡ rows_of partitions part (from_entries pairs.now.entries) }
    ensures counts { AreKept counts.new (keys pairs.now) }
{
    if let Some(counts) = counts {
        if counts.partitions == partitions {
            return counts.get(part);
        }
    }
    let counted = RowCounts::of(partitions, pairs);
    let rows = counted.get(part);
    *counts = Some(counted);
    rows
}

/// Sets the value of a key among pairs whose rows may be counted.
pub(crate) fn put_counted(
    pairs: &mut BTreeMap<CacheKey, Value>,
    counts: &mut Option<RowCounts>,
    at: CacheKey,
    value: Value,
) -> Result<(), AllocError>
    requires { AreKept counts.old (keys pairs.old) }
    ensures updates { OnOk result (Updates cache_key_cmp pairs.old pairs.new at (Some value)) }
    ensures unchanged { OnErr result (IsUnchanged pairs.old pairs.new) }
    ensures counts { AreKept counts.new (keys pairs.new) }
{
    let Some(counts) = counts else {
        insert(pairs, at, value)?;
        return Ok(());
    };
    let part = part_of(at.key.bytes(), counts.partitions);
    if insert(pairs, at, value)? {
        counts.add(part);
    }
    Ok(())
}

// Sets the value of a key, and says whether the key is new.
fn insert(
    pairs: &mut BTreeMap<CacheKey, Value>,
    at: CacheKey,
    value: Value,
) -> Result<bool, AllocError>
    ensures updates { OnOk result (Updates cache_key_cmp pairs.old pairs.new at (Some value)) }
    ensures entries { OnOk result
        (pairs.new.entries ≡ insert_entry cache_key_cmp pairs.old.entries at value) }
    ensures new { IfOk result (λ is_new. is_some (get cache_key_cmp pairs.old at) ≡ not is_new) }
    ensures was_there { IfOk result (λ is_new. is_new ≡ false → keys pairs.new ≡ keys pairs.old) }
    ensures fits { OnOk result (btree_map_len pairs.old < 2 ^ 63) }
    ensures unchanged { OnErr result (IsUnchanged pairs.old pairs.new) }
{
    let rows = pairs.len();
    pairs.insert(at, value)?;
    Ok(pairs.len() > rows)
}

/// Takes a key out of pairs whose rows may be counted, and says whether it was there.
pub(crate) fn remove_counted(
    pairs: &mut BTreeMap<CacheKey, Value>,
    counts: &mut Option<RowCounts>,
    at: &CacheKey,
) -> bool
    requires { AreKept counts.old (keys pairs.old) }
    ensures was { result ≡ is_some (get cache_key_cmp pairs.old at.now) }
    ensures updates { Updates cache_key_cmp pairs.old pairs.new at.now None }
    ensures counts { AreKept counts.new (keys pairs.new) }
{
    if pairs.remove(at).is_none() {
        return false;
    }
    if let Some(counts) = counts {
        counts.take(part_of(at.key.bytes(), counts.partitions));
    }
    true
}
