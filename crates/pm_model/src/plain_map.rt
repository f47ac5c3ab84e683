//! The pairs of all caches in memory, and how they answer lines.

ghost use Rattle.std.specs.Prelude.{◌≡◌, IfOk, OnOk, OnErr};
ghost use Rattle.std.specs.Option.{option_copied};
ghost use Rattle.std.specs.FinMap as map;
ghost use Rattle.pm_model.specs.Eval.{cache_key, found, is_full, pairs_of, reply_to, is_accepted, after};
ghost use Rattle.pm_model.specs.Partitions.{ArePartitions};

use crate::cache_key::CacheKey;
use crate::line::{Cmd, Line};
use crate::pair_list::PairList;
use crate::partition::part_of;
use crate::reply::{Answer, Reply};
use crate::row_counts::{RowCounts, put_counted, remove_counted, rows_counted};
use pm_types::{Key, Shape, Value};
use std::alloc::{AllocError, Global};
use std::collections::BTreeMap;
use std::marker::Model;

/// A map from cache and key to value, held in memory.
///
/// Tests and `pm_bench` alone use it: the program answers lines from its pages (`pm_part`).
#[derive(Drop)]
pub struct PlainMap {
    pairs: BTreeMap<CacheKey, Value>,
    // The rows of each partition, from the first time on that they are asked for.
    counts: Option<RowCounts>,
}

impl Model for PlainMap {
    ghost use Rattle.std.specs.Prelude.{ℕ, List};
    ghost use Rattle.std.specs.BTreeMap.{keys};
    ghost use Rattle.std.specs.FinMap as map;
    ghost use Rattle.pm_model.specs.Counts.{AreKept};
    ghost use Rattle.pm_model.specs.Eval.{cache_key_cmp, coded_pairs};

    ghost Value = { map.FinMap cache_key_cmp (List ℕ) };

    ghost coded = { coded_pairs };

    ghost view = { λ m. map.from_entries m.pairs.entries };

    ghost invariant = { λ m. AreKept m.counts (keys m.pairs) };
}

impl PlainMap {
    /// A map with no pair in it. It takes no memory yet.
    pub fn new(alloc: Global) -> PlainMap
        ensures empty { result ≡ map.empty }
    {
        PlainMap {
            pairs: BTreeMap::new(alloc),
            counts: None,
        }
    }

    /// Sets the value of a key, in place of any that it had.
    #[tactic(auto, using(crate::proofs::CacheKeys::one_put))]
    pub fn put(&mut self, cache: u8, key: Key, value: Value) -> Result<(), AllocError>
        ensures inserted { OnOk result
            (self.new ≡ map.insert self.old (cache_key cache key) value) }
        ensures unchanged { OnErr result (self.new ≡ self.old) }
    {
        let at = CacheKey { cache, key };
        put_counted(&mut self.pairs, &mut self.counts, at, value)
    }

    /// The value of a key, or none where it has none.
    #[tactic(auto, using(crate::proofs::CacheKeys::get_value))]
    pub fn get(&self, at: &CacheKey) -> Option<&Value>
        ensures value { option_copied result ≡ map.get self.now at.now }
    {
        self.pairs.get(at)
    }

    /// Takes a key out, and says whether it was there.
    #[tactic(auto, using(crate::proofs::CacheKeys::one_removed, crate::proofs::CacheKeys::get_value))]
    pub fn remove(&mut self, at: &CacheKey) -> bool
        ensures was { result ≡ map.contains_key self.old at.now }
        ensures removed { self.new ≡ map.remove self.old at.now }
    {
        remove_counted(&mut self.pairs, &mut self.counts, at)
    }

    /// The pairs of a cache, by rising key.
    #[tactic(auto, using(crate::proofs::CacheKeys::entries_are))]
    pub fn pairs_of(&self, alloc: Global, cache: u8) -> Result<PairList, AllocError>
        ensures { IfOk result (λ list. list ≡ pairs_of cache self.now) }
    {
        let mut pairs = Vec::new(alloc);
        'each: for (at, value) in self.pairs.iter() {
            if at.cache == cache {
                let key = Key::of(alloc, at.key.bytes())?;
                let value = Value::of(alloc, value.bytes())?;
                pairs.push((key, value))?;
            }
        }
        Ok(PairList { pairs })
    }

    /// Answers a line, in a store of this shape. What is found is copied once, into the reply.
    ///
    /// Where memory ran out the map is as before.
    pub fn answer(&mut self, alloc: Global, shape: Shape, line: Line) -> Result<Answer, AllocError>
        requires { ArePartitions shape.partitions }
        ensures reply { IfOk result (λ answer. answer.reply ≡ reply_to shape line self.old) }
        ensures accepted { IfOk result
            (λ answer. answer.is_accepted ≡ is_accepted shape line self.old) }
        ensures after { OnOk result (self.new ≡ after shape line self.old) }
        ensures unchanged { OnErr result (self.new ≡ self.old) }
    {
        match line {
            Line::Good(Cmd::Put { cache, key, value }) => {
                let at = CacheKey { cache, key };
                if self.is_full(shape, &at) {
                    return Ok(Answer::not_accepted(Reply::Full));
                }
                let CacheKey { cache, key } = at;
                self.put(cache, key, value)?;
                Ok(Answer::accepted(Reply::Done))
            }
            Line::Good(Cmd::Get { cache, key }) => {
                let reply = self.find(alloc, &CacheKey { cache, key })?;
                Ok(Answer::not_accepted(reply))
            }
            Line::Good(Cmd::Remove { cache, key }) => {
                let was = self.remove(&CacheKey { cache, key });
                Ok(Answer {
                    reply: Reply::Was(was),
                    is_accepted: was,
                })
            }
            Line::Good(Cmd::Scan { cache }) => {
                let pairs = self.pairs_of(alloc, cache)?;
                Ok(Answer::not_accepted(Reply::Pairs(pairs)))
            }
            Line::Good(Cmd::Checkpoint) => Ok(Answer::not_accepted(Reply::Done)),
            Line::Bad => Ok(Answer::not_accepted(Reply::BadLine)),
            Line::Long => Ok(Answer::not_accepted(Reply::LongLine)),
        }
    }

    // The reply to a `get` of this key.
    fn find(&self, alloc: Global, at: &CacheKey) -> Result<Reply, AllocError>
        ensures { IfOk result (λ reply. reply ≡ found (map.get self.now at.now)) }
    {
        match self.get(at) {
            None => Ok(Reply::Absent),
            Some(value) => Ok(Reply::Found(Value::of(alloc, value.bytes())?)),
        }
    }

    // Whether the key is new, and its partition has as many rows as it may have.
    fn is_full(&mut self, shape: Shape, at: &CacheKey) -> bool
        requires { ArePartitions shape.partitions }
        ensures full { result ≡ is_full shape at.now self.old }
        ensures unchanged { self.new ≡ self.old }
    {
        if self.get(at).is_some() {
            return false;
        }
        // A map with fewer rows needs no count.
        let most = shape.max_rows as usize;
        if self.pairs.len() < most {
            return false;
        }
        let part = part_of(at.key.bytes(), shape.partitions);
        let rows = rows_counted(&self.pairs, &mut self.counts, shape.partitions, part);
        rows >= most
    }
}
