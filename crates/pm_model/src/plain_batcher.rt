//! Batches over a map in memory.

ghost use Rattle.std.specs.Prelude.{◌≡◌, ◌≤◌, [], ◌++◌, length, None, IfOk, OnOk, OnErr};
ghost use Rattle.pm_model.specs.Batches.{IsBatch};
ghost use Rattle.pm_model.specs.Eval.{replies_to, after_all};
ghost use Rattle.pm_model.specs.Partitions.{ArePartitions};
ghost use Rattle.pm_model.specs.ReplyLists.{with_replies};

use crate::batcher::Batcher;
use crate::line::Line;
use crate::plain_map::PlainMap;
use crate::replies::Replies;
use pm_types::{Shape, StoreFault};
use std::alloc::{AllocError, Global};
use std::marker::Model;

/// A batcher over a plain map. It answers no fault but out of memory. Tests alone use it.
#[derive(Drop)]
pub struct PlainBatcher {
    shape: Shape,
    map: PlainMap,
    // Copies of the lines that were run.
    lines: Vec<Line>,
}

impl Model for PlainBatcher {
    ghost use Rattle.std.specs.Coded.{codes};
    ghost use Rattle.pm_model.specs.Batches.{PlainBatching};
    ghost use Rattle.pm_model.specs.Eval.{coded_pairs};
    ghost use Rattle.pm_model.specs.Partitions.{ArePartitions};

    ghost Value = { PlainBatching };

    ghost coded = { Prim.hlevel (codes, coded_pairs) };

    ghost view = { λ b. record { shape = b.shape; pairs = b.map; ran = b.lines.items } };

    ghost invariant = { λ b. ArePartitions b.shape.partitions };
}

impl PlainBatcher {
    /// A batcher over this map, in a store of this shape, that has run no lines.
    pub fn new(alloc: Global, shape: Shape, map: PlainMap) -> PlainBatcher
        requires { ArePartitions shape.partitions }
        ensures { result ≡ record { shape = shape; pairs = map; ran = [] } }
    {
        PlainBatcher {
            shape,
            map,
            lines: Vec::new(alloc),
        }
    }

    // Keeps copies of lines that are to be run.
    fn keep(&mut self, alloc: Global, lines: &[Line]) -> Result<(), AllocError>
        ensures kept { OnOk result (self.new ≡ record self.old { ran = self.old.ran ++ lines.now }) }
        ensures unchanged { OnErr result (self.new ≡ self.old) }
    {
        let mut copies = copies_of(alloc, lines)?;
        self.lines.append(&mut copies)
    }

    // Runs lines that are kept.
    fn run(
        &mut self,
        alloc: Global,
        lines: &[Line],
        replies: &mut Replies,
    ) -> Result<(), AllocError>
        requires { length lines.now ≤ replies.old.spare }
        ensures replies { OnOk result (replies.new ≡ with_replies
            (replies_to self.old.shape lines.now self.old.pairs) replies.old) }
        ensures pairs { OnOk result (self.new.pairs
            ≡ after_all self.old.shape lines.now self.old.pairs) }
        ensures shape { self.new.shape ≡ self.old.shape }
        ensures ran { self.new.ran ≡ self.old.ran }
    {
        answer_all(alloc, self.shape, &mut self.map, lines, replies)
    }
}

impl Batcher for PlainBatcher {
    ghost shape = { λ b. b.shape };

    ghost pairs = { λ b. b.pairs };

    ghost ran = { λ b. b.ran };

    ghost fault = { λ _. None };

    ghost IsOpen = { λ _. Unit {0} };

    fn run_batch(
        &mut self,
        alloc: Global,
        lines: &[Line],
        _first: u32,
        replies: &mut Replies,
    ) -> Result<(), StoreFault> {
        self.keep(alloc, lines)?;
        self.run(alloc, lines, replies)?;
        Ok(())
    }
}

// Copies of lines.
fn copies_of(alloc: Global, lines: &[Line]) -> Result<Vec<Line>, AllocError>
    ensures { IfOk result (λ copies. copies.items ≡ lines.now) }
{
    let mut copies = Vec::with_capacity(alloc, lines.len())?;
    'each: for line in lines {
        copies.push(line.copy(alloc)?)?;
    }
    Ok(copies)
}

// Answers lines one after the other.
fn answer_all(
    alloc: Global,
    shape: Shape,
    map: &mut PlainMap,
    lines: &[Line],
    replies: &mut Replies,
) -> Result<(), AllocError>
    requires partitions { ArePartitions shape.partitions }
    requires room { length lines.now ≤ replies.old.spare }
    ensures replies { OnOk result
        (replies.new ≡ with_replies (replies_to shape lines.now map.old) replies.old) }
    ensures pairs { OnOk result (map.new ≡ after_all shape lines.now map.old) }
{
    'each: for line in lines {
        let answer = map.answer(alloc, shape, line.copy(alloc)?)?;
        replies.push(answer.reply);
    }
    Ok(())
}
