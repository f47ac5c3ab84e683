//! Who runs batches of lines.

ghost use Rattle.std.specs.Prelude.{◌≡◌, List, ◌++◌, Option, None, OnOk, OnErr, IfErr};
ghost use Rattle.pm_types.specs.declared.shape.Shape.{Shape};
ghost use Rattle.pm_types.specs.declared.fault.StoreFault.{StoreFault};
ghost use Rattle.pm_model.specs.declared.line.Line.{Line};
ghost use Rattle.pm_model.specs.Eval.{Pairs, replies_to, after_all};
ghost use Rattle.pm_model.specs.ReplyLists.{with_replies};
ghost use Rattle.pm_model.specs.Batches.{IsBatch, MayHaveRun, fault_left};

use crate::line::Line;
use crate::replies::Replies;
use pm_types::StoreFault;
use std::alloc::Global;

/// A store that runs lines, a batch at a time. Tests alone use it, with `PlainBatcher`: the program's
/// batches are those of `pm_engine::Engine`.
///
/// A new one has run no lines, is open and has no fault. After an error it isn't open any more:
/// no further call is made on it.
pub trait Batcher {
    /// The shape of its store.
    ghost shape: { Self → Shape };
    /// Its map.
    ghost pairs: { Self → Pairs };
    /// The lines that it has run.
    ghost ran: { Self → List Line };
    /// The fault that ended its work.
    ghost fault: { Self → Option StoreFault };
    /// It may run a batch.
    ghost IsOpen: { Self → Type 0 };

    /// Runs a batch of lines, of which the first has the number `first`, and appends their replies.
    ///
    /// Each error leaves the lines of this batch run or not, and the map as they may have left it.
    fn run_batch(
        &mut self,
        alloc: Global,
        lines: &[Line],
        first: u32,
        replies: &mut Replies,
    ) -> Result<(), StoreFault>
        requires open { Self.IsOpen self.old }
        requires batch { IsBatch lines.now first replies.old }
        ensures shape { Self.shape self.new ≡ Self.shape self.old }

        // What is answered, and what is left.
        ensures replies { OnOk result (replies.new ≡ with_replies
            (replies_to (Self.shape self.old) lines.now (Self.pairs self.old)) replies.old) }
        ensures pairs { OnOk result (Self.pairs self.new
            ≡ after_all (Self.shape self.old) lines.now (Self.pairs self.old)) }
        ensures ran { OnOk result (Self.ran self.new ≡ Self.ran self.old ++ lines.now) }
        ensures open { OnOk result (Self.IsOpen self.new) }
        ensures no_fault { OnOk result (Self.fault self.new ≡ None) }

        // What an error leaves.
        ensures fault { IfErr result (λ fault. Self.fault self.new ≡ fault_left fault) }
        ensures may_have_run { OnErr result
            (MayHaveRun lines.now (Self.ran self.old) (Self.ran self.new)) };
}
