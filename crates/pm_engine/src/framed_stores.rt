//! Laws on the lines that workers do over their page frames, as steps of a store that runs. The functions do nothing:
//! their contracts are the laws.

ghost use Rattle.std.specs.Prelude.{ℕ, List};
ghost use Rattle.pm_model.specs.declared.line.Line.{Line};
ghost use Rattle.pm_model.specs.ReplyLists.{ReplyList};
ghost use Rattle.pm_stripe.specs.declared.bound.Bound.{Bound};
ghost use Rattle.pm_engine.specs.FramedStores.{HasStore, StepsStore};
ghost use Rattle.pm_engine.specs.FrameRounds.{DoesLines, HasDone};
ghost use Rattle.pm_engine.specs.RunningStores.{StoreState};

use pm_disk::PageReader;

/// Where the reader tells, and a worker has the pages of a store, lines that it does one after the other are steps of
/// that store: it has the pages to which they lead, those that stay in its frames are logged, and its outbox grew by the
/// records that a store which runs appends for them.
pub fn done_lines_are_steps<Q, R: PageReader>()
    ensures lines { (number : ℕ) (lines : List Line) (store : StoreState) (b c : Bound Q R) (was now : ReplyList)
        → R.tells → HasStore R.history store b → DoesLines R.tells R.history number lines b c was now
        → StepsStore R.history lines store b c }
    ensures round { (number : ℕ) (lines : List Line) (store : StoreState) (b c : Bound Q R) (was now : ReplyList)
        → R.tells → HasStore R.history store b → HasDone R.tells R.history R.state number lines b c was now
        → StepsStore R.history lines store b c }
{}
