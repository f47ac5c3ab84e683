//! A run over a script, a batch at a time.

ghost use Rattle.std.specs.Prelude.{◌≡◌, ◌≤◌, ◌+◌, ℕ, [], false, length, IfOk, IfErr, OnOk, OnErr, IsErrOf};
ghost use Rattle.std.specs.List.{All};
ghost use Rattle.pm_types.specs.declared.limits.TheConstants.{LINES_MAX as most_lines};
ghost use Rattle.pm_types.specs.declared.limits.TheConstants.{BATCH_LINES_MAX as most_batch};
ghost use Rattle.pm_types.specs.declared.page_id.PageId.{PageId as Page};
ghost use Rattle.pm_types.specs.declared.shape.Shape.{Shape};
ghost use Rattle.pm_disk.specs.Moments.{AllMoments, Says};
ghost use Rattle.pm_disk.specs.States.{HasCause, IsUsable};
ghost use Rattle.pm_disk.specs.Worlds.{World};
ghost use Rattle.pm_model.specs.Batches.{HasCache};
ghost use Rattle.pm_script.specs.Reading.{rest_of, KnowsEnd};
ghost use Rattle.pm_script.specs.Texts.{texts_of};
ghost use Rattle.pm_engine.specs.Batches.{HasPlainFault};
ghost use Rattle.pm_engine.specs.FrameBatches.{HasFrameFault, is_due_idle};
ghost use Rattle.pm_engine.specs.Engines.{map_in};
ghost use Rattle.pm_engine.specs.FrameOpenings.{IsReadyOver};
ghost use Rattle.pm_engine.specs.FrameStores.{pages_in_frames};
ghost use Rattle.pm_top.specs.FrameRests.{IsServing};
ghost use Rattle.pm_top.specs.Promises.{IsMetByLine, SameConfig};
ghost use Rattle.pm_top.specs.Runs.{AnswersLines, BatchIsAnswered, CanRun, CountsBatch};
ghost use Rattle.pm_top.specs.Runs.{IsOpenAfter, IsServed, KeepsRun, SameConsole, StopsAtFault};
ghost use Rattle.pm_top.specs.Runs.{MeetsOnScript};
ghost use Rattle.pm_top.specs.Scripts.{batch_lines, IsBatch};
ghost use Rattle.pm_top.specs.Served.{script_of};

use crate::batch::{Batch, Continuation, next_batch};
use crate::reply_room::make_room;
use pm_config::Config;
use pm_disk::{Failed, Host};
use pm_engine::Engine;
use pm_model::{Line, Replies};
use pm_script::{Lines, print_reply};
use pm_types::{BATCH_LINES_MAX, Lack, StoreFault};
use std::alloc::{AllocError, Global};
use std::sync::Wait;

/// Where a run stops.
#[derive(Clone, Copy, Debug, PartialEq, Eq)]
pub enum Stop {
    /// At the script's end.
    Done,
    /// At a line that isn't ended within the limits.
    Limit,
}

/// A run over a script.
#[derive(Drop)]
pub struct Run {
    /// The store.
    pub engine: Engine,
    /// The number of lines whose reply was printed.
    pub lines: u64,
    // The texts of the replies at hand: their memory serves all batches.
    pub text: Vec<u8>,
}

impl Run {
    /// A run that has done nothing.
    pub fn new(alloc: Global, engine: Engine) -> Run
        ensures engine { result.engine ≡ engine }
        ensures lines { result.lines ≡ 0 }
    {
        Run {
            engine,
            lines: 0,
            text: Vec::new(alloc),
        }
    }

    /// Answers the script of the input, batch after batch, up to its end or to a limit. At its end
    /// the log is forced, and a checkpoint is made where more log stands after the last one than a
    /// run is to leave to the next opening.
    ///
    /// `BadPage` names a page that a line met, which fails its check, isn't there, or names a wrong page or row: then
    /// the store isn't sound.
    pub fn serve<Q: Wait, H: Host>(
        self,
        rt: &Q,
        alloc: Global,
        host: &mut H,
        config: &Config,
    ) -> (Run, Result<Stop, StoreFault>)
        requires usable { IsUsable (H.state host.old) }
        requires lines { self.lines ≡ 0 }
        requires order { self.engine.order ≡ [] }
        requires serving { IsServing config.now self.engine }
        requires ready { H.tells → IsReadyOver self.engine (H.history host.old).world }
        ensures config { H.tells → AllMoments (H.history host.old) (H.history host.new)
            (SameConfig (H.history host.old).world) }

        // What was answered, and what a crash leaves, meanwhile and from then on.
        ensures served { H.tells → (wanted : Shape) (last number : ℕ) (start : World)
            → SameConsole start (H.history host.old).world →
            CanRun wanted last number self.engine (H.history host.old).world →
            IsServed wanted last number start self.engine.store.shape
            (map_in self.engine (H.history host.old).world) (H.history host.old) (H.history host.new)
            result.0 result.1 }

        // At the script's end no more log stands than a run is to leave.
        ensures settled { IfOk result.1 (λ stop. stop ≡ Stop.Done
            → is_due_idle result.0.engine config.now ≡ false) }

        // Of any store: which page a line met that couldn't be used.
        ensures meets { H.tells → (page : Page) → IsErrOf result.1 (StoreFault.BadPage page)
            → IsMetByLine self.engine.store.shape (pages_in_frames self.engine.store
            (H.history host.old).world) (script_of (H.history host.old).world.input) page }
        ensures cause { HasFrameFault (H.state host.old) (H.state host.new) result.1 }
    {
        let Ok(mut input) = Lines::new(alloc) else {
            return (self, Err(StoreFault::Memory(Lack::Bytes)));
        };
        // Its memory serves all batches, so that a batch that has begun takes none for its replies.
        let Ok(mut replies) = Replies::with_room(alloc, BATCH_LINES_MAX) else {
            return (self, Err(StoreFault::Memory(Lack::Bytes)));
        };
        let mut run = self;
        'batches: loop {
            let (next, answered) = run.answer_batch(
                rt,
                alloc,
                host,
                config,
                &mut input,
                &mut replies,
            );
            run = next;
            match answered {
                Ok(Continuation::More) => {}
                Ok(Continuation::End) => {
                    let ended = run.engine.end_run(host, config);
                    match ended {
                        Ok(()) => return (run, Ok(Stop::Done)),
                        Err(_) => return (run, Err(StoreFault::Failed)),
                    }
                }
                Ok(Continuation::Over) => return (run, Ok(Stop::Limit)),
                Err(fault) => return (run, Err(fault)),
            }
        }
    }

    // Does the next batch of the script, and says how the script goes on after it.
    fn answer_batch<Q: Wait, H: Host>(
        self,
        rt: &Q,
        alloc: Global,
        host: &mut H,
        config: &Config,
        input: &mut Lines,
        replies: &mut Replies,
    ) -> (Run, Result<Continuation, StoreFault>)
        requires usable { IsUsable (H.state host.old) }
        requires serving { IsServing config.now self.engine }
        requires counted { self.lines ≡ input.old.lines }
        requires few { self.lines ≤ most_lines }
        requires ready { H.tells → IsReadyOver self.engine (H.history host.old).world }
        requires input_end { H.tells → KnowsEnd input.old (H.history host.old).world }
        ensures keeps { KeepsRun self result.0 }
        ensures counted { IfOk result.1
            (λ continuation. CountsBatch continuation input.new self result.0) }
        ensures open { H.tells → IsOpenAfter (H.history host.old) (H.history host.new)
            result.0.engine input.new result.1 }

        // What was answered, and what a crash leaves.
        ensures answered { H.tells → IfOk result.1 (λ continuation. BatchIsAnswered continuation
            input.old input.new (rest_of input.old (H.history host.old).world)
            (rest_of input.new (H.history host.new).world)
            (H.history host.old) (H.history host.new) self result.0) }
        ensures stops { H.tells → IfErr result.1 (StopsAtFault (H.history host.old) (H.history host.new)
            (script_of (rest_of input.old (H.history host.old).world)) self result.0) }
        ensures meets { H.tells → MeetsOnScript (script_of (rest_of input.old (H.history host.old).world))
            (script_of (rest_of input.new (H.history host.new).world)) (H.history host.old).world
            (H.history host.new).world self result.0 result.1 }
        ensures cause { HasFrameFault (H.state host.old) (H.state host.new) result.1 }
    {
        match next_batch(alloc, host, input) {
            Err(fault) => (self, Err(fault)),
            Ok(batch) => {
                let (run, answered) = self.answer_taken(rt, alloc, host, config, &batch, replies);
                match answered {
                    Err(fault) => (run, Err(fault)),
                    Ok(()) => (run, Ok(batch.continuation)),
                }
            }
        }
    }

    // Does the lines of a batch that was taken off the script.
    fn answer_taken<Q: Wait, H: Host>(
        self,
        rt: &Q,
        alloc: Global,
        host: &mut H,
        config: &Config,
        batch: &Batch,
        replies: &mut Replies,
    ) -> (Run, Result<(), StoreFault>)
        requires usable { IsUsable (H.state host.old) }
        requires serving { IsServing config.now self.engine }
        requires batch { IsBatch batch.now }
        requires numbers { self.lines + length (batch_lines batch.now) ≤ most_lines }
        requires ready { H.tells → IsReadyOver self.engine (H.history host.old).world }
        ensures answers { AnswersLines H.tells (H.history host.old) (H.history host.new) (batch_lines batch.now)
            self result.0 result.1 }
        ensures cause { HasFrameFault (H.state host.old) (H.state host.new) result.1 }
    {
        let (run, answered) = self.answer_lines(rt, alloc, host, config, &batch.lines, replies);
        match answered {
            Err(fault) => (run, Err(fault)),
            Ok(()) => run.answer_lines(rt, alloc, host, config, &batch.alone, replies),
        }
    }

    // Does these lines as one batch, and prints their replies once the log is forced.
    fn answer_lines<Q: Wait, H: Host>(
        self,
        rt: &Q,
        alloc: Global,
        host: &mut H,
        config: &Config,
        lines: &[Line],
        replies: &mut Replies,
    ) -> (Run, Result<(), StoreFault>)
        requires usable { IsUsable (H.state host.old) }
        requires serving { IsServing config.now self.engine }
        requires caches { All HasCache lines.now }
        requires few { length lines.now ≤ most_batch }
        requires numbers { self.lines + length lines.now ≤ most_lines }
        requires ready { H.tells → IsReadyOver self.engine (H.history host.old).world }
        ensures answers { AnswersLines H.tells (H.history host.old) (H.history host.new) lines.now self result.0
            result.1 }
        ensures cause { HasFrameFault (H.state host.old) (H.state host.new) result.1 }
    {
        if lines.is_empty() {
            return (self, Ok(()));
        }
        match make_room(alloc, replies, lines.len()) {
            Err(_) => (self, Err(StoreFault::Memory(Lack::Bytes))),
            Ok(()) => self.answer_some(rt, alloc, host, config, lines, replies),
        }
    }

    // Does some lines as one batch, once there is room for their replies.
    fn answer_some<Q: Wait, H: Host>(
        self,
        rt: &Q,
        alloc: Global,
        host: &mut H,
        config: &Config,
        lines: &[Line],
        replies: &mut Replies,
    ) -> (Run, Result<(), StoreFault>)
        requires usable { IsUsable (H.state host.old) }
        requires serving { IsServing config.now self.engine }
        requires caches { All HasCache lines.now }
        requires some { 1 ≤ length lines.now }
        requires few { length lines.now ≤ most_batch }
        requires none { replies.old.replies ≡ [] }
        requires room { length lines.now ≤ replies.old.spare }
        requires numbers { self.lines + length lines.now ≤ most_lines }
        requires ready { H.tells → IsReadyOver self.engine (H.history host.old).world }
        ensures answers { AnswersLines H.tells (H.history host.old) (H.history host.new) lines.now self result.0
            result.1 }
        ensures cause { HasFrameFault (H.state host.old) (H.state host.new) result.1 }
    {
        let Run {
            engine,
            lines: done,
            text,
        } = self;
        let (engine, ran) = engine.batch(rt, alloc, host, config, lines, done as u32 + 1, replies);
        let mut run = Run {
            engine,
            lines: done,
            text,
        };
        match ran {
            Err(fault) => (run, Err(fault)),
            Ok(()) => {
                let said = run.say(host, replies, lines.len());
                (run, said)
            }
        }
    }

    // Prints the replies to so many lines, and counts these.
    fn say<H: Host>(
        &mut self,
        host: &mut H,
        replies: &Replies,
        lines: usize,
    ) -> Result<(), StoreFault>
        requires usable { IsUsable (H.state host.old) }
        requires numbers { self.old.lines + lines ≤ most_lines }
        ensures engine { self.new.engine ≡ self.old.engine }
        ensures counted { OnOk result (self.new.lines ≡ self.old.lines + lines) }
        ensures uncounted { OnErr result (self.new.lines ≡ self.old.lines) }
        ensures says { H.tells → Says (H.history host.old) (H.history host.new) result
            (texts_of replies.now.replies) }
        ensures unsaid { H.tells → (lack : Lack) → IsErrOf result (StoreFault.Memory lack)
            → (H.history host.new).world ≡ (H.history host.old).world }
        ensures cause { HasPlainFault (H.state host.old) (H.state host.new) result }
    {
        write_replies(replies, &mut self.text)?;
        print_replies(host, &self.text)?;
        self.lines += lines as u64;
        Ok(())
    }
}

// Prints the texts of replies.
fn print_replies<H: Host>(host: &mut H, text: &[u8]) -> Result<(), Failed>
    requires usable { IsUsable (H.state host.old) }
    ensures says { H.tells →
        Says (H.history host.old) (H.history host.new) result text.now }
    ensures cause { HasCause (H.state host.old) (H.state host.new) result }
{
    host.print(text)
}

// Writes the texts of replies in place of the bytes.
fn write_replies(replies: &Replies, into: &mut Vec<u8>) -> Result<(), AllocError>
    ensures { OnOk result (into.new.items ≡ texts_of replies.now.replies) }
{
    into.clear();
    'each: for i in 0..replies.len() {
        print_reply(replies.get(i), into)?;
    }
    Ok(())
}
