//! Operations of two workers, each on a thread of its own, through their rings into a log in memory, while the
//! log writer appends them on a third.

ghost use Rattle.std.specs.Prelude.{◌≡◌, ◌≤◌, [], ◌∷◌, List, length};
ghost use Rattle.pm_frame.specs.declared.limits.TheConstants.{PAYLOAD_MAX as longest};
ghost use Rattle.pm_logger.specs.LogEnds.{SameEnd};
ghost use Rattle.pm_logger.specs.Loggers.{inboxes};
ghost use Rattle.pm_logger.specs.Rings.{AreLinked};
ghost use Rattle.pm_logger.specs.declared.log_end.LogEnd.{LogEnd as AnEnd};

use crate::log_rings::{
    Delta, LOGICAL_BYTES, Segment, delta_bytes, new_log, new_segment, operation,
};
use pm_logger::{LogEnd, Logger};
use pm_segments::Log;
use std::alloc::{AllocError, Global};
use std::hint;
use std::sync::atomic::{AtomicBool, Ordering};
use std::thread::{Threads, join_mut};

// How often a worker whose ring is full pauses until it tries again.
const PAUSES: u32 = 1_000;

/// What the workers push: each of them so often the same operation.
#[derive(Clone, Copy)]
struct Task<'a> {
    operation: &'a [u8],
    count: u32,
}

/// The log writer with its log.
#[derive(Drop)]
struct Writer {
    logger: Logger,
    log: Log,
    dev: Segment,
}

/// How many bytes the log has of so many operations, of which each worker pushes half.
pub fn run<R: Threads + Sync>(
    rt: &R,
    alloc: Global,
    delta: Delta,
    count: u32,
) -> Result<u64, AllocError> {
    let logical = [7; LOGICAL_BYTES];
    let delta = delta_bytes(alloc, delta)?;
    let operation = operation(alloc, &logical, &delta)?;
    let mut dev = new_segment(alloc)?;
    let Ok(log) = new_log(&mut dev) else {
        return Ok(0);
    };
    let (logger, mut ends) = Logger::new(alloc, 2)?;
    let (Some(mut second), Some(mut first)) = (ends.pop(), ends.pop()) else {
        return Ok(0);
    };
    let mut writer = Writer { logger, log, dev };
    let task = Task {
        operation: &operation,
        count: count / 2,
    };
    beside(rt, task, &mut first, &mut second, &mut writer);
    Ok(end_all(&mut writer, first, second))
}

// Takes what is left, and gives how many bytes the log has; 0 where that failed.
fn end_all(writer: &mut Writer, first: LogEnd, second: LogEnd) -> u64
    requires { AreLinked (first ∷ second ∷ []) (inboxes writer.old.logger) }
{
    let mut ends = [first, second];
    if writer
        .logger
        .rest(&mut ends, &mut writer.log, &mut writer.dev)
        .is_err()
    {
        return 0;
    }
    writer.log.appended()
}

// Two workers and the log writer, each on a thread of its own.
fn beside<R: Threads + Sync>(
    rt: &R,
    task: Task,
    one: &mut LogEnd,
    two: &mut LogEnd,
    writer: &mut Writer,
)
    ensures one { SameEnd one.old one.new }
    ensures two { SameEnd two.old two.new }
    ensures writer { (ends : List AnEnd) → AreLinked ends (inboxes writer.old.logger)
        → AreLinked ends (inboxes writer.new.logger) }
{
    let is_over = AtomicBool::new(false);
    let over = &is_over;
    join_mut(
        rt,
        &mut || push_all(one, task, over),
        &mut || both(rt, task, two, writer, over),
    );
}

// A worker and the log writer.
fn both<R: Threads + Sync>(
    rt: &R,
    task: Task,
    end: &mut LogEnd,
    writer: &mut Writer,
    is_over: &AtomicBool,
)
    ensures end { SameEnd end.old end.new }
    ensures writer { (ends : List AnEnd) → AreLinked ends (inboxes writer.old.logger)
        → AreLinked ends (inboxes writer.new.logger) }
{
    join_mut(
        rt,
        &mut || push_all(end, task, is_over),
        &mut || append_all(writer, task.count, is_over),
    );
}

// Pushes all operations of a worker, as long as the log writer takes them.
fn push_all(ring: &mut LogEnd, task: Task, is_over: &AtomicBool)
    ensures { SameEnd ring.old ring.new }
{
    'each: for _ in 0..task.count {
        if !push_whole(ring, task.operation, is_over) {
            return;
        }
    }
}

// Pushes an operation, and tries again while the ring is full. Answers whether all its bytes were pushed.
fn push_whole(end: &mut LogEnd, operation: &[u8], is_over: &AtomicBool) -> bool
    ensures { SameEnd end.old end.new }
{
    let mut pushed = end.push_bytes(operation);
    'tries: for _ in 0..u64::MAX {
        if pushed >= operation.len() {
            return true;
        }
        if is_over.load(Ordering::SeqCst) {
            return false;
        }
        pause();
        pushed += end.push_bytes(&operation[pushed..]);
    }
    false
}

// Waits some microseconds: a worker that looks into its full ring without a pause slows the log
// writer down, which writes the word that the worker reads.
fn pause() {
    'each: for _ in 0..PAUSES {
        hint::spin_loop();
    }
}

// Appends what both workers push, until as many lines were noted as they have operations, or a write failed.
fn append_all(writer: &mut Writer, count: u32, is_over: &AtomicBool)
    ensures { (ends : List AnEnd) → AreLinked ends (inboxes writer.old.logger)
        → AreLinked ends (inboxes writer.new.logger) }
{
    let mut left = 2 * u64::from(count);
    'calls: for _ in 0..u64::MAX {
        if left == 0 || writer.logger.job(&mut writer.log, &mut writer.dev).is_err() {
            break;
        }
        left = left.saturating_sub(writer.logger.lines().len() as u64);
        writer.logger.clear();
    }
    is_over.store(true, Ordering::SeqCst);
}
