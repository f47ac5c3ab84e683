//! Operations of two workers, through their rings into a log in memory, and the same records appended to it.

ghost use Rattle.std.specs.Prelude.{◌≡◌, ◌<◌, ◌≤◌, IfOk, length};
ghost use Rattle.pm_frame.specs.declared.limits.TheConstants.{PAYLOAD_MAX as longest};
ghost use Rattle.pm_logger.specs.LogEnds.{SameEnd};
ghost use Rattle.pm_logger.specs.Loggers.{inboxes};
ghost use Rattle.pm_logger.specs.Rings.{AreLinked, StayLinked};

use pm_disk::{Device, Failed, LogFile, LogReader};
use pm_frame::{DELTA, LOGICAL};
use pm_logger::{FORCE_AFTER, LogEnd, Logger};
use pm_segments::Log;
use pm_types::Place;
use std::alloc::{AllocError, Global};

/// How many bytes the second record of an operation has; the first one has 40.
#[derive(Clone, Copy, Debug, PartialEq, Eq)]
pub enum Delta {
    /// 60.
    Short,
    /// 4,096.
    Long,
}

// The operations that a worker pushes before the log writer takes them.
const PUSHED: u32 = 100;

/// How many bytes the first record of an operation has.
pub(crate) const LOGICAL_BYTES: usize = 40;

const SEGMENT_BYTES: u32 = 1_048_576;

/// The last segment of a log, in memory.
#[derive(Drop)]
pub(crate) struct Segment {
    bytes: Vec<u8>,
    faults: u64,
}

impl Device for Segment {
    ghost use Rattle.std.specs.Prelude.{[], Some, false, true};
    ghost use Rattle.pm_disk.specs.Moments.{nothing_told};

    ghost tells = { ⊥ };

    ghost history = { λ _. nothing_told };

    ghost state = { λ segment. record {
      faults = segment.faults;
      access = record { folder = Some []; is_lent = false; reads = λ _. true; writes = λ _. true; made = 0 };
    } };

    ghost sound = { λ _ tells. absurd tells };
}

impl LogReader for Segment {
    fn seg_len(&mut self, _seg: u64) -> Result<Option<u64>, Failed> {
        Ok(None)
    }

    fn read_log(&mut self, _seg: u64, _at: u64, _into: &mut [u8]) -> Result<usize, Failed> {
        Ok(0)
    }
}

impl LogFile for Segment {
    fn write_log(&mut self, _seg: u64, at: u64, bytes: &[u8]) -> Result<(), Failed> {
        self.bytes.truncate(at as usize);
        if self.bytes.extend_from_slice(bytes).is_err() {
            self.faults = self.faults.saturating_add(1);
            return Err(Failed);
        }
        Ok(())
    }

    fn cut_log(&mut self, _seg: u64, len: u64) -> Result<(), Failed> {
        self.bytes.truncate(len as usize);
        Ok(())
    }

    fn force_log(&mut self, _seg: u64) -> Result<(), Failed> {
        Ok(())
    }
}

/// How many bytes the log has of so many operations, whose records are appended to it.
pub fn appends(alloc: Global, delta: Delta, count: u32) -> Result<u64, AllocError> {
    let logical = [7; LOGICAL_BYTES];
    let delta = delta_bytes(alloc, delta)?;
    let mut dev = new_segment(alloc)?;
    let Ok(mut log) = new_log(&mut dev) else {
        return Ok(0);
    };
    if append_all(&mut log, &mut dev, &logical, &delta, count).is_err() {
        return Ok(0);
    }
    Ok(log.appended())
}

/// The same where two workers push the operations to their rings, and the log writer takes them.
pub fn rings(alloc: Global, delta: Delta, count: u32) -> Result<u64, AllocError> {
    let logical = [7; LOGICAL_BYTES];
    let delta = delta_bytes(alloc, delta)?;
    let operation = operation(alloc, &logical, &delta)?;
    let mut dev = new_segment(alloc)?;
    let Ok(mut log) = new_log(&mut dev) else {
        return Ok(0);
    };
    let (mut logger, mut ends) = Logger::new(alloc, 2)?;
    if push_all(
        &mut logger,
        &mut ends,
        &mut log,
        &mut dev,
        &operation,
        count,
    )
    .is_err()
    {
        return Ok(0);
    }
    Ok(log.appended())
}

/// An empty log.
pub(crate) fn new_log(dev: &mut Segment) -> Result<Log, Failed> {
    Log::cut_tail(dev, 1, Place { seg: 1, off: 0 }, SEGMENT_BYTES)
}

/// A segment, with room for all that the log puts into it.
pub(crate) fn new_segment(alloc: Global) -> Result<Segment, AllocError> {
    let bytes = Vec::with_capacity(alloc, SEGMENT_BYTES as usize)?;
    Ok(Segment { bytes, faults: 0 })
}

/// The payload of an operation's second record.
pub(crate) fn delta_bytes(alloc: Global, delta: Delta) -> Result<Vec<u8>, AllocError>
    ensures { IfOk result (λ bytes. length bytes.items ≤ longest) }
{
    match delta {
        Delta::Short => Vec::from_slice(alloc, &[9; 60]),
        Delta::Long => Vec::from_slice(alloc, &[9; 4_096]),
    }
}

/// The bytes of an operation with these two records.
pub(crate) fn operation(alloc: Global, logical: &[u8], delta: &[u8]) -> Result<Vec<u8>, AllocError>
    requires logical { length logical.now ≤ longest }
    requires delta { length delta.now ≤ longest }
{
    let mut bytes = Vec::new(alloc);
    let records = (logical.len() as u32).saturating_add(delta.len() as u32);
    bytes.extend_from_slice(&7u32.to_le_bytes())?;
    bytes.extend_from_slice(&records.saturating_add(10).to_le_bytes())?;
    bytes.push(LOGICAL)?;
    bytes.extend_from_slice(&(logical.len() as u32).to_le_bytes())?;
    bytes.extend_from_slice(logical)?;
    bytes.push(DELTA)?;
    bytes.extend_from_slice(&(delta.len() as u32).to_le_bytes())?;
    bytes.extend_from_slice(delta)?;
    Ok(bytes)
}

// Appends the records of so many operations, and forces the log as often as the log writer does.
fn append_all(
    log: &mut Log,
    dev: &mut Segment,
    logical: &[u8],
    delta: &[u8],
    count: u32,
) -> Result<(), Failed>
    requires logical { length logical.now ≤ longest }
    requires delta { length delta.now ≤ longest }
{
    'each: for index in 0..count {
        log.append(dev, LOGICAL, logical)?;
        log.append(dev, DELTA, delta)?;
        if index % FORCE_AFTER == 0 {
            log.force(dev)?;
        }
    }
    Ok(())
}

// Has the two workers push some operations each, and the log writer take them, until they are so many.
fn push_all(
    logger: &mut Logger,
    ends: &mut Vec<LogEnd>,
    log: &mut Log,
    dev: &mut Segment,
    operation: &[u8],
    count: u32,
) -> Result<(), Failed>
    requires two { length ends.old.items ≡ 2 }
    requires linked { AreLinked ends.old.items (inboxes logger.old) }
{
    'rounds: for _ in 0..count / (2 * PUSHED) {
        push_some(ends, 0, operation);
        push_some(ends, 1, operation);
        logger.rest(ends, log, dev)?;
        logger.clear();
    }
    Ok(())
}

// Has a worker push some operations.
fn push_some(ends: &mut Vec<LogEnd>, worker: usize, operation: &[u8])
    requires { worker < length ends.old.items }
    ensures linked { StayLinked ends.old.items ends.new.items }
    ensures many { length ends.new.items ≡ length ends.old.items }
{
    push_often(&mut ends[worker], operation);
}

fn push_often(end: &mut LogEnd, operation: &[u8])
    ensures { SameEnd end.old end.new }
{
    'each: for _ in 0..PUSHED {
        end.push_bytes(operation);
    }
}
