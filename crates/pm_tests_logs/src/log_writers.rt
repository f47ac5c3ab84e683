//! The log writer beside workers on threads of their own, and over a log whose writes fail.

ghost use Rattle.std.specs.Prelude.{◌≡◌, ◌<◌, ◌≤◌, [], ◌∷◌, List, length, IfOk};
ghost use Rattle.pm_logger.specs.LogEnds.{SameEnd};
ghost use Rattle.pm_logger.specs.Loggers.{inboxes};
ghost use Rattle.pm_logger.specs.Rings.{AreLinked, StayLinked};
ghost use Rattle.pm_logger.specs.declared.log_end.LogEnd.{LogEnd as AnEnd};

use crate::looks::{holds, same};
use pm_disk::{Device, Failed, LogFile, LogReader};
use pm_frame::{LOGICAL, SNAPSHOT};
use pm_logger::{LogEnd, Logger};
use pm_segments::{Log, Scan};
use pm_types::{Place, SEGMENT_BYTES_MAX};
use std::alloc::{AllocError, Global};
use std::process::Abort;
use std::test::Fail;
use std::thread::{Threads, join_mut, yield_now};

/// The begin of the first segment.
const BEGIN: Place = Place { seg: 1, off: 0 };

/// The first segment, in memory. It tells nothing, and one of its calls that change it fails: the one with this
/// number.
#[derive(Drop)]
struct Segment {
    bytes: Vec<u8>,
    calls: u32,
    failing: u32,
    faults: u64,
}

impl Segment {
    /// Whether this call fails.
    fn is_failing(&mut self) -> bool
        ensures { self.new.faults ≡ self.old.faults }
    {
        let number = self.calls;
        self.calls = number.saturating_add(1);
        number == self.failing
    }
}

/// An empty segment.
fn empty(alloc: Global, failing: u32) -> Segment {
    Segment {
        bytes: Vec::new(alloc),
        calls: 0,
        failing,
        faults: 0,
    }
}

impl Device for Segment {
    ghost use Rattle.std.specs.Prelude.{[], Some, false, true};
    ghost use Rattle.pm_disk.specs.Moments.{nothing_told};

    ghost tells = { ⊥ };

    ghost history = { λ _. nothing_told };

    ghost state = { λ segment. record {
      faults = segment.faults;
      access = record { folder = Some []; is_lent = false; reads = λ _. true; writes = λ _. true; made = 0 };
    } };

    ghost sound = { λ _ tells. absurd tells };
}

impl LogReader for Segment {
    fn seg_len(&mut self, _seg: u64) -> Result<Option<u64>, Failed> {
        Ok(Some(self.bytes.len() as u64))
    }

    fn read_log(&mut self, _seg: u64, at: u64, into: &mut [u8]) -> Result<usize, Failed> {
        let from = (at as usize).min(self.bytes.len());
        let count = into.len().min(self.bytes.len() - from);
        into[..count].copy_from_slice(&self.bytes[from..from + count]);
        Ok(count)
    }
}

impl LogFile for Segment {
    fn write_log(&mut self, _seg: u64, at: u64, bytes: &[u8]) -> Result<(), Failed> {
        if self.is_failing() {
            self.faults = self.faults.saturating_add(1);
            return Err(Failed);
        }
        self.bytes.truncate(at as usize);
        if self.bytes.extend_from_slice(bytes).is_err() {
            self.faults = self.faults.saturating_add(1);
            return Err(Failed);
        }
        Ok(())
    }

    fn cut_log(&mut self, _seg: u64, len: u64) -> Result<(), Failed> {
        self.bytes.truncate(len as usize);
        Ok(())
    }

    fn force_log(&mut self, _seg: u64) -> Result<(), Failed> {
        if self.is_failing() {
            self.faults = self.faults.saturating_add(1);
            return Err(Failed);
        }
        Ok(())
    }
}

/// The operations of two workers that have one record each: the first 400 of each are logical, and name their
/// lines.
const NAMED: u32 = 400;

/// How many bytes the record of a worker's operation has: from 1 to 60,000.
fn payload_len(index: u32) -> u32
    ensures { result ≤ 60000 }
{
    if index % 499 == 498 {
        60_000
    } else {
        1 + index % 151
    }
}

/// Which of the two kinds the record has.
fn kind_of(index: u32) -> u8 {
    if index < NAMED { LOGICAL } else { SNAPSHOT }
}

/// The number of the line, which no other operation of the two workers has.
fn line_of(worker: u8, index: u32) -> u32 {
    index.saturating_mul(2).saturating_add(u32::from(worker))
}

/// Writes the payload of a worker's operation: the worker's number, and then bytes that differ from those of
/// the next one.
fn write_payload(into: &mut Vec<u8>, worker: u8, index: u32) -> Result<(), AllocError> {
    into.push(worker)?;
    let len = payload_len(index) as usize;
    let filled = into.len().saturating_add(len).saturating_sub(1);
    into.resize(filled, index.to_le_bytes()[0])
}

/// Writes an operation.
fn write_operation(into: &mut Vec<u8>, worker: u8, index: u32) -> Result<(), AllocError> {
    let len = payload_len(index);
    into.clear();
    into.extend_from_slice(&line_of(worker, index).to_le_bytes())?;
    into.extend_from_slice(&len.saturating_add(5).to_le_bytes())?;
    into.push(kind_of(index))?;
    into.extend_from_slice(&len.to_le_bytes())?;
    write_payload(into, worker, index)
}

/// A worker that hands over its operations.
#[derive(Drop)]
struct Worker {
    end: LogEnd,
    number: u8,
    count: u32,
    // What a push has handed back, and all that comes later.
    outbox: Vec<u8>,
    scratch: Vec<u8>,
    is_done: bool,
}

impl Worker {
    /// Pushes one operation, and tries again some times where the ring is full. Answers how many of its bytes
    /// it pushed.
    fn push(&mut self) -> usize
        ensures { SameEnd self.old.end self.new.end }
    {
        let mut pushed = self.end.push_bytes(&self.scratch);
        'tries: for _ in 0..1_000 {
            if pushed >= self.scratch.len() {
                return pushed;
            }
            yield_now();
            pushed = pushed.saturating_add(self.end.push_bytes(&self.scratch[pushed..]));
        }
        pushed
    }

    /// Hands over one operation, as far as the ring has room, and keeps the rest.
    fn hand_over(&mut self, index: u32) -> Result<(), AllocError>
        ensures { SameEnd self.old.end self.new.end }
    {
        write_operation(&mut self.scratch, self.number, index)?;
        let mut pushed = 0;
        if self.outbox.is_empty() {
            pushed = self.push().min(self.scratch.len());
        }
        self.outbox.extend_from_slice(&self.scratch[pushed..])
    }

    fn work(&mut self)
        ensures { SameEnd self.old.end self.new.end }
    {
        'each: for index in 0..self.count {
            if self.hand_over(index).is_err() {
                return;
            }
        }
        self.is_done = true;
    }
}

/// The log writer with its log.
#[derive(Drop)]
struct Writer {
    logger: Logger,
    log: Log,
    dev: Segment,
    is_failed: bool,
}

impl Writer {
    fn work(&mut self)
        ensures { (ends : List AnEnd) → AreLinked ends (inboxes self.old.logger)
            → AreLinked ends (inboxes self.new.logger) }
    {
        'calls: for _ in 0..100 {
            if self.logger.job(&mut self.log, &mut self.dev).is_err() {
                self.is_failed = true;
                return;
            }
            yield_now();
        }
    }
}

/// Two workers and the log writer, each on a thread of its own.
fn beside<R: Threads + Sync>(rt: &R, one: &mut Worker, two: &mut Worker, writer: &mut Writer)
    ensures one { SameEnd one.old.end one.new.end }
    ensures two { SameEnd two.old.end two.new.end }
    ensures writer { (ends : List AnEnd) → AreLinked ends (inboxes writer.old.logger)
        → AreLinked ends (inboxes writer.new.logger) }
{
    join_mut(rt, &mut || one.work(), &mut || both(rt, two, writer));
}

/// A worker and the log writer.
fn both<R: Threads + Sync>(rt: &R, worker: &mut Worker, writer: &mut Writer)
    ensures worker { SameEnd worker.old.end worker.new.end }
    ensures writer { (ends : List AnEnd) → AreLinked ends (inboxes writer.old.logger)
        → AreLinked ends (inboxes writer.new.logger) }
{
    join_mut(rt, &mut || worker.work(), &mut || writer.work());
}

/// What was read back of a log: how many operations of each worker, and how many of the lines that are noted.
#[derive(Clone, Copy)]
struct ReadBack {
    next: [u32; 2],
    noted: usize,
}

/// Whether this payload is that of a worker's operation.
fn is_payload(alloc: Global, payload: &[u8], worker: u8, index: u32) -> Result<bool, AllocError> {
    let mut expected = Vec::new(alloc);
    write_payload(&mut expected, worker, index)?;
    Ok(payload == expected.as_slice())
}

impl ReadBack {
    /// Whether the line of a worker's operation is the next that is noted, where the operation names one.
    fn is_noted(&mut self, worker: u8, index: u32, lines: &[u32]) -> bool {
        if index >= NAMED {
            return true;
        }
        let line = lines.get(self.noted).copied();
        self.noted = self.noted.saturating_add(1);
        line == Some(line_of(worker, index))
    }

    /// The number of a worker's next operation, which is read by this.
    fn count(&mut self, worker: u8) -> u32 {
        let at = usize::from(worker & 1);
        let index = self.next[at];
        self.next[at] = index.saturating_add(1);
        index
    }

    /// Whether a frame is the next operation of its worker, and its line the next that is noted.
    fn read(
        &mut self,
        alloc: Global,
        kind: u8,
        payload: &[u8],
        lines: &[u32],
    ) -> Result<bool, AllocError> {
        let worker = payload.first().copied().unwrap_or(0) & 1;
        let index = self.count(worker);
        Ok(
            is_payload(alloc, payload, worker, index)?
                && kind == kind_of(index)
                && self.is_noted(worker, index, lines),
        )
    }
}

/// Whether the frames of the log are the operations of both workers, each in its order, and their lines those
/// that are noted.
/// Answers how many there are of each.
fn read_back(alloc: Global, dev: &mut Segment, lines: &[u32]) -> Result<Option<[u32; 2]>, Fail> {
    let mut so_far = ReadBack {
        next: [0; 2],
        noted: 0,
    };
    let mut scan = Scan::new(alloc, BEGIN)?;
    for _ in 0..200_000 {
        let Some(frame) = scan.next(dev)? else {
            break;
        };
        if !so_far.read(alloc, frame.kind, frame.payload, lines)? {
            return Ok(None);
        }
    }
    Ok((so_far.noted == lines.len()).then_some(so_far.next))
}

fn worker_of(alloc: Global, end: LogEnd, number: u8, count: u32) -> Worker
    ensures { result.end ≡ end }
{
    Worker {
        end,
        number,
        count,
        outbox: Vec::new(alloc),
        scratch: Vec::new(alloc),
        is_done: false,
    }
}

/// Hands the log writer what the workers kept themselves.
fn give_outboxes(writer: &mut Writer, one: &[u8], two: &[u8]) -> bool {
    if writer.logger.workers() != 2 {
        return false;
    }
    writer
        .logger
        .give(0, one, &mut writer.log, &mut writer.dev)
        .is_ok()
        && writer
            .logger
            .give(1, two, &mut writer.log, &mut writer.dev)
            .is_ok()
}

/// Takes all that the workers pushed and what they kept. Answers whether that worked.
fn end_round(writer: &mut Writer, one: Worker, two: Worker) -> bool
    requires { AreLinked (one.end ∷ two.end ∷ []) (inboxes writer.old.logger) }
{
    let Worker {
        end: first,
        outbox: kept_one,
        ..
    } = one;
    let Worker {
        end: second,
        outbox: kept_two,
        ..
    } = two;
    let mut ends = [first, second];
    if writer
        .logger
        .rest(&mut ends, &mut writer.log, &mut writer.dev)
        .is_err()
    {
        return false;
    }
    give_outboxes(writer, &kept_one, &kept_two)
}

/// A round of two workers with so many operations each. Answers how many of each the log has.
fn round<R: Threads + Sync>(rt: &R, alloc: Global, count: u32) -> Result<Option<[u32; 2]>, Fail> {
    let mut dev = empty(alloc, u32::MAX);
    let log = Log::cut_tail(&mut dev, 1, BEGIN, SEGMENT_BYTES_MAX)?;
    let (logger, mut ends) = Logger::new(alloc, 2)?;
    let (Some(second), Some(first)) = (ends.pop(), ends.pop()) else {
        return Ok(None);
    };
    let mut one = worker_of(alloc, first, 0, count);
    let mut two = worker_of(alloc, second, 1, count);
    let mut writer = Writer {
        logger,
        log,
        dev,
        is_failed: false,
    };
    beside(rt, &mut one, &mut two, &mut writer);
    if writer.is_failed || !one.is_done || !two.is_done || !end_round(&mut writer, one, two) {
        return Ok(None);
    }
    read_back(alloc, &mut writer.dev, writer.logger.lines())
}

#[test]
fn what_two_threads_push_is_in_the_log_in_their_orders(rt: HostRuntime) -> Result<(), Fail> {
    assert!(rt; round(&rt, rt.alloc(), 50_000)? == Some([50_000, 50_000]));
    Ok(())
}

/// How many operations each of two workers has in the test of failing calls: the log is forced once meanwhile.
const FEW: u8 = 130;

/// Of each worker the records that a log has: from which one on, and how many.
#[derive(Clone, Copy, PartialEq, Eq, Debug)]
struct Held {
    first: [u32; 2],
    count: [u32; 2],
}

impl Held {
    /// Adds a record of a worker. Answers whether it follows that worker's last one.
    fn add(&mut self, worker: u8, number: u32) -> bool {
        let at = usize::from(worker & 1);
        if self.count[at] == 0 {
            self.first[at] = number;
        }
        let next = self.first[at].saturating_add(self.count[at]);
        self.count[at] = self.count[at].saturating_add(1);
        number == next
    }

    /// The number after the last record of a worker.
    fn end(&self, at: usize) -> u32 {
        let at = at.min(1);
        self.first[at].saturating_add(self.count[at])
    }
}

/// Which records a log has, none where one doesn't follow its worker's last one.
fn records_in(alloc: Global, dev: &mut Segment) -> Result<Option<Held>, Fail> {
    let mut held = Held {
        first: [0; 2],
        count: [0; 2],
    };
    let mut scan = Scan::new(alloc, BEGIN)?;
    for _ in 0..1_000 {
        let Some(frame) = scan.next(dev)? else {
            return Ok(Some(held));
        };
        let Some((head, _)) = frame.payload.split_first_chunk::<2>() else {
            return Ok(None);
        };
        let part = u32::from(frame.kind != LOGICAL);
        let number = u32::from(head[1]).saturating_mul(2).saturating_add(part);
        if !held.add(head[0], number) {
            return Ok(None);
        }
    }
    Ok(None)
}

/// Pushes the operations of a worker. Each has a logical record and a snapshot.
fn push_few(end: &mut LogEnd, worker: u8)
    ensures { SameEnd end.old end.new }
{
    'each: for index in 0..FEW {
        end.push_bytes(&[
            index, worker, 0, 0, 14, 0, 0, 0, LOGICAL, 2, 0, 0, 0, worker, index, SNAPSHOT, 2, 0,
            0, 0, worker, index,
        ]);
    }
}

/// Pushes the operations of the worker with this number.
fn push_to(ends: &mut Vec<LogEnd>, worker: usize, number: u8)
    requires { worker < length ends.old.items }
    ensures linked { StayLinked ends.old.items ends.new.items }
    ensures many { length ends.new.items ≡ length ends.old.items }
{
    push_few(&mut ends[worker], number);
}

/// Two workers push, and the log writer appends over a log of which one call fails, and then what is left over
/// another log. Answers
/// how many lines were noted before, and what the two logs have.
fn failing_at(alloc: Global, failing: u32) -> Result<(usize, Option<Held>, Option<Held>), Fail> {
    // The first call forces the cut.
    let mut dev = empty(alloc, failing.saturating_add(1));
    let mut log = Log::cut_tail(&mut dev, 1, BEGIN, SEGMENT_BYTES_MAX)?;
    let (mut logger, mut ends) = Logger::new(alloc, 2)?;
    if ends.len() != 2 {
        return Ok((0, None, None));
    }
    push_to(&mut ends, 0, 0);
    push_to(&mut ends, 1, 1);
    let _failed = logger.job(&mut log, &mut dev).is_err();
    let noted = logger.lines().len();
    let mut other = empty(alloc, u32::MAX);
    let mut left = Log::cut_tail(&mut other, 1, BEGIN, SEGMENT_BYTES_MAX)?;
    logger.rest(&mut ends, &mut left, &mut other)?;
    Ok((
        noted,
        records_in(alloc, &mut dev)?,
        records_in(alloc, &mut other)?,
    ))
}

/// How many records of the operation that failed are in the log, where the call with this number fails: a force
/// comes after 512 writes.
fn torn_of(failing: u32) -> u32 {
    if failing < 512 {
        failing % 2
    } else if failing == 512 {
        2
    } else {
        (failing.saturating_sub(513)) % 2
    }
}

/// Looks at the records of one worker: the second log has each that the first one lacks, from an operation's first
/// one on, up to the last. Answers how many of them both logs have.
fn look_at_worker(rt: &impl Abort, before: &Held, after: &Held, at: usize, failing: u32) -> u32
    requires { at < 2 }
{
    let from = if after.count[at] == 0 {
        260
    } else {
        after.first[at]
    };
    let is_joined = from <= before.end(at) && from % 2 == 0;
    holds(rt, "no operation is missing", is_joined, &failing);
    let is_whole = after.count[at] == 0 || after.end(at) == 260;
    holds(rt, "the last operation is there", is_whole, &failing);
    before.end(at).saturating_sub(from)
}

/// How many writes are done, where the call with this number fails, and how many were tried.
fn writes_of(failing: u32) -> (u32, u32) {
    let writes = if failing <= 512 {
        failing
    } else {
        failing.saturating_sub(1)
    };
    if failing == 512 {
        (writes, 512)
    } else {
        (writes, writes.saturating_add(1))
    }
}

/// Looks at how many lines were noted, and at the records of both logs. The writes are in turn a logical record and
/// a snapshot.
fn look_at_logs(rt: &impl Abort, failing: u32, noted: usize, before: &Held, after: &Held) {
    let (writes, tried) = writes_of(failing);
    let lines = u64::from(tried).saturating_add(1) / 2;
    same(rt, "lines", noted as u64, lines, &failing);
    holds(rt, "first records", before.first == [0, 0], &failing);
    let written = before.count[0].saturating_add(before.count[1]);
    same(
        rt,
        "records",
        u64::from(written),
        u64::from(writes),
        &failing,
    );
    let one = look_at_worker(rt, before, after, 0, failing);
    let two = look_at_worker(rt, before, after, 1, failing);
    let torn = u64::from(one.saturating_add(two));
    same(rt, "torn", torn, u64::from(torn_of(failing)), &failing);
}

/// Looks at both logs where the call with this number fails.
fn look_at_failing(rt: &(impl Abort + AllocGlobal), failing: u32) -> Result<(), Fail> {
    let (noted, before, after) = failing_at(rt.alloc(), failing)?;
    let are_read = before.is_some() && after.is_some();
    holds(rt, "both logs are read", are_read, &failing);
    if let (Some(before), Some(after)) = (before, after) {
        look_at_logs(rt, failing, noted, &before, &after);
    }
    Ok(())
}

// A log that failed takes nothing any more, so that what is left goes to another one: the operation that failed
// is still there whole.
#[test]
fn what_was_appended_and_what_is_left_are_what_was_pushed(rt: HostRuntime) -> Result<(), Fail> {
    for failing in 0..521u32 {
        look_at_failing(&rt, failing)?;
    }
    Ok(())
}
