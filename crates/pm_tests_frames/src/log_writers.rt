//! The log writer over a device that counts calls. What the log holds then is read back in the tests over
//! hosts.

use pm_disk::{Device, Failed, LogFile, LogReader};
use pm_logger::{BLOCK_BYTES_MAX, Block, LogEnd, Logger};
use pm_segments::Log;
use pm_types::{Place, RING_SLOTS, SEGMENT_BYTES_MAX};
use std::process::Abort;

// A log file that keeps nothing, and counts what it was asked for.
#[derive(Drop)]
struct Counts {
    writes: u32,
    bytes: u64,
    forces: u32,
}

impl Device for Counts {
    ghost use Rattle.std.specs.Prelude.{[], Some, false, true};
    ghost use Rattle.pm_disk.specs.Moments.{nothing_told};

    ghost tells = { ⊥ };

    ghost history = { λ _. nothing_told };

    ghost state = { λ _. record {
      faults = 0;
      access = record { folder = Some []; is_lent = false; reads = λ _. true; writes = λ _. true; made = 0 };
    } };

    ghost sound = { λ _ tells. absurd tells };
}

impl LogReader for Counts {
    fn seg_len(&mut self, _seg: u64) -> Result<Option<u64>, Failed> {
        Ok(None)
    }

    fn read_log(&mut self, _seg: u64, _at: u64, _into: &mut [u8]) -> Result<usize, Failed> {
        Ok(0)
    }
}

impl LogFile for Counts {
    fn write_log(&mut self, _seg: u64, _at: u64, bytes: &[u8]) -> Result<(), Failed> {
        self.writes = self.writes.saturating_add(1);
        self.bytes = self.bytes.saturating_add(bytes.len() as u64);
        Ok(())
    }

    fn cut_log(&mut self, _seg: u64, _len: u64) -> Result<(), Failed> {
        Ok(())
    }

    fn force_log(&mut self, _seg: u64) -> Result<(), Failed> {
        self.forces = self.forces.saturating_add(1);
        Ok(())
    }
}

// A log writer for some workers, over an empty log.
#[derive(Drop)]
struct Bench {
    logger: Logger,
    ends: Vec<LogEnd>,
    log: Log,
    dev: Counts,
}

fn bench_of(rt: &(impl Abort + AllocGlobal), workers: u32) -> Bench {
    let mut dev = Counts {
        writes: 0,
        bytes: 0,
        forces: 0,
    };
    let log = Log::cut_tail(&mut dev, 1, Place { seg: 1, off: 0 }, SEGMENT_BYTES_MAX);
    let log = log.expect(rt, "a log");
    let (logger, ends) = Logger::new(rt.alloc(), workers).expect(rt, "a log writer");
    Bench {
        logger,
        ends,
        log,
        dev,
    }
}

fn job(bench: &mut Bench) -> bool {
    bench.logger.job(&mut bench.log, &mut bench.dev).is_ok()
}

fn give(bench: &mut Bench, bytes: &[u8]) -> bool {
    if bench.logger.workers() == 0 {
        return false;
    }
    bench
        .logger
        .give(0, bytes, &mut bench.log, &mut bench.dev)
        .is_ok()
}

fn push(ends: &mut Vec<LogEnd>, worker: usize, bytes: &[u8]) -> usize {
    match ends.get_mut(worker) {
        Some(end) => end.push_bytes(bytes),
        None => 0,
    }
}

// Line 7: a put of key `a`, value `1`, in cache 0, and a delta of three bytes. Written by hand.
const SEVEN: [u8; 30] = [
    7, 0, 0, 0, 22, 0, 0, 0, 1, 9, 0, 0, 0, 1, 0, 1, 1, 0, 0, 0, 97, 49, 3, 3, 0, 0, 0, 4, 5, 6,
];
// Line 8: a snapshot of no bytes alone. It has no logical record.
const EIGHT: [u8; 13] = [8, 0, 0, 0, 5, 0, 0, 0, 2, 0, 0, 0, 0];
// Line 9: nothing but a logical record of one byte.
const NINE: [u8; 14] = [9, 0, 0, 0, 6, 0, 0, 0, 1, 1, 0, 0, 0, 5];
// A record of kind 4 is none that an operation may have.
const BAD: [u8; 13] = [1, 0, 0, 0, 5, 0, 0, 0, 4, 0, 0, 0, 0];

#[test]
fn a_block_holds_the_bytes_that_it_was_made_of(rt: HostRuntime) {
    assert_eq!(rt; Block::new(&SEVEN).bytes(), SEVEN.as_slice());
    assert_eq!(rt; Block::new(&[5; BLOCK_BYTES_MAX]).bytes().len(), 256);
}

#[test]
fn whole_operations_are_appended_and_their_lines_noted(rt: HostRuntime) {
    let mut bench = bench_of(&rt, 2);
    assert_eq!(rt; push(&mut bench.ends, 0, &SEVEN), 30);
    assert_eq!(rt; push(&mut bench.ends, 1, &EIGHT), 13);
    assert_eq!(rt; push(&mut bench.ends, 1, &NINE[..10]), 10);
    assert!(rt; job(&mut bench));
    assert_eq!(rt; bench.logger.lines(), [7].as_slice());
    // Two records of line 7 and one of line 8: frames of 21 bytes and their payloads.
    assert_eq!(rt; bench.dev.writes, 3);
    assert_eq!(rt; bench.dev.bytes, 63 + 9 + 3);
}

#[test]
fn a_begun_operation_is_kept_until_its_rest_is_given(rt: HostRuntime) {
    let mut bench = bench_of(&rt, 1);
    assert_eq!(rt; push(&mut bench.ends, 0, &NINE[..10]), 10);
    assert!(rt; job(&mut bench));
    assert_eq!(rt; bench.dev.writes, 0);
    assert!(rt; give(&mut bench, &NINE[10..]));
    assert_eq!(rt; bench.logger.lines(), [9].as_slice());
    bench.logger.clear();
    assert_eq!(rt; bench.logger.lines().len(), 0);
}

#[test]
fn bytes_that_are_no_operation_stop_their_ring_alone(rt: HostRuntime) {
    let mut bench = bench_of(&rt, 2);
    assert_eq!(rt; push(&mut bench.ends, 0, &BAD), 13);
    assert_eq!(rt; push(&mut bench.ends, 0, &SEVEN), 30);
    assert_eq!(rt; push(&mut bench.ends, 1, &NINE), 14);
    assert!(rt; job(&mut bench));
    assert_eq!(rt; bench.logger.lines(), [9].as_slice());
}

#[test]
fn the_log_is_forced_after_256_operations(rt: HostRuntime) {
    let mut bench = bench_of(&rt, 1);
    let before = bench.dev.forces;
    for _ in 0..300 {
        push(&mut bench.ends, 0, &EIGHT);
    }
    assert!(rt; job(&mut bench));
    assert_eq!(rt; bench.dev.writes, 300);
    assert_eq!(rt; bench.dev.forces, before.saturating_add(1));
}

#[test]
fn a_full_ring_hands_the_block_back(rt: HostRuntime) {
    let mut bench = bench_of(&rt, 1);
    for _ in 0..RING_SLOTS {
        push(&mut bench.ends, 0, &EIGHT);
    }
    assert_eq!(rt; push(&mut bench.ends, 0, &EIGHT), 0);
}
