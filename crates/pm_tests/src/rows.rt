//! Rows of two caches whose values are numbers: the lines that put, read and remove them, and the replies to these.

use crate::looks::same_text;
use crate::runs::{Disk, add, look_at_status, run_configured};
use std::fmt::Debug;
use std::process::Abort;
use std::sync::Wait;

/// How many keys each cache may have.
pub const KEYS: usize = 1_000;

/// How many rows both may have. A row's number says its cache and its key.
pub const ROWS: usize = 2 * KEYS;

/// A value: a number, in so many digits at least. It has no more than 900 bytes.
#[derive(Clone, Copy, Debug, PartialEq, Eq)]
pub struct Digits {
    pub number: u32,
    pub width: usize,
}

/// Puts a line that sets a row after these.
pub fn add_put(rt: &(impl Abort + AllocGlobal), script: &mut Vec<u8>, row: usize, value: Digits) {
    let (cache, key) = (row / KEYS, row % KEYS);
    let (number, width) = (value.number, value.width.min(899));
    let line = format!(in rt.alloc(); "put {cache} k{key:03} v{number:0width$}\n");
    add(rt, script, line.expect(rt, "a line").as_bytes());
}

/// Puts a line that reads a row after these.
pub fn add_get(rt: &(impl Abort + AllocGlobal), script: &mut Vec<u8>, row: usize) {
    let (cache, key) = (row / KEYS, row % KEYS);
    let line = format!(in rt.alloc(); "get {cache} k{key:03}\n");
    add(rt, script, line.expect(rt, "a line").as_bytes());
}

/// Puts a line that removes a row after these.
pub fn add_remove(rt: &(impl Abort + AllocGlobal), script: &mut Vec<u8>, row: usize) {
    let (cache, key) = (row / KEYS, row % KEYS);
    let line = format!(in rt.alloc(); "remove {cache} k{key:03}\n");
    add(rt, script, line.expect(rt, "a line").as_bytes());
}

/// Puts a line that reads a cache after these.
pub fn add_scan(rt: &(impl Abort + AllocGlobal), script: &mut Vec<u8>, cache: usize) {
    let line = format!(in rt.alloc(); "scan {cache}\n");
    add(rt, script, line.expect(rt, "a line").as_bytes());
}

/// Puts the reply of a value after these.
fn add_value(rt: &(impl Abort + AllocGlobal), replies: &mut Vec<u8>, value: Digits) {
    let (number, width) = (value.number, value.width.min(899));
    let reply = format!(in rt.alloc(); "value v{number:0width$}\n");
    add(rt, replies, reply.expect(rt, "a reply").as_bytes());
}

/// Puts the reply to a line that reads such a row after these.
pub fn add_found(rt: &(impl Abort + AllocGlobal), replies: &mut Vec<u8>, row: Option<Digits>) {
    match row {
        Some(value) => add_value(rt, replies, value),
        None => add(rt, replies, b"none\n"),
    }
}

/// Puts a pair of a scan's reply after these.
fn add_pair(rt: &(impl Abort + AllocGlobal), replies: &mut Vec<u8>, key: usize, value: Digits) {
    let (number, width) = (value.number, value.width.min(899));
    let pair = format!(in rt.alloc(); "pair k{key:03} v{number:0width$}\n");
    add(rt, replies, pair.expect(rt, "a pair").as_bytes());
}

/// Puts the end of a scan's reply after these.
fn add_end(rt: &(impl Abort + AllocGlobal), replies: &mut Vec<u8>, pairs: u32) {
    let end = format!(in rt.alloc(); "end {pairs}\n");
    add(rt, replies, end.expect(rt, "an end").as_bytes());
}

/// A row, if it is there.
pub fn row_of(rows: &[Option<Digits>], row: usize) -> Option<Digits> {
    match rows.get(row) {
        Some(value) => *value,
        None => None,
    }
}

/// Puts the reply to a line that reads a cache of these rows after these.
pub fn add_pairs(
    rt: &(impl Abort + AllocGlobal),
    replies: &mut Vec<u8>,
    rows: &[Option<Digits>],
    cache: usize,
) {
    let mut pairs: u32 = 0;
    for key in 0..KEYS {
        let row = cache.saturating_mul(KEYS).saturating_add(key);
        if let Some(value) = row_of(rows, row) {
            add_pair(rt, replies, key, value);
            pairs = pairs.saturating_add(1);
        }
    }
    add_end(rt, replies, pairs);
}

/// The script that reads so many rows.
pub fn gets(rt: &(impl Abort + AllocGlobal), rows: usize) -> Vec<u8> {
    let mut script = Vec::new(rt.alloc());
    for row in 0..rows {
        add_get(rt, &mut script, row);
    }
    script
}

/// The replies to that script over these rows.
pub fn replies_of(rt: &(impl Abort + AllocGlobal), rows: &[Option<Digits>]) -> Vec<u8> {
    let mut replies = Vec::new(rt.alloc());
    for row in rows {
        add_found(rt, &mut replies, *row);
    }
    replies
}

/// Opens a store with this configuration, and looks for these rows as its first ones.
pub fn look_at_rows(
    rt: &(impl Abort + AllocGlobal + Wait),
    config: &[u8],
    disk: Disk,
    rows: &[Option<Digits>],
    case: &impl Debug,
) {
    let run = run_configured(rt, config, &gets(rt, rows.len()), disk);
    look_at_status(rt, &run, 0, case);
    same_text(rt, "rows", run.said(), &replies_of(rt, rows), case);
}
