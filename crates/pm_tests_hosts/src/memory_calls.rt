//! The calls of a host in memory as values, and what it answers to each, as text.

use crate::looks::holds;
use pm_disk::{Failed, Host, LogFile, LogReader, MarkFile, PageReader, PageWriter};
use pm_disk_mem::MemHost;
use pm_types::PageId;
use std::alloc::{AllocError, Global};
use std::process::Abort;
use std::str;

/// How many bytes a page has here.
const PAGE: usize = 4;

/// The answer to a call that was done.
pub const DONE: &str = "Ok(())";

/// The answer to a call that wasn't.
pub const FAILED: &str = "Err(Failed)";

/// A call of a host.
#[derive(Clone, Copy)]
pub enum MemoryCall {
    SegLen(u64),
    /// The text is written at the segment's start.
    WriteLog(u64, &'static str),
    /// The segment is cut to no bytes.
    EmptyLog(u64),
    ForceLog(u64),
    DropLog(u64),
    ReadPage(u16, u32),
    WritePage(u16, u32, &'static [u8; PAGE]),
    ForcePages(u16),
    ReadMark(MarkFile, u8),
    /// Each byte of the slot becomes this one.
    WriteMark(MarkFile, u8, u8),
    ForceMark(MarkFile),
    /// At most so many bytes are read, and at most nine.
    ReadConfig(usize),
    /// At most two bytes are read.
    Read,
    Print(&'static str),
}

/// The bytes that a call read into, as text.
fn text_of(into: &[u8]) -> &str {
    str::from_utf8(into).unwrap_or("no text")
}

/// What a host answers to `seg_len`.
fn answer_len(alloc: Global, host: &mut MemHost, seg: u64) -> Result<String, AllocError> {
    let len = host.seg_len(seg);
    format!(in alloc; "{len:?}")
}

/// What a host answers to `read_page`, and what is then in place of the dots that it read into.
fn answer_page(alloc: Global, host: &mut MemHost, page: PageId) -> Result<String, AllocError> {
    let mut into = [b'.'; PAGE];
    let whole = host.read_page(page, &mut into);
    let text = text_of(&into);
    format!(in alloc; "{whole:?} {text}")
}

/// What a host answers to `read_config`, and what is then in place of the dots that it read into.
fn answer_config(alloc: Global, host: &mut MemHost, room: usize) -> Result<String, AllocError> {
    let mut into = [b'.'; 9];
    let count = host.read_config(&mut into[..room.min(9)]);
    let text = text_of(&into);
    format!(in alloc; "{count:?} {text}")
}

/// What a host answers to `read`, and what is then in place of the dots that it read into.
fn answer_input(alloc: Global, host: &mut MemHost) -> Result<String, AllocError> {
    let mut into = [b'.'; 2];
    let count = host.read(&mut into);
    let text = text_of(&into);
    format!(in alloc; "{count:?} {text}")
}

/// How many bytes of a slot are as its first one.
fn count_same(slot: &[u8; 64]) -> usize {
    let first = slot[0];
    slot.iter().filter(|byte| **byte == first).count()
}

/// What a host answers to `read_mark`, and how many bytes of the slot that it read are as its first one.
fn answer_mark(
    alloc: Global,
    host: &mut MemHost,
    file: MarkFile,
    slot: u8,
) -> Result<String, AllocError> {
    let mut into = [1; 64];
    let whole = host.read_mark(file, slot.min(1), &mut into);
    let same = count_same(&into);
    let first = into[0];
    format!(in alloc; "{whole:?} {same} of {first}")
}

/// What a host answers to a write at a segment's start.
fn write_log(host: &mut MemHost, seg: u64, text: &str) -> Result<(), Failed> {
    host.write_log(seg, 0, text.as_bytes())
}

/// What a host answers to the cut of a segment to no bytes.
fn empty_log(host: &mut MemHost, seg: u64) -> Result<(), Failed> {
    host.cut_log(seg, 0)
}

/// What a host answers to `force_log`.
fn force_log(host: &mut MemHost, seg: u64) -> Result<(), Failed> {
    host.force_log(seg)
}

/// What a host answers to `drop_log`.
fn drop_log(host: &mut MemHost, seg: u64) -> Result<(), Failed> {
    host.drop_log(seg)
}

/// What a host answers to `write_page`.
fn write_page(host: &mut MemHost, page: PageId, bytes: &[u8; PAGE]) -> Result<(), Failed> {
    host.write_page(page, bytes)
}

/// What a host answers to `force_pages`.
fn force_pages(host: &mut MemHost, part: u16) -> Result<(), Failed> {
    host.force_pages(part)
}

/// What a host answers to the write of a slot whose bytes are all this one.
fn write_mark(host: &mut MemHost, file: MarkFile, slot: u8, byte: u8) -> Result<(), Failed> {
    host.write_mark(file, slot.min(1), &[byte; 64])
}

/// What a host answers to `force_mark`.
fn force_mark(host: &mut MemHost, file: MarkFile) -> Result<(), Failed> {
    host.force_mark(file)
}

/// What a host answers to `print`.
fn print(host: &mut MemHost, text: &str) -> Result<(), Failed> {
    host.print(text.as_bytes())
}

/// What a host answers to a call that reads nothing.
fn change(host: &mut MemHost, call: MemoryCall) -> Result<(), Failed> {
    match call {
        MemoryCall::WriteLog(seg, text) => write_log(host, seg, text),
        MemoryCall::EmptyLog(seg) => empty_log(host, seg),
        MemoryCall::ForceLog(seg) => force_log(host, seg),
        MemoryCall::DropLog(seg) => drop_log(host, seg),
        MemoryCall::WritePage(part, index, bytes) => write_page(
            host,
            PageId::new(part, index),
            bytes,
        ),
        MemoryCall::ForcePages(part) => force_pages(host, part),
        MemoryCall::WriteMark(file, slot, byte) => write_mark(host, file, slot, byte),
        MemoryCall::ForceMark(file) => force_mark(host, file),
        MemoryCall::Print(text) => print(host, text),
        _ => Err(Failed),
    }
}

/// What a host answers to a call that reads nothing, as text.
fn answer_change(
    alloc: Global,
    host: &mut MemHost,
    call: MemoryCall,
) -> Result<String, AllocError> {
    let done = change(host, call);
    format!(in alloc; "{done:?}")
}

/// What a host answers to a call, and what it read, as text.
fn answer(alloc: Global, host: &mut MemHost, call: MemoryCall) -> Result<String, AllocError> {
    match call {
        MemoryCall::SegLen(seg) => answer_len(alloc, host, seg),
        MemoryCall::ReadPage(part, index) => answer_page(alloc, host, PageId::new(part, index)),
        MemoryCall::ReadMark(file, slot) => answer_mark(alloc, host, file, slot),
        MemoryCall::ReadConfig(room) => answer_config(alloc, host, room),
        MemoryCall::Read => answer_input(alloc, host),
        _ => answer_change(alloc, host, call),
    }
}

/// Makes a call, and looks at the answer.
fn make_call(rt: &(impl Abort + AllocGlobal), host: &mut MemHost, call: MemoryCall, wanted: &str) {
    let given = answer(rt.alloc(), host, call).expect(rt, "an answer");
    let given = given.as_str();
    holds(rt, "answer", given == wanted, &(given, wanted));
}

/// Makes the calls, and looks for the answer that is wanted of each.
pub fn make_calls(
    rt: &(impl Abort + AllocGlobal),
    host: &mut MemHost,
    calls: &[(MemoryCall, &str)],
) {
    for (call, wanted) in calls {
        make_call(rt, host, *call, wanted);
    }
}
