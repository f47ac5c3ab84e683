//! The calls of a host over files on the log and on its folder, and what it answers to each.

use crate::looks::holds;
use pm_disk::{Failed, Host, LogFile, LogReader};
use pm_disk_fs::FsHost;
use std::alloc::{AllocError, Global};
use std::process::Abort;
use std::rt::Files;
use std::{fs, str};

/// A host over files, in a box, whose drop is a call.
pub type FileHost = Box<FsHost<HostRuntime>>;

/// A call on a segment of the log.
#[derive(Clone, Copy)]
pub enum FileCall {
    /// The text is written from this offset on.
    Write(u64, u64, &'static str),
    Read(u64),
    Len(u64),
    Cut(u64, u64),
    Force(u64),
    Drop(u64),
}

/// What a host answers to `write_log`.
pub fn write(
    host: &mut FsHost<HostRuntime>,
    seg: u64,
    at: u64,
    bytes: &[u8],
) -> Result<(), Failed> {
    host.write_log(seg, at, bytes)
}

/// What a host answers to `cut_log`.
fn cut(host: &mut FsHost<HostRuntime>, seg: u64, len: u64) -> Result<(), Failed> {
    host.cut_log(seg, len)
}

/// What a host answers to `seg_len`.
fn len_of(host: &mut FsHost<HostRuntime>, seg: u64) -> Result<Option<u64>, Failed> {
    host.seg_len(seg)
}

/// What a host answers to `read_log`.
fn read(
    host: &mut FsHost<HostRuntime>,
    seg: u64,
    at: u64,
    into: &mut [u8],
) -> Result<usize, Failed> {
    host.read_log(seg, at, into)
}

/// What a host answers to `force_log`.
fn force(host: &mut FsHost<HostRuntime>, seg: u64) -> Result<(), Failed> {
    host.force_log(seg)
}

/// What a host answers to `drop_log`.
fn remove_segment(host: &mut FsHost<HostRuntime>, seg: u64) -> Result<(), Failed> {
    host.drop_log(seg)
}

/// Whether the host did the call.
pub fn does(host: &mut FsHost<HostRuntime>, call: FileCall) -> bool {
    match call {
        FileCall::Write(seg, at, text) => write(host, seg, at, text.as_bytes()).is_ok(),
        FileCall::Read(seg) => read(host, seg, 0, &mut [0; 4]).is_ok(),
        FileCall::Len(seg) => len_of(host, seg).is_ok(),
        FileCall::Cut(seg, len) => cut(host, seg, len).is_ok(),
        FileCall::Force(seg) => force(host, seg).is_ok(),
        FileCall::Drop(seg) => remove_segment(host, seg).is_ok(),
    }
}

/// Makes the calls, up to the first one that is done and was to be refused, or the other way round. Answers the
/// number of that one.
fn first_other(host: &mut FsHost<HostRuntime>, calls: &[FileCall], is_done: bool) -> Option<usize> {
    for (number, call) in calls.iter().enumerate() {
        if does(host, *call) != is_done {
            return Some(number);
        }
    }
    None
}

/// Makes the calls, and looks for each of them as done.
pub fn make_calls(rt: &impl Abort, host: &mut FsHost<HostRuntime>, calls: &[FileCall]) {
    let other = first_other(host, calls, true);
    holds(rt, "each call is done", other.is_none(), &other);
}

/// Makes the calls, and looks for each of them as refused.
pub fn make_refused_calls(rt: &impl Abort, host: &mut FsHost<HostRuntime>, calls: &[FileCall]) {
    let other = first_other(host, calls, false);
    holds(rt, "each call is refused", other.is_none(), &other);
}

/// Looks for this length of a segment.
pub fn look_at_len(rt: &impl Abort, host: &mut FsHost<HostRuntime>, seg: u64, wanted: Option<u64>) {
    let len = len_of(host, seg).expect(rt, "a length");
    holds(rt, "length", len == wanted, &(len, wanted));
}

/// Looks for this text.
pub fn look_at_text(rt: &impl Abort, what: &str, found: &str, wanted: &str) {
    holds(rt, what, found == wanted, &(found, wanted));
}

/// A count of bytes that were read, and what is then in place of the ten dots that they were read into.
fn text_of_read(
    alloc: Global,
    count: Result<usize, Failed>,
    into: &[u8],
) -> Result<String, AllocError> {
    let text = str::from_utf8(into).unwrap_or("no text");
    format!(in alloc; "{count:?} {text}")
}

/// What a host answers to a read of at most so many bytes, and what is then in place of the ten
/// dots that it read into.
fn answer_to_read(
    alloc: Global,
    host: &mut FsHost<HostRuntime>,
    seg: u64,
    at: u64,
    room: usize,
) -> Result<String, AllocError> {
    let mut into = [b'.'; 10];
    let count = read(host, seg, at, &mut into[..room.min(10)]);
    text_of_read(alloc, count, &into)
}

/// Reads at most so many bytes, and looks for this answer.
pub fn look_at_read(
    rt: &(impl Abort + AllocGlobal),
    host: &mut FsHost<HostRuntime>,
    seg: u64,
    at: u64,
    room: usize,
    wanted: &str,
) {
    let answer = answer_to_read(rt.alloc(), host, seg, at, room).expect(rt, "an answer");
    look_at_text(rt, "read", answer.as_str(), wanted);
}

/// Whether the host took the folder as that of the store.
fn binds(host: &mut FsHost<HostRuntime>, folder: &str) -> bool {
    host.bind(folder).is_ok()
}

/// Binds a host to a folder, and looks for that as done.
pub fn bind(rt: &impl Abort, host: &mut FsHost<HostRuntime>, folder: &str) {
    let is_bound = binds(host, folder);
    holds(rt, "the folder is bound", is_bound, &folder);
}

/// Binds a host to a folder, and looks for that as refused.
pub fn refuse_folder(rt: &impl Abort, host: &mut FsHost<HostRuntime>, folder: &str) {
    let is_bound = binds(host, folder);
    holds(rt, "the folder is refused", !is_bound, &folder);
}

/// A host that is bound to no folder.
pub fn new_host(rt: &(impl Abort + AllocGlobal), real: &HostRuntime) -> FileHost {
    let real = real.clone().expect(rt, "a runtime");
    Box::new(rt.alloc(), FsHost::new(real)).expect(rt, "a host")
}

/// A host over this folder.
pub fn host_in(rt: &(impl Abort + AllocGlobal), real: &HostRuntime, folder: &str) -> FileHost {
    let mut host = new_host(rt, real);
    bind(rt, &mut host, folder);
    host
}

/// Removes a folder with all its files.
pub fn remove_folder(rt: &(impl Abort + AllocGlobal + Files), folder: &str) {
    fs::remove_dir_all(rt, folder).expect(rt, folder);
}

/// Why the first call failed of those that did, or "none".
fn first_failure(alloc: Global, host: &FsHost<HostRuntime>) -> Result<String, AllocError> {
    match host.first_failure() {
        Some(failure) => format!(in alloc; "{failure}"),
        None => String::from_str(alloc, "none"),
    }
}

/// Looks for why the first call failed.
pub fn look_at_failure(rt: &(impl Abort + AllocGlobal), host: &FsHost<HostRuntime>, wanted: &str) {
    let failure = first_failure(rt.alloc(), host).expect(rt, "a failure");
    look_at_text(rt, "failure", failure.as_str(), wanted);
}
