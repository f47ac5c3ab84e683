//! What a host over files keeps of the writes to the log, and when it is in the files.

use crate::file_calls::{
    FileCall, bind, does, host_in, look_at_read, look_at_text, remove_folder, write,
};
use crate::looks::holds;
use pm_disk_fs::FsHost;
use std::alloc::{AllocError, Global};
use std::fs;
use std::process::Abort;
use std::rt::Files;

/// The path of a segment in the folder `buffered`.
fn path_of(alloc: Global, seg: u64) -> Result<String, AllocError> {
    format!(in alloc; "buffered/wal-{seg:016x}.seg")
}

/// What a file holds, or "none".
fn text_in(rt: &(impl Abort + AllocGlobal + Files), path: &str) -> String {
    match fs::read_to_string(rt, path) {
        Ok(text) => text,
        Err(_) => String::from_str(rt.alloc(), "none").expect(rt, "none"),
    }
}

/// Looks for this as what a segment's file holds in the folder `buffered`, or for "none".
fn look_at_held(rt: &(impl Abort + AllocGlobal + Files), seg: u64, wanted: &str) {
    let path = path_of(rt.alloc(), seg).expect(rt, "a path");
    let held = text_in(rt, &path);
    look_at_text(rt, "held", held.as_str(), wanted);
}

/// Calls, each with a segment and what its file holds then.
const BUFFERING: [(FileCall, u64, &str); 19] = [
    (FileCall::Write(1, 0, "ab"), 1, "none"),
    (FileCall::Write(1, 2, "cd"), 1, "none"),
    (FileCall::Read(1), 1, "abcd"),
    (FileCall::Write(1, 4, "ef"), 1, "abcd"),
    (FileCall::Write(1, 0, "A"), 1, "abcdef"),
    (FileCall::Len(1), 1, "Abcdef"),
    (FileCall::Write(1, 6, "gh"), 1, "Abcdef"),
    (FileCall::Write(2, 0, "xy"), 1, "Abcdefgh"),
    (FileCall::Len(1), 2, "xy"),
    (FileCall::Write(2, 2, "z"), 2, "xy"),
    (FileCall::Force(1), 2, "xyz"),
    (FileCall::Write(1, 8, "ij"), 1, "Abcdefgh"),
    (FileCall::Cut(1, 9), 1, "Abcdefghi"),
    (FileCall::Write(2, 3, "-"), 2, "xyz"),
    (FileCall::Drop(1), 2, "xyz-"),
    (FileCall::Write(1, 0, "back"), 1, "none"),
    (FileCall::Drop(1), 1, "none"),
    // A write without bytes makes the file.
    (FileCall::Write(1, 0, ""), 1, ""),
    (FileCall::Write(1, 0, "last"), 1, ""),
];

/// Makes a call, and looks for it as done, and at what a segment's file holds then.
fn step(
    rt: &(impl Abort + AllocGlobal + Files),
    host: &mut FsHost<HostRuntime>,
    call: FileCall,
    seg: u64,
    wanted: &str,
) {
    let is_done = does(host, call);
    holds(rt, "the call is done", is_done, &(seg, wanted));
    look_at_held(rt, seg, wanted);
}

/// Makes the calls, and looks at each.
fn make_steps(
    rt: &(impl Abort + AllocGlobal + Files),
    host: &mut FsHost<HostRuntime>,
    steps: &[(FileCall, u64, &str)],
) {
    for (call, seg, wanted) in steps {
        step(rt, host, *call, *seg, wanted);
    }
}

/// Makes all the calls.
fn look_at_buffering(rt: &(impl Abort + AllocGlobal + Files), host: &mut FsHost<HostRuntime>) {
    make_steps(rt, host, &BUFFERING);
}

/// Binds another folder, and looks for what was buffered in the file.
fn look_at_binding(rt: &(impl Abort + AllocGlobal + Files), host: &mut FsHost<HostRuntime>) {
    bind(rt, host, "elsewhere");
    look_at_held(rt, 1, "last");
}

#[test]
fn what_is_buffered_is_written_before_another_call_on_the_log(rt: HostRuntime) {
    let mut host = host_in(&rt, &rt, "buffered");
    look_at_buffering(&rt, &mut host);
    look_at_binding(&rt, &mut host);
    remove_folder(&rt, "buffered");
    remove_folder(&rt, "elsewhere");
}

/// As many bytes as are buffered at most.
const BUFFERED: usize = 1_048_576;

/// So many bytes that are all this one.
fn bytes_of(rt: &(impl Abort + AllocGlobal), byte: u8, count: usize) -> Vec<u8> {
    vec![in rt.alloc(); byte; count].expect(rt, "bytes")
}

/// How many bytes a file has, none where it isn't there.
fn file_len(files: &impl Files, path: &str) -> Option<u64> {
    match fs::metadata(files, path) {
        Ok(metadata) => Some(metadata.len()),
        Err(_) => None,
    }
}

/// Writes to segment 1 in the folder `much`, and looks for how many bytes are in its file then.
fn look_at_written(
    rt: &(impl Abort + Files),
    host: &mut FsHost<HostRuntime>,
    at: u64,
    bytes: &[u8],
    in_file: Option<u64>,
) {
    write(host, 1, at, bytes).expect(rt, "a write");
    let len = file_len(rt, "much/wal-0000000000000001.seg");
    holds(rt, "length", len == in_file, &(at, len, in_file));
}

/// Writes as much as is buffered at most, and a byte.
fn write_full(rt: &(impl Abort + AllocGlobal + Files), host: &mut FsHost<HostRuntime>) {
    let full = bytes_of(rt, b'1', BUFFERED);
    look_at_written(rt, host, 0, &full, None);
    look_at_written(rt, host, 1_048_576, b"3", Some(1_048_576));
}

/// Writes more than is buffered at most after that, and a byte.
fn write_more(rt: &(impl Abort + AllocGlobal + Files), host: &mut FsHost<HostRuntime>) {
    let more = bytes_of(rt, b'2', BUFFERED + 1);
    look_at_written(rt, host, 1_048_577, &more, Some(2_097_154));
    look_at_written(rt, host, 2_097_154, b"4", Some(2_097_154));
}

#[test]
fn what_is_too_much_to_buffer_is_written(rt: HostRuntime) {
    let mut host = host_in(&rt, &rt, "much");
    write_full(&rt, &mut host);
    write_more(&rt, &mut host);
    look_at_read(&rt, &mut host, 1, 1_048_575, 4, "Ok(4) 1322......");
    look_at_read(&rt, &mut host, 1, 2_097_152, 4, "Ok(3) 224.......");
    remove_folder(&rt, "much");
}
