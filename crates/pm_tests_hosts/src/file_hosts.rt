//! What a host over files leaves for another one, how many files it changes, and which folders it takes.

use crate::file_calls::{
    FileCall, bind, host_in, look_at_failure, look_at_len, look_at_read, make_calls, new_host,
    refuse_folder, remove_folder, write,
};
use crate::looks::{holds, same_bytes};
use pm_disk_fs::{FsHost, OPEN_MAX};
use std::alloc::{AllocError, Global};
use std::path::PathBuf;
use std::process::Abort;
use std::rt::{Env, Files};
use std::{env, fs};

/// The path of a folder below another one.
fn path_below(alloc: Global, above: &PathBuf, folder: &str) -> Result<String, AllocError> {
    let above = above.as_str();
    format!(in alloc; "{above}/{folder}")
}

/// The whole path of a folder below the one where the process runs.
fn whole_path(rt: &(impl Abort + AllocGlobal + Env), folder: &str) -> String {
    let here = env::current_dir(rt).expect(rt, "a folder");
    path_below(rt.alloc(), &here, folder).expect(rt, "a path")
}

/// Looks for these bytes as all that a file has.
fn look_at_file(rt: &(impl Abort + AllocGlobal + Files), path: &str, wanted: &[u8]) {
    let file = fs::read(rt, path).expect(rt, path);
    same_bytes(rt, "file", &file, wanted, &path);
}

/// Calls that make a first segment.
const OF_ONE: [FileCall; 2] = [FileCall::Force(1), FileCall::Cut(1, 0)];

/// Calls that change it, and make a second one.
const OF_TWO: [FileCall; 8] = [
    FileCall::Write(1, 0, "abcdef"),
    FileCall::Write(1, 4, "EFGHI"),
    FileCall::Force(1),
    FileCall::Write(2, 0, "second"),
    FileCall::Force(1),
    FileCall::Cut(1, 8),
    FileCall::Force(2),
    FileCall::Force(1),
];

/// Makes two segments in an empty folder.
fn make_segments(rt: &(impl Abort + AllocGlobal), host: &mut FsHost<HostRuntime>) {
    look_at_len(rt, host, 1, None);
    look_at_read(rt, host, 1, 0, 10, "Ok(0) ..........");
    make_calls(rt, host, &OF_ONE);
    look_at_len(rt, host, 1, Some(0));
    make_calls(rt, host, &OF_TWO);
}

/// Looks for the two segments.
fn look_at_segments(rt: &(impl Abort + AllocGlobal + Files), host: &mut FsHost<HostRuntime>) {
    look_at_len(rt, host, 1, Some(8));
    look_at_read(rt, host, 1, 2, 10, "Ok(6) cdEFGH....");
    look_at_read(rt, host, 2, 0, 3, "Ok(3) sec.......");
    look_at_read(rt, host, 2, 6, 10, "Ok(0) ..........");
    look_at_file(rt, "stores/one/wal-0000000000000002.seg", b"second");
}

/// Makes the segments by a host that is gone then, and with it the lock on the folder.
fn leave_segments(rt: &(impl Abort + AllocGlobal), real: &HostRuntime) {
    let mut host = host_in(rt, real, "stores/one");
    make_segments(rt, &mut host);
}

/// Looks for the segments by a host that is given the folder by its whole path.
fn read_segments(rt: &(impl Abort + AllocGlobal + Files + Env), real: &HostRuntime) {
    let path = whole_path(rt, "stores/one");
    let mut other = host_in(rt, real, &path);
    look_at_segments(rt, &mut other);
}

#[test]
fn segments_are_read_back_by_another_host(rt: HostRuntime) {
    leave_segments(&rt, &rt);
    read_segments(&rt, &rt);
    remove_folder(&rt, "stores");
}

/// Writes one byte to each of so many segments, up to the first write that fails. Answers the number of that one.
fn write_each(host: &mut FsHost<HostRuntime>, count: u64) -> Option<u64> {
    for number in 0..count {
        if write(host, number.saturating_add(1), 0, b"x").is_err() {
            return Some(number);
        }
    }
    None
}

/// Calls that force the first segment, and write to the first two again.
const ONCE_MORE: [FileCall; 3] = [
    FileCall::Force(1),
    FileCall::Write(1, 1, "y"),
    FileCall::Write(2, 1, "z"),
];

/// Writes one byte to each of so many segments, forces the first of them, and writes to the first two again.
fn write_many(rt: &impl Abort, host: &mut FsHost<HostRuntime>, count: u64) {
    let failed = write_each(host, count);
    holds(rt, "each segment is written", failed.is_none(), &failed);
    make_calls(rt, host, &ONCE_MORE);
}

/// Writes so many segments, and looks at the first two and at the last one.
fn look_at_many(rt: &(impl Abort + AllocGlobal), host: &mut FsHost<HostRuntime>, count: u64) {
    write_many(rt, host, count);
    look_at_read(rt, host, 1, 0, 4, "Ok(2) xy........");
    look_at_read(rt, host, 2, 0, 4, "Ok(2) xz........");
    look_at_read(rt, host, count, 0, 4, "Ok(1) x.........");
}

#[test]
fn more_files_are_changed_than_may_be_open(rt: HostRuntime) {
    let mut host = host_in(&rt, &rt, "many");
    look_at_many(&rt, &mut host, OPEN_MAX as u64 + 2);
    remove_folder(&rt, "many");
}

#[test]
fn a_file_is_no_folder(rt: HostRuntime) {
    let mut host = new_host(&rt, &rt);
    fs::write(&rt, "file", "").expect(&rt, "file");
    refuse_folder(&rt, &mut host, "file");
    refuse_folder(&rt, &mut host, "file/store");
    fs::remove_file(&rt, "file").expect(&rt, "file");
}

/// Looks for a folder that a host has as refused to another one.
fn look_at_refusal(rt: &(impl Abort + AllocGlobal), real: &HostRuntime, folder: &str) {
    let mut other = new_host(rt, real);
    refuse_folder(rt, &mut other, folder);
    look_at_failure(rt, &other, "another run has the store's folder");
}

/// Binds a host to its folder again, by another name of it, and then to another folder. Each of them is refused to
/// other hosts while this one has it.
fn change_folder(
    rt: &(impl Abort + AllocGlobal),
    real: &HostRuntime,
    host: &mut FsHost<HostRuntime>,
) {
    bind(rt, host, "locked/../locked");
    look_at_refusal(rt, real, "locked");
    bind(rt, host, "locked2");
    look_at_refusal(rt, real, "locked2");
}

/// Looks for the folder that the host has left as free to another one, and for each host's folder as refused to
/// the other one then.
fn look_at_both(
    rt: &(impl Abort + AllocGlobal),
    real: &HostRuntime,
    host: &mut FsHost<HostRuntime>,
) {
    let mut other = host_in(rt, real, "locked");
    refuse_folder(rt, host, "locked");
    refuse_folder(rt, &mut other, "locked2");
}

#[test]
fn one_host_at_a_time_has_the_folder(rt: HostRuntime) {
    let mut host = host_in(&rt, &rt, "locked");
    change_folder(&rt, &rt, &mut host);
    look_at_both(&rt, &rt, &mut host);
    remove_folder(&rt, "locked");
    remove_folder(&rt, "locked2");
}
