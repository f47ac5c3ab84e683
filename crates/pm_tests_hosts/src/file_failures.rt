//! The calls of a host over files that fail, which ones are refused then, and the first failure by its name.

use crate::file_calls::{
    FileCall, does, host_in, look_at_failure, look_at_text, make_calls, make_refused_calls,
    new_host, refuse_folder, remove_folder,
};
use crate::looks::holds;
use pm_disk::{MarkFile, StoreFile};
use pm_disk_fs::{FsHost, Object, SystemCall};
use std::alloc::{AllocError, Global};
use std::fs;
use std::os::unix::fs::symlink;
use std::process::Abort;
use std::rt::Files;

/// A call of each kind.
const OF_EACH_KIND: [FileCall; 7] = [
    FileCall::Len(1),
    FileCall::Read(1),
    FileCall::Write(1, 4, "kept"),
    FileCall::Cut(1, 0),
    FileCall::Force(1),
    FileCall::Force(2),
    FileCall::Drop(1),
];

/// Removes the folder `store`.
fn remove_store(rt: &(impl Abort + Files)) {
    fs::remove_dir(rt, "store").expect(rt, "store");
}

/// Makes the call that meets a write that can't be made: it is done only where it buffers one.
fn make_late(rt: &impl Abort, host: &mut FsHost<HostRuntime>, late: FileCall) {
    let is_buffered = matches!(late, FileCall::Write(..));
    let is_done = does(host, late);
    holds(
        rt,
        "a write alone is done",
        is_done == is_buffered,
        &(is_done, is_buffered),
    );
}

/// Makes this call where a buffered write can no more be written into the folder `store`.
fn lose(rt: &(impl Abort + Files), host: &mut FsHost<HostRuntime>, late: FileCall) {
    make_calls(rt, host, &[FileCall::Write(1, 0, "lost")]);
    remove_store(rt);
    make_late(rt, host, late);
    make_refused_calls(rt, host, &[FileCall::Len(2)]);
}

/// Looks for each call as refused once the folder is back, and what was buffered is not.
fn look_at_lost(rt: &(impl Abort + Files), host: &mut FsHost<HostRuntime>) {
    fs::create_dir(rt, "store").expect(rt, "store");
    make_refused_calls(rt, host, &OF_EACH_KIND);
    refuse_folder(rt, host, "store");
    remove_store(rt);
}

/// Loses a buffered write by this call, and looks at the calls after it.
fn look_at_late(rt: &(impl Abort + AllocGlobal + Files), real: &HostRuntime, late: FileCall) {
    let mut host = host_in(rt, real, "store");
    lose(rt, &mut host, late);
    look_at_lost(rt, &mut host);
}

#[test]
fn after_a_refused_write_the_log_is_refused(rt: HostRuntime) {
    for late in &OF_EACH_KIND {
        look_at_late(&rt, &rt, *late);
    }
}

/// What the system says of a write to a full disk.
const NO_SPACE: &str = "write of wal-0000000000000001.seg: No space left on device (os error 28)";

/// Writes to a full disk, and forces that.
fn look_at_full(rt: &(impl Abort + AllocGlobal), host: &mut FsHost<HostRuntime>) {
    make_calls(rt, host, &[FileCall::Write(1, 0, "lost")]);
    look_at_failure(rt, host, "none");
    make_refused_calls(rt, host, &[FileCall::Force(1)]);
    look_at_failure(rt, host, NO_SPACE);
    make_refused_calls(rt, host, &[FileCall::Force(1), FileCall::Len(1)]);
    look_at_failure(rt, host, NO_SPACE);
}

#[test]
fn a_full_disk_is_reported_by_the_force(rt: HostRuntime) {
    let mut host = host_in(&rt, &rt, "full");
    symlink(&rt, "/dev/full", "full/wal-0000000000000001.seg").expect(&rt, "a link");
    look_at_full(&rt, &mut host);
    remove_folder(&rt, "full");
}

/// Makes a call on a host that is bound to no folder.
fn look_at_unbound(rt: &(impl Abort + AllocGlobal), real: &HostRuntime, call: FileCall) {
    let mut host = new_host(rt, real);
    make_refused_calls(rt, &mut host, &[call]);
    look_at_failure(rt, &host, "no folder is bound");
}

#[test]
fn without_a_folder_each_call_on_the_log_fails(rt: HostRuntime) {
    for call in &OF_EACH_KIND {
        look_at_unbound(&rt, &rt, *call);
    }
}

/// Calls of the system, each with an object of it, and how both are named.
const NAMES: [(SystemCall, Object, &str); 10] = [
    (
        SystemCall::Open,
        Object::File(StoreFile::Config),
        "open of config.json",
    ),
    (
        SystemCall::Stat,
        Object::File(StoreFile::Segment(26)),
        "stat of wal-000000000000001a.seg",
    ),
    (SystemCall::Read, Object::Input, "read of the input"),
    (SystemCall::Write, Object::Output, "write of the output"),
    (
        SystemCall::Seek,
        Object::File(StoreFile::Pages(7)),
        "lseek of part-007.pages",
    ),
    (
        SystemCall::Truncate,
        Object::File(StoreFile::Segment(1)),
        "ftruncate of wal-0000000000000001.seg",
    ),
    (
        SystemCall::Sync,
        Object::Folder,
        "fsync of the store's folder",
    ),
    (
        SystemCall::Remove,
        Object::File(StoreFile::Marks(MarkFile::Start)),
        "unlink of cp.start",
    ),
    (
        SystemCall::MakeFolder,
        Object::FolderAbove,
        "mkdir of the folder above the store's",
    ),
    (
        SystemCall::Lock,
        Object::File(StoreFile::Marks(MarkFile::End)),
        "flock of cp.end",
    ),
];

/// A call and its object, as a failure names them.
fn named_call(alloc: Global, call: SystemCall, object: Object) -> Result<String, AllocError> {
    let call = call.name();
    format!(in alloc; "{call} of {object}")
}

/// Looks at how a call and its object are named.
fn look_at_names(rt: &(impl Abort + AllocGlobal), call: SystemCall, object: Object, wanted: &str) {
    let text = named_call(rt.alloc(), call, object).expect(rt, "a text");
    look_at_text(rt, "names", text.as_str(), wanted);
}

#[test]
fn a_call_and_its_object_have_their_names(rt: HostRuntime) {
    for (call, object, wanted) in &NAMES {
        look_at_names(&rt, *call, *object, wanted);
    }
}
