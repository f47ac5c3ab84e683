//! A folder that has to be there: where it isn't, it is refused, and nothing is made.

use crate::looks::holds;
use pm_disk::Host;
use pm_disk_fs::FsHost;
use std::fs;
use std::process::Abort;
use std::rt::Files;

/// A host over files, in a box, whose drop is a call.
type FileHost = Box<FsHost<HostRuntime>>;

/// A host over files that is bound to no folder.
fn new_host(rt: &(impl Abort + AllocGlobal), real: &HostRuntime) -> FileHost {
    let real = real.clone().expect(rt, "a runtime");
    Box::new(rt.alloc(), FsHost::new(real)).expect(rt, "a host")
}

/// Whether the host took the folder as that of the store.
fn finds(host: &mut FsHost<HostRuntime>, folder: &str) -> bool {
    host.bind_found(folder).is_ok()
}

/// Looks for the folder as refused to a new host.
fn refuse(rt: &(impl Abort + AllocGlobal), real: &HostRuntime, folder: &str) {
    let mut host = new_host(rt, real);
    let is_bound = finds(&mut host, folder);
    holds(rt, "the folder is refused", !is_bound, &folder);
}

/// Looks for the folder as bound by a new host.
fn find(rt: &(impl Abort + AllocGlobal), real: &HostRuntime, folder: &str) {
    let mut host = new_host(rt, real);
    let is_bound = finds(&mut host, folder);
    holds(rt, "the folder is bound", is_bound, &folder);
}

/// Looks that nothing is at the path.
fn look_for_nothing(rt: &(impl Abort + Files), path: &str) {
    let is_there = fs::exists(rt, path).expect(rt, path);
    holds(rt, "nothing is there", !is_there, &path);
}

#[test]
fn a_folder_that_is_not_there_is_refused_and_not_made(rt: HostRuntime) {
    refuse(&rt, &rt, "nowhere");
    look_for_nothing(&rt, "nowhere");
    refuse(&rt, &rt, "nowhere/below");
    look_for_nothing(&rt, "nowhere");
}

#[test]
fn a_folder_that_is_there_is_bound(rt: HostRuntime) {
    fs::create_dir(&rt, "there").expect(&rt, "there");
    find(&rt, &rt, "there");
    fs::remove_dir(&rt, "there").expect(&rt, "there");
}

#[test]
fn a_file_is_no_folder_to_be_found(rt: HostRuntime) {
    fs::write(&rt, "no_folder", "").expect(&rt, "no_folder");
    refuse(&rt, &rt, "no_folder");
    fs::remove_file(&rt, "no_folder").expect(&rt, "no_folder");
}
