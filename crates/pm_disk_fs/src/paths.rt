//! The paths of the store's folder and of the files in it.

ghost use Rattle.std.specs.Prelude.{◌≡◌, ◌<◌, ◌≤◌, ◌++◌, true, IfOk, OnOk, IfErr, codes};
ghost use Rattle.std.specs.String.{string_bytes};
ghost use Rattle.pm_types.specs.declared.limits.TheConstants.{PARTITIONS_MAX};
ghost use Rattle.pm_types.specs.Counts.{HasRisen};
ghost use Rattle.pm_disk.specs.Names.{segment_name, partition_name};
ghost use Rattle.pm_disk_fs.specs.Failures.{IsPathFailure, IsSystemFailure, IsOn, IsOnFolders};
ghost use Rattle.pm_disk_fs.specs.Paths.{name_of};
ghost use Rattle.pm_disk_fs.specs.Calls.{AreNamesSynced, folder_path, to_read};
ghost use Rattle.std.specs.Path.{path_bytes, path_join};

use crate::calls::{FileCalls, PathCalls};
use crate::failure::{Failure, Object, SystemCall, named};
use pm_disk::{MarkFile, StoreFile, partition_name, segment_name};
use pm_types::PARTITIONS_MAX;
use std::alloc::{AllocError, Global};
use std::fs::{self, OpenOptions};
use std::io::{self, ErrorKind};
use std::path::{Path, PathBuf};
use std::rt::Files;
use std::str;

/// What comes of it where the store's folder isn't there.
#[derive(Clone, Copy, Debug, PartialEq, Eq)]
pub enum IfMissing {
    /// It is made, and those above it too.
    Make,
    /// The call fails, and makes nothing.
    Fail,
}

/// Opens the folder. Each folder that it makes is counted, also where it fails in the end.
pub fn open_folder<R: PathCalls<File: FileCalls> + AllocGlobal>(
    rt: &R,
    store: Path<'_>,
    missing: IfMissing,
    made: &mut u64,
) -> Result<R::File, Failure>
    ensures opened { IfOk result (R.opened to_read (folder_path (path_bytes store.entry))) }
    ensures counted { made.old ≤ made.new }
    ensures none_made { missing ≡ IfMissing.Fail → made.new ≡ made.old }
    ensures failed { IfErr result (IsSystemFailure IsOnFolders) }
{
    see_to_folder(rt, store, missing, made)?;
    open_names(rt, store, Object::Folder)
}

// Sees that the folder is there.
fn see_to_folder<R: PathCalls<File: FileCalls> + AllocGlobal>(
    rt: &R,
    store: Path<'_>,
    missing: IfMissing,
    made: &mut u64,
) -> Result<(), Failure>
    ensures counted { made.old ≤ made.new }
    ensures none_made { missing ≡ IfMissing.Fail → made.new ≡ made.old }
    ensures failed { IfErr result (IsSystemFailure IsOnFolders) }
{
    match missing {
        IfMissing::Make => make_folder(rt, store, made),
        IfMissing::Fail => find_folder(rt, store),
    }
}

// Makes the folder, and those above it, where they aren't there.
fn make_folder<R: PathCalls<File: FileCalls> + AllocGlobal>(
    rt: &R,
    store: Path<'_>,
    made: &mut u64,
) -> Result<(), Failure>
    ensures counted { made.old ≤ made.new }
    ensures failed { IfErr result (IsSystemFailure IsOnFolders) }
{
    if store.is_dir(rt) {
        return Ok(());
    }
    make_missing(rt, store, made)?;
    if store.is_dir(rt) {
        Ok(())
    } else {
        Err(no_folder(SystemCall::MakeFolder))
    }
}

// Fails where nothing is at the path, or what isn't a folder. It opens nothing: a pipe would keep it waiting.
fn find_folder<R: Files>(rt: &R, store: Path<'_>) -> Result<(), Failure>
    ensures { IfErr result (IsSystemFailure (IsOn Object.Folder)) }
{
    let found = named(SystemCall::Stat, Object::Folder, fs::metadata(rt, store))?;
    if found.is_dir() {
        Ok(())
    } else {
        Err(no_folder(SystemCall::Stat))
    }
}

// What is there isn't a folder.
fn no_folder(call: SystemCall) -> Failure
    ensures { IsSystemFailure (IsOn Object.Folder) result }
{
    Failure::System(
        call,
        Object::Folder,
        io::Error::from(ErrorKind::NotADirectory),
    )
}

// Makes each folder on the path that isn't there, and syncs the one above it before the next is made. So
// at most one name may be there and not last, that of the last folder that was there: it is made lasting too.
fn make_missing<R: PathCalls<File: FileCalls> + AllocGlobal>(
    rt: &R,
    store: Path<'_>,
    made: &mut u64,
) -> Result<(), Failure>
    ensures counted { made.old ≤ made.new }
    ensures failed { IfErr result (IsSystemFailure IsOnFolders) }
{
    let mut folder = PathBuf::new(rt.alloc());
    let mut lasts = true;
    for part in store.components() {
        let above = folder.as_path().to_path_buf(rt.alloc())?;
        folder.push(part.as_os_str())?;
        if make_one(rt, folder.as_path(), made)? {
            if !lasts {
                sync_above(rt, above.as_path())?;
            }
            sync_folder(rt, above.as_path(), Object::FolderAbove)?;
            lasts = true;
        } else {
            lasts = false;
        }
    }
    Ok(())
}

// Makes the name of a folder that is there lasting.
fn sync_above<R: PathCalls<File: FileCalls> + AllocGlobal>(
    rt: &R,
    folder: Path<'_>,
) -> Result<(), Failure>
    ensures synced { OnOk result
        (AreNamesSynced R.opened R.File.synced (path_join (path_bytes folder.entry) (codes ".."))) }
    ensures failed { IfErr result (IsSystemFailure (IsOn Object.FolderAbove)) }
{
    let above = folder.join(rt.alloc(), "..")?;
    sync_folder(rt, above.as_path(), Object::FolderAbove)
}

/// Makes the name of a store's folder lasting, where the folder is one that would have been made.
pub fn sync_name<R: PathCalls<File: FileCalls> + AllocGlobal>(
    rt: &R,
    store: Path<'_>,
    missing: IfMissing,
) -> Result<(), Failure>
    ensures synced { missing ≡ IfMissing.Make → OnOk result
        (AreNamesSynced R.opened R.File.synced (path_join (path_bytes store.entry) (codes ".."))) }
    ensures failed { IfErr result (IsSystemFailure (IsOn Object.FolderAbove)) }
{
    match missing {
        IfMissing::Make => sync_above(rt, store),
        IfMissing::Fail => Ok(()),
    }
}

/// Makes the names in the folder lasting.
pub fn sync_folder<R: PathCalls<File: FileCalls>>(
    rt: &R,
    dir: Path<'_>,
    object: Object,
) -> Result<(), Failure>
    ensures synced { OnOk result (AreNamesSynced R.opened R.File.synced (path_bytes dir.entry)) }
    ensures failed { IfErr result (IsSystemFailure (IsOn object)) }
{
    let opened = open_names(rt, dir, object)?;
    named(SystemCall::Sync, object, opened.sync())
}

// Opens the folder.
fn open_names<R: PathCalls>(rt: &R, dir: Path<'_>, object: Object) -> Result<R::File, Failure>
    ensures opened { IfOk result (R.opened to_read (folder_path (path_bytes dir.entry))) }
    ensures failed { IfErr result (IsSystemFailure (IsOn object)) }
{
    let opened = rt.open_at(OpenOptions::new().read(true), folder_path(dir.as_str()));
    named(SystemCall::Open, object, opened)
}

// The path by which the system knows a folder. No path is the folder where the process runs.
fn folder_path(dir: &str) -> &str
    ensures { result.now ≡ folder_path dir.now }
{
    if dir.is_empty() { "." } else { dir }
}

/// The path of a file of the store. A partition whose number no name has is refused.
pub fn file_path(alloc: Global, dir: &str, file: StoreFile) -> Result<String, Failure>
    ensures path { IfOk result (λ path. string_bytes path ≡ dir.now ++ codes "/" ++ name_of file) }
    ensures failed { IfErr result (IsPathFailure file ⊥) }
{
    let mut path = String::from_str(alloc, dir)?;
    path.push('/')?;
    push_name(&mut path, file)?;
    Ok(path)
}

// Puts the name of a file after the path.
fn push_name(path: &mut String, file: StoreFile) -> Result<(), Failure>
    ensures pushed { OnOk result (string_bytes path.new ≡ string_bytes path.old ++ name_of file) }
    ensures failed { IfErr result (IsPathFailure file ⊥) }
{
    match file {
        StoreFile::Config => path.push_str("config.json")?,
        StoreFile::Marks(MarkFile::Start) => path.push_str("cp.start")?,
        StoreFile::Marks(MarkFile::End) => path.push_str("cp.end")?,
        StoreFile::Segment(seg) => push_segment(path, seg)?,
        StoreFile::Pages(part) => {
            if part >= PARTITIONS_MAX {
                return Err(Failure::NoPartition(part));
            }
            push_partition(path, part)?;
        }
    }
    Ok(())
}

fn push_segment(path: &mut String, seg: u64) -> Result<(), AllocError>
    ensures { OnOk result (string_bytes path.new ≡ string_bytes path.old ++ segment_name seg) }
{
    let name = segment_name(seg);
    path.push_str(str::from_utf8(&name).unwrap())?;
    Ok(())
}

fn push_partition(path: &mut String, part: u16) -> Result<(), AllocError>
    requires { part < PARTITIONS_MAX }
    ensures { OnOk result (string_bytes path.new ≡ string_bytes path.old ++ partition_name part) }
{
    let name = partition_name(part);
    path.push_str(str::from_utf8(&name).unwrap())?;
    Ok(())
}

// Makes the folder, and answers whether it wasn't there before.
fn make_one<R: Files>(rt: &R, folder: Path<'_>, made: &mut u64) -> Result<bool, Failure>
    ensures counted { IfOk result (λ is_new. is_new ≡ true → HasRisen made.old made.new) }
    ensures later { made.old ≤ made.new }
    ensures failed { IfErr result (IsSystemFailure (IsOn Object.Folder)) }
{
    match fs::create_dir(rt, folder) {
        Ok(()) => {
            *made = made.saturating_add(1);
            Ok(true)
        }
        Err(e) if e.kind() == ErrorKind::AlreadyExists => Ok(false),
        Err(e) => Err(Failure::System(SystemCall::MakeFolder, Object::Folder, e)),
    }
}
