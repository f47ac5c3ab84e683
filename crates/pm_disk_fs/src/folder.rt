//! The store's folder, and its files by name.

ghost use Rattle.std.specs.Prelude.{◌≡◌, ◌<◌, ◌≤◌, ◌+◌, false, length, take, replicate, None, Some};
ghost use Rattle.std.specs.Prelude.{◌⊎◌, Ok, IsNone, IsSome, IfSome, IsSomeAnd, MatchOption, IfOk};
ghost use Rattle.std.specs.Prelude.{IfErr, IsErrAnd};
ghost use Rattle.std.specs.Prelude.{OnOk, OnErr, option_map, codes};
ghost use Rattle.std.specs.IoError.{error_kind};
ghost use Rattle.std.specs.String.{string_bytes};
ghost use Rattle.pm_disk_fs.specs.Failures.{IsFailureOn, IsPathFailure, IsLockFailure};
ghost use Rattle.pm_disk_fs.specs.Failures.{IsOn, IsOnFile, IsCallOn};
ghost use Rattle.pm_disk_fs.specs.Paths.{IsPathOf};
ghost use Rattle.pm_disk_fs.specs.Calls.{IsMadeAt, AreNamesSynced, IsLocked};
ghost use Rattle.pm_disk_fs.specs.Calls.{to_read, to_change, to_make};
ghost use Rattle.pm_disk_fs.specs.Reads.{IsReadAt, IsRange};
ghost use Rattle.std.specs.Path.{path_join};

use crate::calls::{FileCalls, PathCalls, ReadCalls, SameCalls};
use crate::failure::{Failure, Object, SystemCall, named};
use crate::lock::{Lockable, lock_folder};
use crate::paths::{IfMissing, file_path, open_folder, sync_folder, sync_name};
use crate::reading::{fill, whole_or_zeros};
use pm_disk::StoreFile;
use std::alloc::AllocError;
use std::fs::OpenOptions;
use std::io::{self, ErrorKind};
use std::path::Path;

/// The store's folder, once one is bound.
#[derive(Drop)]
pub struct Folder<R: Drop> {
    pub rt: R,
    // The folder's name, none before one is bound.
    pub dir: Option<String>,
    // How many folders were made for a store.
    pub made: u64,
}

impl<R: PathCalls<File: Lockable + FileCalls + SameCalls> + AllocGlobal + Drop> Folder<R> {
    /// Makes the folder where it isn't there, or fails then, and locks it. From now on the files are in it.
    /// Gives the file that has the lock, or none where the one at hand has it. Where another run has it,
    /// nothing of the folder was read or changed.
    ///
    /// Where it may be made, its name is made lasting, also where it is there: an earlier run may have ended
    /// between making it and that, or the user may have made it just now.
    pub fn bind(
        &mut self,
        dir: &str,
        missing: IfMissing,
        at_hand: &Option<R::File>,
    ) -> Result<Option<R::File>, Failure>
        ensures bound { OnOk result (option_map string_bytes self.new.dir ≡ Some dir.now) }
        ensures unchanged { OnErr result (self.new.dir ≡ self.old.dir) }
        ensures locked { IfOk result
            (IsLocked R.opened R.File.locked R.File.same_file dir.now at_hand.now) }
        ensures lasts { missing ≡ IfMissing.Make → OnOk result (AreNamesSynced R.opened R.File.synced
            (path_join dir.now (codes ".."))) }
        ensures counted { self.old.made ≤ self.new.made }
        ensures none_made { missing ≡ IfMissing.Fail → self.new.made ≡ self.old.made }
        ensures failed { IfErr result (IsLockFailure
            ((file : R.File) × R.File.may_be_held file)) }
    {
        let store = Path::new(dir);
        let name = String::from_str(self.rt.alloc(), dir)?;
        let folder = open_folder(&self.rt, store, missing, &mut self.made)?;
        let lock = lock_folder(folder, at_hand)?;
        sync_name(&self.rt, store, missing)?;
        self.dir = Some(name);
        Ok(lock)
    }
}

impl<R: PathCalls<File: FileCalls> + AllocGlobal + Drop> Folder<R> {
    /// No folder is bound yet, and none was made.
    pub fn new(rt: R) -> Folder<R>
        ensures unbound { result.dir ≡ None }
        ensures none_made { result.made ≡ 0 }
    {
        Folder {
            rt,
            dir: None,
            made: 0,
        }
    }

    /// The same folder, for a part.
    pub fn copy(&self) -> Result<Folder<R>, AllocError>
    where
        R: Clone,
        ensures { IfOk result (λ copy. option_map string_bytes copy.dir
            ≡ option_map string_bytes self.now.dir) }
    {
        let dir = match &self.dir {
            Some(dir) => Some(String::from_str(self.rt.alloc(), dir)?),
            None => None,
        };
        Ok(Folder {
            rt: self.rt.clone()?,
            dir,
            made: 0,
        })
    }

    /// The length of a file in bytes, none where it isn't there.
    pub fn len(&self, name: StoreFile) -> Result<Option<u64>, Failure>
        ensures measured { IfOk result (λ found. IsMadeAt (option_map string_bytes self.now.dir) name
            (λ path. MatchOption found (R.missing path) (R.measured path))) }
        ensures failed { IfErr result (IsFailureOn (IsCallOn SystemCall.Stat (Object.File name))
            (self.now.dir ≡ None) ⊥) }
    {
        let found = self.rt.len_at(self.path(name)?.as_str());
        named(SystemCall::Stat, Object::File(name), if_there(found))
    }

    /// Opens a file to be read, none where it isn't there.
    pub fn open(&self, name: StoreFile) -> Result<Option<R::File>, Failure>
        ensures opened { IfOk result (λ found. IsMadeAt (option_map string_bytes self.now.dir) name
            (λ path. MatchOption found (R.missing path) (R.opened to_read path))) }
        ensures failed { IfErr result (IsFailureOn (IsCallOn SystemCall.Open (Object.File name))
            (self.now.dir ≡ None) ⊥) }
    {
        let path = self.path(name)?;
        let opened = self
            .rt
            .open_at(OpenOptions::new().read(true), path.as_str());
        named(SystemCall::Open, Object::File(name), if_there(opened))
    }

    /// Opens a file to be changed, none where it isn't there.
    pub fn open_to_change(&self, name: StoreFile) -> Result<Option<R::File>, Failure>
        ensures opened { IfOk result (λ found. IsMadeAt (option_map string_bytes self.now.dir) name
            (λ path. MatchOption found (R.missing path) (R.opened to_change path))) }
        ensures failed { IfErr result (IsFailureOn (IsCallOn SystemCall.Open (Object.File name))
            (self.now.dir ≡ None) ⊥) }
    {
        let path = self.path(name)?;
        let opened = self
            .rt
            .open_at(OpenOptions::new().write(true), path.as_str());
        named(SystemCall::Open, Object::File(name), if_there(opened))
    }

    /// Makes a file that isn't there, to be changed. Its name lasts once the names were synced.
    pub fn make(&self, name: StoreFile) -> Result<R::File, Failure>
        ensures opened { IfOk result (λ file. IsMadeAt (option_map string_bytes self.now.dir) name
            (λ path. R.opened to_make path file)) }
        ensures failed { IfErr result (IsFailureOn (IsCallOn SystemCall.Open (Object.File name))
            (self.now.dir ≡ None) ⊥) }
    {
        let path = self.path(name)?;
        let made = self.rt.open_at(
            OpenOptions::new().write(true).create_new(true),
            path.as_str(),
        );
        named(SystemCall::Open, Object::File(name), made)
    }

    /// Removes a file, where it is there. It is gone for good once the names were synced.
    pub fn remove(&self, name: StoreFile) -> Result<(), Failure>
        ensures removed { OnOk result (IsMadeAt (option_map string_bytes self.now.dir) name
            (λ path. R.removed path ⊎ R.missing path)) }
        ensures failed { IfErr result (IsFailureOn (IsCallOn SystemCall.Remove (Object.File name))
            (self.now.dir ≡ None) ⊥) }
    {
        let removed = self.rt.remove_at(self.path(name)?.as_str());
        named(SystemCall::Remove, Object::File(name), if_there(removed))?;
        Ok(())
    }

    /// Makes the names of all files lasting, also of those that were removed.
    pub fn sync_names(&self) -> Result<(), Failure>
        ensures synced { OnOk result (IsSomeAnd (option_map string_bytes self.now.dir)
            (AreNamesSynced R.opened R.File.synced)) }
        ensures failed { IfErr result (IsFailureOn (IsOn Object.Folder) (self.now.dir ≡ None) ⊥) }
    {
        sync_folder(&self.rt, Path::new(self.name()?), Object::Folder)
    }

    /// The folder's name.
    pub fn name(&self) -> Result<&str, Failure>
        ensures name { IfOk result (λ dir. option_map string_bytes self.now.dir ≡ Some dir.now) }
        ensures unbound { IfErr result (λ failure. (failure ≡ Failure.Unbound)
            × (self.now.dir ≡ None)) }
    {
        match &self.dir {
            Some(dir) => Ok(dir.as_str()),
            None => Err(Failure::Unbound),
        }
    }

    // The path of a file.
    fn path(&self, name: StoreFile) -> Result<String, Failure>
        ensures path { IfOk result
            (λ path. IsPathOf (option_map string_bytes self.now.dir) name (string_bytes path)) }
        ensures failed { IfErr result (IsPathFailure name (self.now.dir ≡ None)) }
    {
        file_path(self.rt.alloc(), self.name()?, name)
    }
}

impl<R: PathCalls<File: FileCalls + ReadCalls> + AllocGlobal + Drop> Folder<R> {
    /// Reads a file from the offset on until the buffer is full or the file ends, and answers how many
    /// bytes there were; 0 where it isn't there.
    pub fn read(&self, name: StoreFile, at: u64, into: &mut [u8]) -> Result<usize, Failure>
        ensures bound { IfOk result (λ n. n ≤ length into.new) }
        ensures reads { IfOk result (λ n. IsReadAt R.opened R.missing R.File.gave
            (option_map string_bytes self.now.dir) name at (length into.new) (take n into.new)) }
        ensures failed { IfErr result (IsFailureOn (IsOnFile name) (self.now.dir ≡ None) ⊥) }
    {
        let Some(file) = self.open(name)? else {
            return Ok(0);
        };
        named(SystemCall::Read, Object::File(name), fill(&file, at, into))
    }

    /// Reads a whole range of a file from the offset on, and answers true, or, where the file ends before
    /// it, fills the buffer with zeros and answers false.
    pub fn read_whole(&self, name: StoreFile, at: u64, into: &mut [u8]) -> Result<bool, Failure>
        ensures reads { IfOk result (λ whole. IsRange (IsReadAt R.opened R.missing R.File.gave
            (option_map string_bytes self.now.dir) name at) whole into.new) }
        ensures zeros { IfOk result
            (λ whole. whole ≡ false → into.new ≡ replicate (length into.new) 0) }
        ensures failed { IfErr result (IsFailureOn (IsOnFile name) (self.now.dir ≡ None) ⊥) }
    {
        let count = self.read(name, at, into)?;
        Ok(whole_or_zeros(count, into))
    }
}

// What was found, none where there is no such file.
fn if_there<T>(answer: io::Result<T>) -> io::Result<Option<T>>
    ensures { IfOk result (λ found. MatchOption found
        (IsErrAnd answer (λ e. error_kind e ≡ ErrorKind.NotFound)) (λ value. answer ≡ Ok value)) }
{
    match answer {
        Ok(value) => Ok(Some(value)),
        Err(e) if e.kind() == ErrorKind::NotFound => Ok(None),
        Err(e) => Err(e),
    }
}
