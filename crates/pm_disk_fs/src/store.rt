//! The changes of the store's files.

ghost use Rattle.std.specs.Prelude.{◌≡◌, ◌<◌, [], false, vec_len, vec_capacity, IsTrue};
ghost use Rattle.std.specs.Prelude.{◌⊎◌, None, IsErr, IfOk, IfErr, IsSomeAnd, OnOk, OnErr, option_map};
ghost use Rattle.std.specs.String.{string_bytes};
ghost use Rattle.pm_disk.specs.declared.names.StoreFile.TheVariants.{Segment};
ghost use Rattle.pm_disk_fs.specs.Failures.{IsFailureOn, IsOn, IsCallOn, IsOnFile, IsOnFileOrSync};
ghost use Rattle.pm_disk_fs.specs.Failures.{IsOnFileOrFolder};
ghost use Rattle.pm_disk_fs.specs.OpenFiles.{AreSorted, AreJoined, OthersStayOpen, IsNotOpen};
ghost use Rattle.pm_disk_fs.specs.OpenFiles.{IsTakenOut};
ghost use Rattle.pm_disk_fs.specs.Calls.{IsMadeAt, IsOpenedToChange, IsSyncedAt, DoNamesLast, to_make};
ghost use Rattle.pm_disk_fs.specs.Calls.{AreNamesSynced, WasThere};
ghost use Rattle.pm_disk_fs.specs.Positions.{IsChangedLast, WasForced, IsWritten, LeavesSynced};
ghost use Rattle.pm_disk_fs.specs.Writes.{ChangesFile, FlushesBuffer};

use crate::calls::{FileCalls, PathCalls};
use crate::failure::{Failure, Object, SystemCall};
use crate::folder::Folder;
use crate::open_files::OpenFiles;
use crate::opened::Opened;
use crate::write_buffer::WriteBuffer;
use crate::writes::Writes;
use pm_disk::StoreFile;
use std::alloc::{AllocError, Global};
use std::mem;
use std::rt::Files;

mod log;

/// The changes of the files in the store's folder. Where a change or a force of one of them has failed,
/// each later one fails: nobody knows then what the disk holds.
#[derive(Drop)]
pub struct Store<R: Files> {
    /// The files that were changed.
    pub open: OpenFiles<R::File>,
    // Whether each name in the folder lasts. An earlier run may have ended before it saw to that.
    names_last: bool,
    pub writes: Writes,
}

impl<R: PathCalls<File: FileCalls> + AllocGlobal + Drop> Store<R> {
    /// Before the first change. No name is in doubt before a folder is bound.
    pub fn new(alloc: Global) -> Store<R>
        ensures sound { result.writes.is_poisoned ≡ false }
        ensures empty { result.writes.buffer.bytes ≡ [] }
    {
        Store {
            open: OpenFiles::new(alloc),
            names_last: true,
            writes: Writes::new(alloc),
        }
    }

    /// Leaves a folder for another: what is buffered is written, each file that is open is forced and
    /// closed, and the names are made lasting. What an earlier run left of the names in the next folder
    /// isn't known.
    pub fn leave(&mut self, folder: &Folder<R>) -> Result<(), Failure>
        ensures writes { FlushesBuffer self.old.writes self.new.writes result }
        ensures refused { IsTrue self.old.writes.is_poisoned → IsErr result }
        ensures names { OnOk result (self.new.names_last ≡ false) }
        ensures closed { OnOk result (self.new.open.files.items ≡ []) }
        ensures forced { OnOk result (LeavesSynced R.File.contents R.File.synced
            self.old.writes.buffer self.old.open.files.items) }
        ensures synced { OnOk result (IsTrue self.old.names_last
            ⊎ IsSomeAnd (option_map string_bytes folder.now.dir) (AreNamesSynced R.opened R.File.synced)) }
        ensures failed { IfErr result (IsFailureOn
            (IsOnFileOrFolder (Segment self.old.writes.buffer.seg))
            (folder.now.dir ≡ None) (IsTrue self.old.writes.is_poisoned)) }
    {
        self.flush(folder)?;
        self.writes.begin()?;
        self.open.force()?;
        self.sync_names(folder)?;
        self.names_last = false;
        self.open.clear();
        self.writes.is_poisoned = false;
        Ok(())
    }

    /// The part of it that has the log, with what is buffered, and the part that has the partitions'
    /// files. Out of memory leaves it whole.
    pub fn split(&mut self, alloc: Global) -> Result<(Store<R>, Store<R>), AllocError>
        ensures log { IfOk result (λ parts. parts.0.writes ≡ self.old.writes) }
        ensures pages { IfOk result (λ parts.
            parts.1.writes.is_poisoned ≡ self.old.writes.is_poisoned) }
        ensures names { IfOk result (λ parts. (parts.0.names_last ≡ self.old.names_last)
            × (parts.1.names_last ≡ self.old.names_last)) }
        ensures files { IfOk result (λ parts. AreSorted self.old.open.files.items
            parts.0.open.files.items parts.1.open.files.items self.new.open.files.items) }
        ensures poisoned { self.new.writes.is_poisoned ≡ self.old.writes.is_poisoned }
        ensures empty { OnOk result (self.new.writes.buffer.bytes ≡ []) }
        ensures unchanged { OnErr result (self.new.writes ≡ self.old.writes) }
    {
        let (segments, pages) = self.open.split(alloc)?;
        let is_poisoned = self.writes.is_poisoned;
        let buffer = mem::replace(&mut self.writes.buffer, WriteBuffer::new(alloc));
        let log = Store {
            open: segments,
            names_last: self.names_last,
            writes: Writes {
                is_poisoned,
                buffer,
            },
        };
        let pages = Store {
            open: pages,
            names_last: self.names_last,
            writes: Writes {
                is_poisoned,
                buffer: WriteBuffer::new(alloc),
            },
        };
        Ok((log, pages))
    }

    /// Takes the parts back. It is poisoned where one of them is, or where a file of theirs can't be kept
    /// open.
    pub fn join(&mut self, log: Store<R>, pages: Store<R>)
        ensures buffer { self.new.writes.buffer ≡ log.writes.buffer }
        ensures files { IsTrue self.new.writes.is_poisoned ⊎ AreJoined self.old.open.files.items
            log.open.files.items pages.open.files.items self.new.open.files.items }
        ensures names { IsTrue self.new.names_last
            → IsTrue log.names_last × IsTrue pages.names_last }
        ensures still_poisoned { IsTrue self.old.writes.is_poisoned
            → IsTrue self.new.writes.is_poisoned }
        ensures log_poisoned { IsTrue log.writes.is_poisoned → IsTrue self.new.writes.is_poisoned }
        ensures pages_poisoned { IsTrue pages.writes.is_poisoned
            → IsTrue self.new.writes.is_poisoned }
    {
        let are_kept = self.open.join(log.open, pages.open).is_ok();
        self.names_last = log.names_last && pages.names_last;
        let was_poisoned = self.writes.is_poisoned
            || log.writes.is_poisoned
            || pages.writes.is_poisoned;
        self.writes = Writes {
            is_poisoned: was_poisoned || !are_kept,
            buffer: log.writes.buffer,
        };
    }

    /// Writes the bytes from the offset on, and makes the file where it isn't there.
    pub fn write(
        &mut self,
        folder: &Folder<R>,
        name: StoreFile,
        at: u64,
        bytes: &[u8],
    ) -> Result<(), Failure>
        ensures changes { ChangesFile self.old.writes self.new.writes result }
        ensures names { IsTrue self.new.names_last → IsTrue self.old.names_last
            × OnOk result (WasThere R.opened (option_map string_bytes folder.now.dir)
            self.old.open.files.items name) }
        ensures wrote { OnOk result (IsWritten R.File.contents self.new.open.files.items
            name at bytes.now) }
        ensures others { OnOk result (OthersStayOpen self.old.open.files.items
            self.new.open.files.items name) }
        ensures failed { IfErr result (IsFailureOn (IsOnFileOrSync name)
            (folder.now.dir ≡ None) (IsTrue self.old.writes.is_poisoned)) }
    {
        self.writes.begin()?;
        self.put(folder, name, at, bytes)?;
        self.writes.is_poisoned = false;
        Ok(())
    }

    /// Cuts the file to this length in bytes, and makes it where it isn't there.
    pub fn cut(&mut self, folder: &Folder<R>, name: StoreFile, len: u64) -> Result<(), Failure>
        ensures changes { ChangesFile self.old.writes self.new.writes result }
        ensures names { IsTrue self.new.names_last → IsTrue self.old.names_last
            × OnOk result (WasThere R.opened (option_map string_bytes folder.now.dir)
            self.old.open.files.items name) }
        ensures cut { OnOk result (IsChangedLast self.new.open.files.items name) }
        ensures others { OnOk result (OthersStayOpen self.old.open.files.items
            self.new.open.files.items name) }
        ensures failed { IfErr result (IsFailureOn (IsOnFileOrSync name)
            (folder.now.dir ≡ None) (IsTrue self.old.writes.is_poisoned)) }
    {
        self.writes.begin()?;
        let mut file = self.take(folder, name)?;
        file.cut(len)?;
        self.open.keep(file);
        self.writes.is_poisoned = false;
        Ok(())
    }

    /// Makes the file's bytes and its length lasting, and all names in the folder. Where this host has
    /// forced both and changed nothing since, the system isn't asked.
    pub fn force(&mut self, folder: &Folder<R>, name: StoreFile) -> Result<(), Failure>
        ensures changes { ChangesFile self.old.writes self.new.writes result }
        ensures names { OnOk result (IsTrue self.new.names_last) }
        ensures synced { OnOk result (DoNamesLast R.opened R.File.synced self.old.names_last
            (option_map string_bytes folder.now.dir)) }
        ensures forced { OnOk result ((IsNotOpen self.old.open.files.items name
            × IsSyncedAt R.opened R.missing R.File.synced (option_map string_bytes folder.now.dir) name)
            ⊎ WasForced R.File.synced self.old.open.files.items self.new.open.files.items name) }
        ensures others { OnOk result (OthersStayOpen self.old.open.files.items
            self.new.open.files.items name) }
        ensures failed { IfErr result (IsFailureOn (IsOnFileOrFolder name)
            (folder.now.dir ≡ None) (IsTrue self.old.writes.is_poisoned)) }
    {
        self.writes.begin()?;
        self.sync(folder, name)?;
        self.sync_names(folder)?;
        self.writes.is_poisoned = false;
        Ok(())
    }

    /// Removes the file, where it is there.
    pub fn remove(&mut self, folder: &Folder<R>, name: StoreFile) -> Result<(), Failure>
        ensures changes { ChangesFile self.old.writes self.new.writes result }
        ensures names { OnOk result (self.new.names_last ≡ false) }
        ensures closed { OnOk result (IsNotOpen self.new.open.files.items name) }
        ensures removed { OnOk result (IsMadeAt (option_map string_bytes folder.now.dir) name
            (λ path. R.removed path ⊎ R.missing path)) }
        ensures others { OnOk result (OthersStayOpen self.old.open.files.items
            self.new.open.files.items name) }
        ensures failed { IfErr result (IsFailureOn (IsCallOn SystemCall.Remove (Object.File name))
            (folder.now.dir ≡ None) (IsTrue self.old.writes.is_poisoned)) }
    {
        self.writes.begin()?;
        self.names_last = false;
        self.open.close(name);
        folder.remove(name)?;
        self.writes.is_poisoned = false;
        Ok(())
    }

    // Writes the bytes from the offset on, and makes the file where it isn't there.
    fn put(
        &mut self,
        folder: &Folder<R>,
        name: StoreFile,
        at: u64,
        bytes: &[u8],
    ) -> Result<(), Failure>
        ensures writes { self.new.writes ≡ self.old.writes }
        ensures names { IsTrue self.new.names_last → IsTrue self.old.names_last
            × OnOk result (WasThere R.opened (option_map string_bytes folder.now.dir)
            self.old.open.files.items name) }
        ensures wrote { OnOk result (IsWritten R.File.contents self.new.open.files.items
            name at bytes.now) }
        ensures others { OnOk result (OthersStayOpen self.old.open.files.items
            self.new.open.files.items name) }
        ensures failed { IfErr result (IsFailureOn (IsOnFileOrSync name)
            (folder.now.dir ≡ None) ⊥) }
    {
        let mut file = self.take(folder, name)?;
        file.write(at, bytes)?;
        self.open.keep(file);
        Ok(())
    }

    // Makes the file's bytes and its length lasting, where it is there.
    fn sync(&mut self, folder: &Folder<R>, name: StoreFile) -> Result<(), Failure>
        ensures writes { self.new.writes ≡ self.old.writes }
        ensures names { self.new.names_last ≡ self.old.names_last }
        ensures others { OnOk result (OthersStayOpen self.old.open.files.items
            self.new.open.files.items name) }
        ensures forced { OnOk result ((IsNotOpen self.old.open.files.items name
            × IsSyncedAt R.opened R.missing R.File.synced (option_map string_bytes folder.now.dir) name)
            ⊎ WasForced R.File.synced self.old.open.files.items self.new.open.files.items name) }
        ensures failed { IfErr result (IsFailureOn (IsOnFile name) (folder.now.dir ≡ None) ⊥) }
    {
        let Some(mut file) = self.open.take(name) else {
            return sync_closed(folder, name);
        };
        file.force()?;
        self.open.keep(file);
        Ok(())
    }

    // Makes all names in the folder lasting, where they aren't.
    fn sync_names(&mut self, folder: &Folder<R>) -> Result<(), Failure>
        ensures writes { self.new.writes ≡ self.old.writes }
        ensures open { self.new.open ≡ self.old.open }
        ensures names { OnOk result (IsTrue self.new.names_last) }
        ensures synced { OnOk result (DoNamesLast R.opened R.File.synced self.old.names_last
            (option_map string_bytes folder.now.dir)) }
        ensures failed { IfErr result (IsFailureOn (IsOn Object.Folder) (folder.now.dir ≡ None) ⊥) }
    {
        if !self.names_last {
            folder.sync_names()?;
            self.names_last = true;
        }
        Ok(())
    }

    // The file to be changed, which isn't among the open ones from now on. There is room for it.
    fn take(&mut self, folder: &Folder<R>, name: StoreFile) -> Result<Opened<R::File>, Failure>
        ensures name { IfOk result (λ file. file.name ≡ name) }
        ensures from { IfOk result (λ file. IsTakenOut self.old.open.files.items
            self.new.open.files.items name file
            ⊎ IsOpenedToChange R.opened (option_map string_bytes folder.now.dir) name
            self.new.names_last file.file) }
        ensures names { IsTrue self.new.names_last → IsTrue self.old.names_last }
        ensures room { OnOk result
            (vec_len self.new.open.files < vec_capacity self.new.open.files) }
        ensures others { OnOk result (OthersStayOpen self.old.open.files.items
            self.new.open.files.items name) }
        ensures writes { self.new.writes ≡ self.old.writes }
        ensures failed { IfErr result (IsFailureOn (IsOnFileOrSync name)
            (folder.now.dir ≡ None) ⊥) }
    {
        match self.open.take(name) {
            Some(file) => Ok(file),
            None => {
                self.open.make_room()?;
                Ok(Opened::new(name, self.open_to_change(folder, name)?))
            }
        }
    }

    // The file to be changed, which is made where it isn't there. Its name lasts once a force has seen to
    // that.
    fn open_to_change(&mut self, folder: &Folder<R>, name: StoreFile) -> Result<R::File, Failure>
        ensures opened { IfOk result (IsOpenedToChange R.opened
            (option_map string_bytes folder.now.dir) name self.new.names_last) }
        ensures names { IsTrue self.new.names_last → IsTrue self.old.names_last }
        ensures writes { self.new.writes ≡ self.old.writes }
        ensures open { self.new.open ≡ self.old.open }
        ensures failed { IfErr result (IsFailureOn (IsCallOn SystemCall.Open (Object.File name))
            (folder.now.dir ≡ None) ⊥) }
    {
        match folder.open_to_change(name)? {
            Some(file) => Ok(file),
            None => self.make(folder, name),
        }
    }

    // Makes a file. Its name lasts once a force has seen to that.
    fn make(&mut self, folder: &Folder<R>, name: StoreFile) -> Result<R::File, Failure>
        ensures opened { IfOk result (λ file. IsMadeAt (option_map string_bytes folder.now.dir) name
            (λ path. R.opened to_make path file)) }
        ensures writes { self.new.writes ≡ self.old.writes }
        ensures open { self.new.open ≡ self.old.open }
        ensures names { self.new.names_last ≡ false }
        ensures failed { IfErr result (IsFailureOn (IsCallOn SystemCall.Open (Object.File name))
            (folder.now.dir ≡ None) ⊥) }
    {
        self.names_last = false;
        folder.make(name)
    }
}

// Makes the bytes and the length of a file lasting that isn't open, where it is there.
fn sync_closed<R: PathCalls<File: FileCalls> + AllocGlobal + Drop>(
    folder: &Folder<R>,
    name: StoreFile,
) -> Result<(), Failure>
    ensures synced { OnOk result (IsSyncedAt R.opened R.missing R.File.synced
        (option_map string_bytes folder.now.dir) name) }
    ensures failed { IfErr result (IsFailureOn (IsOnFile name) (folder.now.dir ≡ None) ⊥) }
{
    match folder.open(name)? {
        Some(file) => Opened::new(name, file).sync(),
        None => Ok(()),
    }
}
