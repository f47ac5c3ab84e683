//! A part of the host over files that reads pages.

ghost use Rattle.std.specs.Prelude.{◌≡◌, ◌<◌, ◌≤◌, length, vec_len, vec_capacity, replicate, false, None};
ghost use Rattle.std.specs.Prelude.{◌⊎◌, IfOk, IfErr, IfSome, MatchOption, OnOk, option_map};
ghost use Rattle.std.specs.String.{string_bytes};
ghost use Rattle.pm_types.specs.declared.limits.TheConstants.{PAGE_SIZE_MAX};
ghost use Rattle.pm_disk.specs.Moments.{nothing_told};
ghost use Rattle.pm_disk.specs.States.{HasCause};
ghost use Rattle.pm_types.specs.Ids.{part_of_id};
ghost use Rattle.pm_disk.specs.declared.names.StoreFile.TheVariants.{Pages};
ghost use Rattle.pm_disk_fs.specs.Failures.{IsFailureOn, IsOnFileOrSync};
ghost use Rattle.pm_disk_fs.specs.Calls.{IsMadeAt, to_read};
ghost use Rattle.pm_disk.specs.Worlds.{page_at};
ghost use Rattle.pm_disk_fs.specs.OpenFiles.{IsTakenOut};
ghost use Rattle.pm_disk_fs.specs.Reads.{IsReadAt, IsRange, AreOpenedToRead};
ghost use Rattle.pm_disk_fs.specs.Faults.{KeepsFirst};
ghost use Rattle.pm_disk_fs.specs.Parts.{state_of_reader, IsReaderFailure};

use crate::calls::{FileCalls, PathCalls, ReadCalls};
use crate::failure::Failure;
use crate::faults::Faults;
use crate::folder::Folder;
use crate::open_files::OpenFiles;
use crate::opened::Opened;
use crate::reading::whole_or_zeros;
use pm_disk::{Device, Failed, PageReader, StoreFile};
use pm_types::PageId;
use std::marker::Model;
use std::snapshot::Snapshot;

/// Reads pages. Each partition's file that it has read stays open, and is read at offsets: that takes a
/// third of the time that opening it anew would. Each was opened at the path of its name.
#[derive(Drop)]
pub struct FsReader<R: PathCalls + Drop> {
    pub(crate) folder: Folder<R>,
    // The files that it has read.
    pub(crate) open: OpenFiles<R::File>,
    pub(crate) faults: Faults,
    // The pages that it may not read.
    pub(crate) due: Snapshot<Vec<PageId>>,
}

impl<R: PathCalls + Drop> Model for FsReader<R> {
    ghost use Rattle.std.specs.Prelude.{option_map};
    ghost use Rattle.std.specs.String.{string_bytes};
    ghost use Rattle.pm_disk_fs.specs.Parts.{ReaderView};
    ghost use Rattle.pm_disk_fs.specs.Reads.{AreOpenedToRead};

    ghost Value = { ReaderView };

    ghost view = { λ reader. record {
      faults = reader.faults;
      folder = option_map string_bytes reader.folder.dir;
      due = reader.due.value.items;
    } };

    ghost invariant = { λ reader. AreOpenedToRead R.opened
        (option_map string_bytes reader.folder.dir) reader.open.files.items };
}

impl<R: PathCalls<File: FileCalls + ReadCalls> + AllocGlobal + Drop> FsReader<R> {
    // Reads a page by the file of its partition, and answers whether it is there whole.
    fn read(&mut self, page: PageId, into: &mut [u8]) -> Result<bool, Failure>
        requires { length into.old ≤ PAGE_SIZE_MAX }
        ensures same { self.new ≡ self.old }
        ensures reads { IfOk result (λ whole. IsRange (IsReadAt R.opened R.missing R.File.gave
            self.old.folder (Pages (part_of_id page)) (page_at page (length into.new)))
            whole into.new) }
        ensures zeros { IfOk result
            (λ whole. whole ≡ false → into.new ≡ replicate (length into.new) 0) }
        ensures failed { IfErr result (IsFailureOn (IsOnFileOrSync (Pages (part_of_id page)))
            (self.old.folder ≡ None) ⊥) }
    {
        let at = page.index() as u64 * into.len() as u64;
        let name = StoreFile::Pages(page.part());
        read_kept(&mut self.open, &self.folder, name, at, into)
    }
}

// Reads a whole range of the file of this name, which stays open. Where it ends before that, the buffer is
// filled with zeros.
fn read_kept<R: PathCalls<File: FileCalls + ReadCalls> + AllocGlobal + Drop>(
    files: &mut OpenFiles<R::File>,
    folder: &Folder<R>,
    name: StoreFile,
    at: u64,
    into: &mut [u8],
) -> Result<bool, Failure>
    requires { AreOpenedToRead R.opened (option_map string_bytes folder.now.dir) files.old.files.items }
    ensures reads { IfOk result (λ whole. IsRange (IsReadAt R.opened R.missing R.File.gave
        (option_map string_bytes folder.now.dir) name at) whole into.new) }
    ensures zeros { IfOk result
        (λ whole. whole ≡ false → into.new ≡ replicate (length into.new) 0) }
    ensures left { AreOpenedToRead R.opened (option_map string_bytes folder.now.dir)
        files.new.files.items }
    ensures failed { IfErr result (IsFailureOn (IsOnFileOrSync name) (folder.now.dir ≡ None) ⊥) }
{
    let Some(file) = take_to_read(files, folder, name)? else {
        return Ok(whole_or_zeros(0, into));
    };
    let is_whole = file.read_whole(at, into)?;
    files.keep(file);
    Ok(is_whole)
}

// The file of this name, which isn't among the open ones from now on; none where there is none. There is
// room for it.
fn take_to_read<R: PathCalls<File: FileCalls> + AllocGlobal + Drop>(
    files: &mut OpenFiles<R::File>,
    folder: &Folder<R>,
    name: StoreFile,
) -> Result<Option<Opened<R::File>>, Failure>
    requires { AreOpenedToRead R.opened (option_map string_bytes folder.now.dir) files.old.files.items }
    ensures room { OnOk result (vec_len files.new.files < vec_capacity files.new.files) }
    ensures named { IfOk result (λ found. IfSome found (λ file. file.name ≡ name)) }
    ensures opened { IfOk result (λ found. IsMadeAt (option_map string_bytes folder.now.dir) name
        (λ path. MatchOption found (R.missing path) (λ file. R.opened to_read path file.file))) }
    ensures left { AreOpenedToRead R.opened (option_map string_bytes folder.now.dir)
        files.new.files.items }
    ensures from { IfOk result (λ found. MatchOption found
        (IsMadeAt (option_map string_bytes folder.now.dir) name R.missing)
        (λ file. IsTakenOut files.old.files.items files.new.files.items name file
        ⊎ IsMadeAt (option_map string_bytes folder.now.dir) name
        (λ path. R.opened to_read path file.file))) }
    ensures failed { IfErr result (IsFailureOn (IsOnFileOrSync name) (folder.now.dir ≡ None) ⊥) }
{
    if let Some(file) = files.take(name) {
        return Ok(Some(file));
    }
    files.make_room()?;
    match folder.open(name)? {
        Some(file) => Ok(Some(Opened::new(name, file))),
        None => Ok(None),
    }
}

impl<R: PathCalls + Drop> Device for FsReader<R> {
    ghost tells = { ⊥ };

    ghost history = { λ _. nothing_told };

    ghost state = { state_of_reader };

    ghost sound = { λ _ tells. absurd tells };
}

impl<R: PathCalls<File: FileCalls + ReadCalls> + AllocGlobal + Drop> PageReader for FsReader<R> {
    fn read_page(&mut self, page: PageId, into: &mut [u8]) -> Result<bool, Failed>
        requires { length into.old ≤ PAGE_SIZE_MAX }
        ensures cause { HasCause (state_of_reader self.old) (state_of_reader self.new) result }
        ensures first { KeepsFirst (IsReaderFailure self.old
            (IsOnFileOrSync (Pages (part_of_id page))))
            self.old.faults self.new.faults result }
        ensures reads { IfOk result (λ whole. IsRange (IsReadAt R.opened R.missing R.File.gave
            self.old.folder (Pages (part_of_id page)) (page_at page (length into.new)))
            whole into.new) }
        ensures zeros { IfOk result
            (λ whole. whole ≡ false → into.new ≡ replicate (length into.new) 0) }
    {
        let is_whole = self.read(page, into);
        self.faults.counted(is_whole)
    }
}
