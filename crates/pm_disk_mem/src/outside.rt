//! The calls on the console, the configuration and the markers, in memory.

ghost use Rattle.std.specs.Prelude.{◌≡◌, ◌<◌, ◌≤◌, [], ◌∷◌, true, length, map, take, vec_len, refl};
ghost use Rattle.std.specs.Prelude.{Some, IfOk, OnOk, OnErr, IsErr, All};
ghost use Rattle.std.specs.Result.{result_unwrap_or};
ghost use Rattle.pm_disk.specs.Lending.{PartsLent, PartsBegin, Lends, TakesBack, Joins};
ghost use Rattle.pm_disk.specs.States.{Binds, BindsFound, HasCause};
ghost use Rattle.pm_disk.specs.Files.{Drop, ReadsFrom, ReadsWhole};
ghost use Rattle.pm_disk.specs.Worlds.{log_changed, marks_in, marks_changed, marks_forced, slot_at};
ghost use Rattle.pm_disk.specs.Worlds.{slot_change, with_taken};
ghost use Rattle.pm_disk.specs.Moments.{Does, Says};
ghost use Rattle.pm_disk_mem.specs.Plans.{KeepsPlan};

use crate::bytes::copy_front;
use crate::change::FileChange;
use crate::host::MemHost;
use crate::part::MemPart;
use crate::presence::Presence;
use crate::reader::MemReader;
use crate::split::join_readers;
use crate::step::{ChangedFile, Step};
use pm_disk::{Failed, Host, Lent, MarkFile, SLOT_LEN};
use pm_types::PageId;
use std::alloc::AllocError;

impl Host for MemHost {
    ghost use Rattle.pm_disk_mem.specs.Hosts.{world_of, history_of, state_of, calls_of, IsCounted};
    ghost use Rattle.pm_disk_mem.specs.Hosts.{FailsAsPlanned};
    ghost use Rattle.pm_disk_mem.specs.Lent.{history_of_part, state_of_part, history_of_reader};
    ghost use Rattle.pm_disk_mem.specs.Lent.{state_of_reader};
    ghost use Rattle.pm_disk_mem.specs.Presences.{once_bound};

    type Reader = MemReader;

    type Writer = MemPart;

    type Log = MemPart;

    /// There is one folder, under each name: what changes is which name is bound, and that the folder is
    /// there. A failed call has made none.
    fn bind(&mut self, dir: &str) -> Result<(), Failed>
        ensures binds { Binds (state_of self.old) (state_of self.new) dir.now result }
        ensures made { OnOk result (self.new.presence ≡ once_bound self.old.presence) }
        ensures unmade { OnErr result (self.new.presence ≡ self.old.presence) }
        ensures does { Does (history_of self.old) (history_of self.new) result (world_of self.old) }
        ensures counted { IsCounted self.old self.new result }
    {
        self.failures.begin()?;
        self.take_name(dir)?;
        self.presence = self.presence.once_bound();
        Ok(())
    }

    /// The one folder is there or not, under each name.
    fn bind_found(&mut self, dir: &str) -> Result<(), Failed>
        ensures binds { BindsFound (state_of self.old) (state_of self.new) dir.now result }
        ensures missing { self.old.presence ≡ Presence.Missing → IsErr result }
        ensures unmade { self.new.presence ≡ self.old.presence }
        ensures does { Does (history_of self.old) (history_of self.new) result (world_of self.old) }
        ensures counted { IsCounted self.old self.new result }
    {
        self.failures.begin()?;
        if self.presence == Presence::Missing {
            return Err(self.failures.fail());
        }
        self.take_name(dir)
    }

    fn read_config(&mut self, into: &mut [u8]) -> Result<usize, Failed>
        ensures bound { IfOk result (λ n. n ≤ length into.new) }
        ensures reads { IfOk result
            (λ n. ReadsFrom (Some (world_of self.old).config) 0 n into.new) }
        ensures does { Does (history_of self.old) (history_of self.new) result (world_of self.old) }
        ensures cause { HasCause (state_of self.old) (state_of self.new) result }
        ensures as_planned { FailsAsPlanned self.old self.new result }
    {
        self.failures.begin()?;
        Ok(copy_front(&self.config, into))
    }

    /// A failed call has removed nothing.
    fn drop_log(&mut self, seg: u64) -> Result<(), Failed>
        ensures does { Does (history_of self.old) (history_of self.new) result
            (log_changed seg Drop (world_of self.old)) }
        ensures unchanged { OnErr result (world_of self.new ≡ world_of self.old) }
        ensures cause { HasCause (state_of self.old) (state_of self.new) result }
        ensures counted { IsCounted self.old self.new result }
    {
        self.failures.begin()?;
        self.run(Step::Change(ChangedFile::Segment(seg), FileChange::Remove))
    }

    fn read_mark(
        &mut self,
        file: MarkFile,
        slot: u8,
        into: &mut [u8; SLOT_LEN],
    ) -> Result<bool, Failed>
        requires { slot < 2 }
        ensures reads { IfOk result (λ whole. ReadsWhole
            (marks_in (world_of self.old) file) (slot_at slot) whole into.new) }
        ensures does { Does (history_of self.old) (history_of self.new) result (world_of self.old) }
        ensures cause { HasCause (state_of self.old) (state_of self.new) result }
        ensures as_planned { FailsAsPlanned self.old self.new result }
    {
        self.failures.begin()?;
        let at = slot as u64 * SLOT_LEN as u64;
        Ok(self.files.read_whole(ChangedFile::Marks(file), at, into))
    }

    /// A failed call has written nothing.
    fn write_mark(&mut self, file: MarkFile, slot: u8, bytes: &[u8; SLOT_LEN]) -> Result<(), Failed>
        requires { slot < 2 }
        ensures does { Does (history_of self.old) (history_of self.new) result
            (marks_changed file (slot_change (marks_in (world_of self.old) file) slot bytes.now)
            (world_of self.old)) }
        ensures unchanged { OnErr result (world_of self.new ≡ world_of self.old) }
        ensures cause { HasCause (state_of self.old) (state_of self.new) result }
        ensures counted { IsCounted self.old self.new result }
    {
        self.failures.begin()?;
        let at = slot as u64 * SLOT_LEN as u64;
        self.write_at(ChangedFile::Marks(file), at, bytes)
    }

    /// A failed call has made nothing lasting.
    fn force_mark(&mut self, file: MarkFile) -> Result<(), Failed>
        ensures does { Does (history_of self.old) (history_of self.new) result
            (marks_forced file (world_of self.old)) }
        ensures unchanged { OnErr result (world_of self.new ≡ world_of self.old) }
        ensures cause { HasCause (state_of self.old) (state_of self.new) result }
        ensures counted { IsCounted self.old self.new result }
    {
        self.failures.begin()?;
        self.run(Step::Force(ChangedFile::Marks(file)))
    }

    fn read(&mut self, into: &mut [u8]) -> Result<usize, Failed>
        requires { 0 < length into.old }
        ensures bound { IfOk result (λ n. n ≤ length into.new) }
        ensures taken { IfOk result (λ n. take n into.new ≡ take n (world_of self.old).input) }
        ensures some { IfOk result (λ n. n ≡ 0 → (world_of self.old).input ≡ []) }
        ensures does { Does (history_of self.old) (history_of self.new) result
            (with_taken (result_unwrap_or result 0) (world_of self.old)) }
        ensures cause { HasCause (state_of self.old) (state_of self.new) result }
        ensures counted { IsCounted self.old self.new result }
    {
        self.failures.begin()?;
        let count = self.console.peek(into);
        self.run(Step::Take(count))?;
        Ok(count)
    }

    /// A failed call has said nothing.
    fn print(&mut self, bytes: &[u8]) -> Result<(), Failed>
        ensures says { Says (history_of self.old) (history_of self.new) result bytes.now }
        ensures unchanged { OnErr result (world_of self.new ≡ world_of self.old) }
        ensures cause { HasCause (state_of self.old) (state_of self.new) result }
        ensures counted { IsCounted self.old self.new result }
        ensures silent { self.old.is_lent ≡ true → IsErr result }
    {
        self.failures.begin()?;
        if self.is_lent {
            return Err(self.failures.fail());
        }
        let copy = self.failures.counted(Vec::from_slice(self.alloc, bytes))?;
        self.run(Step::Print(copy))
    }

    /// The parts have copies of the files, so it takes time and memory in their size. Each part counts its
    /// calls on from those of the host.
    fn lend(
        &mut self,
        due: &[PageId],
        workers: u32,
    ) -> Result<Lent<MemReader, MemPart, MemPart>, AllocError>
        ensures lends { Lends (state_of self.old) (state_of self.new) result }
        ensures many { IfOk result (λ lent. vec_len lent.readers ≡ workers) }
        ensures parts { IfOk result (λ lent. PartsLent due.now (state_of self.old) state_of_reader
            lent.readers.items (state_of_part lent.writer) (state_of_part lent.log)) }
        ensures begin { IfOk result (λ lent. PartsBegin (history_of self.old) history_of_reader
            lent.readers.items (history_of_part lent.writer) (history_of_part lent.log)) }
        ensures does { Does (history_of self.old) (history_of self.new) result (world_of self.old) }
        ensures failures { self.new.failures ≡ self.old.failures }
    {
        self.events.reserve(1)?;
        let lent = self.parts(due, workers)?;
        self.is_lent = true;
        Ok(lent)
    }

    /// Its calls count on from the part that made most.
    fn take_back(&mut self, lent: Lent<MemReader, MemPart, MemPart>)
        requires lent { self.old.is_lent ≡ true }
        ensures joins { Joins (history_of self.old) (history_of self.new)
            (history_of_part lent.log) (history_of_part lent.writer) }
        ensures returns { TakesBack (state_of self.old) (state_of self.new)
            (state_of_part lent.log ∷ state_of_part lent.writer
            ∷ map (λ reader. state_of_reader reader) lent.readers.items) }
        ensures plan { KeepsPlan self.old.failures self.new.failures }
        ensures log_calls { calls_of self.old ≤ calls_of self.new × lent.log.failures.calls ≤ calls_of self.new
            × lent.writer.failures.calls ≤ calls_of self.new }
    {
        let Lent {
            readers,
            writer,
            log,
        } = lent;
        self.failures.join(&log.failures);
        self.failures.join(&writer.failures);
        join_readers(&mut self.failures, &readers);
        self.put_back(log, writer);
    }

    ghost parts_tell = { ((λ t. t, λ t. t), (λ t. t, λ t. t), (λ t. t, λ t. t)) };

    ghost all_pages = { λ _. record { reads = λ _. refl; writes = λ _. refl } };
}
