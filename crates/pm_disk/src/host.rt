//! Disk and console together.

ghost use Rattle.std.specs.Prelude.{◌≡◌, ◌<◌, ◌≤◌, ◌↔◌, [], ◌∷◌, true, false, length, map, take};
ghost use Rattle.std.specs.Prelude.{vec_len, Some, IfOk, IsErr, All};
ghost use Rattle.std.specs.Result.{result_unwrap_or};
ghost use Rattle.pm_disk.specs.Lending.{PartsLent, PartsBegin, Lends, TakesBack, Joins};
ghost use Rattle.pm_disk.specs.States.{HasCause, IsUsable, MayUseAllPages, Binds};
ghost use Rattle.pm_disk.specs.States.{BindsFound};
ghost use Rattle.pm_disk.specs.Files.{Drop, ReadsFrom, ReadsWhole};
ghost use Rattle.pm_disk.specs.Worlds.{log_changed, marks_in, marks_changed, marks_forced, slot_at};
ghost use Rattle.pm_disk.specs.Worlds.{slot_change, with_taken};
ghost use Rattle.pm_disk.specs.Moments.{Does, Says};

use crate::failed::Failed;
use crate::lent::Lent;
use crate::log::LogFile;
use crate::mark::{MarkFile, SLOT_LEN};
use crate::pages::{PageReader, PageWriter};
use pm_types::PageId;
use std::alloc::AllocError;

/// Disk and console in one object, so that a moment pairs what the disk holds with what was said.
pub trait Host: LogFile + PageReader + PageWriter {
    /// Reads the pages that aren't due, on a thread of its own.
    type Reader: PageReader + Send + Drop;

    /// Writes the pages that are due, on a thread of its own.
    type Writer: PageWriter + Send + Drop;

    /// Has the log, on a thread of its own.
    type Log: LogFile + Send + Drop;

    /// Binds the folder of the store, and makes it where it isn't there. This, or `bind_found`, comes before
    /// every other call but `print`. After `Failed` the folder is bound that was bound before, and the one of
    /// this name may have been made.
    fn bind(&mut self, dir: &str) -> Result<(), Failed>
        requires whole { (Self.state self.old).access.is_lent ≡ false }
        ensures binds { Binds (Self.state self.old) (Self.state self.new) dir.now result }
        ensures does { Self.tells →
            Does (Self.history self.old) (Self.history self.new) result (Self.history self.old).world };

    /// Binds the folder of a store that is there. Where no folder of this name is there it fails, and makes
    /// nothing.
    fn bind_found(&mut self, dir: &str) -> Result<(), Failed>
        requires whole { (Self.state self.old).access.is_lent ≡ false }
        ensures binds { BindsFound (Self.state self.old) (Self.state self.new) dir.now result }
        ensures does { Self.tells →
            Does (Self.history self.old) (Self.history self.new) result (Self.history self.old).world };

    /// Reads the first bytes of the configuration, as many as it has and `into` holds, and answers how
    /// many; 0 where there is none.
    fn read_config(&mut self, into: &mut [u8]) -> Result<usize, Failed>
        requires usable { IsUsable (Self.state self.old) }
        ensures bound { IfOk result (λ n. n ≤ length into.new) }
        ensures reads { Self.tells → IfOk result
            (λ n. ReadsFrom (Some (Self.history self.old).world.config) 0 n into.new) }
        ensures does { Self.tells →
            Does (Self.history self.old) (Self.history self.new) result (Self.history self.old).world }
        ensures cause { HasCause (Self.state self.old) (Self.state self.new) result };

    /// Removes a segment's file, where it is there. A crash may leave it there again, until the segment
    /// was forced after this.
    fn drop_log(&mut self, seg: u64) -> Result<(), Failed>
        requires usable { IsUsable (Self.state self.old) }
        ensures does { Self.tells → Does (Self.history self.old) (Self.history self.new) result
            (log_changed seg Drop (Self.history self.old).world) }
        ensures cause { HasCause (Self.state self.old) (Self.state self.new) result };

    /// Fills `into` with a slot of a marker file, and answers true. It answers false, and fills `into`
    /// with zeros, exactly where the file ends before the slot's end.
    fn read_mark(
        &mut self,
        file: MarkFile,
        slot: u8,
        into: &mut [u8; SLOT_LEN],
    ) -> Result<bool, Failed>
        requires usable { IsUsable (Self.state self.old) }
        requires slot { slot < 2 }
        ensures reads { Self.tells → IfOk result
            (λ whole. ReadsWhole (marks_in (Self.history self.old).world file) (slot_at slot) whole into.new) }
        ensures does { Self.tells →
            Does (Self.history self.old) (Self.history self.new) result (Self.history self.old).world }
        ensures cause { HasCause (Self.state self.old) (Self.state self.new) result };

    /// Writes a slot of a marker file, over what stands there and past the end. An absent file is made.
    /// Where the file ends before the slot, zeros are written between the two.
    fn write_mark(&mut self, file: MarkFile, slot: u8, bytes: &[u8; SLOT_LEN]) -> Result<(), Failed>
        requires usable { IsUsable (Self.state self.old) }
        requires slot { slot < 2 }
        ensures does { Self.tells → Does (Self.history self.old) (Self.history self.new) result
            (marks_changed file (slot_change (marks_in (Self.history self.old).world file) slot bytes.now)
            (Self.history self.old).world) }
        ensures cause { HasCause (Self.state self.old) (Self.state self.new) result };

    /// Makes the bytes, the length and the existence of a marker file lasting, or, where there is no
    /// such file, its absence.
    fn force_mark(&mut self, file: MarkFile) -> Result<(), Failed>
        requires usable { IsUsable (Self.state self.old) }
        ensures does { Self.tells → Does (Self.history self.old) (Self.history self.new) result
            (marks_forced file (Self.history self.old).world) }
        ensures cause { HasCause (Self.state self.old) (Self.state self.new) result };

    /// Takes at least one byte of the input, at most as many as `into` holds, and answers how many;
    /// 0 where the input is at its end. After `Failed` nothing was taken.
    fn read(&mut self, into: &mut [u8]) -> Result<usize, Failed>
        requires usable { IsUsable (Self.state self.old) }
        requires room { 0 < length into.old }
        ensures bound { IfOk result (λ n. n ≤ length into.new) }
        ensures taken { Self.tells →
            IfOk result (λ n. take n into.new ≡ take n (Self.history self.old).world.input) }
        ensures some { Self.tells →
            IfOk result (λ n. n ≡ 0 → (Self.history self.old).world.input ≡ []) }
        ensures does { Self.tells → Does (Self.history self.old) (Self.history self.new) result
            (with_taken (result_unwrap_or result 0) (Self.history self.old).world) }
        ensures cause { HasCause (Self.state self.old) (Self.state self.new) result };

    /// Says the bytes. What is said lasts at once. After `Failed` a prefix of them was said.
    fn print(&mut self, bytes: &[u8]) -> Result<(), Failed>
        ensures says { Self.tells →
            Says (Self.history self.old) (Self.history self.new) result bytes.now }
        ensures cause { HasCause (Self.state self.old) (Self.state self.new) result }
        // Nothing is said while the parts are lent: what the disk holds then is known once they are back.
        ensures silent { (Self.state self.old).access.is_lent ≡ true → IsErr result };

    /// Splits the host into parts that may work beside each other: a reader for each worker, which may
    /// read the pages that aren't in `due`, one writer, which may write those that are, and the log.
    /// Until they are taken back no other call of the host may be made. Out of memory leaves the host
    /// as it was.
    fn lend(
        &mut self,
        due: &[PageId],
        workers: u32,
    ) -> Result<Lent<Self::Reader, Self::Writer, Self::Log>, AllocError>
        requires usable { IsUsable (Self.state self.old) }
        ensures lends { Lends (Self.state self.old) (Self.state self.new) result }
        ensures many { IfOk result (λ lent. vec_len lent.readers ≡ workers) }
        // What each part may do, of which no call has failed yet.
        ensures parts { IfOk result (λ lent. PartsLent due.now (Self.state self.old) Self.Reader.state
            lent.readers.items (Self.Writer.state lent.writer) (Self.Log.state lent.log)) }
        // What each part holds: what the host does.
        ensures begin { Self.tells → IfOk result (λ lent. PartsBegin (Self.history self.old)
            Self.Reader.history lent.readers.items (Self.Writer.history lent.writer)
            (Self.Log.history lent.log)) }
        ensures does { Self.tells →
            Does (Self.history self.old) (Self.history self.new) result (Self.history self.old).world };

    /// Takes the parts of the last `lend` back. The segments are what the log part made of them, the
    /// partitions' files what the writer made of them, and all else is as it was.
    fn take_back(&mut self, lent: Lent<Self::Reader, Self::Writer, Self::Log>)
        requires lent { (Self.state self.old).access.is_lent ≡ true }
        requires log { (Self.Log.state lent.log).access.folder ≡ (Self.state self.old).access.folder }
        requires writer { (Self.Writer.state lent.writer).access.folder
            ≡ (Self.state self.old).access.folder }
        ensures joins { Self.tells → Joins (Self.history self.old) (Self.history self.new)
            (Self.Log.history lent.log) (Self.Writer.history lent.writer) }
        ensures returns { TakesBack (Self.state self.old) (Self.state self.new)
            (Self.Log.state lent.log ∷ Self.Writer.state lent.writer
            ∷ map (λ reader. Self.Reader.state reader) lent.readers.items) };

    /// The parts tell their content exactly where the host does.
    ghost parts_tell: { (Self.Reader.tells ↔ Self.tells) × (Self.Writer.tells ↔ Self.tells)
        × (Self.Log.tells ↔ Self.tells) };

    /// The whole host may read and write each page.
    ghost all_pages: { (host : Self) → MayUseAllPages (Self.Device.state host) };
}
