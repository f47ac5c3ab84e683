//! The calls on the log, in memory.

ghost use Rattle.std.specs.Prelude.{◌≡◌, ◌≤◌, length, IfOk, OnErr, option_map};
ghost use Rattle.pm_disk.specs.States.{HasCause};
ghost use Rattle.pm_disk.specs.Files.{Write, Cut, bytes_of, ReadsFrom};
ghost use Rattle.pm_disk.specs.Worlds.{segment_in, log_changed, log_forced};
ghost use Rattle.pm_disk.specs.Moments.{Does};

use crate::change::FileChange;
use crate::host::MemHost;
use crate::step::{ChangedFile, Step};
use pm_disk::{Failed, LogFile, LogReader};

impl LogReader for MemHost {
    ghost use Rattle.pm_disk_mem.specs.Hosts.{world_of, history_of, state_of, IsCounted, FailsAsPlanned};

    fn seg_len(&mut self, seg: u64) -> Result<Option<u64>, Failed>
        ensures len { IfOk result
            (λ len. len ≡ option_map length (segment_in (world_of self.old) seg)) }
        ensures does { Does (history_of self.old) (history_of self.new) result (world_of self.old) }
        ensures cause { HasCause (state_of self.old) (state_of self.new) result }
        ensures as_planned { FailsAsPlanned self.old self.new result }
    {
        self.failures.begin()?;
        Ok(self.files.log.len(seg))
    }

    fn read_log(&mut self, seg: u64, at: u64, into: &mut [u8]) -> Result<usize, Failed>
        ensures bound { IfOk result (λ n. n ≤ length into.new) }
        ensures reads { IfOk result
            (λ n. ReadsFrom (segment_in (world_of self.old) seg) at n into.new) }
        ensures does { Does (history_of self.old) (history_of self.new) result (world_of self.old) }
        ensures cause { HasCause (state_of self.old) (state_of self.new) result }
        ensures as_planned { FailsAsPlanned self.old self.new result }
    {
        self.failures.begin()?;
        Ok(self.files.log.read(seg, at, into))
    }
}

impl LogFile for MemHost {
    ghost use Rattle.pm_disk_mem.specs.Hosts.{world_of, history_of, state_of, IsCounted, FailsAsPlanned};

    /// A failed call has written nothing.
    fn write_log(&mut self, seg: u64, at: u64, bytes: &[u8]) -> Result<(), Failed>
        requires { at ≤ length (bytes_of (segment_in (world_of self.old) seg)) }
        ensures does { Does (history_of self.old) (history_of self.new) result
            (log_changed seg (Write at bytes.now) (world_of self.old)) }
        ensures unchanged { OnErr result (world_of self.new ≡ world_of self.old) }
        ensures cause { HasCause (state_of self.old) (state_of self.new) result }
        ensures counted { IsCounted self.old self.new result }
    {
        self.failures.begin()?;
        let copy = self.failures.counted(Vec::from_slice(self.alloc, bytes))?;
        self.run(Step::Change(ChangedFile::Segment(seg), FileChange::Write(at, copy)))
    }

    /// A failed call has cut nothing.
    fn cut_log(&mut self, seg: u64, len: u64) -> Result<(), Failed>
        requires { len ≤ length (bytes_of (segment_in (world_of self.old) seg)) }
        ensures does { Does (history_of self.old) (history_of self.new) result
            (log_changed seg (Cut len) (world_of self.old)) }
        ensures unchanged { OnErr result (world_of self.new ≡ world_of self.old) }
        ensures cause { HasCause (state_of self.old) (state_of self.new) result }
        ensures counted { IsCounted self.old self.new result }
    {
        self.failures.begin()?;
        self.run(Step::Change(ChangedFile::Segment(seg), FileChange::Cut(len)))
    }

    /// A failed call has made nothing lasting.
    fn force_log(&mut self, seg: u64) -> Result<(), Failed>
        ensures does { Does (history_of self.old) (history_of self.new) result
            (log_forced seg (world_of self.old)) }
        ensures unchanged { OnErr result (world_of self.new ≡ world_of self.old) }
        ensures cause { HasCause (state_of self.old) (state_of self.new) result }
        ensures counted { IsCounted self.old self.new result }
    {
        self.failures.begin()?;
        self.run(Step::Force(ChangedFile::Segment(seg)))
    }
}
