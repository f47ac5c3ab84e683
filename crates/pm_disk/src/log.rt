//! The calls on the log. It is a row of files, its segments, numbered from 1.

ghost use Rattle.std.specs.Prelude.{◌≡◌, ◌≤◌, length, IfOk, option_map};
ghost use Rattle.pm_disk.specs.States.{HasCause, IsUsable};
ghost use Rattle.pm_disk.specs.Files.{Write, Cut, bytes_of, ReadsFrom};
ghost use Rattle.pm_disk.specs.Worlds.{segment_in, log_changed, log_forced};
ghost use Rattle.pm_disk.specs.Moments.{Does};

use crate::device::Device;
use crate::failed::Failed;

/// Reads the log's segments. After `Failed` nothing is known of what was asked.
pub trait LogReader: Device {
    /// The length of a segment's file, in bytes, and none where there is no such file.
    fn seg_len(&mut self, seg: u64) -> Result<Option<u64>, Failed>
        requires usable { IsUsable (Self.state self.old) }
        ensures len { Self.tells → IfOk result
            (λ len. len ≡ option_map length (segment_in (Self.history self.old).world seg)) }
        ensures does { Self.tells →
            Does (Self.history self.old) (Self.history self.new) result (Self.history self.old).world }
        ensures cause { HasCause (Self.state self.old) (Self.state self.new) result };

    /// Reads what a segment's file has from the offset `at` on, at most as many bytes as `into`
    /// holds, and answers how many. Where they are fewer the file ends there; an absent one has none.
    fn read_log(&mut self, seg: u64, at: u64, into: &mut [u8]) -> Result<usize, Failed>
        requires usable { IsUsable (Self.state self.old) }
        ensures bound { IfOk result (λ n. n ≤ length into.new) }
        ensures reads { Self.tells → IfOk result
            (λ n. ReadsFrom (segment_in (Self.history self.old).world seg) at n into.new) }
        ensures does { Self.tells →
            Does (Self.history self.old) (Self.history self.new) result (Self.history self.old).world }
        ensures cause { HasCause (Self.state self.old) (Self.state self.new) result };
}

/// Changes the log's segments. A change lasts once its segment was forced after it; till then a
/// crash may leave each byte that it wrote or cut as anything. After `Failed` the call may have
/// been done.
pub trait LogFile: LogReader {
    /// Writes the bytes into a segment's file from the offset `at` on, over what stands there and
    /// past the end. An absent file is made.
    fn write_log(&mut self, seg: u64, at: u64, bytes: &[u8]) -> Result<(), Failed>
        requires usable { IsUsable (Self.state self.old) }
        requires reached { Self.tells →
            at ≤ length (bytes_of (segment_in (Self.history self.old).world seg)) }
        ensures does { Self.tells → Does (Self.history self.old) (Self.history self.new) result
            (log_changed seg (Write at bytes.now) (Self.history self.old).world) }
        ensures cause { HasCause (Self.state self.old) (Self.state self.new) result };

    /// Cuts a segment's file to this length, in bytes. An absent file, which has none, is made.
    fn cut_log(&mut self, seg: u64, len: u64) -> Result<(), Failed>
        requires usable { IsUsable (Self.state self.old) }
        requires reached { Self.tells →
            len ≤ length (bytes_of (segment_in (Self.history self.old).world seg)) }
        ensures does { Self.tells → Does (Self.history self.old) (Self.history self.new) result
            (log_changed seg (Cut len) (Self.history self.old).world) }
        ensures cause { HasCause (Self.state self.old) (Self.state self.new) result };

    /// Makes the bytes, the length and the existence of a segment's file lasting, or, where there is
    /// no such file, its absence.
    fn force_log(&mut self, seg: u64) -> Result<(), Failed>
        requires usable { IsUsable (Self.state self.old) }
        ensures does { Self.tells → Does (Self.history self.old) (Self.history self.new) result
            (log_forced seg (Self.history self.old).world) }
        ensures cause { HasCause (Self.state self.old) (Self.state self.new) result };
}
