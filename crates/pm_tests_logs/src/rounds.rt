//! A caller of a split host, proved against the contracts of the host alone: it appends on the log part
//! and writes a page on the writer, and knows what a crash leaves at each moment since it lent them.

ghost use Rattle.std.specs.Prelude.{◌≡◌, ◌≤◌, ◌+◌, true, false, length, IfOk, OnOk};
ghost use Rattle.pm_types.specs.declared.limits.TheConstants.{PAGE_SIZE_MAX};
ghost use Rattle.pm_disk.specs.Files.{Write, bytes_of, with_change, all_forced};
ghost use Rattle.pm_disk.specs.Images.{Image, LeavesAll};
ghost use Rattle.pm_disk.specs.Moments.{AllMoments};
ghost use Rattle.pm_disk.specs.States.{HasCause, IsLaterState, IsUsable, MayWrite};
ghost use Rattle.pm_disk.specs.Worlds.{World, segment_in};
ghost use Rattle.pm_tests_logs.specs.Rounds.{LogMoment, PageMoment, RoundMoment, LeftByRound};

use pm_disk::{Failed, Host, LogFile, PageWriter};
use pm_types::PageId;
use std::alloc::AllocError;

/// Appends the bytes to a segment, and makes them lasting.
pub fn append<L: LogFile>(log: &mut L, seg: u64, at: u64, bytes: &[u8]) -> Result<(), Failed>
    requires usable { IsUsable (L.state log.old) }
    requires reached { L.tells →
        at ≤ length (bytes_of (segment_in (L.history log.old).world seg)) }
    ensures moments { L.tells → AllMoments (L.history log.old) (L.history log.new)
        (LogMoment (L.history log.old).world seg at bytes.now) }
    ensures lasts { L.tells → OnOk result ((L.history log.new).world.log seg
        ≡ all_forced (with_change ((L.history log.old).world.log seg) (Write at bytes.now))) }
    ensures cause { HasCause (L.state log.old) (L.state log.new) result }
{
    log.write_log(seg, at, bytes)?;
    log.force_log(seg)
}

/// Writes a page that is due.
pub fn write_due<W: PageWriter>(writer: &mut W, page: PageId, bytes: &[u8]) -> Result<(), Failed>
    requires allowed { MayWrite (W.state writer.old) page }
    requires short { length bytes.now ≤ PAGE_SIZE_MAX }
    ensures moments { W.tells → AllMoments (W.history writer.old) (W.history writer.new)
        (PageMoment (W.history writer.old).world page bytes.now) }
    ensures cause { HasCause (W.state writer.old) (W.state writer.new) result }
{
    writer.write_page(page, bytes)
}

/// Does both on the parts of a host, and answers whether both were done.
pub fn round<H: Host>(
    host: &mut H,
    seg: u64,
    at: u64,
    bytes: &[u8],
    page: PageId,
    image: &[u8],
) -> Result<bool, AllocError>
    requires usable { IsUsable (H.state host.old) }
    requires reached { H.tells →
        at ≤ length (bytes_of (segment_in (H.history host.old).world seg)) }
    requires short { length image.now ≤ PAGE_SIZE_MAX }
    ensures moments { H.tells → AllMoments (H.history host.old) (H.history host.new)
        (RoundMoment (H.history host.old).world seg at bytes.now page image.now) }
    // What a crash leaves at each moment since the parts were lent.
    ensures crash { H.tells → (w : World) (left : Image)
        → (H.history host.new).was (H.history host.old).clock w → LeavesAll w left
        → LeftByRound (H.history host.old).world seg at page (length image.now) left }
    ensures lasts { H.tells → IfOk result (λ done. done ≡ true → (H.history host.new).world.log seg
        ≡ all_forced (with_change ((H.history host.old).world.log seg) (Write at bytes.now))) }
    ensures usable { IsUsable (H.state host.new) }
{
    let due = [page];
    let mut lent = host.lend(&due, 0)?;
    let appended = append(&mut lent.log, seg, at, bytes);
    let written = write_due(&mut lent.writer, page, image);
    host.take_back(lent);
    Ok(appended.is_ok() && written.is_ok())
}
