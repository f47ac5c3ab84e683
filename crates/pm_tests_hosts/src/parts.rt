//! What the parts of a host answer, as text.

ghost use Rattle.std.specs.Prelude.{◌≡◌, ◌==◌, false};
ghost use Rattle.pm_disk.specs.States.{IsLaterState, IsUsable, MayRead, MayWrite};

use crate::calls::{PAGE, Round};
use pm_disk::{Failed, Host, LogFile, PageReader, PageWriter};
use pm_types::PageId;
use std::alloc::{AllocError, Global};

/// Appends the bytes to the first segment.
fn append<L: LogFile>(log: &mut L, bytes: &[u8]) -> Result<(), Failed>
    requires { IsUsable (L.state log.old) }
    ensures { IsLaterState (L.state log.old) (L.state log.new) }
{
    let len = log.seg_len(1)?.unwrap_or(0);
    log.write_log(1, len, bytes)
}

/// Forces the first segment, where that is asked for.
fn force_log<L: LogFile>(log: &mut L, forces: bool) -> Result<(), Failed>
    requires { IsUsable (L.state log.old) }
    ensures { IsLaterState (L.state log.old) (L.state log.new) }
{
    if forces { log.force_log(1) } else { Ok(()) }
}

/// The length of the first segment.
fn len_of<L: LogFile>(log: &mut L) -> Result<Option<u64>, Failed>
    requires { IsUsable (L.state log.old) }
    ensures { IsLaterState (L.state log.old) (L.state log.new) }
{
    log.seg_len(1)
}

/// What the log part answers.
fn on_log<L: LogFile>(
    alloc: Global,
    log: &mut L,
    bytes: &[u8],
    forces: bool,
) -> Result<String, AllocError>
    requires { IsUsable (L.state log.old) }
    ensures { IsLaterState (L.state log.old) (L.state log.new) }
{
    let len = len_of(log);
    let written = append(log, bytes);
    let forced = force_log(log, forces);
    format!(in alloc; "{len:?} {written:?} {forced:?}")
}

/// Writes a page.
fn write_page<W: PageWriter>(writer: &mut W, page: PageId, byte: u8) -> Result<(), Failed>
    requires { MayWrite (W.state writer.old) page }
    ensures { IsLaterState (W.state writer.old) (W.state writer.new) }
{
    writer.write_page(page, &[byte; PAGE])
}

/// What the writer answers.
fn on_pages<W: PageWriter>(
    alloc: Global,
    writer: &mut W,
    page: PageId,
    byte: u8,
) -> Result<String, AllocError>
    requires { MayWrite (W.state writer.old) page }
    ensures { IsLaterState (W.state writer.old) (W.state writer.new) }
{
    let written = write_page(writer, page, byte);
    let forced = writer.force_pages(page.part());
    format!(in alloc; "{written:?} {forced:?}")
}

/// What a reader answers, and what it has read.
fn on_page<P: PageReader>(alloc: Global, reader: &mut P, page: PageId) -> Result<String, AllocError>
    requires { MayRead (P.state reader.old) page }
{
    let mut into = [1; PAGE];
    let whole = reader.read_page(page, &mut into);
    format!(in alloc; "{whole:?} {into:?}")
}

/// What the parts have answered, and what the host has that was to say something meanwhile.
fn joined(
    alloc: Global,
    logged: Result<String, AllocError>,
    paged: Result<String, AllocError>,
    read: Result<String, AllocError>,
    said: Result<(), Failed>,
) -> Result<String, AllocError> {
    let (logged, paged, read) = (logged?, paged?, read?);
    format!(in alloc; "{logged}; {paged}; {read}; {said:?}")
}

/// What the parts of a host answer, and what it answers meanwhile that is to say something.
fn on_all<H: Host>(
    alloc: Global,
    host: &mut H,
    round: &Round,
    due: PageId,
    other: PageId,
) -> Result<String, AllocError>
    requires usable { IsUsable (H.state host.old) }
    requires apart { (due.0 == other.0) ≡ false }
    ensures { IsUsable (H.state host.new) }
{
    let mut lent = host.lend(&[due], 2)?;
    let logged = on_log(alloc, &mut lent.log, round.append, round.forces);
    let paged = on_pages(alloc, &mut lent.writer, due, round.due.2);
    let read = on_page(alloc, &mut lent.readers[1], other);
    let said = host.print(b"no");
    host.take_back(lent);
    joined(alloc, logged, paged, read, said)
}

/// What the parts of a host answer.
pub fn answer_round<H: Host>(
    alloc: Global,
    host: &mut H,
    round: &Round,
) -> Result<String, AllocError>
    requires { IsUsable (H.state host.old) }
    ensures { IsUsable (H.state host.new) }
{
    let due = PageId::new(round.due.0, round.due.1);
    let other = PageId::new(round.read.0, round.read.1);
    if due.0 == other.0 {
        return String::from_str(alloc, "the page is due");
    }
    on_all(alloc, host, round, due, other)
}
