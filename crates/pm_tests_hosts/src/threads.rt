//! The log part and the writer of a host on two threads.

ghost use Rattle.std.specs.Prelude.{◌≡◌, false, IfOk};
ghost use Rattle.pm_disk.specs.States.{IsLaterState, IsUsable, MayWrite};

use crate::calls::bind;
use crate::looks::{same, same_bytes};
use pm_disk::{Failed, Host, Lent, LogFile, PageWriter};
use pm_disk_fs::FsHost;
use pm_types::PageId;
use std::alloc::AllocError;
use std::fs;
use std::process::Abort;
use std::rt::Files;
use std::thread::{Threads, join_mut};

/// The folder of the store.
const FOLDER: &str = "beside";

/// How often the host is split.
const ROUNDS: u32 = 40;

/// The log part, and whether its calls were done.
#[derive(Drop)]
struct LogJob<L: LogFile + Drop> {
    log: L,
    is_done: bool,
    ghost usable: { IsUsable (L.state log) },
}

/// The writer, the page that it is to write, and whether its calls were done.
#[derive(Drop)]
struct PageJob<W: PageWriter + Drop> {
    writer: W,
    page: PageId,
    is_done: bool,
    ghost allowed: { MayWrite (W.state writer) page },
}

/// Appends four bytes to the first segment, and forces it.
fn append<L: LogFile>(log: &mut L) -> Result<(), Failed>
    requires { IsUsable (L.state log.old) }
    ensures { IsLaterState (L.state log.old) (L.state log.new) }
{
    let len = log.seg_len(1)?.unwrap_or(0);
    log.write_log(1, len, b"line")?;
    log.force_log(1)
}

/// Writes a page, and forces its file.
fn write<W: PageWriter>(writer: &mut W, page: PageId) -> Result<(), Failed>
    requires { MayWrite (W.state writer.old) page }
    ensures { IsLaterState (W.state writer.old) (W.state writer.new) }
{
    writer.write_page(page, b"page")?;
    writer.force_pages(page.part())
}

impl<L: LogFile + Drop> LogJob<L> {
    fn work(&mut self)
        ensures { IsLaterState (L.state self.old.log) (L.state self.new.log) }
    {
        self.is_done = append(&mut self.log).is_ok();
    }
}

impl<W: PageWriter + Drop> PageJob<W> {
    fn work(&mut self)
        ensures { IsLaterState (W.state self.old.writer) (W.state self.new.writer) }
    {
        self.is_done = write(&mut self.writer, self.page).is_ok();
    }
}

/// Does both jobs, each on a thread of its own.
fn beside<R: Threads, L: LogFile + Send + Drop, W: PageWriter + Send + Drop>(
    rt: &R,
    log: &mut LogJob<L>,
    pages: &mut PageJob<W>,
)
    ensures log { IsLaterState (L.state log.old.log) (L.state log.new.log) }
    ensures pages { IsLaterState (W.state pages.old.writer) (W.state pages.new.writer) }
{
    join_mut(rt, &mut || log.work(), &mut || pages.work());
}

/// Splits the host for one round. Answers whether all its calls were done.
fn round<R: Threads, H: Host>(rt: &R, host: &mut H, page: PageId) -> Result<bool, AllocError>
    requires { IsUsable (H.state host.old) }
    ensures { IsUsable (H.state host.new) }
{
    let Lent {
        readers,
        writer,
        log,
    } = host.lend(&[page], 1)?;
    let mut appending = LogJob {
        log,
        is_done: false,
    };
    let mut writing = PageJob {
        writer,
        page,
        is_done: false,
    };
    beside(rt, &mut appending, &mut writing);
    let LogJob { log, is_done } = appending;
    let PageJob {
        writer,
        page: _,
        is_done: is_written,
    } = writing;
    host.take_back(Lent {
        readers,
        writer,
        log,
    });
    Ok(is_done && is_written)
}

/// Splits the host for each round. Answers how many were done.
fn rounds<R: Threads + Abort, H: Host>(rt: &R, host: &mut H) -> u32
    requires { (H.state host.old).access.is_lent ≡ false }
{
    bind(host, FOLDER).expect(rt, FOLDER);
    let mut done: u32 = 0;
    for index in 0..ROUNDS {
        if round(rt, host, PageId::new(3, index)).expect(rt, "parts") {
            done = done.saturating_add(1);
        }
    }
    done
}

/// A host over real files. It is in a box, whose drop is a call.
fn host_over(files: &HostRuntime) -> Result<Box<FsHost<HostRuntime>>, AllocError>
    ensures { IfOk result (λ host. host.value.is_lent ≡ false) }
{
    Ok(Box::new(files.alloc(), FsHost::new(files.clone()?))?)
}

/// Splits a host over real files for each round, and looks that all were done.
fn look_at_rounds(rt: &(impl Threads + Abort), files: &HostRuntime) {
    let mut host = host_over(files).expect(rt, "a host");
    let done = rounds(rt, &mut *host);
    same(rt, "rounds", u64::from(done), u64::from(ROUNDS), &FOLDER);
}

/// Looks at a file that has these four bytes for each round.
fn look_at_file(rt: &(impl Abort + AllocGlobal + Files), path: &str, four: &[u8; 4]) {
    let bytes = fs::read(rt, path).expect(rt, path);
    let wanted = four.repeat(rt.alloc(), 40).expect(rt, path);
    same_bytes(rt, "bytes", &bytes, &wanted, &path);
}

#[test]
fn both_parts_work_beside_each_other(rt: HostRuntime) {
    look_at_rounds(&rt, &rt);
    look_at_file(&rt, "beside/wal-0000000000000001.seg", b"line");
    look_at_file(&rt, "beside/part-003.pages", b"page");
    fs::remove_dir_all(&rt, FOLDER).expect(&rt, FOLDER);
}
