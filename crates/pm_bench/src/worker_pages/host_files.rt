//! A partition's pages in the files of a host in memory.

ghost use Rattle.std.specs.Prelude.{IfOk, OnOk};
ghost use Rattle.pm_disk.specs.States.{IsUsable, MayUseAllPages};
ghost use Rattle.pm_disk_mem.specs.Hosts.{state_of};

use crate::worker_pages::records::Logged;
use crate::worker_pages::stop::Stop;
use pm_disk::{Failed, Host, PageWriter};
use pm_disk_mem::{MemDisk, MemHost};
use pm_pages::PlainPages;
use pm_types::{PAGE_SIZE_MAX, PageId};
use std::alloc::Global;

// Writes a page of partition 0.
fn store_page<W: PageWriter>(writer: &mut W, plain: &PlainPages, index: u32) -> Result<(), Failed>
    requires usable { IsUsable (W.state writer.old) }
    requires pages { MayUseAllPages (W.state writer.old) }
    ensures usable { IsUsable (W.state writer.new) }
    ensures pages { MayUseAllPages (W.state writer.new) }
{
    match plain.page(index) {
        Some(bytes) if bytes.len() <= PAGE_SIZE_MAX => {
            writer.write_page(PageId::new(0, index), bytes)
        }
        _ => Err(Failed),
    }
}

// Writes each page of partition 0, and forces the partition's file.
fn store<W: PageWriter>(writer: &mut W, plain: &PlainPages) -> Result<(), Failed>
    requires usable { IsUsable (W.state writer.old) }
    requires pages { MayUseAllPages (W.state writer.old) }
    ensures usable { IsUsable (W.state writer.new) }
    ensures pages { MayUseAllPages (W.state writer.new) }
{
    'pages: for index in 0..u32::try_from(plain.len()).unwrap_or(0) {
        store_page(writer, plain, index)?;
    }
    writer.force_pages(0)
}

/// Writes each page of partition 0 that the log has had, and forces the partition's file.
pub fn store_logged<W: PageWriter>(
    writer: &mut W,
    plain: &PlainPages,
    logged: &Logged,
) -> Result<(), Failed>
    requires usable { IsUsable (W.state writer.old) }
    requires pages { MayUseAllPages (W.state writer.old) }
    ensures { IsUsable (W.state writer.new) }
{
    'pages: for index in 0..u32::try_from(plain.len()).unwrap_or(0) {
        if logged.has(index) {
            store_page(writer, plain, index)?;
        }
    }
    writer.force_pages(0)
}

/// A host whose files have the pages of this partition 0.
pub fn host_with(alloc: Global, plain: &PlainPages) -> Result<MemHost, Stop>
    ensures usable { IfOk result (λ host. IsUsable (state_of host)) }
    ensures pages { IfOk result (λ host. MayUseAllPages (state_of host)) }
{
    let disk = MemDisk::empty(alloc);
    let mut host = MemHost::new(alloc, b"", b"", disk, &[], None)?;
    host.bind("store")?;
    store(&mut host, plain)?;
    Ok(host)
}
