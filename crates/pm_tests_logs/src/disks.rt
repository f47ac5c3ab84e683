//! A host in memory over an empty disk, and what a crash leaves of it.

ghost use Rattle.std.specs.Prelude.{◌≡◌, false, OnOk};
ghost use Rattle.pm_disk.specs.States.{IsUsable};
ghost use Rattle.pm_disk_mem.specs.Hosts.{state_of};

use pm_disk::{Failed, Host};
use pm_disk_mem::{MemDisk, MemHost, Pick};
use std::process::Abort;

/// A disk in a box, whose drop is a call: that of the disk itself would stand in each function that has one.
pub type Disk = Box<MemDisk>;

/// Binds a host to a folder.
fn bind<H: Host>(host: &mut H, folder: &str) -> Result<(), Failed>
    requires { (H.state host.old).access.is_lent ≡ false }
    ensures { OnOk result (IsUsable (H.state host.new)) }
{
    host.bind(folder)
}

/// A host over an empty disk, which isn't bound yet.
fn new_host(rt: &(impl Abort + AllocGlobal)) -> MemHost
    ensures { result.is_lent ≡ false }
{
    let disk = MemDisk::empty(rt.alloc());
    MemHost::new(rt.alloc(), b"", b"", disk, &[], None).expect(rt, "a host")
}

/// A host over an empty disk, with a folder bound.
pub fn empty_host(rt: &(impl Abort + AllocGlobal)) -> MemHost
    ensures { IsUsable (state_of result) }
{
    let mut host = new_host(rt);
    bind(&mut host, "store").expect(rt, "a folder");
    host
}

/// The disk that this crash leaves of a host.
pub fn left_of(rt: &(impl Abort + AllocGlobal), host: &MemHost, pick: Pick) -> Disk {
    let disk = host.image(rt.alloc(), pick).expect(rt, "an image");
    Box::new(rt.alloc(), disk).expect(rt, "a disk")
}

/// The bytes of a file, none where it isn't there.
pub fn file_bytes<'a>(disk: &'a Disk, name: &str) -> &'a [u8] {
    disk.file(name).unwrap_or(b"")
}

/// Whether a file is there.
pub fn has_file(disk: &Disk, name: &str) -> bool {
    disk.file(name).is_some()
}
