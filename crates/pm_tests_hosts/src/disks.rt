//! Disks in memory, hosts over them, and what a crash leaves of such a host.

ghost use Rattle.std.specs.Prelude.{◌≡◌, false};

use pm_disk_mem::{MemDisk, MemHost, Pick};
use std::process::Abort;

/// The file of the log's first segment.
pub const SEGMENT: &str = "wal-0000000000000001.seg";

/// A disk in a box, whose drop is a call: that of the disk itself would stand in each function that has one.
pub type Disk = Box<MemDisk>;

/// A disk in a box.
fn boxed(rt: &(impl Abort + AllocGlobal), disk: MemDisk) -> Disk {
    Box::new(rt.alloc(), disk).expect(rt, "a disk")
}

/// The disk that this crash leaves of a host.
pub fn left_of(rt: &(impl Abort + AllocGlobal), host: &MemHost, pick: Pick) -> Disk {
    boxed(rt, host.image(rt.alloc(), pick).expect(rt, "an image"))
}

/// A disk without a file.
pub fn no_files(rt: &(impl Abort + AllocGlobal)) -> Disk {
    boxed(rt, MemDisk::empty(rt.alloc()))
}

/// A host over a disk, beside this input and this configuration. The calls of these numbers are refused, and
/// from the stop on all.
pub fn host_over(
    rt: &(impl Abort + AllocGlobal),
    input: &[u8],
    config: &[u8],
    disk: Disk,
    refused: &[u64],
    stop: Option<u64>,
) -> MemHost
    ensures { result.is_lent ≡ false }
{
    let disk = Box::into_inner(disk);
    MemHost::new(rt.alloc(), input, config, disk, refused, stop).expect(rt, "a host")
}

/// The bytes of a file, none where it isn't there.
pub fn file_bytes<'a>(disk: &'a Disk, name: &str) -> &'a [u8] {
    disk.file(name).unwrap_or(b"")
}

/// Puts a file on a disk.
pub fn put_file(rt: &impl Abort, disk: &mut Disk, name: &str, bytes: &[u8]) {
    disk.put_file(name, bytes).expect(rt, "a file");
}
