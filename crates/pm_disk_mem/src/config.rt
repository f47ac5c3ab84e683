//! The configuration's file.

ghost use Rattle.std.specs.Prelude.{◌≡◌, IfOk};
ghost use Rattle.pm_disk_mem.specs.Changes.{bytes_in};
ghost use Rattle.pm_disk_mem.specs.Disks.{config_from, config_file};

use crate::bytes::readable;
use std::alloc::{AllocError, Global};

/// The configuration of a host that was handed these bytes: where they are none, that of the disk.
pub fn chosen(
    alloc: Global,
    handed_in: &[u8],
    stored: &Option<Vec<u8>>,
) -> Result<Vec<u8>, AllocError>
    ensures { IfOk result
        (λ config. config.items ≡ config_from handed_in.now (bytes_in stored.now)) }
{
    if handed_in.is_empty() {
        Vec::from_slice(alloc, readable(stored))
    } else {
        Vec::from_slice(alloc, handed_in)
    }
}

/// The file of a configuration: an empty one is absent.
pub fn as_file(alloc: Global, config: &[u8]) -> Result<Option<Vec<u8>>, AllocError>
    ensures { IfOk result (λ file. bytes_in file ≡ config_file config.now) }
{
    if config.is_empty() {
        return Ok(None);
    }
    Ok(Some(Vec::from_slice(alloc, config)?))
}
