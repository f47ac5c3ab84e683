//! A row is put over a host in memory.

use crate::whole::put_once;
use pm_config::read_config_text;
use pm_disk_mem::{MemDisk, MemHost, Pick};
use pm_types::{Key, Value};
use std::process::Abort;
use std::sync::Wait;
use std::test::Fail;

/// One partition with room for one row.
const CONFIG: &[u8] = b"{\"partitions\": 1, \"max_rows\": 1}";

/// Puts a row into the store of a disk, and gives the disk that the worst crash leaves then, and whether it is put.
fn put_over(
    rt: &(impl Abort + AllocGlobal + Wait),
    disk: MemDisk,
    key: Key,
) -> Result<(MemDisk, bool), Fail> {
    let alloc = rt.alloc();
    let config = read_config_text(alloc, CONFIG).expect(rt, "a configuration");
    let mut host = MemHost::new(alloc, b"", b"", disk, &[], None)?;
    let value = Value::of(alloc, b"red")?;
    let is_put = put_once(rt, alloc, &mut host, "fruit", &config, 0, key, value)?;
    Ok((host.image(alloc, Pick::Lost)?, is_put))
}

// The second key is refused since the first one is there.
#[test]
fn a_row_is_there_after_a_crash(rt: HostRuntime) -> Result<(), Fail> {
    let alloc = rt.alloc();
    let none = MemDisk::empty(alloc);
    let (one, first) = put_over(&rt, none, Key::of(alloc, b"apple")?)?;
    let (same, other) = put_over(&rt, one, Key::of(alloc, b"pear")?)?;
    let (_, again) = put_over(&rt, same, Key::of(alloc, b"apple")?)?;
    assert!(rt; first && !other && again);
    Ok(())
}
