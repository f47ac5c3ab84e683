//! What comes of a store's folder that isn't there: the commands that change nothing end, and make none.

ghost use Rattle.std.specs.Prelude.{◌≡◌, false};

use crate::runs::{look_at_reply, run_host};
use pm_disk_mem::MemHost;
use std::process::Abort;
use std::sync::Wait;

/// A host in memory where no folder is there.
fn host_nowhere(rt: &(impl Abort + AllocGlobal)) -> MemHost
    ensures { result.is_lent ≡ false }
{
    MemHost::without_folder(rt.alloc(), b"", &[], None).expect(rt, "a host")
}

/// Makes the call that this word names where no folder is there, and looks at its status and at what it says.
fn look_at_call(rt: &(impl Abort + AllocGlobal + Wait), word: &str, status: u8, said: &[u8]) {
    let run = run_host(rt, &[word, "d"], host_nowhere(rt));
    look_at_reply(rt, &run, status, said, &word);
}

#[test]
fn a_store_that_is_not_there_is_neither_listed_nor_checked(rt: HostRuntime) {
    look_at_call(&rt, "wal", 3, b"");
    look_at_call(&rt, "verify", 3, b"");
    look_at_call(&rt, "run", 0, b"");
}
