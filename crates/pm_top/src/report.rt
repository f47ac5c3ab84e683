//! What a call did.

use pm_types::Lack;

/// What a call of `top` did.
#[derive(Debug, Drop)]
pub struct Report {
    /// How the call ended, as the process tells it: 0 done, 1 usage, 2 configuration, 3 disk or console,
    /// 4 memory, 5 a store with a bad record or page, 6 a script that is too long.
    pub status: u8,
    /// What ran out, where the status is 4.
    pub lack: Lack,
    /// The number of lines whose reply was printed whole; after `gen` the number of lines that were drawn, once
    /// its one line was printed whole.
    pub lines: u64,
    /// The numbers of the accepted lines, from 1, in the order in which they were done.
    pub order: Vec<u32>,
}
