//! What a command did.

ghost use Rattle.std.specs.Prelude.{◌≡◌, []};

use crate::status::Status;
use pm_types::{Lack, StoreFault};
use std::alloc::Global;

/// What a command did.
#[derive(Drop)]
pub struct Outcome {
    /// How it ended.
    pub status: Status,
    /// What ran out, where it ended with `Memory`.
    pub lack: Lack,
    /// The number of lines that it answered.
    pub lines: u64,
    /// The numbers of the accepted lines, in the order in which they were done.
    pub order: Vec<u32>,
}

impl Outcome {
    /// No line was done.
    pub fn without(alloc: Global, status: Status) -> Outcome
        ensures status { result.status ≡ status }
        ensures lines { result.lines ≡ 0 }
        ensures order { result.order.items ≡ [] }
    {
        Outcome {
            status,
            lack: Lack::Bytes,
            lines: 0,
            order: Vec::new(alloc),
        }
    }

    /// No line was done, since this ran out.
    pub fn lacking(alloc: Global, lack: Lack) -> Outcome
        ensures status { result.status ≡ Status.Memory }
        ensures lines { result.lines ≡ 0 }
        ensures order { result.order.items ≡ [] }
    {
        Outcome {
            status: Status::Memory,
            lack,
            lines: 0,
            order: Vec::new(alloc),
        }
    }
}

/// What ran out, where the work ended with `Memory`.
pub fn lack_of<T>(ended: &Result<T, StoreFault>) -> Lack {
    match ended {
        Err(StoreFault::Memory(lack)) => *lack,
        Err(StoreFault::Failed) => Lack::Bytes,
        Err(StoreFault::BadPage(_)) => Lack::Bytes,
        Err(StoreFault::BadRecord(_)) => Lack::Bytes,
        Ok(_) => Lack::Bytes,
    }
}
