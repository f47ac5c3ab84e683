//! Whether a change of a file has failed, and what of the log isn't with the system yet.

ghost use Rattle.std.specs.Prelude.{◌≡◌, ◌↔◌, [], false, IsTrue, IsErr, IfErr};

use crate::failure::Failure;
use crate::write_buffer::WriteBuffer;
use std::alloc::Global;

/// What a change of a file has to know of those before it.
#[derive(Drop)]
pub struct Writes {
    /// Whether a change or a force of a file has failed. Nobody knows then what the disk holds.
    pub is_poisoned: bool,
    /// What was written to the log and isn't with the system yet.
    pub buffer: WriteBuffer,
}

impl Writes {
    /// Before the first change.
    pub fn new(alloc: Global) -> Writes
        ensures sound { result.is_poisoned ≡ false }
        ensures empty { result.buffer.bytes ≡ [] }
    {
        Writes {
            is_poisoned: false,
            buffer: WriteBuffer::new(alloc),
        }
    }

    /// Refuses a change where one has failed, and takes this one for failed until it is done.
    pub fn begin(&mut self) -> Result<(), Failure>
        ensures refused { IsErr result ↔ IsTrue self.old.is_poisoned }
        ensures failed { IfErr result (λ failure. failure ≡ Failure.Poisoned) }
        ensures poisoned { IsTrue self.new.is_poisoned }
        ensures buffered { self.new.buffer ≡ self.old.buffer }
    {
        if self.is_poisoned {
            return Err(Failure::Poisoned);
        }
        self.is_poisoned = true;
        Ok(())
    }
}
