//! The console in memory.

ghost use Rattle.std.specs.Prelude.{◌≡◌, ◌≤◌, ◌+◌, ◌++◌, [], length, take, drop, vec_len, OnOk, OnErr};
ghost use Rattle.std.specs.Prelude.{IfOk, min};

use crate::bytes::{copy_front, from_offset};
use std::alloc::{AllocError, Global};

/// The input and the output.
#[derive(Drop)]
pub struct Console {
    /// The whole input.
    pub script: Vec<u8>,
    /// How many bytes of it were taken.
    pub taken: usize,
    /// What was said.
    pub said: Vec<u8>,
    ghost in_range: { taken ≤ vec_len script },
}

impl Console {
    ghost use Rattle.pm_disk_mem.specs.Consoles.{input_left, Says, Takes};

    /// A console on which nothing was said, with a copy of this input.
    pub fn new(alloc: Global, script: &[u8]) -> Result<Console, AllocError>
        ensures input { IfOk result (λ console. console.script.items ≡ script.now) }
        ensures whole { IfOk result (λ console. console.taken ≡ 0) }
        ensures silent { IfOk result (λ console. console.said.items ≡ []) }
    {
        Ok(Console {
            script: Vec::from_slice(alloc, script)?,
            taken: 0,
            said: Vec::new(alloc),
        })
    }

    /// Says the bytes. Out of memory leaves the console as it was.
    pub fn say(&mut self, bytes: &[u8]) -> Result<(), AllocError>
        ensures says { OnOk result (Says self.old self.new bytes.now) }
        ensures unchanged { OnErr result (Says self.old self.new []) }
    {
        self.said.extend_from_slice(bytes)?;
        Ok(())
    }

    /// Copies the next bytes of the input, as many as fit, and answers how many.
    pub fn peek(&self, into: &mut [u8]) -> usize
        ensures many { result ≡ min (length into.new) (length (input_left self.now)) }
        ensures within { self.now.taken + result ≤ vec_len self.now.script }
        ensures front { take result into.new ≡ take result (input_left self.now) }
    {
        copy_front(from_offset(&self.script, self.taken as u64), into)
    }

    /// Takes so many bytes of the input.
    pub fn take(&mut self, count: usize)
        requires { self.old.taken + count ≤ vec_len self.old.script }
        ensures { Takes self.old self.new count }
    {
        self.taken += count;
    }
}
