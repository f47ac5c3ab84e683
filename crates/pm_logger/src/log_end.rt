//! A worker's end of its ring.

ghost use Rattle.std.specs.Prelude.{◌≡◌, ◌≤◌, ◌<◌, ◌++◌, [], ◌∷◌, length, take, IsOk, OnOk, IfErr};
ghost use Rattle.pm_logger.specs.Blocks.{joined};
ghost use Rattle.pm_logger.specs.LogEnds.{pushed, free_slots, SameEnd};

use crate::block::{Block, next_cut};
use rtrb::{Producer, PushError};

/// A worker's end of its ring: what it pushes here the log writer appends. It may be on a thread of its own.
#[derive(Drop)]
pub struct LogEnd {
    pub(crate) producer: Producer<Block>,
}

impl LogEnd {
    /// Pushes a block, and hands it back only where the ring has no slot that is known to be free. It waits
    /// for nobody, and takes no memory.
    pub fn push(&mut self, block: Block) -> Result<(), Block>
        ensures ring { SameEnd self.old self.new }
        ensures pushed { OnOk result (pushed self.new ≡ pushed self.old ++ block ∷ []) }
        ensures handed_back { IfErr result (λ back. (back ≡ block) × (pushed self.new ≡ pushed self.old)) }
        ensures full { IfErr result (λ _. free_slots self.new ≡ 0) }
        ensures room { 0 < free_slots self.old → IsOk result }
    {
        match self.producer.push(block) {
            Ok(()) => Ok(()),
            Err(PushError::Full(back)) => Err(back),
        }
    }

    /// Pushes bytes, cut into blocks, and answers how many of them it pushed: all, or those before the first
    /// block for which no slot is known to be free.
    pub fn push_bytes(&mut self, bytes: &[u8]) -> usize
        ensures ring { SameEnd self.old self.new }
        ensures within { result ≤ length bytes.now }
        ensures pushed { joined (pushed self.new) ≡ joined (pushed self.old) ++ take result bytes.now }
        ensures full { result < length bytes.now → free_slots self.new ≡ 0 }
    {
        let mut at = 0;
        'each: while at < bytes.len() {
            let end = next_cut(at, bytes.len());
            match self.push(Block::new(&bytes[at..end])) {
                Ok(()) => at = end,
                Err(_) => return at,
            }
        }
        at
    }
}
