//! Blocks: the pieces in which a worker's bytes go through its ring.

ghost use Rattle.std.specs.Prelude.{◌≡◌, ◌<◌, ◌≤◌, ◌+◌, length};

use std::marker::Model;

/// The most bytes of a block: a ring's slots have room for blocks of this size, so that a larger one costs
/// memory for each of them, and a smaller one a step of the ring for fewer bytes.
pub const BLOCK_BYTES_MAX: usize = 256;

/// From 1 to 256 bytes of what a worker hands to the log writer. Where its operations begin and end is not
/// for a block to say: one may hold many of them, or a part of one.
#[derive(Drop)]
pub struct Block {
    len: u16,
    bytes: [u8; BLOCK_BYTES_MAX],
}

impl Model for Block {
    ghost use Rattle.std.specs.Prelude.{ℕ, List, take, ◌<◌, ◌≤◌};
    ghost use Rattle.pm_logger.specs.declared.block.TheConstants.{BLOCK_BYTES_MAX};

    ghost Value = { List ℕ };

    ghost view = { λ block. take block.len block.bytes };

    ghost invariant = { λ block. (0 < block.len) × (block.len ≤ BLOCK_BYTES_MAX) };
}

impl Block {
    /// A block of these bytes.
    pub fn new(bytes: &[u8]) -> Block
        requires some { 0 < length bytes.now }
        requires fits { length bytes.now ≤ BLOCK_BYTES_MAX }
        ensures { result ≡ bytes.now }
    {
        let mut padded = [0; BLOCK_BYTES_MAX];
        padded[..bytes.len()].copy_from_slice(bytes);
        Block {
            len: bytes.len() as u16,
            bytes: padded,
        }
    }

    /// The bytes of the block.
    pub fn bytes(&self) -> &[u8]
        ensures bytes { result.now ≡ self.now }
        ensures some { 0 < length result.now }
        ensures fits { length result.now ≤ BLOCK_BYTES_MAX }
    {
        &self.bytes[..usize::from(self.len)]
    }
}

/// Where the block ends that begins at a place in so many bytes.
pub(crate) fn next_cut(at: usize, len: usize) -> usize
    requires { at < len }
    ensures later { at < result }
    ensures within { result ≤ len }
    ensures fits { result ≤ at + BLOCK_BYTES_MAX }
{
    if len - at <= BLOCK_BYTES_MAX {
        len
    } else {
        at + BLOCK_BYTES_MAX
    }
}
