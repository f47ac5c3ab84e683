//! CRC-32, sixteen bytes at a time.

ghost use Rattle.std.specs.Prelude.{◌≡◌, ℕ, ◌+◌, ◌*◌, ◌/◌, ◌%◌, ◌<◌, ◌≤◌, ◌^◌, length, fold, take, drop};
ghost use Rattle.pm_frame.specs.Crc.{shifted_by, with_byte, crc_of};

use crate::tables::TABLES;

/// The CRC-32 of the bytes, as Ethernet, gzip and PNG have it: of no bytes it is 0.
#[tactic(auto, unfolding(crate::specs::Crc::crc_of))]
pub fn sum(bytes: &[u8]) -> u32
    ensures { result ≡ crc_of bytes.now }
{
    let mut register = u32::MAX;
    let mut rest = bytes;
    while let Some((block, after)) = rest.split_first_chunk::<16>() {
        register = after_block(register, block);
        rest = after;
    }
    !after_bytes(register, rest)
}

// The register after sixteen bytes.
#[inline(always)]
#[tactic(auto, using(crate::proofs::Blocks::fold_halves))]
fn after_block(register: u32, block: &[u8; 16]) -> u32
    ensures { result ≡ fold with_byte register block.now }
{
    after_halves(register, front_of(block), back_of(block))
}

// The register after sixteen bytes in two halves. All of them are shifted out at once: each is
// looked up in the table for its distance from the end, and since the division is linear, the
// parts add up without carries. Only the first four wait for the register, so that the others are
// looked up while the block before is still summed.
#[inline(always)]
fn after_halves(register: u32, front: &[u8; 8], back: &[u8; 8]) -> u32
    ensures { result ≡ fold with_byte (fold with_byte register front.now) back.now }
{
    let front = u64::from_le_bytes(*front);
    let back = u64::from_le_bytes(*back);
    let others = shifted_out(8, high_word(front))
        ^ shifted_out(4, low_word(back))
        ^ shifted_out(0, high_word(back));
    others ^ shifted_out(12, low_word(front) ^ register)
}

// The first half of a block.
#[inline(always)]
fn front_of(block: &[u8; 16]) -> &[u8; 8]
    ensures { result.now ≡ take 8 block.now }
{
    match block.first_chunk::<8>() {
        Some(front) => front,
        None => unreachable!(),
    }
}

// The second half.
#[inline(always)]
fn back_of(block: &[u8; 16]) -> &[u8; 8]
    ensures { result.now ≡ drop 8 block.now }
{
    match block.last_chunk::<8>() {
        Some(back) => back,
        None => unreachable!(),
    }
}

// The register after the last few bytes.
fn after_bytes(mut register: u32, bytes: &[u8]) -> u32
    ensures { result ≡ fold with_byte register bytes.now }
{
    for byte in bytes {
        let [lowest, ..] = register.to_le_bytes();
        register = shifted(0, lowest ^ *byte) ^ (register >> 8);
    }
    register
}

// The lower four bytes of a number.
#[inline(always)]
fn low_word(number: u64) -> u32
    ensures { result ≡ number % 2 ^ 32 }
{
    (number % (1 << 32)) as u32
}

// The upper four bytes.
#[inline(always)]
fn high_word(number: u64) -> u32
    ensures { result ≡ number / 2 ^ 32 }
{
    (number >> 32) as u32
}

// A register that holds this word, once its bytes and as many bytes of zeros after them are shifted out.
#[inline(always)]
fn shifted_out(zeros: usize, word: u32) -> u32
    requires { zeros ≤ 12 }
    ensures { result ≡ shifted_by (8 * zeros + 32) word }
{
    let bytes = word.to_le_bytes();
    shifted(zeros + 3, bytes[0])
        ^ shifted(zeros + 2, bytes[1])
        ^ shifted(zeros + 1, bytes[2])
        ^ shifted(zeros, bytes[3])
}

// A register that holds this byte, once it and as many bytes of zeros after it are shifted out.
#[inline(always)]
fn shifted(zeros: usize, byte: u8) -> u32
    requires { zeros < 16 }
    ensures { result ≡ shifted_by (8 * zeros + 8) byte }
{
    TABLES[zeros][usize::from(byte)]
}
