//! The names of the store's files in its folder.

ghost use Rattle.std.specs.Prelude.{◌≡◌, ◌<◌, ℕ, MatchOption};
ghost use Rattle.pm_types.specs.declared.limits.TheConstants.{PARTITIONS_MAX};
ghost use Rattle.pm_disk.specs.declared.names.StoreFile.{StoreFile};
ghost use Rattle.pm_disk.specs.Names.{hex_digit, segment_name, IsSegmentName, partition_name};
ghost use Rattle.pm_disk.specs.Names.{IsPartitionName, IsNameOf};

use crate::mark::MarkFile;
use pm_types::PARTITIONS_MAX;

/// How many bytes the name of a segment has.
pub const SEGMENT_NAME_LEN: usize = 24;

/// The name of a segment's file. On the disk: do not change.
pub fn segment_name(seg: u64) -> [u8; SEGMENT_NAME_LEN]
    ensures { result ≡ segment_name seg }
{
    let mut name = *b"wal-0000000000000000.seg";
    let mut rest = seg;
    for i in 0..16 {
        name[19 - i] = hex_digit((rest % 16) as u8);
        rest /= 16;
    }
    name
}

/// The number of the segment whose file has this name, none exactly where it is no segment's name.
pub fn segment_number(name: &[u8]) -> Option<u64>
    ensures { MatchOption result
        ((seg : ℕ) → IsSegmentName name.now seg → ⊥) (λ seg. IsSegmentName name.now seg) }
{
    if name.len() != SEGMENT_NAME_LEN {
        return None;
    }
    let mut seg = 0u64;
    for digit in &name[4..20] {
        seg = seg
            .wrapping_mul(16)
            .wrapping_add(digit_value(*digit) as u64);
    }
    if seg != 0 && segment_name(seg).as_slice() == name {
        Some(seg)
    } else {
        None
    }
}

/// How many bytes the name of a partition's file has.
pub const PARTITION_NAME_LEN: usize = 14;

/// The name of a partition's file. On the disk: do not change.
pub fn partition_name(part: u16) -> [u8; PARTITION_NAME_LEN]
    requires { part < PARTITIONS_MAX }
    ensures { result ≡ partition_name part }
{
    let mut name = *b"part-000.pages";
    name[6] = b'0' + (part / 10) as u8;
    name[7] = b'0' + (part % 10) as u8;
    name
}

/// The partition whose file has this name, none exactly where it is no partition's name.
pub fn partition_number(name: &[u8]) -> Option<u16>
    ensures { MatchOption result
        ((part : ℕ) → IsPartitionName name.now part → ⊥) (λ part. IsPartitionName name.now part) }
{
    for part in 0..PARTITIONS_MAX {
        if partition_name(part).as_slice() == name {
            return Some(part);
        }
    }
    None
}

/// A file of the store's folder.
#[derive(Clone, Copy, Debug, PartialEq, Eq)]
pub enum StoreFile {
    /// The configuration, `config.json`.
    Config,
    /// A file of markers, `cp.start` or `cp.end`.
    Marks(MarkFile),
    /// A segment of the log, by its number from 1.
    Segment(u64),
    /// A partition's pages, by its number, below `PARTITIONS_MAX`.
    Pages(u16),
}

/// The file of the store that has this name, none exactly where no file of it has.
pub fn file_named(name: &[u8]) -> Option<StoreFile>
    ensures { MatchOption result
        ((file : StoreFile) → IsNameOf name.now file → ⊥) (λ file. IsNameOf name.now file) }
{
    if name == b"config.json".as_slice() {
        return Some(StoreFile::Config);
    }
    if name == b"cp.start".as_slice() {
        return Some(StoreFile::Marks(MarkFile::Start));
    }
    if name == b"cp.end".as_slice() {
        return Some(StoreFile::Marks(MarkFile::End));
    }
    numbered_file(name)
}

// The segment or the partition whose file has this name.
fn numbered_file(name: &[u8]) -> Option<StoreFile>
    ensures numbered { MatchOption result
        (((seg : ℕ) → IsSegmentName name.now seg → ⊥)
        × ((part : ℕ) → IsPartitionName name.now part → ⊥)) (λ file. IsNameOf name.now file) }
{
    if let Some(seg) = segment_number(name) {
        return Some(StoreFile::Segment(seg));
    }
    match partition_number(name) {
        Some(part) => Some(StoreFile::Pages(part)),
        None => None,
    }
}

fn hex_digit(n: u8) -> u8
    requires { n < 16 }
    ensures { result ≡ hex_digit n }
{
    if n < 10 { b'0' + n } else { b'a' - 10 + n }
}

// What a byte counts as a hexadecimal digit; of one that is none nothing is said.
fn digit_value(digit: u8) -> u8
    ensures { (n : ℕ) → n < 16 → digit ≡ hex_digit n → result ≡ n }
{
    if digit < b'a' {
        digit.saturating_sub(b'0')
    } else {
        digit - b'a' + 10
    }
}
