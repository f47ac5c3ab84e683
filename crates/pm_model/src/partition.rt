//! The partition that a key belongs to.

ghost use Rattle.std.specs.Prelude.{◌≡◌, ◌<◌};
ghost use Rattle.pm_model.specs.Partitions.{ArePartitions, fnv_1a, part_of};

// The parameters of FNV-1a with 32 bits. On the disk: do not change.
const OFFSET_BASIS: u32 = 2_166_136_261;

const PRIME: u32 = 16_777_619;

/// The number of the partition that the key belongs to, of so many, whatever its cache.
pub fn part_of(key: &[u8], partitions: u16) -> u16
    requires { ArePartitions partitions }
    ensures part { result ≡ part_of key.now partitions }
    ensures below { result < partitions }
{
    (fnv_1a(key) % u32::from(partitions)) as u16
}

// The key's hash.
fn fnv_1a(key: &[u8]) -> u32
    ensures { result ≡ fnv_1a key.now }
{
    key.iter().fold(OFFSET_BASIS, |hash, byte| {
        (hash ^ u32::from(*byte)).wrapping_mul(PRIME)
    })
}
