//! The bytes of a row.

ghost use Rattle.std.specs.Prelude.{◌≡◌, ℕ, ◌<◌, ◌≤◌, length, take};
ghost use Rattle.pm_types.specs.declared.limits.TheConstants.{CACHES};
ghost use Rattle.pm_types.specs.Keys.{HasKeyLength, HasValueLength};
ghost use Rattle.pm_part.specs.declared.rows.TheConstants.{ROW_MAX};
ghost use Rattle.pm_part.specs.RowBytes.{IsRowOf};

use pm_data::ROW_HEAD_LEN;
use pm_types::{KEY_MAX, VALUE_MAX};

/// The most bytes of a row: its head, the longest key and the longest value.
pub const ROW_MAX: usize = ROW_HEAD_LEN + KEY_MAX + VALUE_MAX;

/// Writes the row of a key of a cache with its value, and gives how many bytes it has.
pub fn write_row(into: &mut [u8], cache: u8, key: &[u8], value: &[u8]) -> usize
    requires room { length into.old ≡ ROW_MAX }
    requires cache { cache < CACHES }
    requires key { HasKeyLength key.now }
    requires value { HasValueLength value.now }
    ensures row { IsRowOf cache key.now value.now (take result into.new) }
    ensures fits { result ≤ length into.new }
{
    let key_end = ROW_HEAD_LEN + key.len();
    let end = key_end + value.len();
    into[0] = cache;
    into[1] = key.len() as u8;
    into[2..ROW_HEAD_LEN].copy_from_slice(&(value.len() as u16).to_le_bytes());
    into[ROW_HEAD_LEN..key_end].copy_from_slice(key);
    into[key_end..end].copy_from_slice(value);
    end
}
