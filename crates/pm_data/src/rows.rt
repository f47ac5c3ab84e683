//! The bytes of a row.

ghost use Rattle.std.specs.Prelude.{◌≡◌, ◌<◌, ◌↔◌, IsTrue};
ghost use Rattle.pm_types.specs.Keys.{HasKeyLength, HasValueLength};
ghost use Rattle.pm_types.specs.declared.limits.TheConstants.{CACHES};
ghost use Rattle.pm_data.specs.Rows.{IsRow, row_cache, row_key, row_value};

use crate::layout::ROW_HEAD_LEN;
use pm_types::fields::get_u16;
use pm_types::{CACHES, KEY_MAX, VALUE_MAX};

/// Whether these bytes are a row.
pub fn is_row(row: &[u8]) -> bool
    ensures { IsTrue result ↔ IsRow row.now }
{
    if row.len() < ROW_HEAD_LEN {
        return false;
    }
    let key_len = row[1] as usize;
    let value_len = get_u16(row, 2) as usize;
    row[0] < CACHES
        && 1 <= key_len
        && key_len <= KEY_MAX
        && value_len <= VALUE_MAX
        && row.len() == ROW_HEAD_LEN + key_len + value_len
}

/// The cache of a row, below 16.
pub fn cache_in(row: &[u8]) -> u8
    requires { IsRow row.now }
    ensures cache { result ≡ row_cache row.now }
    ensures below { result < CACHES }
{
    row[0]
}

/// The key of a row.
pub fn key_in(row: &[u8]) -> &[u8]
    requires { IsRow row.now }
    ensures key { result.now ≡ row_key row.now }
    ensures length { HasKeyLength result.now }
{
    let key_end = ROW_HEAD_LEN + row[1] as usize;
    &row[ROW_HEAD_LEN..key_end]
}

/// The value of a row.
pub fn value_in(row: &[u8]) -> &[u8]
    requires { IsRow row.now }
    ensures value { result.now ≡ row_value row.now }
    ensures length { HasValueLength result.now }
{
    let key_end = ROW_HEAD_LEN + row[1] as usize;
    &row[key_end..key_end + get_u16(row, 2) as usize]
}
