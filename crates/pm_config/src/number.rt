//! The fields that are whole numbers.

ghost use Rattle.std.specs.Prelude.{◌≡◌, ◌≢◌, ◌≤◌, IfOk, IfErr};
ghost use Rattle.serde_json.specs.View.{view};
ghost use Rattle.pm_types.specs.PageSizes.{IsPageSize};
ghost use Rattle.pm_config.specs.Configs.{whole_of, number_of, page_size_of};
ghost use Rattle.pm_config.specs.Stored.{values_in};

use crate::fault::ConfigFault;
use crate::field::field_name;
use crate::limits::PAGE_SIZE_DEFAULT;
use pm_types::{Field, is_page_size};
use serde_json::Value;

/// The whole number that a field of the object says: its default where the object doesn't have the field.
/// `None` exactly when the value isn't a whole number below 2^64, written without a fraction or an exponent.
fn whole_in(object: &Value, field: Field, default: u64) -> Option<u64>
    ensures { result ≡ whole_of default (values_in (view object.now) field) }
{
    match object.get(field_name(field)) {
        None => Some(default),
        Some(value) => value.as_u64(),
    }
}

/// The number that a field says. Refused by the field's name exactly when it isn't a whole number from
/// `least` to `most`.
pub(crate) fn number_in(
    object: &Value,
    field: Field,
    least: u64,
    most: u64,
    default: u64,
) -> Result<u64, ConfigFault>
    ensures value { result ≡ number_of field least most default (values_in (view object.now)) }
    ensures from { IfOk result (λ n. least ≤ n) }
    ensures to { IfOk result (λ n. n ≤ most) }
    ensures answered { IfErr result (λ fault. fault ≢ ConfigFault.Memory) }
{
    match whole_in(object, field, default) {
        Some(n) if least <= n && n <= most => Ok(n),
        _ => Err(ConfigFault::Bad(field)),
    }
}

/// The size of a page, in bytes. Refused by the field's name exactly when it isn't one of the five sizes.
pub(crate) fn page_size_in(object: &Value) -> Result<u32, ConfigFault>
    ensures value { result ≡ page_size_of (values_in (view object.now)) }
    ensures one_of_five { IfOk result IsPageSize }
    ensures answered { IfErr result (λ fault. fault ≢ ConfigFault.Memory) }
{
    match whole_in(object, Field::PageSize, PAGE_SIZE_DEFAULT as u64) {
        Some(n) if n <= u32::MAX as u64 && is_page_size(n as u32) => Ok(n as u32),
        _ => Err(ConfigFault::Bad(Field::PageSize)),
    }
}
