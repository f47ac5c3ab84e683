//! The object that a configuration's text is.

ghost use Rattle.std.specs.Prelude.{◌≡◌, ◌≢◌, ◌<◌, ◌≤◌, ◌↔◌, length, Some, None, IfOk, IfErr, IsTrue};
ghost use Rattle.std.specs.Prelude.{is_some, string_bytes};
ghost use Rattle.std.specs.BTreeMap.{keys};
ghost use Rattle.std.specs.List.{list_all};
ghost use Rattle.pm_config.specs.Names.{field_of};
ghost use Rattle.serde_json.specs.Data.{object, no_members};
ghost use Rattle.serde_json.specs.Errors.{IsMemory};
ghost use Rattle.serde_json.specs.View.{view};
ghost use Rattle.pm_config.specs.Stored.{value_of};

use crate::fault::ConfigFault;
use crate::field::field_of_name;
use crate::limits::CONFIG_BYTES_MAX;
use pm_types::Field;
use serde_json::{Error, Map, Value};
use std::alloc::Global;

/// The value that a configuration's text is. An empty text is the object without fields. `Bad(Text)`
/// exactly when the text is too long or isn't read as JSON, out of memory aside.
#[tactic(auto, using(crate::proofs::TextValues::empty_is_an_object))]
pub(crate) fn read_value(alloc: Global, bytes: &[u8]) -> Result<Value, ConfigFault>
    ensures value { IfOk result (λ v. value_of bytes.now ≡ Some (view v)) }
    ensures refused { IfErr result (λ fault. fault ≢ ConfigFault.Memory → value_of bytes.now ≡ None) }
    ensures name { IfErr result (λ fault. fault ≢ ConfigFault.Memory
        → fault ≡ ConfigFault.Bad Field.Text) }
    ensures memory { IfErr result (λ fault. fault ≡ ConfigFault.Memory
        → (0 < length bytes.now) × (length bytes.now ≤ CONFIG_BYTES_MAX)) }
{
    if bytes.len() > CONFIG_BYTES_MAX {
        return Err(ConfigFault::Bad(Field::Text));
    }
    if bytes.is_empty() {
        return Ok(no_fields(alloc));
    }
    match Value::from_slice(alloc, bytes) {
        Ok(value) => Ok(value),
        Err(error) => Err(fault_of(&error)),
    }
}

/// The object without fields.
fn no_fields(alloc: Global) -> Value
    ensures { view result ≡ object no_members }
{
    Value::Object(Map::new(alloc))
}

/// Why a text has no value, as `serde_json` reports it.
fn fault_of(error: &Error) -> ConfigFault
    ensures memory { (result ≡ ConfigFault.Memory) ↔ IsMemory error.now }
    ensures text { result ≢ ConfigFault.Memory → result ≡ ConfigFault.Bad Field.Text }
{
    if error.is_memory() {
        ConfigFault::Memory
    } else {
        ConfigFault::Bad(Field::Text)
    }
}

/// Whether each member of the object has the name of a field.
pub(crate) fn has_known_names(object: &Map<String, Value>) -> bool
    ensures { result ≡ list_all (λ k. is_some (field_of (string_bytes k))) (keys object.now) }
{
    object
        .keys()
        .all(|name| field_of_name(name.as_str()).is_some())
}
