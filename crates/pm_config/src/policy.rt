//! The field that says how page frames are replaced.

ghost use Rattle.std.specs.Prelude.{◌≡◌, ◌≢◌, true, IfErr};
ghost use Rattle.serde_json.specs.View.{view};
ghost use Rattle.pm_config.specs.Configs.{tested, policy_of};
ghost use Rattle.pm_config.specs.Names.{kind_of};
ghost use Rattle.pm_config.specs.Stored.{values_in};

use crate::config::Kind;
use crate::fault::ConfigFault;
use crate::field::field_name;
use crate::limits::POLICY_DEFAULT;
use pm_types::Field;
use serde_json::Value;

/// The kind of replacement that has this name.
pub(crate) fn kind_of_name(name: &str) -> Option<Kind>
    ensures { result ≡ kind_of name.now }
{
    match name {
        "random-lru" => Some(Kind::Random),
        "segmented-lru" => Some(Kind::Segmented),
        "clock" => Some(Kind::Clock),
        _ => None,
    }
}

/// How page frames are replaced. Refused by the field's name exactly when it isn't one of the three names.
pub(crate) fn policy_in(object: &Value) -> Result<Kind, ConfigFault>
    ensures value { result ≡ tested Field.Policy (λ _. true)
        (policy_of (values_in (view object.now) Field.Policy)) }
    ensures answered { IfErr result (λ fault. fault ≢ ConfigFault.Memory) }
{
    let Some(value) = object.get(field_name(Field::Policy)) else {
        return Ok(POLICY_DEFAULT);
    };
    match value.as_str() {
        Some(name) => kind_of_name(name).ok_or(ConfigFault::Bad(Field::Policy)),
        None => Err(ConfigFault::Bad(Field::Policy)),
    }
}
