//! Memory for values that are made later.

ghost use Rattle.std.specs.Prelude.{◌≡◌, ◌≤◌, []};
ghost use Rattle.std.specs.Vec.{vec_capacity};
ghost use Rattle.pm_types.specs.Keys.{HasValueLength};
ghost use Rattle.pm_types.specs.declared.limits.TheConstants.{VALUE_MAX};

use crate::key::Value;
use crate::limits::VALUE_MAX;
use std::alloc::{AllocError, Global};

/// Room for one value, whatever its length. The value is made of it later, without taking memory.
#[derive(Debug, Drop)]
pub struct ValueRoom {
    bytes: Vec<u8>,
    ghost empty: { bytes.items ≡ [] },
    ghost room: { VALUE_MAX ≤ vec_capacity bytes },
}

impl ValueRoom {
    /// Takes the memory of one value.
    pub fn new(alloc: Global) -> Result<ValueRoom, AllocError> {
        Ok(ValueRoom {
            bytes: Vec::with_capacity(alloc, VALUE_MAX)?,
        })
    }

    /// Room of the memory of a value that isn't needed any more. More is taken only where the value
    /// was made with less.
    pub fn of(alloc: Global, value: Value) -> Result<ValueRoom, AllocError> {
        let Value { bytes: mut room } = value;
        room.clear();
        room.reserve(VALUE_MAX)?;
        Ok(ValueRoom { bytes: room })
    }

    /// A copy of the bytes as a value.
    pub fn fill(self, bytes: &[u8]) -> Value
        requires { HasValueLength bytes.now }
        ensures { result ≡ bytes.now }
    {
        let ValueRoom { bytes: mut room } = self;
        room.extend_from_slice(bytes).unwrap();
        Value { bytes: room }
    }
}
