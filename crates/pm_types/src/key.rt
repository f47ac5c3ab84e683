//! Keys and values, which contracts see as lists of bytes.

ghost use Rattle.std.specs.Prelude.{◌≡◌, ℕ, ◌≤◌, ◌<◌, List, length, IfOk};
ghost use Rattle.std.proofs.Common.{rules};
ghost use Rattle.std.specs.Cmp.{partial_order_from_own_ties};
ghost use Rattle.std.specs.Cmp.Rules.{comparing};
ghost use Rattle.std.specs.Cmp.Lexicographic.{slice_cmp, pointwise};
ghost use Rattle.std.specs.Ordering.{nat_cmp, as_partial_cmp};
ghost use Rattle.std.specs.Bool.{nat_eq};
ghost use Rattle.pm_types.specs.Keys.{HasKeyLength, HasValueLength};

use std::alloc::{AllocError, Global};
use std::cmp::Ordering;
use std::marker::Model;

/// A key: 1 to `KEY_MAX` bytes. Keys are ordered byte by byte, a proper prefix first.
#[derive(Debug, Drop)]
pub struct Key {
    bytes: Vec<u8>,
}

impl Model for Key {
    ghost use Rattle.std.specs.Prelude.{ℕ, List};
    ghost use Rattle.pm_types.specs.Keys.{HasKeyLength};

    ghost Value = { List ℕ };

    ghost view = { λ k. k.bytes.items };

    ghost invariant = { λ k. HasKeyLength k.bytes.items };
}

impl Key {
    /// A copy of the bytes as a key.
    pub fn of(alloc: Global, bytes: &[u8]) -> Result<Key, AllocError>
        requires { HasKeyLength bytes.now }
        ensures { IfOk result (λ k. k ≡ bytes.now) }
    {
        Ok(Key {
            bytes: Vec::from_slice(alloc, bytes)?,
        })
    }

    /// The key's bytes.
    pub fn bytes(&self) -> &[u8]
        ensures bytes { result.now ≡ self.now }
        ensures length { HasKeyLength self.now }
    {
        &self.bytes
    }
}

impl PartialEq for Key {
    ghost eq = { pointwise nat_eq };

    ghost laws = { Prim.search (comparing, rules) };

    fn eq(&self, other: &Key) -> bool {
        self.bytes.as_slice() == other.bytes.as_slice()
    }
}

impl Eq for Key {
    ghost laws = { Prim.search (comparing, rules) };
}

impl Ord for Key {
    ghost cmp = { slice_cmp nat_cmp };

    ghost total = { Prim.search (comparing, rules) };

    ghost matches_partial_cmp = { Prim.search (comparing, rules) };

    ghost matches_eq = { Prim.search (comparing, rules) };

    fn cmp(&self, other: &Key) -> Ordering {
        self.bytes.as_slice().cmp(other.bytes.as_slice())
    }
}

impl PartialOrd for Key {
    ghost partial_cmp = { as_partial_cmp (slice_cmp nat_cmp) };

    ghost laws = { partial_order_from_own_ties (Prim.search (comparing, rules))
        (Prim.search (comparing, rules)) };

    fn partial_cmp(&self, other: &Key) -> Option<Ordering> {
        Some(self.cmp(other))
    }
}

/// A value: at most `VALUE_MAX` bytes.
#[derive(Debug, Drop)]
pub struct Value {
    pub(crate) bytes: Vec<u8>,
}

impl Model for Value {
    ghost use Rattle.std.specs.Prelude.{ℕ, List};
    ghost use Rattle.pm_types.specs.Keys.{HasValueLength};

    ghost Value = { List ℕ };

    ghost view = { λ v. v.bytes.items };

    ghost invariant = { λ v. HasValueLength v.bytes.items };
}

impl Value {
    /// A copy of the bytes as a value.
    pub fn of(alloc: Global, bytes: &[u8]) -> Result<Value, AllocError>
        requires { HasValueLength bytes.now }
        ensures { IfOk result (λ v. v ≡ bytes.now) }
    {
        Ok(Value {
            bytes: Vec::from_slice(alloc, bytes)?,
        })
    }

    /// The value's bytes.
    pub fn bytes(&self) -> &[u8]
        ensures bytes { result.now ≡ self.now }
        ensures length { HasValueLength self.now }
    {
        &self.bytes
    }
}
