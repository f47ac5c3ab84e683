//! A copy of a key, which takes no memory.

ghost use Rattle.std.specs.Prelude.{◌≡◌};
ghost use Rattle.pm_types.specs.Keys.{HasKeyLength};

use pm_types::KEY_MAX;
use std::marker::Model;

/// A key that parts two pages of a tree: the keys of the right one aren't below it.
#[derive(Debug, Drop)]
pub struct Separator {
    len: u8,
    bytes: [u8; KEY_MAX],
}

impl Model for Separator {
    ghost use Rattle.std.specs.Prelude.{ℕ, ◌≤◌, List, take};
    ghost use Rattle.pm_types.specs.Keys.{HasKeyLength};

    ghost Value = { List ℕ };

    ghost view = { λ s. take s.len s.bytes };

    ghost invariant = { λ s. HasKeyLength (take s.len s.bytes) × (s.len ≤ 64) };
}

impl Separator {
    /// A copy of the key.
    pub fn of(key: &[u8]) -> Separator
        requires { HasKeyLength key.now }
        ensures { result ≡ key.now }
    {
        let mut bytes = [0; KEY_MAX];
        bytes[..key.len()].copy_from_slice(key);
        Separator {
            len: key.len() as u8,
            bytes,
        }
    }

    /// The key.
    pub fn key(&self) -> &[u8]
        ensures key { result.now ≡ self.now }
        ensures length { HasKeyLength self.now }
    {
        &self.bytes[..self.len as usize]
    }
}
