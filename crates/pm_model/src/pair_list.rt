//! Keys with their values.

use pm_types::{Key, Value};
use std::marker::Model;

/// Keys with their values, as a list.
#[derive(Debug, Drop)]
pub struct PairList {
    pub pairs: Vec<(Key, Value)>,
}

impl Model for PairList {
    ghost use Rattle.std.specs.Prelude.{ℕ, List};

    ghost Value = { List (List ℕ × List ℕ) };

    ghost view = { λ list. list.pairs.items };
}
