//! Limits of a partition. Clauses name these constants, so that a change stands in one place.

/// The most levels of a tree, leaves counted: far more than the most rows of a partition need.
pub const LEVELS_MAX: u32 = 8;
