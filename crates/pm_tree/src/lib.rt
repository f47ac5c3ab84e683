//! The index of a cache: a B+ tree over the pages of a partition, which contracts see as a sorted map.
#![tactic(auto)]

mod dividing;
mod edits;
mod fits;
mod get;
mod heights;
mod inner;
mod leaves;
mod maps;
mod places;
mod put;
mod roots;
mod separator;
mod steps;

pub use fits::{is_above, is_before};
pub use get::{link_of, tree_get};
pub use heights::{TALL_ROWS, no_partition_is_tall};
pub use maps::puts_are_a_maps;
pub use places::{Place, find_place};
pub use roots::tree_put;
pub use separator::Separator;
pub use steps::child;
