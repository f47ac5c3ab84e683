//! Removals from the index of a cache: pages of a B+ tree that share items and merge, seen as a sorted map.
#![tactic(auto)]

mod copies;
mod items;
mod maps;
mod mending;
mod mends;
mod neighbours;
mod pairs;
mod remove;
mod roots;
mod sharing;
mod tops;

pub use maps::removes_are_a_maps;
pub use roots::tree_remove;
