//! A partition: puts, gets and removals of its rows by cache and key, and the pairs of a cache.
#![tactic(auto)]

mod entries;
mod laws;
mod overwriting;
mod pairs;
mod part;
mod putting;
mod relinking;
mod removing;
mod rows;
mod spots;

pub use laws::{a_partition_has_one_map, a_partition_has_pages_to_spare};
pub use part::Part;
pub use rows::ROW_MAX;
