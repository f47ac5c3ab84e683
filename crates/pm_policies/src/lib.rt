//! The three kinds of page replacement: each has its rule as its contract. Not used by the program yet.
#![tactic(auto)]

mod clock;
mod random_lru;
mod segmented_lru;
mod segments;
mod tournament;

pub use clock::Clock;
pub use random_lru::RandomLru;
pub use segmented_lru::SegmentedLru;
pub use segments::Standing;
