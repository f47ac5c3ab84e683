//! Tools beside a store: the records of its log as lines, a check of all of it, and scripts that are drawn from a number.
#![tactic(auto)]

mod drawing;
mod lines;
mod listing;
mod verifying;

pub use drawing::Gen;
pub use lines::append_page;
pub use listing::wal;
pub use verifying::{Counts, verify};
