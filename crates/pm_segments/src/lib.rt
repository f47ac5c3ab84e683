//! The log over its segments: what it is, how it is read, how it grows, and how its begin is removed.
#![tactic(auto)]

mod dropping;
mod log;
mod places;
mod scan;

pub use log::Log;
pub use places::segment_of;
pub use scan::Scan;
