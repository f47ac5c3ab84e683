//! One block of memory, cut into leases of which no two share a byte.
#![tactic(auto)]

mod lease;
mod memory;
mod region;
mod zeros;

pub use lease::Lease;
pub use region::{REGION_BYTES_MAX, Region};
