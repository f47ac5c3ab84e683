//! What a disk holds, when it is sound, and what a crash leaves of a run of the disk machine.
#![tactic(auto)]

mod checkpoint;
mod forcing;
pub mod laws;
mod page_set;

pub use checkpoint::{Begun, Ended, Idle};
pub use forcing::force_parts;
pub use page_set::PageSet;
