//! What a restart does before it replays the log: the pages that the log rebuilds, and the base pages.
#![tactic(auto)]

mod base;
mod cutting;
mod difference;
mod ending;
mod found;
pub mod laws;
mod loading;
mod log_end;
mod log_pages;
mod markers;
mod opening;
mod rebuilt_pages;

pub use base::{Pictures, base_pages};
pub use loading::load_pages;
pub use log_pages::rebuild;
pub use opening::{Base, restore};
pub use rebuilt_pages::{PageNumber, RebuiltPages};
