//! The page table: which frame has which page, in room that is taken once.
#![tactic(auto)]

mod slots;
mod table;

pub use table::{FRAMES_MAX, PageTable};
