//! Whether a partition is well formed: each point that has to hold, decided over all its pages at once.

mod chains;
mod deciding;
mod exact;
mod forest;
mod keys;
mod listed;
mod listing;
mod passing;
mod placed;
mod rows;
mod trees;

pub use chains::{bucket_chain, has_chain, has_reuse_chain, reuse_chain};
pub use deciding::is_well_formed;
pub use listed::page_count;
pub use passing::all_pass;
pub use rows::rows_of;
pub use trees::is_tree;
