//! The pages of a partition: deltas of pages, pages asked for one at a time, and what a well-formed
//! partition is.
#![tactic(auto)]

pub mod asked;
mod checks;
mod deltas;
mod growth;
mod limits;
mod numbers;
mod pages;
mod plain;
mod ranges;
mod row;
mod sealing;
mod spare;
mod well_formed;

pub use checks::{check, check_at, check_meta};
pub use deltas::{apply, ranges_len, write_ranges};
pub use growth::growth_changes_nothing;
pub use limits::LEVELS_MAX;
pub use numbers::{find_number, number, set_number};
pub use pages::Pages;
pub use plain::PlainPages;
pub use row::Row;
pub use sealing::{seal, unseal};
pub use spare::{give_page, new_page};
pub use well_formed::{
    all_pass, bucket_chain, has_chain, has_reuse_chain, is_tree, is_well_formed, page_count,
    reuse_chain, rows_of,
};
