//! Callers that are generic over the pages of a partition, and pages of which only those that a
//! table names are known.
mod callers;
mod edits;
mod meta_edits;
mod searches;
mod table;
#[cfg(test)]
mod tests;

pub use callers::{find_twice, set_on_plain, set_on_table};
pub use edits::{set_byte, set_byte_twice};
pub use meta_edits::set_rows;
pub use searches::find_in_leaf;
pub use table::TablePages;
