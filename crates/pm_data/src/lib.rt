//! Data pages: the rows of a page by item, and its neighbours in a chain.
#![tactic(auto)]

mod checks;
mod head;
mod items;
mod layout;
mod placing;
mod removal;
mod replacing;
mod rows;
mod slots;

pub use checks::check;
pub use head::{fresh, links, set_links};
pub use items::{fits, is_empty, room, row};
pub use layout::{DATA_KIND, ROW_HEAD_LEN, SLOTS_MAX};
pub use placing::insert;
pub use removal::remove;
pub use replacing::replace;
pub use rows::{cache_in, key_in, value_in};
