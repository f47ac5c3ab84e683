//! Index pages: the leaves and inner pages of a tree, each a sorted list of keys with a word beside each.
#![tactic(auto)]

mod checks;
mod head;
mod items;
mod joining;
mod layout;
mod removal;
mod search;
mod spans;

pub use checks::{check, is_below};
pub use head::{
    capacity, count, first, fresh_inner, fresh_leaf, is_leaf, next, set_first, set_next,
};
pub use items::{insert_at, key_at, set_word, word_at};
pub use joining::{merge, parts_join, tail};
pub use layout::{INNER_KIND, LEAF_KIND};
pub use removal::{cut, remove_at};
pub use search::{Found, find};
