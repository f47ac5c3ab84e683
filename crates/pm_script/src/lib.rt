//! A script's bytes: its lines, read off a host piece by piece, what each says, and the texts of replies.
#![tactic(auto)]

mod buffer;
mod field;
mod item;
mod line;
mod lines;
mod reply;
mod word;

pub use item::Item;
pub use line::read_line;
pub use lines::Lines;
pub use reply::{append_field, each_reply_has_text, fields_read_back, print_reply, texts_differ};
