//! Free lists: the data pages of a partition, each in the chain of those with as much room.
#![tactic(auto)]

mod buckets;
mod chains;
mod edits;
mod placing;
mod removal;
mod seats;

pub use buckets::{Head, check_head, find_head};
pub use chains::{link, settle, unlink};
pub use edits::{Edit, edit_on, make_edit, write_empty};
pub use placing::place;
pub use removal::take_out;
pub use seats::{Seat, bucket_on, find_seat, seat_at};
