//! Page locks: the threads of a round take page frames and put them back, and none of them waits.
#![tactic(auto)]

mod flush;
mod locks;
mod look;
mod own;
mod plays;
mod seats;
mod share;
mod slots;
mod steal;
mod view;
mod word;

pub use flush::FlushTake;
pub use locks::Locks;
pub use own::Take;
pub use seats::{PageSeat, Seats};
pub use steal::Steal;
pub use view::{Due, Entry, Met, Numbers, Out, View};
pub use word::{AT_HOME, FLUSHER, TAG_LAST, Word};
