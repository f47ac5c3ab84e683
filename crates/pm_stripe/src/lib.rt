//! One worker's pages over page frames that are shared under locks, and what it hands to the log writer.
#![tactic(auto)]

mod bound;
mod done;
mod ending;
mod fetching;
mod forgetting;
mod freeing;
mod giving;
mod halt;
mod held;
mod laws;
mod lending;
mod limits;
mod making;
mod operation;
mod outbox;
mod paging;
mod places;
mod putting;
mod read;
mod reading;
mod readying;
mod record;
mod stealing;
mod stripe;
mod sweeping;
mod take;
mod taking;

pub use bound::Bound;
pub use halt::Halt;
pub use laws::{
    a_new_stripe_rests, a_stripe_rests_on_files, edits_are_covered,
    pages_at_hand_are_those_of_partitions, pages_at_hand_stay_readable, pages_from_files_pass,
    the_first_seat_is_settled,
};
pub use stripe::Stripe;
