//! The log writer beside the workers: each worker hands its operations to it over a ring, and it appends them
//! to the log. Not used by the program yet.
#![tactic(auto)]

mod append;
mod block;
mod drain;
mod front;
mod inbox;
mod intake;
mod limits;
mod log_end;
mod logger;
mod operation;
mod rest;
mod rings;
mod tally;
mod turn;

pub use block::{BLOCK_BYTES_MAX, Block};
pub use limits::{FORCE_AFTER, TURNS_MAX};
pub use log_end::LogEnd;
pub use logger::Logger;
