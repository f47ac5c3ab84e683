//! The flusher's job in a round: pages that a checkpoint has to write, written from their frames. Not used by the
//! program yet.
#![tactic(auto)]

mod copies;
mod done;
mod due_page;
mod flushing;
mod one_page;
mod work;

pub use copies::CopyList;
pub use done::FlushDone;
pub use due_page::DuePage;
pub use flushing::flush;
pub use work::FlushWork;
