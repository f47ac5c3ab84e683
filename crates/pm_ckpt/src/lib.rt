//! Checkpoints: the changed pages go to their files, and the log before them is no longer needed.
#![tactic(auto)]

mod begin;
mod ckpt;
mod cleaning;
mod dirty;
mod ending;
mod frame_page;
mod from_frames;
mod laws;
mod making_due;
mod mark;
mod order;
mod writing;
mod writing_frames;

pub use ckpt::Ckpt;
pub use laws::{dirty_frames_hold_what_stays, stripes_stay_at_rest};
