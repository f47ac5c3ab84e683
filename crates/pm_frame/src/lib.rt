//! Frames: the log's records as they stand on the disk, each with its own place and a sum.
#![tactic(auto)]

mod checksum;
mod frame;
mod head;
mod kinds;
mod limits;
mod tables;

pub use checksum::sum;
pub use frame::{FrameView, read_frame, write_frame};
pub use kinds::{CP_BEGIN, DELTA, LOGICAL, RESTART, SEAL, SNAPSHOT};
pub use limits::{FRAME_END_MAX, FRAME_EXTRA, FRAME_MAX, HEAD_LEN, PAYLOAD_MAX, SEGMENT_END_MAX};
