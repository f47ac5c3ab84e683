//! Frames of the log: their bytes, and the sum that each ends with.

mod checksums;
mod frame_bytes;
