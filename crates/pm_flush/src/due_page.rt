//! A page that is due.

use pm_types::{FrameNo, PageId, Tag};

/// A page that is due, the frame that it is in, and the frame's tag.
#[derive(Clone, Copy, Debug, PartialEq, Eq)]
pub struct DuePage {
    pub page: PageId,
    pub frame: FrameNo,
    pub tag: Tag,
}
