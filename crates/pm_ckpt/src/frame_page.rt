//! A page that stands in a page frame.

use pm_types::{FrameNo, PageId, Tag};

/// A page, the frame that keeps it, and the frame's tag.
#[derive(Clone, Copy, Debug)]
pub(crate) struct FramePage {
    pub(crate) page: PageId,
    pub(crate) frame: FrameNo,
    pub(crate) tag: Tag,
}
