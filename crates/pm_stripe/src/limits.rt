//! How long the parts of an operation are.

/// What a page's record takes besides the page, at most, in bytes: as much as its frame in the log.
pub(crate) const PAGE_EXTRA: usize = 29;
