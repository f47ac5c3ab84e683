//! Where a value stands.

use pm_types::Key;

/// A key of one of the caches. Such keys are ordered by the cache, then by the key.
#[derive(Debug, PartialEq, Eq, PartialOrd, Ord, Drop)]
pub struct CacheKey {
    /// The cache's number, 0 to 15 in a script.
    pub cache: u8,
    pub key: Key,
}
