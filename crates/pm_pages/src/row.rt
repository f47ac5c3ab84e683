//! A row of a partition.

use pm_types::{Key, Link, Value};

/// A key of a cache with its value, and where it stands.
#[derive(Debug, Drop)]
pub struct Row {
    /// The cache's number, 0 to 15.
    pub cache: u8,
    pub key: Key,
    pub value: Value,
    /// The row's name: its page and its item.
    pub link: Link,
}
