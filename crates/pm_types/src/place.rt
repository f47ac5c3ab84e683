//! Places in the log.

use std::fmt;

/// A place in the log: a segment's number, from 1, and an offset in it, in bytes.
/// Places are ordered by segment, then by offset.
#[derive(Clone, Copy, Debug, PartialEq, Eq, PartialOrd, Ord, Hash)]
pub struct Place {
    pub seg: u64,
    pub off: u32,
}

impl fmt::Display for Place {
    fn fmt<W: fmt::Write>(&self, f: &mut fmt::Formatter<W>) -> fmt::Result {
        let seg = self.seg;
        let off = self.off;
        write!(f, "{seg}:{off}")
    }
}
