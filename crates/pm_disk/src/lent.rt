//! The parts of a host while they are lent.

/// The parts of a host, of which each may be on a thread of its own. They can't be let go: whoever has
/// them gives them back, or takes them apart.
pub struct Lent<R, W, L> {
    /// One for each worker.
    pub readers: Vec<R>,
    /// The one that writes pages.
    pub writer: W,
    /// The log.
    pub log: L,
}
