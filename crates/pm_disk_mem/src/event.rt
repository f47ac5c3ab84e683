//! What a host has done, one after the other.

use crate::files::Files;
use crate::step::Step;
use std::snapshot::Snapshot;

/// What a part of a host has done since it was lent.
#[derive(Drop)]
pub struct Record {
    /// The files as they were then.
    pub began: Snapshot<Files>,
    /// The part's calls.
    pub steps: Vec<Step>,
}

/// An event of a host, as its record keeps it.
#[derive(Drop)]
pub enum Event {
    /// A call was done.
    Single(Step),
    /// The parts were lent and came back: what the log part did, and what the writer did.
    Round(Record, Record),
}
