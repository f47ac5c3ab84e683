//! What one record of the log says.

ghost use Rattle.std.specs.Prelude.{◌≡◌, Some, codes};
ghost use Rattle.pm_records.specs.Records.{kind_of};
ghost use Rattle.pm_records.specs.Views.{record_view};

use pm_frame::{CP_BEGIN, DELTA, LOGICAL, RESTART, SEAL, SNAPSHOT};
use pm_types::{PageId, Place, Shape};
use std::error::Error;
use std::fmt;

/// A record of the log. What it has of variable length lies in the payload that it was read from,
/// or is to be written from.
#[derive(Clone, Copy, Debug, PartialEq, Eq)]
pub enum LogRecord<'a> {
    /// A change of the map: `PUT` sets the key of this cache to the value, `REMOVE` takes it out
    /// and has no value.
    Logical {
        op: u8,
        cache: u8,
        key: &'a [u8],
        value: &'a [u8],
    },
    /// A page as a whole.
    Snapshot {
        page: PageId,
        bytes: &'a [u8],
    },
    /// The ranges of a page that were changed: how many, and of each its start, its length and its bytes.
    Delta {
        page: PageId,
        ranges: &'a [u8],
    },
    /// The begin of this checkpoint. A restart applies the logical records from the replay place on.
    CpBegin {
        number: u64,
        replay: Place,
    },
    /// An opening of the store, which has this shape.
    Restart {
        shape: Shape,
    },
    /// The segment's end: the log goes on at the next segment's begin.
    Seal,
}

/// The kind of the frame in which the record stands.
pub fn kind_of(rec: &LogRecord<'_>) -> u8
    ensures { result ≡ kind_of (record_view rec.now) }
{
    match rec {
        LogRecord::Logical { .. } => LOGICAL,
        LogRecord::Snapshot { .. } => SNAPSHOT,
        LogRecord::Delta { .. } => DELTA,
        LogRecord::CpBegin { .. } => CP_BEGIN,
        LogRecord::Restart { .. } => RESTART,
        LogRecord::Seal => SEAL,
    }
}

/// The payload is no record of its kind: the frame that it stands in is a bad record.
#[derive(Clone, Copy, Debug, PartialEq, Eq)]
pub struct BadPayload;

impl fmt::Display for BadPayload {
    ghost output = { λ _. Some (codes "the payload is no record of its kind") };

    fn fmt<W: fmt::Write>(&self, f: &mut fmt::Formatter<W>) -> fmt::Result {
        write!(f, "the payload is no record of its kind")
    }
}

impl Error for BadPayload {}
