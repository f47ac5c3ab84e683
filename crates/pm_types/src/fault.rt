//! The faults that calls of the store answer.

ghost use Rattle.std.specs.Prelude.{◌≡◌};
ghost use Rattle.pm_types.specs.Faults.{store_fault_of, memory_fault, opening_fault, opening_memory};

use crate::page_id::PageId;
use crate::place::Place;
use std::alloc::{AllocError, AllocFailed};
use thiserror::Error;

/// A part of the configuration, by which a refusal names what is wrong with it.
#[derive(Clone, Copy, Debug, PartialEq, Eq)]
pub enum Field {
    /// The text as a whole.
    Text,
    /// A field that isn't known.
    Unknown,
    PageSize,
    Partitions,
    MaxRows,
    SegmentBytes,
    Workers,
    Frames,
    BufferPages,
    CheckpointBytes,
    DirtyPercent,
    Policy,
}

/// What ran out.
#[derive(Clone, Copy, Debug, PartialEq, Eq, Error)]
pub enum Lack {
    /// An allocation failed.
    #[error("out of memory")]
    Bytes,
    /// An operation can't have the page frames that it needs, even after a checkpoint, or room in its outbox.
    #[error("out of page frames")]
    Frames,
    /// The log may have no numbers left for its segments.
    #[error("out of numbers for the log's segments")]
    Numbers,
}

/// What ends the work on a store. The store on the disk is then as a crash would leave it: open it again.
#[derive(Clone, Copy, Debug, PartialEq, Eq, Error)]
pub enum StoreFault {
    /// A call on the disk or the console failed.
    #[error("a disk or console call failed")]
    Failed,
    /// Something ran out that the work takes before it changes anything.
    #[error("{0}")]
    Memory(Lack),
    /// A page that was read fails its check or isn't in its file, or it names a page or a row that isn't there.
    #[error("bad page {0}")]
    BadPage(PageId),
    /// A record of the log fails its check, or isn't one that may stand at its place.
    #[error("bad record {0}")]
    BadRecord(Place),
}

/// Why a store isn't opened.
#[derive(Clone, Copy, Debug, PartialEq, Eq, Error)]
pub enum OpenFault {
    /// The store's own fault.
    #[error("the store can't be opened")]
    Store(StoreFault),
    /// The store has another shape than the one asked for; this is the first field that differs.
    #[error("the store has another shape")]
    Shape(Field),
}

/// Why a page can't be used.
#[derive(Clone, Copy, Debug, PartialEq, Eq, Error)]
pub enum PageFault {
    /// A call on the disk failed.
    #[error("a disk call failed")]
    Failed,
    /// The page that was read fails its check or isn't in its file, or it names a page or a row that isn't there.
    #[error("bad page {0}")]
    BadPage(PageId),
}

impl From<PageFault> for StoreFault {
    ghost from_gives = { λ fault e. e ≡ store_fault_of fault };

    fn from(fault: PageFault) -> StoreFault {
        match fault {
            PageFault::Failed => StoreFault::Failed,
            PageFault::BadPage(page) => StoreFault::BadPage(page),
        }
    }
}

impl From<AllocError> for StoreFault {
    ghost from_gives = { λ _ e. e ≡ memory_fault };

    fn from(_e: AllocError) -> StoreFault {
        StoreFault::Memory(Lack::Bytes)
    }
}

impl<T: Drop> From<AllocFailed<T>> for StoreFault {
    ghost from_gives = { λ _ e. e ≡ memory_fault };

    fn from(_e: AllocFailed<T>) -> StoreFault {
        StoreFault::Memory(Lack::Bytes)
    }
}

impl From<StoreFault> for OpenFault {
    ghost from_gives = { λ fault e. e ≡ opening_fault fault };

    fn from(fault: StoreFault) -> OpenFault {
        OpenFault::Store(fault)
    }
}

impl From<AllocError> for OpenFault {
    ghost from_gives = { λ _ e. e ≡ opening_memory };

    fn from(_e: AllocError) -> OpenFault {
        OpenFault::Store(StoreFault::Memory(Lack::Bytes))
    }
}
