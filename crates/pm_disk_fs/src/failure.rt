//! Why a call failed: which call of the system, on what, and the system's words.

ghost use Rattle.std.specs.Prelude.{◌≡◌, Ok, IfOk, IfErr, IsErrAnd};
ghost use Rattle.pm_disk_fs.specs.declared.failure.Failure.TheVariants.{Memory};

use pm_disk::{MarkFile, StoreFile};
use std::alloc::{AllocError, AllocFailed};
use std::fmt::{self, Display, Formatter, Write};
use std::io;

/// A call of the system.
#[derive(Clone, Copy, Debug, PartialEq, Eq)]
pub enum SystemCall {
    Open,
    Stat,
    Read,
    Write,
    Seek,
    Truncate,
    Sync,
    Remove,
    MakeFolder,
    Lock,
}

impl SystemCall {
    /// The call's name, as the system knows it.
    pub fn name(self) -> &'static str {
        match self {
            SystemCall::Open => "open",
            SystemCall::Stat => "stat",
            SystemCall::Read => "read",
            SystemCall::Write => "write",
            SystemCall::Seek => "lseek",
            SystemCall::Truncate => "ftruncate",
            SystemCall::Sync => "fsync",
            SystemCall::Remove => "unlink",
            SystemCall::MakeFolder => "mkdir",
            SystemCall::Lock => "flock",
        }
    }
}

/// What a call of the system was made on.
#[derive(Clone, Copy, Debug, PartialEq, Eq)]
pub enum Object {
    /// A file in the store's folder.
    File(StoreFile),
    /// The store's folder, or one on the way to it.
    Folder,
    /// The folder above the store's.
    FolderAbove,
    /// The standard input.
    Input,
    /// The standard output.
    Output,
}

impl Display for Object {
    fn fmt<W: Write>(&self, f: &mut Formatter<W>) -> fmt::Result {
        match self {
            Object::File(StoreFile::Config) => f.write_str("config.json"),
            Object::File(StoreFile::Marks(MarkFile::Start)) => f.write_str("cp.start"),
            Object::File(StoreFile::Marks(MarkFile::End)) => f.write_str("cp.end"),
            Object::File(StoreFile::Segment(seg)) => write!(f, "wal-{seg:016x}.seg"),
            Object::File(StoreFile::Pages(part)) => write!(f, "part-{part:03}.pages"),
            Object::Folder => f.write_str("the store's folder"),
            Object::FolderAbove => f.write_str("the folder above the store's"),
            Object::Input => f.write_str("the input"),
            Object::Output => f.write_str("the output"),
        }
    }
}

/// Why a call failed. It takes no memory.
#[derive(Clone, Copy, Debug)]
pub enum Failure {
    /// The system refused this call on this object, for this reason.
    System(SystemCall, Object, io::Error),
    /// Out of memory.
    Memory,
    /// A change or a force of a file has failed before, or a part's file couldn't be kept open.
    Poisoned,
    /// No folder is bound.
    Unbound,
    /// The host's parts are lent.
    Lent,
    /// Another run has the store's folder.
    Locked,
    /// No file has the number of this partition.
    NoPartition(u16),
}

impl Display for Failure {
    fn fmt<W: Write>(&self, f: &mut Formatter<W>) -> fmt::Result {
        match self {
            Failure::System(call, object, error) => {
                let call = call.name();
                write!(f, "{call} of {object}: {error}")
            }
            Failure::Memory => f.write_str("out of memory"),
            Failure::Poisoned => f.write_str("a change or a force of a file has failed before"),
            Failure::Unbound => f.write_str("no folder is bound"),
            Failure::Lent => f.write_str("the host's parts are lent"),
            Failure::Locked => f.write_str("another run has the store's folder"),
            Failure::NoPartition(part) => write!(f, "there is no partition {part}"),
        }
    }
}

impl From<AllocError> for Failure {
    ghost from_gives = { λ _ failure. failure ≡ Memory };

    fn from(_e: AllocError) -> Failure {
        Failure::Memory
    }
}

impl<T: Drop> From<AllocFailed<T>> for Failure {
    ghost from_gives = { λ _ failure. failure ≡ Memory };

    fn from(_e: AllocFailed<T>) -> Failure {
        Failure::Memory
    }
}

/// What the system answered to a call, with an error of it named.
pub fn named<T>(call: SystemCall, object: Object, answer: io::Result<T>) -> Result<T, Failure>
    ensures value { IfOk result (λ value. answer ≡ Ok value) }
    ensures error { IfErr result (λ failure. IsErrAnd answer
        (λ error. failure ≡ Failure.System call object error)) }
{
    match answer {
        Ok(value) => Ok(value),
        Err(error) => Err(Failure::System(call, object, error)),
    }
}
