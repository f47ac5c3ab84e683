//! The outside as the process has it: real files, standard input and standard output.
#![tactic(auto)]

mod calls;
mod failure;
mod faults;
mod folder;
mod host;
mod lock;
mod open_files;
mod opened;
mod part;
mod paths;
mod reader;
mod reading;
mod split;
mod store;
mod write_buffer;
mod writes;

pub use calls::{FileCalls, PathCalls, ReadCalls, SameCalls};
pub use failure::{Failure, Object, SystemCall};
pub use host::FsHost;
pub use lock::Lockable;
pub use open_files::OPEN_MAX;
pub use part::FsPart;
pub use reader::FsReader;
