//! A host in memory, which tells all that it holds and can be stopped, made to fail, and crashed.
#![tactic(auto)]

mod bytes;
mod change;
mod config;
mod console;
mod contents;
mod crash;
mod disk;
mod event;
mod failures;
mod family;
mod file;
mod files;
mod host;
mod log;
mod outside;
mod pages;
mod part;
mod parts;
mod pick;
mod presence;
mod reader;
mod split;
mod step;
mod work;

pub use disk::MemDisk;
pub use host::MemHost;
pub use part::MemPart;
pub use pick::Pick;
pub use presence::Presence;
pub use reader::MemReader;
