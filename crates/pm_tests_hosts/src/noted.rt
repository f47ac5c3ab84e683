//! Forces that a test notes in the trace.

use crate::recorded::{FORCED, note};
use pm_disk::MarkFile;
use std::alloc::AllocError;
use std::rt::Files;

/// A file that can be forced.
#[derive(Clone, Copy)]
pub enum Forced {
    Segment(u64),
    Pages(u16),
    Marks(MarkFile),
}

/// The path of a file of the folder.
fn path_of<R: AllocGlobal>(rt: &R, folder: &str, file: Forced) -> Result<String, AllocError> {
    match file {
        Forced::Segment(seg) => format!(in rt.alloc(); "{folder}/wal-{seg:016x}.seg"),
        Forced::Pages(part) => format!(in rt.alloc(); "{folder}/part-{part:03}.pages"),
        Forced::Marks(MarkFile::Start) => format!(in rt.alloc(); "{folder}/cp.start"),
        Forced::Marks(MarkFile::End) => format!(in rt.alloc(); "{folder}/cp.end"),
    }
}

/// Notes that a file of the folder is forced.
pub fn note_force<R: Files + AllocGlobal>(rt: &R, folder: &str, file: Forced) {
    if let Ok(path) = path_of(rt, folder, file) {
        let _ = note(rt, FORCED, &path);
    }
}
