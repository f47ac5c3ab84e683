//! What a flusher has in a round.

use crate::copies::CopyList;
use crate::done::FlushDone;
use crate::due_page::DuePage;

/// A round's job: the pages to be written, the copies of those that their owners have changed since they
/// became due, and what became of them.
#[derive(Drop)]
pub struct FlushWork {
    pub job: Vec<DuePage>,
    pub copies: CopyList,
    pub done: FlushDone,
}
