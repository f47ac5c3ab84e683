//! Room for the replies to a batch.

ghost use Rattle.std.specs.Prelude.{◌≡◌, ◌≤◌, [], OnOk};
ghost use Rattle.pm_types.specs.declared.limits.TheConstants.{BATCH_LINES_MAX as most_lines};

use pm_model::Replies;
use pm_types::BATCH_LINES_MAX;
use std::alloc::{AllocError, Global};

/// Takes all replies out, and sees that there is room for so many, so that a batch that has begun takes no memory for
/// its replies. A list that has room for a batch already keeps its memory.
pub fn make_room(alloc: Global, replies: &mut Replies, lines: usize) -> Result<(), AllocError>
    requires few { lines ≤ most_lines }
    ensures none { OnOk result (replies.new.replies ≡ []) }
    ensures room { OnOk result (lines ≤ replies.new.spare) }
{
    replies.clear(alloc)?;
    if replies.spare() < lines {
        *replies = Replies::with_room(alloc, BATCH_LINES_MAX)?;
    }
    Ok(())
}
