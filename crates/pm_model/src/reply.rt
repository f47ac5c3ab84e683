//! What a line is answered.

ghost use Rattle.std.specs.Prelude.{◌≡◌, true, false};

use crate::pair_list::PairList;
use pm_types::Value;

/// The reply to a line.
#[derive(Debug, Drop)]
pub enum Reply {
    /// The key has the value now, or the checkpoint was made.
    Done,
    /// The key's value.
    Found(Value),
    /// The key has no value.
    Absent,
    /// Whether the key was there; it is taken out.
    Was(bool),
    /// The pairs of a cache, by rising key.
    Pairs(PairList),
    /// The key is new, and its partition has as many rows as it may have. Nothing was changed.
    Full,
    /// The line is bad.
    BadLine,
    /// The line is too long.
    LongLine,
}

/// A line's reply, and whether the line was accepted: whether it changes the map.
#[derive(Debug, Drop)]
pub struct Answer {
    pub reply: Reply,
    pub is_accepted: bool,
}

impl Answer {
    /// The answer to a line that changes the map.
    pub(crate) fn accepted(reply: Reply) -> Answer
        ensures reply { result.reply ≡ reply }
        ensures accepted { result.is_accepted ≡ true }
    {
        Answer {
            reply,
            is_accepted: true,
        }
    }

    /// The answer to a line that leaves the map as it is.
    pub(crate) fn not_accepted(reply: Reply) -> Answer
        ensures reply { result.reply ≡ reply }
        ensures not_accepted { result.is_accepted ≡ false }
    {
        Answer {
            reply,
            is_accepted: false,
        }
    }
}
