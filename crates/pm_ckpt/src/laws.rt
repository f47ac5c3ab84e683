//! What those who make checkpoints over page frames may rest on.

ghost use Rattle.pm_ckpt.specs.Staying.{DirtyFramesStay, StripesStayAtRest};

/// Between two rounds the pages in Dirty frames are those that stay in their frames, each named once, with the bytes
/// that are seen of them. They read as what they say where each page at hand does.
pub fn dirty_frames_hold_what_stays()
    ensures { DirtyFramesStay }
{}

/// Stripes that rest may be told that the files have pages, as after a store's first checkpoint, and rest still.
pub fn stripes_stay_at_rest()
    ensures { StripesStayAtRest }
{}
