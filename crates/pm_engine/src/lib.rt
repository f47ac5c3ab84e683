//! The engine: a store over page frames and a log, opened from what a crash left and run a batch at a time.
#![tactic(auto)]

mod accepting;
mod engine;
mod engine_batch;
mod engine_batch_end;
mod engine_between_lines;
mod engine_checkpoint;
mod engine_forcing;
mod engine_lines;
mod engine_parts;
mod engine_replay;
mod engine_replay_checkpoint;
mod engine_rounds;
mod frame_checkpoint;
mod frame_commands;
mod frame_dirty;
mod frame_host;
mod frame_lines;
mod frame_opening;
mod frame_outbox;
mod frame_replay;
mod frame_replay_log;
mod frame_rounds;
mod frame_running;
mod frame_scans;
mod frame_store;
mod framed_stores;
mod handed_pages;
mod laws;
mod line_chains;
mod log_count;
mod merging;
mod outbox_log;
mod replay_log;
mod restarts;
mod running;
mod running_lines;
mod tracking;

pub use engine::Engine;
pub use engine_rounds::is_alone;
pub use frame_commands::run_in_frames;
pub use frame_lines::{Stop, line_in_frames};
pub use frame_rounds::{RoundEnd, lines_in_frames};
pub use frame_running::{
    a_checkpoint_leaves_a_store_in_frames, a_checkpoint_writes_what_stays,
    a_store_in_frames_may_be_checkpointed,
};
pub use frame_scans::{ScanStop, pairs_in_frames};
pub use frame_store::FrameStore;
pub use framed_stores::done_lines_are_steps;
pub use handed_pages::{
    an_operation_hands_over_its_frames, edits_in_frames_are_noted, pages_in_hand_are_noted,
};
pub use laws::a_store_is_its_partitions;
pub use line_chains::{a_running_store_does_all_lines, logged_pages_have_no_order};
pub use outbox_log::{append_operations, note_operations};
pub use running::{
    a_checkpoint_leaves_a_running_store, a_restored_store_may_be_opened,
    a_running_store_may_append, a_running_store_may_be_checkpointed, a_running_store_may_force,
    an_operation_says_its_pages,
};
pub use running_lines::{
    a_checkpoint_keeps_the_lines, a_crash_leaves_a_prefix_of_the_lines, a_running_store_does_lines,
};
pub use tracking::{
    edits_are_noted, seals_rebuild_nothing, tracked_pages_are_rebuilt, tracking_begins,
    tracking_goes_on,
};
