//! A partition over a worker's page frames beside the same one over pages in memory: by one worker whose frames
//! are few, over a reader that fails at each place, and by two workers that steal frames from each other. And a
//! tree of a partition, over few frames as well.
mod any_pages;
mod beginning;
mod beside;
pub mod commands;
mod failing;
mod few_frames;
mod handed_over;
mod host_files;
mod kept_pages;
mod operations;
mod outboxes;
mod page_steps;
pub mod plain;
mod reader;
pub mod records;
mod rounds;
pub mod stop;
mod threads;
mod tree_changes;
mod tree_steps;
mod trees;
mod trees_agree;
