//! Tests of the program's call, `pm_top::top`, over a host in memory and over real files: what it answers, what it
//! leaves on the disk, and what it finds there after a crash.
#![tactic(auto)]

#[cfg(test)]
mod bad_pages;
#[cfg(test)]
mod batches;
#[cfg(test)]
mod checkpoints;
#[cfg(test)]
mod configurations;
#[cfg(test)]
mod crashes;
#[cfg(test)]
mod drawn;
#[cfg(test)]
mod few_frames;
#[cfg(test)]
mod file_runs;
#[cfg(test)]
mod folders;
#[cfg(test)]
mod forces;
#[cfg(test)]
mod found_folders;
#[cfg(test)]
mod left_segments;
#[cfg(test)]
mod long_logs;
#[cfg(test)]
mod looks;
#[cfg(test)]
mod page_reads;
#[cfg(test)]
mod pieces;
#[cfg(test)]
mod refusals;
#[cfg(test)]
mod rows;
#[cfg(test)]
mod runs;
#[cfg(test)]
mod scripts;
#[cfg(test)]
mod shapes;
#[cfg(test)]
mod short_logs;
#[cfg(test)]
mod stores;
#[cfg(test)]
mod tools;
#[cfg(test)]
mod torn;
