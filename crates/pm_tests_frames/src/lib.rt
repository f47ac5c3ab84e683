//! Tests of page frames in memory and of the threads that share them: regions, the page table, page locks, the
//! flusher's job, and the log writer.
#![tactic(auto)]

#[cfg(test)]
mod flushes;
#[cfg(test)]
mod locks;
#[cfg(test)]
mod log_writers;
#[cfg(test)]
mod page_tables;
#[cfg(test)]
mod regions;
