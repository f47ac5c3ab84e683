//! Tests of the log and of the evaluation of lines, and callers that are proved against the contracts of pages, of
//! page locks and of a round's two jobs alone.
#![tactic(auto)]

#[cfg(test)]
mod disks;
#[cfg(test)]
mod evaluation;
#[cfg(test)]
mod keys;
pub mod lock_clients;
#[cfg(test)]
mod log_writers;
#[cfg(test)]
mod logs;
#[cfg(test)]
mod looks;
pub mod pages;
#[cfg(test)]
mod replies;
pub mod rounds;
