//! Tests of both hosts by themselves and call by call, and real files that write a trace of what is done to them.
#![tactic(auto)]

#[cfg(test)]
mod calls;
pub mod consoles;
#[cfg(test)]
mod disks;
#[cfg(test)]
mod file_buffers;
#[cfg(test)]
mod file_calls;
#[cfg(test)]
mod file_failures;
#[cfg(test)]
mod file_hosts;
#[cfg(test)]
mod found_folders;
#[cfg(test)]
mod hosts;
#[cfg(test)]
mod lasting;
#[cfg(test)]
mod looks;
#[cfg(test)]
mod memory_calls;
#[cfg(test)]
mod memory_hosts;
#[cfg(test)]
mod memory_images;
pub mod noted;
#[cfg(test)]
mod pairs;
#[cfg(test)]
mod parts;
pub mod recorded;
#[cfg(test)]
mod tasks;
#[cfg(test)]
mod threads;
pub mod traces;
