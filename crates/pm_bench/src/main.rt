//! Work to be timed, a command for each: it does its work so many times, and prints a sum that
//! tells that it was done.
#![tactic(auto)]

mod block;
mod bound_pages;
#[cfg(test)]
mod checkpoint_tests;
mod command;
mod frames;
mod hash_map;
mod keys;
mod locks;
mod log_rings;
mod lookups;
mod maps;
mod operations;
mod page_list;
mod page_table;
#[cfg(test)]
mod plain_policies;
mod policies;
#[cfg(test)]
mod policy_rules;
mod region;
#[cfg(test)]
mod restores;
mod ring_threads;
mod trees;
#[cfg(test)]
mod worker_pages;

use command::{COMMANDS, Command};
use std::process::ExitCode;
use std::sync::Wait;
use std::thread::Threads;
use std::{env, io};

const USAGE: &str =
    "usage: pm_bench all|page_table|hash_map|region|block|locks|locks_apart|locks_near\
|random_64|random_4096|random_65536|segmented_64|segmented_4096|segmented_65536\
|clock_64|clock_4096|clock_65536\
|keys|tree_puts|tree_gets|tree_removes|map_puts|map_gets|map_removes\
|operations|operations_in_pages|operations_in_map\
|frames|operations_in_frames|gets_in_frames|gets_in_few_frames\
|appends_short|rings_short|ring_threads_short|appends_long|rings_long|ring_threads_long COUNT";

fn main(rt: HostRuntime) -> io::Result<ExitCode> {
    let mut words = env::args(&rt)?;
    let (Some(_), Some(name), Some(count)) = (words.next(), words.next(), words.next()) else {
        return refused(&rt);
    };
    let Ok(count) = count.as_str().parse::<u32>() else {
        return refused(&rt);
    };
    if name.as_str() == "all" {
        for command in COMMANDS {
            report(&rt, command, count)?;
        }
        return Ok(ExitCode::SUCCESS);
    }
    let Some(command) = Command::named(name.as_str()) else {
        return refused(&rt);
    };
    report(&rt, command, count)?;
    Ok(ExitCode::SUCCESS)
}

fn refused(rt: &impl Eprint) -> io::Result<ExitCode> {
    eprintln!(rt; "{USAGE}")?;
    Ok(ExitCode::from(2))
}

// Runs a command and prints its sum.
fn report<R: Print + AllocGlobal + Threads + Wait + Sync>(
    rt: &R,
    command: Command,
    count: u32,
) -> io::Result<()> {
    let sum = command.run(rt, rt.alloc(), count)?;
    let name = command.name();
    println!(rt; "{name} {sum}")
}
