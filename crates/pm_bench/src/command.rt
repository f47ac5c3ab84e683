//! The commands.

use crate::log_rings::Delta;
use crate::policies::{Frames, Kind};
use crate::{
    block, frames, hash_map, keys, locks, log_rings, maps, operations, page_table, policies,
    region, ring_threads, trees,
};
use std::alloc::{AllocError, Global};
use std::sync::Wait;
use std::thread::Threads;

/// A command. A new one has a variant, a name, a module and an entry of `COMMANDS`.
#[derive(Clone, Copy, Debug, PartialEq, Eq)]
pub enum Command {
    /// Look-ups in the page table.
    PageTable,
    /// The same look-ups in std's `HashMap`, which the table is compared with.
    HashMap,
    /// A region of so many frames, made and closed.
    Region,
    /// A vector of as many zeros, which the region is compared with.
    Block,
    /// Takes and puts of a page frame by one worker alone.
    Locks,
    /// The same by each of four workers at once, whose lock words lie far from each other.
    LocksApart,
    /// The same where the four words lie side by side.
    LocksNear,
    /// Pages replaced by a policy of this kind, among so many frames.
    Policy(Kind, Frames),
    /// So many keys, made alone.
    Keys,
    /// The keys put into a tree.
    TreePuts,
    /// The same, and then looked for.
    TreeGets,
    /// The same, and then removed.
    TreeRemoves,
    /// The keys put into std's `BTreeMap`, which the tree is compared with.
    MapPuts,
    /// The same, and then looked for.
    MapGets,
    /// The same, and then removed.
    MapRemoves,
    /// So many operations, made alone.
    Operations,
    /// The same, done on a partition over pages in memory.
    OperationsInPages,
    /// The same, done in the map in memory that the partition is compared with.
    OperationsInMap,
    /// The operations made alone, beside page frames for them.
    FramesAlone,
    /// The operations, done on a partition over page frames that hold all its pages.
    OperationsInFrames,
    /// So many look-ups in a partition that is read from memory, over page frames for all its pages.
    GetsInFrames,
    /// The same over page frames for a tenth of its pages.
    GetsInFewFrames,
    /// The records of so many operations, appended to a log in memory.
    Appends(Delta),
    /// The same through the rings of two workers, which the appends are compared with.
    Rings(Delta),
    /// The same where the two workers and the log writer have a thread each.
    RingThreads(Delta),
}

/// All commands, in the order in which `all` runs them.
pub const COMMANDS: [Command; 36] = [
    Command::PageTable,
    Command::HashMap,
    Command::Region,
    Command::Block,
    Command::Locks,
    Command::LocksApart,
    Command::LocksNear,
    Command::Policy(Kind::Random, Frames::Few),
    Command::Policy(Kind::Random, Frames::Many),
    Command::Policy(Kind::Random, Frames::Most),
    Command::Policy(Kind::Segmented, Frames::Few),
    Command::Policy(Kind::Segmented, Frames::Many),
    Command::Policy(Kind::Segmented, Frames::Most),
    Command::Policy(Kind::Clock, Frames::Few),
    Command::Policy(Kind::Clock, Frames::Many),
    Command::Policy(Kind::Clock, Frames::Most),
    Command::Keys,
    Command::TreePuts,
    Command::TreeGets,
    Command::TreeRemoves,
    Command::MapPuts,
    Command::MapGets,
    Command::MapRemoves,
    Command::Operations,
    Command::OperationsInPages,
    Command::OperationsInMap,
    Command::FramesAlone,
    Command::OperationsInFrames,
    Command::GetsInFrames,
    Command::GetsInFewFrames,
    Command::Appends(Delta::Short),
    Command::Rings(Delta::Short),
    Command::RingThreads(Delta::Short),
    Command::Appends(Delta::Long),
    Command::Rings(Delta::Long),
    Command::RingThreads(Delta::Long),
];

impl Command {
    /// The command with this name.
    pub fn named(name: &str) -> Option<Command> {
        match name {
            "page_table" => Some(Command::PageTable),
            "hash_map" => Some(Command::HashMap),
            "region" => Some(Command::Region),
            "block" => Some(Command::Block),
            "locks" => Some(Command::Locks),
            "locks_apart" => Some(Command::LocksApart),
            "locks_near" => Some(Command::LocksNear),
            "random_64" => Some(Command::Policy(Kind::Random, Frames::Few)),
            "random_4096" => Some(Command::Policy(Kind::Random, Frames::Many)),
            "random_65536" => Some(Command::Policy(Kind::Random, Frames::Most)),
            "segmented_64" => Some(Command::Policy(Kind::Segmented, Frames::Few)),
            "segmented_4096" => Some(Command::Policy(Kind::Segmented, Frames::Many)),
            "segmented_65536" => Some(Command::Policy(Kind::Segmented, Frames::Most)),
            "clock_64" => Some(Command::Policy(Kind::Clock, Frames::Few)),
            "clock_4096" => Some(Command::Policy(Kind::Clock, Frames::Many)),
            "clock_65536" => Some(Command::Policy(Kind::Clock, Frames::Most)),
            "keys" => Some(Command::Keys),
            "tree_puts" => Some(Command::TreePuts),
            "tree_gets" => Some(Command::TreeGets),
            "tree_removes" => Some(Command::TreeRemoves),
            "map_puts" => Some(Command::MapPuts),
            "map_gets" => Some(Command::MapGets),
            "map_removes" => Some(Command::MapRemoves),
            "operations" => Some(Command::Operations),
            "operations_in_pages" => Some(Command::OperationsInPages),
            "operations_in_map" => Some(Command::OperationsInMap),
            "frames" => Some(Command::FramesAlone),
            "operations_in_frames" => Some(Command::OperationsInFrames),
            "gets_in_frames" => Some(Command::GetsInFrames),
            "gets_in_few_frames" => Some(Command::GetsInFewFrames),
            "appends_short" => Some(Command::Appends(Delta::Short)),
            "rings_short" => Some(Command::Rings(Delta::Short)),
            "ring_threads_short" => Some(Command::RingThreads(Delta::Short)),
            "appends_long" => Some(Command::Appends(Delta::Long)),
            "rings_long" => Some(Command::Rings(Delta::Long)),
            "ring_threads_long" => Some(Command::RingThreads(Delta::Long)),
            _ => None,
        }
    }

    /// The command's name.
    pub fn name(&self) -> &'static str {
        match self {
            Command::PageTable => "page_table",
            Command::HashMap => "hash_map",
            Command::Region => "region",
            Command::Block => "block",
            Command::Locks => "locks",
            Command::LocksApart => "locks_apart",
            Command::LocksNear => "locks_near",
            Command::Policy(Kind::Random, Frames::Few) => "random_64",
            Command::Policy(Kind::Random, Frames::Many) => "random_4096",
            Command::Policy(Kind::Random, Frames::Most) => "random_65536",
            Command::Policy(Kind::Segmented, Frames::Few) => "segmented_64",
            Command::Policy(Kind::Segmented, Frames::Many) => "segmented_4096",
            Command::Policy(Kind::Segmented, Frames::Most) => "segmented_65536",
            Command::Policy(Kind::Clock, Frames::Few) => "clock_64",
            Command::Policy(Kind::Clock, Frames::Many) => "clock_4096",
            Command::Policy(Kind::Clock, Frames::Most) => "clock_65536",
            Command::Keys => "keys",
            Command::TreePuts => "tree_puts",
            Command::TreeGets => "tree_gets",
            Command::TreeRemoves => "tree_removes",
            Command::MapPuts => "map_puts",
            Command::MapGets => "map_gets",
            Command::MapRemoves => "map_removes",
            Command::Operations => "operations",
            Command::OperationsInPages => "operations_in_pages",
            Command::OperationsInMap => "operations_in_map",
            Command::FramesAlone => "frames",
            Command::OperationsInFrames => "operations_in_frames",
            Command::GetsInFrames => "gets_in_frames",
            Command::GetsInFewFrames => "gets_in_few_frames",
            Command::Appends(Delta::Short) => "appends_short",
            Command::Rings(Delta::Short) => "rings_short",
            Command::RingThreads(Delta::Short) => "ring_threads_short",
            Command::Appends(Delta::Long) => "appends_long",
            Command::Rings(Delta::Long) => "rings_long",
            Command::RingThreads(Delta::Long) => "ring_threads_long",
        }
    }

    /// Does the work so many times, and gives the sum.
    pub fn run<R: Threads + Wait + Sync>(
        &self,
        rt: &R,
        alloc: Global,
        count: u32,
    ) -> Result<u64, AllocError> {
        match self {
            Command::PageTable => page_table::run(alloc, count),
            Command::HashMap => hash_map::run(alloc, count),
            Command::Region => region::run(alloc, count),
            Command::Block => block::run(alloc, count),
            Command::Locks => locks::run(rt, alloc, locks::ALONE, count),
            Command::LocksApart => locks::run(rt, alloc, locks::APART, count),
            Command::LocksNear => locks::run(rt, alloc, locks::NEAR, count),
            Command::Policy(kind, frames) => policies::run(alloc, *kind, *frames, count),
            Command::Keys => keys::run(alloc, count),
            Command::TreePuts => trees::puts(alloc, count),
            Command::TreeGets => trees::gets(alloc, count),
            Command::TreeRemoves => trees::removes(alloc, count),
            Command::MapPuts => maps::puts(alloc, count),
            Command::MapGets => maps::gets(alloc, count),
            Command::MapRemoves => maps::removes(alloc, count),
            Command::Operations => operations::commands(alloc, count),
            Command::OperationsInPages => operations::in_pages(alloc, count),
            Command::OperationsInMap => operations::in_map(alloc, count),
            Command::FramesAlone => frames::commands(alloc, count),
            Command::OperationsInFrames => frames::mixed(rt, alloc, count),
            Command::GetsInFrames => frames::gets(rt, alloc, count, false),
            Command::GetsInFewFrames => frames::gets(rt, alloc, count, true),
            Command::Appends(delta) => log_rings::appends(alloc, *delta, count),
            Command::Rings(delta) => log_rings::rings(alloc, *delta, count),
            Command::RingThreads(delta) => ring_threads::run(rt, alloc, *delta, count),
        }
    }
}
