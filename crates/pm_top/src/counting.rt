//! How many replies of each kind there are.

ghost use Rattle.std.specs.Prelude.{◌≡◌, ◌⊎◌, ◌<◌, ◌+◌, ◌^◌, ◌++◌, [], take, decimal, OnOk};
ghost use Rattle.pm_disk.specs.States.{IsLaterState, IsUsable, Rose};
ghost use Rattle.pm_disk.specs.Moments.{AllMoments};
ghost use Rattle.pm_disk.specs.Worlds.{with_said};
ghost use Rattle.pm_top.specs.Promises.{SaysPart};
ghost use Rattle.pm_top.specs.ReplyCounts.{counted_in, no_counts, summary_line, with_all, with_reply};

use crate::status::Status;
use itoa::Buffer;
use pm_disk::Host;
use pm_model::{Replies, Reply};
use std::alloc::{AllocError, Global};

/// How many replies of each kind there are.
#[derive(Clone, Copy, Debug)]
pub struct ReplyCounts {
    /// `ok`.
    pub done: u32,
    /// `value`.
    pub found: u32,
    /// `none`.
    pub absent: u32,
    /// `true`.
    pub removed: u32,
    /// `false`.
    pub missing: u32,
    /// `error full`.
    pub full: u32,
}

impl ReplyCounts {
    /// No reply.
    pub fn none() -> ReplyCounts
        ensures { result ≡ no_counts }
    {
        ReplyCounts {
            done: 0,
            found: 0,
            absent: 0,
            removed: 0,
            missing: 0,
            full: 0,
        }
    }

    /// Counts the first `most` of these replies too, or all where there are no more.
    pub fn add_first(&mut self, replies: &Replies, most: usize)
        requires { counted_in self.old + most < 2 ^ 32 }
        ensures { self.new ≡ with_all self.old (take most replies.now.replies) }
    {
        'each: for i in 0..replies.len().min(most) {
            self.add(replies.get(i));
        }
    }

    // Counts a reply too.
    fn add(&mut self, reply: &Reply)
        requires { counted_in self.old + 1 < 2 ^ 32 }
        ensures { self.new ≡ with_reply self.old reply.now }
    {
        match reply {
            Reply::Done => self.done += 1,
            Reply::Found(_) => self.found += 1,
            Reply::Absent => self.absent += 1,
            Reply::Was(true) => self.removed += 1,
            Reply::Was(false) => self.missing += 1,
            Reply::Full => self.full += 1,
            Reply::Pairs(_) | Reply::BadLine | Reply::LongLine => {}
        }
    }
}

/// Prints the line that says how many lines were run, and how many replies of each kind there were. Gives
/// `Done`, or `Failed` where that fails. Where there is no memory for it nothing is printed, and it gives
/// `Memory`.
pub fn print_summary<H: Host>(
    alloc: Global,
    host: &mut H,
    lines: u32,
    counts: ReplyCounts,
) -> Status
    requires usable { IsUsable (H.state host.old) }
    ensures done { H.tells → result ≡ Status.Done →
        (H.history host.new).world ≡ with_said (summary_line lines counts) (H.history host.old).world }
    ensures moments { H.tells → AllMoments (H.history host.old) (H.history host.new)
        (SaysPart (summary_line lines counts) (H.history host.old).world) }
    ensures memory { H.tells → result ≡ Status.Memory →
        (H.history host.new).world ≡ (H.history host.old).world }
    ensures cases { (result ≡ Status.Done) ⊎ (result ≡ Status.Failed) ⊎ (result ≡ Status.Memory) }
    ensures failed { result ≡ Status.Failed → Rose (H.state host.old) (H.state host.new) }
    ensures state { IsLaterState (H.state host.old) (H.state host.new) }
{
    let mut text = Vec::new(alloc);
    match write_summary(lines, counts, &mut text) {
        Ok(()) => match host.print(&text) {
            Ok(()) => Status::Done,
            Err(_) => Status::Failed,
        },
        Err(_) => Status::Memory,
    }
}

// Writes the line.
fn write_summary(lines: u32, counts: ReplyCounts, into: &mut Vec<u8>) -> Result<(), AllocError>
    requires { into.old.items ≡ [] }
    ensures { OnOk result (into.new.items ≡ summary_line lines counts) }
{
    write_count(b"lines ", lines, into)?;
    write_count(b" ok ", counts.done, into)?;
    write_count(b" value ", counts.found, into)?;
    write_count(b" none ", counts.absent, into)?;
    write_count(b" true ", counts.removed, into)?;
    write_count(b" false ", counts.missing, into)?;
    write_count(b" full ", counts.full, into)?;
    into.extend_from_slice(b"\n")
}

// Appends a word, and a number in decimal.
fn write_count(word: &[u8], count: u32, into: &mut Vec<u8>) -> Result<(), AllocError>
    ensures { OnOk result (into.new.items ≡ into.old.items ++ word.now ++ decimal count) }
{
    into.extend_from_slice(word)?;
    into.extend_from_slice(Buffer::new().format(count).as_bytes())
}
