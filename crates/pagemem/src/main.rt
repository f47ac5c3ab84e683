//! The program: it does what its words ask for, over real files and the standard streams. Where
//! that isn't done, a line on standard error says why.
#![tactic(auto)]

use pm_disk_fs::FsHost;
use pm_top::top;
use pm_types::Lack;
use std::env;
use std::io::ErrorKind;
use std::process::ExitCode;
use std::sync::Wait;

// The statuses that `main` itself gives, as `top` does.
const USAGE: u8 = 1;

const FAILED: u8 = 3;

const OUT_OF_MEMORY: u8 = 4;

fn main(rt: HostRuntime) -> ExitCode {
    ExitCode::from(run(&rt, &rt))
}

// Does what the words of the process ask for, and says why where that isn't done. `waiting` is the same
// runtime, by which a wait for a page frame may last.
fn run(rt: &HostRuntime, waiting: &(impl AllocGlobal + Wait)) -> u8 {
    let words = match read_words(rt) {
        Ok(words) => words,
        Err(status) => return explained(rt, status, Lack::Bytes),
    };
    let Ok(outside) = rt.clone() else {
        return explained(rt, OUT_OF_MEMORY, Lack::Bytes);
    };
    let mut host = FsHost::new(outside);
    let report = top(waiting, &words, &mut host);
    match host.first_failure() {
        Some(failure) if report.status == FAILED => {
            let _ = eprintln!(rt; "pagemem: {failure}");
            report.status
        }
        _ => explained(rt, report.status, report.lack),
    }
}

// The words after the program's name, or the status that ends the program: a word that isn't UTF-8
// is no word of a command.
fn read_words(rt: &HostRuntime) -> Result<Vec<String>, u8> {
    match env::args(rt) {
        Ok(words) => words
            .skip(1)
            .collect::<Vec<String>>(rt.alloc())
            .map_err(|_| OUT_OF_MEMORY),
        Err(fault) if fault.kind() == ErrorKind::OutOfMemory => Err(OUT_OF_MEMORY),
        Err(_) => Err(USAGE),
    }
}

// The status, once standard error has a line that says why the program ends with it. What can't be
// written there is lost.
fn explained(rt: &HostRuntime, status: u8, lack: Lack) -> u8 {
    if let Some(reason) = reason(status, lack) {
        let _ = eprintln!(rt; "pagemem: {reason}");
    }
    status
}

// What a status means, where the work wasn't done.
fn reason(status: u8, lack: Lack) -> Option<&'static str> {
    match status {
        0 => None,
        USAGE => Some(
            "call it as `pagemem run DIR < SCRIPT`, `pagemem wal DIR`, `pagemem verify DIR` or \
             `pagemem gen DIR SEED COUNT`",
        ),
        2 => Some("the folder's configuration is refused: the field is named on standard output"),
        FAILED => Some("a call on the disk, the input or the output failed"),
        OUT_OF_MEMORY => Some(lacking(lack)),
        5 => Some("the store has a bad record or page, named on standard output"),
        _ => Some(
            "the script passes 4,000,000 lines or 17,179,869,184 bytes; the lines before that are answered",
        ),
    }
}

// What ran out, and what helps.
fn lacking(lack: Lack) -> &'static str {
    match lack {
        Lack::Bytes => "memory ran out",
        Lack::Frames => "page frames ran out: set `frames` higher in the folder's configuration",
        Lack::Numbers =>
            "the log has no numbers left for its segments: dump the store, and load it into a new folder",
    }
}
