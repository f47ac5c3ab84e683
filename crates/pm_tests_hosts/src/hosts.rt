//! The host over files and the host in memory, call by call.

ghost use Rattle.std.specs.Prelude.{◌≡◌, false};
ghost use Rattle.pm_disk.specs.States.{IsUsable};
ghost use Rattle.pm_disk_mem.specs.Hosts.{state_of};

use crate::calls::{Call, Round, answer, bind};
use crate::consoles::SAID;
use crate::disks::{Disk, host_over, left_of, no_files, put_file};
use crate::looks::{holds, same_bytes};
use crate::noted::note_force;
use crate::recorded::TRACE;
use crate::tasks::{Task, over_files};
use crate::traces::count_forces;
use pm_disk::{Host, MarkFile};
use pm_disk_mem::{MemHost, Pick};
use std::alloc::{AllocError, Global};
use std::fs;
use std::io::{self, ErrorKind};
use std::process::Abort;
use std::rt::Files;

/// The folder of the host over files.
const FOLDER: &str = "both";

/// The files that stand in the folder before the first call. The last page and the last slot aren't whole.
static STANDING: [(&str, &[u8]); 3] = [
    ("config.json", b"{}"),
    ("part-005.pages", b"pages!"),
    ("cp.end", &[8; 70]),
];

/// The files that are looked at after each call.
static NAMES: [&str; 9] = [
    "config.json",
    "wal-0000000000000001.seg",
    "wal-0000000000000002.seg",
    "wal-0000000000000003.seg",
    "part-003.pages",
    "part-004.pages",
    "part-005.pages",
    "cp.start",
    "cp.end",
];

/// Calls on the log, each with its answer.
static ON_LOG: [(Call, &str); 31] = [
    (Call::SegLen(1), "Ok(None)"),
    (Call::ReadLog(1, 0), "Ok(0) []"),
    (Call::ForceLog(1), "Ok(())"),
    (Call::DropLog(1), "Ok(())"),
    (Call::AppendLog(1, b"abcd"), "Ok(())"),
    (Call::AppendLog(1, b"efgh"), "Ok(())"),
    (Call::SegLen(1), "Ok(Some(8))"),
    (Call::WriteLog(1, b"AB"), "Ok(())"),
    (Call::AppendLog(2, b"second"), "Ok(())"),
    (Call::ForceLog(1), "Ok(())"),
    (
        Call::ReadLog(1, 0),
        "Ok(8) [65, 66, 99, 100, 101, 102, 103, 104]",
    ),
    (Call::ReadLog(1, 6), "Ok(2) [103, 104]"),
    (Call::ReadLog(1, 8), "Ok(0) []"),
    (Call::ReadLog(1, 9), "Ok(0) []"),
    (Call::WriteLog(2, b"Seconds"), "Ok(())"),
    (Call::SegLen(2), "Ok(Some(7))"),
    (Call::HalveLog(1), "Ok(())"),
    (Call::ReadLog(1, 0), "Ok(4) [65, 66, 99, 100]"),
    (Call::HalveLog(3), "Ok(())"),
    (Call::SegLen(3), "Ok(Some(0))"),
    (Call::DropLog(1), "Ok(())"),
    (Call::SegLen(1), "Ok(None)"),
    (Call::ReadLog(1, 0), "Ok(0) []"),
    (Call::ForceLog(1), "Ok(())"),
    (Call::AppendLog(1, b"new"), "Ok(())"),
    (Call::ReadLog(1, 0), "Ok(3) [110, 101, 119]"),
    (Call::ForceLog(1), "Ok(())"),
    (Call::ForceLog(2), "Ok(())"),
    (Call::ForceLog(3), "Ok(())"),
    (Call::Bind(FOLDER), "Ok(())"),
    (
        Call::ReadLog(2, 0),
        "Ok(7) [83, 101, 99, 111, 110, 100, 115]",
    ),
];

/// Calls on pages and markers, each with its answer.
static ON_PAGES: [(Call, &str); 31] = [
    (Call::ForcePages(3), "Ok(())"),
    (Call::ReadPage(3, 0), "Ok(false) [0, 0, 0, 0]"),
    (Call::WritePage(3, 2, 5), "Ok(())"),
    (Call::ReadPage(3, 1), "Ok(true) [0, 0, 0, 0]"),
    (Call::ReadPage(3, 2), "Ok(true) [5, 5, 5, 5]"),
    (Call::ReadPage(3, 3), "Ok(false) [0, 0, 0, 0]"),
    (Call::WritePage(3, 0, 6), "Ok(())"),
    (Call::ReadPage(3, 0), "Ok(true) [6, 6, 6, 6]"),
    (Call::ReadPage(3, 2), "Ok(true) [5, 5, 5, 5]"),
    (Call::ReadPage(4, 0), "Ok(false) [0, 0, 0, 0]"),
    (Call::ReadPage(5, 0), "Ok(true) [112, 97, 103, 101]"),
    (Call::ReadPage(5, 1), "Ok(false) [0, 0, 0, 0]"),
    (Call::WritePage(5, 1, 7), "Ok(())"),
    (Call::ReadPage(5, 1), "Ok(true) [7, 7, 7, 7]"),
    (Call::ForcePages(3), "Ok(())"),
    (Call::ForcePages(4), "Ok(())"),
    (Call::ForcePages(5), "Ok(())"),
    (Call::ForceMark(MarkFile::Start), "Ok(())"),
    (Call::ReadMark(MarkFile::Start, 0), "Ok(false) 64 of 0"),
    (Call::WriteMark(MarkFile::Start, 1, 7), "Ok(())"),
    (Call::ReadMark(MarkFile::Start, 0), "Ok(true) 64 of 0"),
    (Call::ReadMark(MarkFile::Start, 1), "Ok(true) 64 of 7"),
    (Call::ReadMark(MarkFile::End, 0), "Ok(true) 64 of 8"),
    (Call::ReadMark(MarkFile::End, 1), "Ok(false) 64 of 0"),
    (Call::WriteMark(MarkFile::End, 1, 9), "Ok(())"),
    (Call::ReadMark(MarkFile::End, 0), "Ok(true) 64 of 8"),
    (Call::ReadMark(MarkFile::End, 1), "Ok(true) 64 of 9"),
    (Call::WriteMark(MarkFile::End, 0, 6), "Ok(())"),
    (Call::ReadMark(MarkFile::End, 0), "Ok(true) 64 of 6"),
    (Call::ForceMark(MarkFile::Start), "Ok(())"),
    (Call::ForceMark(MarkFile::End), "Ok(())"),
];

/// Calls on the parts of a split host, and on the host between, each with its answer. What the log part
/// buffered is written by the next call on the log, of a part or of the host.
static ON_PARTS: [(Call, &str); 13] = [
    (
        Call::Round(Round {
            append: b"1234",
            forces: true,
            due: (3, 1, 7),
            read: (3, 0),
        }),
        "Ok(Some(3)) Ok(()) Ok(()); Ok(()) Ok(()); Ok(true) [6, 6, 6, 6]; Err(Failed)",
    ),
    (Call::ReadLog(1, 0), "Ok(7) [110, 101, 119, 49, 50, 51, 52]"),
    (Call::ReadPage(3, 1), "Ok(true) [7, 7, 7, 7]"),
    (
        Call::Round(Round {
            append: b"5",
            forces: false,
            due: (4, 0, 8),
            read: (3, 1),
        }),
        "Ok(Some(7)) Ok(()) Ok(()); Ok(()) Ok(()); Ok(true) [7, 7, 7, 7]; Err(Failed)",
    ),
    (Call::AppendLog(1, b"6"), "Ok(())"),
    (
        Call::Round(Round {
            append: b"7",
            forces: false,
            due: (4, 2, 9),
            read: (4, 0),
        }),
        "Ok(Some(9)) Ok(()) Ok(()); Ok(()) Ok(()); Ok(true) [8, 8, 8, 8]; Err(Failed)",
    ),
    (Call::ForceLog(1), "Ok(())"),
    (Call::ReadLog(1, 7), "Ok(3) [53, 54, 55]"),
    (Call::ReadPage(4, 1), "Ok(true) [0, 0, 0, 0]"),
    (Call::ReadPage(4, 2), "Ok(true) [9, 9, 9, 9]"),
    (
        Call::Round(Round {
            append: b"",
            forces: true,
            due: (3, 3, 1),
            read: (6, 0),
        }),
        "Ok(Some(10)) Ok(()) Ok(()); Ok(()) Ok(()); Ok(false) [0, 0, 0, 0]; Err(Failed)",
    ),
    (Call::WriteMark(MarkFile::Start, 0, 3), "Ok(())"),
    (Call::ForceMark(MarkFile::Start), "Ok(())"),
];

/// Calls on the configuration and the console, each with its answer.
static ON_CONSOLE: [(Call, &str); 7] = [
    (Call::ReadConfig, "Ok(2) [123, 125]"),
    (Call::Read, "Ok(8) [103, 101, 116, 32, 48, 32, 97, 10]"),
    (Call::Print(b"none\n"), "Ok(())"),
    (Call::Read, "Ok(3) [112, 117, 116]"),
    (Call::Print(b"ok"), "Ok(())"),
    (Call::Read, "Ok(0) []"),
    (Call::Print(b""), "Ok(())"),
];

/// The path of a file of the folder.
fn path_of(alloc: Global, name: &str) -> Result<String, AllocError> {
    format!(in alloc; "{FOLDER}/{name}")
}

/// What was read, none where there was no such file.
fn if_there(read: io::Result<Vec<u8>>) -> io::Result<Option<Vec<u8>>> {
    match read {
        Ok(bytes) => Ok(Some(bytes)),
        Err(e) if e.kind() == ErrorKind::NotFound => Ok(None),
        Err(e) => Err(e),
    }
}

/// The bytes of a file of the folder, none where it isn't there.
fn file_of(
    rt: &(impl Abort + AllocGlobal),
    real: &(impl AllocGlobal + Files),
    name: &str,
) -> Option<Vec<u8>> {
    let path = path_of(rt.alloc(), name).expect(rt, name);
    if_there(fs::read(real, &path)).expect(rt, name)
}

/// Whether a file of the folder is as it is on this disk.
fn is_alike(
    rt: &(impl Abort + AllocGlobal),
    real: &(impl AllocGlobal + Files),
    disk: &Disk,
    name: &str,
) -> bool {
    let file = file_of(rt, real, name);
    disk.file(name) == file.as_ref().map(|bytes| bytes.as_slice())
}

/// The first of the files that the folder and the memory don't have alike.
fn differing(
    rt: &(impl Abort + AllocGlobal),
    real: &(impl AllocGlobal + Files),
    memory: &MemHost,
    pick: Pick,
) -> Option<&'static str> {
    let disk = left_of(rt, memory, pick);
    for name in &NAMES {
        if !is_alike(rt, real, &disk, name) {
            return Some(*name);
        }
    }
    None
}

/// Looks at both answers to a call.
fn look_at_answers(rt: &impl Abort, by_memory: &str, by_files: &str, wanted: &str) {
    holds(
        rt,
        "the answer of the host in memory",
        by_memory == wanted,
        &(by_memory, wanted),
    );
    holds(
        rt,
        "the answer of the host over files",
        by_files == wanted,
        &(by_files, wanted),
    );
}

/// Makes a call on both, and looks at what both say to it.
fn answer_both<M: Host, F: Host>(
    rt: &(impl Abort + AllocGlobal),
    memory: &mut M,
    files: &mut F,
    call: &Call,
    wanted: &str,
)
    requires memory { IsUsable (M.state memory.old) }
    requires files { IsUsable (F.state files.old) }
    ensures memory { IsUsable (M.state memory.new) }
    ensures files { IsUsable (F.state files.new) }
{
    let by_memory = answer(rt.alloc(), memory, call).expect(rt, "an answer");
    let by_files = answer(rt.alloc(), files, call).expect(rt, "an answer");
    look_at_answers(rt, by_memory.as_str(), by_files.as_str(), wanted);
}

/// The first file that isn't alike after this call. None is looked at after a log write, which may
/// be made with the next other call on the log.
fn differing_after(
    rt: &(impl Abort + AllocGlobal),
    real: &(impl AllocGlobal + Files),
    memory: &MemHost,
    call: &Call,
) -> Option<&'static str> {
    if call.may_wait() {
        return None;
    }
    differing(rt, real, memory, Pick::Kept)
}

/// Notes which file a call has forced, if one: the call was answered as wanted.
fn note_call(rt: &(impl AllocGlobal + Files), call: &Call) {
    if let Some(file) = call.forced_file() {
        note_force(rt, FOLDER, file);
    }
}

/// Makes a call on both, and looks at each answer and at the files after it.
fn step<F: Host>(
    rt: &(impl Abort + AllocGlobal),
    real: &(impl AllocGlobal + Files),
    memory: &mut MemHost,
    files: &mut F,
    call: &Call,
    wanted: &str,
)
    requires memory { IsUsable (state_of memory.old) }
    requires files { IsUsable (F.state files.old) }
    ensures memory { IsUsable (state_of memory.new) }
    ensures files { IsUsable (F.state files.new) }
{
    answer_both(rt, memory, files, call, wanted);
    note_call(real, call);
    let differs = differing_after(rt, real, memory, call);
    holds(
        rt,
        "the files are alike",
        differs.is_none(),
        &(differs, wanted),
    );
}

/// Makes the calls on both, and looks at each.
fn compare<F: Host>(
    rt: &(impl Abort + AllocGlobal),
    real: &(impl AllocGlobal + Files),
    memory: &mut MemHost,
    files: &mut F,
    calls: &[(Call, &str)],
)
    requires memory { IsUsable (state_of memory.old) }
    requires files { IsUsable (F.state files.old) }
    ensures memory { IsUsable (state_of memory.new) }
    ensures files { IsUsable (F.state files.new) }
{
    'calls: for (call, wanted) in calls {
        step(rt, real, memory, files, call, wanted);
    }
}

/// The files that stand there before the first call, on a disk in memory.
fn standing_disk(rt: &(impl Abort + AllocGlobal)) -> Disk {
    let mut disk = no_files(rt);
    for (name, bytes) in &STANDING {
        put_file(rt, &mut disk, name, bytes);
    }
    disk
}

/// The host in memory, over the files that stand there before the first call.
fn in_memory(rt: &(impl Abort + AllocGlobal)) -> MemHost
    ensures { result.is_lent ≡ false }
{
    host_over(rt, INPUT, b"", standing_disk(rt), &[], None)
}

/// Puts a file into the folder.
fn write_file(
    rt: &(impl Abort + AllocGlobal),
    real: &(impl AllocGlobal + Files),
    name: &str,
    bytes: &[u8],
) {
    let path = path_of(rt.alloc(), name).expect(rt, name);
    fs::write(real, &path, bytes).expect(rt, name);
}

/// Puts the files that stand there before the first call into the folder.
fn fill_folder(rt: &(impl Abort + AllocGlobal), real: &(impl AllocGlobal + Files)) {
    for (name, bytes) in &STANDING {
        write_file(rt, real, name, bytes);
    }
}

/// Makes all the calls on both.
fn make_calls<F: Host>(
    rt: &(impl Abort + AllocGlobal),
    real: &(impl AllocGlobal + Files),
    memory: &mut MemHost,
    files: &mut F,
)
    requires memory { IsUsable (state_of memory.old) }
    requires files { IsUsable (F.state files.old) }
{
    compare(rt, real, memory, files, &ON_CONSOLE);
    compare(rt, real, memory, files, &ON_LOG);
    compare(rt, real, memory, files, &ON_PAGES);
    compare(rt, real, memory, files, &ON_PARTS);
}

/// Binds both to the folder, fills it, and makes all the calls.
fn bind_and_call<F: Host>(
    rt: &(impl Abort + AllocGlobal),
    real: &(impl AllocGlobal + Files),
    memory: &mut MemHost,
    files: &mut F,
)
    requires memory { memory.old.is_lent ≡ false }
    requires files { (F.state files.old).access.is_lent ≡ false }
{
    bind(memory, FOLDER).expect(rt, FOLDER);
    bind(files, FOLDER).expect(rt, FOLDER);
    fill_folder(rt, real);
    make_calls(rt, real, memory, files);
}

/// Looks at what was printed by the host over files.
fn look_at_printed(rt: &impl Abort, real: &(impl AllocGlobal + Files), wanted: &[u8]) {
    let said = fs::read(real, SAID).expect(rt, SAID);
    same_bytes(rt, "said", &said, wanted, &SAID);
}

/// Looks at what both have in the end: all was forced, and the same was said.
fn look_at_the_end(
    rt: &(impl Abort + AllocGlobal),
    real: &(impl AllocGlobal + Files),
    memory: &MemHost,
) {
    let differs = differing(rt, real, memory, Pick::Lost);
    holds(rt, "all was forced", differs.is_none(), &differs);
    same_bytes(rt, "said", memory.said(), b"none\nok", &"memory");
    look_at_printed(rt, real, b"none\nok");
}

/// Looks at the trace: each force that was answered `Ok` had made its file lasting, and the names. Each
/// file that is changed was forced.
fn look_at_forces(rt: &(impl Abort + AllocGlobal + Files)) {
    let trace = fs::read_to_string(rt, TRACE).expect(rt, TRACE);
    for name in &NAMES {
        look_at_file_forces(rt, &trace, name);
    }
}

/// The same of one file.
fn look_at_file_forces(rt: &(impl Abort + AllocGlobal), trace: &str, name: &str) {
    let path = path_of(rt.alloc(), name).expect(rt, name);
    let forces = count_forces(trace, FOLDER, &path);
    holds(rt, "forced files last", forces.is_some(), &name);
    let is_forced = forces != Some(0);
    holds(
        rt,
        "changed files are forced",
        is_forced == (name != "config.json"),
        &name,
    );
}

/// Removes the folder, what was said, and the trace.
fn remove_files(rt: &(impl Abort + Files + AllocGlobal)) {
    fs::remove_dir_all(rt, FOLDER).expect(rt, FOLDER);
    fs::remove_file(rt, TRACE).expect(rt, TRACE);
    fs::remove_file(rt, SAID).expect(rt, SAID);
}

/// What there is to read.
const INPUT: &[u8] = b"get 0 a\nput";

/// Makes all the calls on a host in memory and on this one over files, and looks at what both have in the end.
pub fn compare_all<F: Host>(
    rt: &(impl Abort + AllocGlobal),
    real: &(impl AllocGlobal + Files),
    files: &mut F,
)
    requires { (F.state files.old).access.is_lent ≡ false }
{
    let mut memory = in_memory(rt);
    bind_and_call(rt, real, &mut memory, files);
    look_at_the_end(rt, real, &memory);
}

#[test]
fn files_and_memory_answer_the_same(rt: HostRuntime) {
    over_files(&rt, &rt, INPUT, Task::Compare);
    look_at_forces(&rt);
    remove_files(&rt);
}
