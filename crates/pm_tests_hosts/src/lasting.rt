//! Which forces the system is asked for: a file that this run hasn't changed since it forced it isn't synced
//! again.

ghost use Rattle.std.specs.Prelude.{◌≡◌, false};
ghost use Rattle.pm_disk.specs.States.{IsUsable};

use crate::calls::{Call, Round, answer, bind};
use crate::looks::{holds, same_bytes};
use crate::recorded::{TRACE, recorded_host};
use crate::tasks::{Task, over_files};
use crate::traces::count_syncs;
use pm_disk::{Host, MarkFile};
use std::fs;
use std::process::Abort;
use std::rt::Files;

/// The folder of the store.
const FOLDER: &str = "again";

/// A segment's file, a partition's, and that of the start markers.
static FILES: [&str; 3] = [
    "again/wal-0000000000000001.seg",
    "again/part-003.pages",
    "again/cp.start",
];

/// Calls, each with how often the three files were synced since the folder was made.
static CALLS: [(Call, [usize; 3]); 27] = [
    (Call::ForceLog(1), [0, 0, 0]),
    (Call::AppendLog(1, b"abcd"), [0, 0, 0]),
    (Call::ForceLog(1), [1, 0, 0]),
    (Call::ForceLog(1), [1, 0, 0]),
    (Call::ReadLog(1, 0), [1, 0, 0]),
    (Call::ForceLog(1), [1, 0, 0]),
    (Call::WriteLog(1, b"AB"), [1, 0, 0]),
    (Call::ForceLog(1), [2, 0, 0]),
    (Call::HalveLog(1), [2, 0, 0]),
    (Call::ForceLog(1), [3, 0, 0]),
    (Call::ForceLog(1), [3, 0, 0]),
    (Call::WritePage(3, 0, 5), [3, 0, 0]),
    (Call::ForceLog(1), [3, 0, 0]),
    (Call::ForcePages(3), [3, 1, 0]),
    (Call::ForcePages(3), [3, 1, 0]),
    (Call::WritePage(3, 1, 6), [3, 1, 0]),
    (Call::ForcePages(3), [3, 2, 0]),
    (Call::WriteMark(MarkFile::Start, 0, 7), [3, 2, 0]),
    (Call::ForceMark(MarkFile::Start), [3, 2, 1]),
    (Call::ForceMark(MarkFile::Start), [3, 2, 1]),
    (Call::DropLog(1), [3, 2, 1]),
    (Call::ForceLog(1), [3, 2, 1]),
    (Call::AppendLog(1, b"new"), [3, 2, 1]),
    (Call::ForceLog(1), [4, 2, 1]),
    // The parts know what the host has forced, and the host what they have.
    (
        Call::Round(Round {
            append: b"er",
            forces: true,
            due: (3, 0, 8),
            read: (3, 1),
        }),
        [5, 3, 1],
    ),
    (Call::ForceLog(1), [5, 3, 1]),
    (Call::ForcePages(3), [5, 3, 1]),
];

/// Calls of another host over the same folder. Of a file that it hasn't opened to change it, it keeps nothing.
static LATER: [(Call, [usize; 3]); 6] = [
    (Call::ForceLog(1), [6, 3, 1]),
    (Call::ForceLog(1), [7, 3, 1]),
    (Call::ForcePages(3), [7, 4, 1]),
    (Call::AppendLog(1, b"!"), [7, 4, 1]),
    (Call::ForceLog(1), [8, 4, 1]),
    (Call::ForceLog(1), [8, 4, 1]),
];

/// How often the files were synced so far.
fn syncs(rt: &impl Abort, real: &(impl AllocGlobal + Files)) -> [usize; 3] {
    let trace = fs::read_to_string(real, TRACE).expect(rt, TRACE);
    [
        count_syncs(&trace, FILES[0]),
        count_syncs(&trace, FILES[1]),
        count_syncs(&trace, FILES[2]),
    ]
}

/// Looks at an answer, and at how often the files were synced so far.
fn look_at_answer(
    rt: &impl Abort,
    real: &(impl AllocGlobal + Files),
    answered: &str,
    wanted: [usize; 3],
    number: usize,
) {
    holds(rt, "the call is done", answered.starts_with("Ok"), &number);
    let found = syncs(rt, real);
    holds(rt, "syncs", found == wanted, &(number, found));
}

/// Makes a call, and looks that it was done, and that the files were synced as often as wanted.
fn step<H: Host>(
    rt: &(impl Abort + AllocGlobal),
    real: &(impl AllocGlobal + Files),
    host: &mut H,
    call: &Call,
    wanted: [usize; 3],
    number: usize,
)
    requires { IsUsable (H.state host.old) }
    ensures { IsUsable (H.state host.new) }
{
    let answered = answer(rt.alloc(), host, call).expect(rt, "an answer");
    look_at_answer(rt, real, answered.as_str(), wanted, number);
}

/// Makes the calls, and looks at each.
fn make_calls<H: Host>(
    rt: &(impl Abort + AllocGlobal),
    real: &(impl AllocGlobal + Files),
    host: &mut H,
    calls: &[(Call, [usize; 3])],
)
    requires { IsUsable (H.state host.old) }
{
    for (number, (call, wanted)) in calls.iter().enumerate() {
        step(rt, real, host, call, *wanted, number);
    }
}

/// The calls of the first host, or of the next.
fn calls_of(is_next: bool) -> &'static [(Call, [usize; 3])] {
    if is_next { &LATER } else { &CALLS }
}

/// Makes the calls of the first host over the folder, or of the next, and looks at each.
pub fn count_calls<H: Host>(
    rt: &(impl Abort + AllocGlobal),
    real: &(impl AllocGlobal + Files),
    host: &mut H,
    is_next: bool,
)
    requires { (H.state host.old).access.is_lent ≡ false }
{
    bind(host, FOLDER).expect(rt, FOLDER);
    make_calls(rt, real, host, calls_of(is_next));
}

/// Removes the folder and the trace.
fn remove_all(rt: &(impl Abort + AllocGlobal + Files)) {
    fs::remove_dir_all(rt, FOLDER).expect(rt, FOLDER);
    fs::remove_file(rt, TRACE).expect(rt, TRACE);
}

#[test]
fn a_file_is_synced_once_for_each_change(rt: HostRuntime) {
    over_files(&rt, &rt, b"", Task::Count(false));
    over_files(&rt, &rt, b"", Task::Count(true));
    remove_all(&rt);
}

/// Looks that the host is refused the folder.
fn look_at_refused<H: Host>(rt: &impl Abort, host: &mut H)
    requires { (H.state host.old).access.is_lent ≡ false }
{
    holds(
        rt,
        "the folder is refused",
        host.bind(FOLDER).is_err(),
        &FOLDER,
    );
}

/// Looks that a new host is refused the folder.
fn look_at_another(rt: &impl Abort, real: &HostRuntime) {
    let mut other = recorded_host(real, b"").expect(rt, "a host");
    look_at_refused(rt, &mut *other);
}

/// Binds a host to the folder, and looks at what another one leaves in the trace that is refused it.
pub fn refuse_another<H: Host>(rt: &(impl Abort + AllocGlobal), real: &HostRuntime, first: &mut H)
    requires { (H.state first.old).access.is_lent ≡ false }
{
    bind(first, FOLDER).expect(rt, FOLDER);
    fs::remove_file(real, TRACE).expect(rt, TRACE);
    look_at_another(rt, real);
    look_at_trace(rt, real, b"opened again\n");
}

/// Looks at the trace.
fn look_at_trace(rt: &impl Abort, real: &(impl AllocGlobal + Files), wanted: &[u8]) {
    let trace = fs::read(real, TRACE).expect(rt, TRACE);
    same_bytes(rt, "trace", &trace, wanted, &TRACE);
}

/// Makes the folder, with a segment.
fn make_folder(rt: &(impl Abort + Files)) {
    fs::create_dir(rt, FOLDER).expect(rt, FOLDER);
    fs::write(rt, FILES[0], b"abcd").expect(rt, FILES[0]);
}

#[test]
fn a_folder_that_is_bound_is_refused_unread_and_unchanged(rt: HostRuntime) {
    make_folder(&rt);
    over_files(&rt, &rt, b"", Task::Refuse);
    remove_all(&rt);
}
