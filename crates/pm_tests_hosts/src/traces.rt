//! What a trace says of the forces of a file.

use crate::consoles::SAID;
use crate::recorded::{CHANGED, FORCED, MADE, PRINTED, REMOVED, SYNCED};

/// What lasts after the events so far.
#[derive(Clone, Copy)]
struct Lasting {
    /// The file's bytes and length.
    file: bool,
    /// The names in its folder.
    names: bool,
}

/// Whether the path is one of a file in the folder, and not in a folder below it.
fn is_in(path: &str, folder: &str) -> bool {
    match path.strip_prefix(folder) {
        Some(rest) => rest.rfind('/') == Some(0),
        None => false,
    }
}

/// What lasts of the file after an event.
fn file_after(was: bool, event: &str, path: &str, file: &str) -> bool {
    if path != file {
        return was;
    }
    event != CHANGED && (was || event == SYNCED || event == REMOVED)
}

/// Whether the names in the folder last after an event.
fn names_after(was: bool, event: &str, path: &str, folder: &str) -> bool {
    if event == SYNCED && path == folder {
        return true;
    }
    let is_change = event == MADE || event == REMOVED;
    was && !(is_change && is_in(path, folder))
}

/// What lasts after an event.
fn after(was: Lasting, event: &str, path: &str, folder: &str, file: &str) -> Lasting {
    Lasting {
        file: file_after(was.file, event, path, file),
        names: names_after(was.names, event, path, folder),
    }
}

/// How often the file was forced by the trace, and none where that was answered once and the file, or the
/// names in the folder, didn't last. Before the first event the file lasts, and the names aren't known to.
pub fn count_forces(trace: &str, folder: &str, file: &str) -> Option<usize> {
    count_lasting(trace, folder, file, (FORCED, file))
}

/// How often something was printed by the trace, and none where that was done once and the file, or the names
/// in the folder, didn't last.
pub fn count_prints(trace: &str, folder: &str, file: &str) -> Option<usize> {
    count_lasting(trace, folder, file, (PRINTED, SAID))
}

/// How often this event is in the trace, and none where the file, or the names in the folder, didn't last once.
fn count_lasting(trace: &str, folder: &str, file: &str, wanted: (&str, &str)) -> Option<usize> {
    let mut lasting = Lasting {
        file: true,
        names: false,
    };
    let mut count = 0usize;
    for line in trace.lines() {
        let (event, path) = line.split_once(' ').unwrap_or((line, ""));
        lasting = after(lasting, event, path, folder, file);
        if (event, path) == wanted {
            if !lasting.file || !lasting.names {
                return None;
            }
            count = count.saturating_add(1);
        }
    }
    Some(count)
}

/// How often a file was synced by the trace.
pub fn count_syncs(trace: &str, file: &str) -> usize {
    trace
        .lines()
        .filter(|line| line.split_once(' ') == Some((SYNCED, file)))
        .count()
}

/// Traces of the file `d/f`, each with how often it was forced.
static TRACES: [(&str, Option<usize>); 10] = [
    ("", Some(0)),
    ("forced d/f\n", None),
    ("synced d\nforced d/f\n", Some(1)),
    ("made d/f\nchanged d/f\nsynced d/f\nforced d/f\n", None),
    ("made d/f\nchanged d/f\nsynced d\nforced d/f\n", None),
    (
        "made d/f\nchanged d/f\nsynced d/f\nsynced d\nforced d/f\nforced d/f\n",
        Some(2),
    ),
    ("synced d\nsynced d/f\nchanged d/f\nforced d/f\n", None),
    ("synced d\nremoved d/g\nforced d/f\n", None),
    ("synced d\nmade d/e/g\nforced d/f\n", Some(1)),
    (
        "changed d/f\nremoved d/f\nsynced d\nmade e/f\nforced d/f\n",
        Some(1),
    ),
];

#[test]
fn a_force_needs_a_sync_of_the_file_and_one_of_the_folder(rt: HostRuntime) {
    for (number, (trace, wanted)) in TRACES.iter().enumerate() {
        assert_eq!(rt; count_forces(trace, "d", "d/f"), *wanted, "{number}");
    }
}
