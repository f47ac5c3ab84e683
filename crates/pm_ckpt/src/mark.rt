//! The mark of the next checkpoint.

ghost use Rattle.std.specs.Prelude.{◌≡◌, ◌+◌, ◌<◌, ◌^◌};
ghost use Rattle.pm_frame.specs.declared.limits.TheConstants.{FRAME_EXTRA};
ghost use Rattle.pm_ckpt.specs.Marked.{next_number, from_after, begin_of, replay_or, next_mark};

use pm_frame::FRAME_EXTRA;
use pm_records::CP_BEGIN_LEN;
use pm_segments::Log;
use pm_types::{Mark, Place, Shape};

/// The mark of the checkpoint after the one with the mark `before`. Where no replay place is asked for
/// it is the place just after the CP_BEGIN, which goes to the log's end or to the next segment.
pub(crate) fn next_mark(
    shape: Shape,
    before: Option<Mark>,
    log: &Log,
    replay: Option<Place>,
) -> Mark
    requires fits { (begin_of log.now).off + (CP_BEGIN_LEN + FRAME_EXTRA) < 2 ^ 32 }
    ensures { result ≡ next_mark shape before log.now replay }
{
    let begin = log.next_place(CP_BEGIN_LEN);
    Mark {
        number: next_number(&before),
        begin,
        replay: replay_or(replay, begin),
        from: from_after(&before),
        shape,
    }
}

fn next_number(before: &Option<Mark>) -> u64
    ensures { result ≡ next_number before.now }
{
    match before {
        Some(mark) => mark.number.checked_add(1).unwrap_or(1),
        None => 1,
    }
}

fn from_after(before: &Option<Mark>) -> Place
    ensures { result ≡ from_after before.now }
{
    match before {
        Some(mark) => mark.begin,
        None => Place { seg: 1, off: 0 },
    }
}

fn replay_or(replay: Option<Place>, begin: Place) -> Place
    requires { begin.off + (CP_BEGIN_LEN + FRAME_EXTRA) < 2 ^ 32 }
    ensures { result ≡ replay_or replay begin }
{
    match replay {
        Some(place) => place,
        None => Place {
            seg: begin.seg,
            off: begin.off + (CP_BEGIN_LEN + FRAME_EXTRA) as u32,
        },
    }
}
