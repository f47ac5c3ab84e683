//! Frames, read and written.

ghost use Rattle.std.specs.Prelude.{◌≡◌, ◌+◌, ◌≤◌, ◌++◌, List, ℕ, length, drop, IfSome, Some};
ghost use Rattle.pm_frame.specs.Frames.{Frame, IsFrame, frame_bytes, frame_len, frame_at};
ghost use Rattle.pm_frame.specs.Views.{frame_of, frame_in};

use crate::checksum::sum;
use crate::head::Head;
use crate::limits::{FRAME_EXTRA, HEAD_LEN, SUM_LEN};
use pm_types::Place;

/// A frame, as it lies in the bytes that it was read from.
#[derive(Clone, Copy, Debug)]
pub struct FrameView<'a> {
    /// What the payload holds: one of the six kinds, `LOGICAL` to `SEAL`.
    pub kind: u8,
    /// The record's own bytes.
    pub payload: &'a [u8],
    /// The bytes of the whole frame. The next frame of the segment begins so much further on.
    pub len: usize,
}

/// The frame of this place that stands at the front of the bytes. Bytes of anything may follow it.
///
/// `None` comes exactly where there is none: the bytes end too early, the kind or the length is
/// none of a frame here, the frame names another place, or its sum is wrong. The sum is taken only
/// where all else is right.
pub fn read_frame(bytes: &[u8], place: Place) -> Option<FrameView<'_>>
    ensures frame { frame_in result ≡ frame_at place bytes.now }
    ensures len { IfSome result (λ view. view.len ≡ frame_len (frame_of view)) }
    ensures within { IfSome result (λ view. view.len ≤ length bytes.now) }

    // What is read is a frame, spelled so.
    ensures fits { IfSome result (λ view. IsFrame place (frame_of view)) }
    ensures spelled { IfSome result
        (λ view. bytes.now ≡ frame_bytes place (frame_of view) ++ drop view.len bytes.now) }

    // Whatever frame is spelled there is read.
    ensures read { (frame : Frame) (rest : List ℕ) → IsFrame place frame
        → bytes.now ≡ frame_bytes place frame ++ rest → frame_in result ≡ Some frame }
{
    let (front, _) = bytes.split_first_chunk::<HEAD_LEN>()?;
    let head = Head::of(front);
    if !head.is_of(place) {
        return None;
    }
    let summed_len = HEAD_LEN + head.payload_len as usize;
    let (summed, rest) = bytes.split_at_checked(summed_len)?;
    let (stored, _) = rest.split_first_chunk::<SUM_LEN>()?;
    if u32::from_le_bytes(*stored) != sum(summed) {
        return None;
    }
    Some(FrameView {
        kind: head.kind,
        payload: &summed[HEAD_LEN..],
        len: head.payload_len as usize + FRAME_EXTRA,
    })
}

/// Writes the frame of this place over all of `into`. Its payload is `front` and after it `rest`, so
/// that nobody has to copy the two together first.
#[tactic(auto, unfolding(crate::specs::Frames::frame_bytes, crate::specs::Frames::summed_bytes))]
pub fn write_frame(kind: u8, place: Place, front: &[u8], rest: &[u8], into: &mut [u8])
    requires frame { IsFrame place (record { kind = kind; payload = front.now ++ rest.now }) }
    requires room { length into.old ≡ length front.now + length rest.now + FRAME_EXTRA }
    ensures { into.new ≡ frame_bytes place (record { kind = kind; payload = front.now ++ rest.now }) }
{
    let payload_len = front.len() + rest.len();
    let head = Head {
        kind,
        place,
        payload_len: payload_len as u32,
    };
    let (summed, stored) = into.split_at_mut(HEAD_LEN + payload_len);
    let (begin, payload) = summed.split_at_mut(HEAD_LEN);
    begin.copy_from_slice(&head.bytes());
    let (first, second) = payload.split_at_mut(front.len());
    first.copy_from_slice(front);
    second.copy_from_slice(rest);
    stored.copy_from_slice(&sum(summed).to_le_bytes());
}
