//! A slot of a marker file: its bytes, and the mark that they say.

ghost use Rattle.std.specs.Prelude.{◌≡◌, ◌+◌, ◌≤◌, ◌↔◌, ◌==◌, ◌&&◌, IsTrue, length};
ghost use Rattle.pm_marks.specs.Slots.{IsMark, IsMarkPlace, place_bytes, marked_bytes, slot_bytes};
ghost use Rattle.pm_marks.specs.Slots.{named_place, named_shape, named_mark, mark_in};

use pm_disk::SLOT_LEN;
use pm_frame::{FRAME_END_MAX, sum};
use pm_records::shape_bytes;
use pm_types::fields::{get_u16, get_u32, get_u64};
use pm_types::{Mark, Place, Shape, is_shape};

// The bytes of a slot of which the sum is taken.
const MARKED_LEN: usize = 60;

// The bytes of a place.
const PLACE_LEN: usize = 12;

/// The bytes of the slot that has this mark.
#[tactic(auto, unfolding(crate::specs::Slots::slot_bytes))]
pub(crate) fn slot_bytes(mark: &Mark) -> [u8; SLOT_LEN]
    ensures { result ≡ slot_bytes mark.now }
{
    let mut bytes = [0; SLOT_LEN];
    let (marked, stored) = bytes.split_at_mut(MARKED_LEN);
    marked.copy_from_slice(&marked_bytes(mark));
    stored.copy_from_slice(&sum(marked).to_le_bytes());
    bytes
}

/// The mark that the slot of this number has, none exactly where the slot isn't valid.
pub(crate) fn mark_in(slot: u8, bytes: &[u8; SLOT_LEN]) -> Option<Mark>
    ensures { result ≡ mark_in slot bytes.now }
{
    let mark = named_mark(bytes);
    if is_mark(&mark) && mark.number % 2 == slot as u64 && *bytes == slot_bytes(&mark) {
        Some(mark)
    } else {
        None
    }
}

#[tactic(auto, unfolding(crate::specs::Slots::marked_bytes, pm_records::specs::Shapes::shape_bytes))]
fn marked_bytes(mark: &Mark) -> [u8; MARKED_LEN]
    ensures { result ≡ marked_bytes mark.now }
{
    let mut bytes = [0; MARKED_LEN];
    bytes[0..8].copy_from_slice(&mark.number.to_le_bytes());
    bytes[8..20].copy_from_slice(&place_bytes(mark.begin));
    bytes[20..32].copy_from_slice(&place_bytes(mark.replay));
    bytes[32..48].copy_from_slice(&shape_bytes(&mark.shape));
    bytes[48..60].copy_from_slice(&place_bytes(mark.from));
    bytes
}

fn place_bytes(place: Place) -> [u8; PLACE_LEN]
    ensures { result ≡ place_bytes place }
{
    let mut bytes = [0; PLACE_LEN];
    bytes[0..8].copy_from_slice(&place.seg.to_le_bytes());
    bytes[8..12].copy_from_slice(&place.off.to_le_bytes());
    bytes
}

#[tactic(auto, unfolding(crate::specs::Slots::named_mark))]
fn named_mark(bytes: &[u8; SLOT_LEN]) -> Mark
    ensures { result ≡ named_mark bytes.now }
{
    Mark {
        number: get_u64(bytes, 0),
        begin: named_place(bytes, 8),
        replay: named_place(bytes, 20),
        from: named_place(bytes, 48),
        shape: named_shape(bytes, 32),
    }
}

fn named_place(bytes: &[u8; SLOT_LEN], at: u16) -> Place
    requires { at + 12 ≤ SLOT_LEN }
    ensures { result ≡ named_place bytes.now at }
{
    Place {
        seg: get_u64(bytes, at),
        off: get_u32(bytes, at + 8),
    }
}

fn named_shape(bytes: &[u8; SLOT_LEN], at: u16) -> Shape
    requires { at + 16 ≤ SLOT_LEN }
    ensures { result ≡ named_shape bytes.now at }
{
    Shape {
        page_size: get_u32(bytes, at),
        partitions: get_u16(bytes, at + 4),
        version: get_u16(bytes, at + 6),
        max_rows: get_u32(bytes, at + 8),
        segment_bytes: get_u32(bytes, at + 12),
    }
}

/// Whether a slot may have this mark: its number is 1 or more, each of its places is in a segment from 1 on, at an offset
/// where a frame may end, and its shape is one that a store may have.
pub fn is_mark(mark: &Mark) -> bool
    ensures { IsTrue result ↔ IsMark mark.now }
{
    mark.number >= 1
        && is_mark_place(mark.begin)
        && is_mark_place(mark.replay)
        && is_mark_place(mark.from)
        && is_shape(&mark.shape)
}

fn is_mark_place(place: Place) -> bool
    ensures { IsTrue result ↔ IsMarkPlace place }
{
    place.seg >= 1 && place.off <= FRAME_END_MAX
}
