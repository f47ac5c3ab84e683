//! The values that every part of the store speaks of, and the faults that it answers.
#![tactic(auto)]

mod fault;
pub mod fields;
mod flag;
pub mod head;
mod key;
mod limits;
mod page;
mod page_id;
mod patch;
mod place;
pub mod ranges;
mod shape;
mod spans;
mod value_room;

pub use fault::{Field, Lack, OpenFault, PageFault, StoreFault};
pub use flag::{Flag, FrameNo, Tag};
pub use key::{Key, Value};
pub use limits::{
    BATCH_LINES_MAX, CACHES, KEY_MAX, LAST_VERSION, LINE_MAX, LINES_MAX, OP_EXTRA, OP_PAGES,
    OUTBOX, PAGE_SIZE_MAX, PAGE_SIZE_MIN, PARTITIONS_MAX, PATCH_SPANS_MAX, RING_SLOTS, ROWS_MAX,
    SCRIPT_BYTES_MAX, SEGMENT_BYTES_MAX, SEGMENT_BYTES_MIN, VALUE_MAX,
};
pub use page::Page;
pub use page_id::{Link, PageId, packing_agrees};
pub use patch::Patch;
pub use place::Place;
pub use shape::{Mark, Shape, is_page_size, is_shape};
pub use value_room::ValueRoom;
