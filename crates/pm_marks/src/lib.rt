//! Checkpoints' markers: the slots of the two marker files, read and written.
#![tactic(auto)]

mod laws;
mod marks;
mod slot;

pub use laws::{
    a_first_slot_is_made, a_mark_decides_its_slot, a_mark_is_written_alone, zeros_are_no_slot,
};
pub use marks::{Marks, read_marks, write_end, write_start};
pub use slot::is_mark;
