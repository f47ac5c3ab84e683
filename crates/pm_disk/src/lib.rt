//! What the store asks of the outside: disk and console as one handed-in object, and what it tells.
#![tactic(auto)]

mod device;
mod failed;
mod host;
mod laws;
mod lent;
mod log;
mod mark;
mod names;
mod pages;

pub use device::Device;
pub use failed::Failed;
pub use host::Host;
pub use laws::{a_page_is_written_alone, a_slot_is_written_alone};
pub use lent::Lent;
pub use log::{LogFile, LogReader};
pub use mark::{MarkFile, SLOT_LEN};
pub use names::{
    PARTITION_NAME_LEN, SEGMENT_NAME_LEN, StoreFile, file_named, partition_name, partition_number,
    segment_name, segment_number,
};
pub use pages::{PageReader, PageWriter};
