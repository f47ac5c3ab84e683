//! Records: what the log says, as payloads of frames.
#![tactic(auto)]

mod decoding;
mod encoding;
mod limits;
mod page_name;
mod record;
mod shape;

pub use decoding::decode;
pub use encoding::{encode, encoded_len};
pub use limits::{
    CP_BEGIN_LEN, OPERATION_HEAD_LEN, PAGE_NAME_LEN, PUT, RECORD_HEAD_LEN, REMOVE, SHAPE_LEN,
};
pub use record::{BadPayload, LogRecord, kind_of};
pub use shape::{shape_bytes, shape_of};
