//! What the numbers of records may be, and how long their parts are. On the disk: do not change
//! without a reader for the old ones.

/// The operation that sets a key to a value.
pub const PUT: u8 = 1;
/// The operation that takes a key out.
pub const REMOVE: u8 = 2;
/// The bytes of a shape.
pub const SHAPE_LEN: usize = 16;
/// The bytes of a logical record before its key: operation, cache, length of the key and length of the value.
pub(crate) const LOGICAL_HEAD_LEN: usize = 7;
/// The bytes of a page's name.
pub const PAGE_NAME_LEN: usize = 8;
/// The bytes of a CP_BEGIN: number of the checkpoint, and segment and offset of its replay place.
pub const CP_BEGIN_LEN: usize = 20;
/// The bytes of a record of an operation before its payload: kind and length.
pub const RECORD_HEAD_LEN: usize = 5;
/// The bytes of an operation before its records: its line's number, and their length.
pub const OPERATION_HEAD_LEN: usize = 8;
