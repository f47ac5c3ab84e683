//! Where the fields of a data page stand. On the disk: do not change.

/// What a row has before its key, in bytes: the cache, and the lengths of key and value.
pub const ROW_HEAD_LEN: usize = 4;
/// The kind of a data page.
pub const DATA_KIND: u8 = 4;
/// Where the number of slots stands.
pub const COUNT_AT: u16 = 10;
/// Where the index of the page before it in the chain stands.
pub const PREV_AT: u16 = 16;
/// Where the index of the page after it in the chain stands.
pub const NEXT_AT: u16 = 20;
/// Where the start of the rows stands.
pub const LOW_AT: u16 = 24;
/// Where the slots begin.
pub const SLOTS_AT: u16 = 32;
/// The length of a slot, in bytes.
pub const SLOT_LEN: u16 = 4;
/// The most slots of a page: an item's number fits `u8`, and 255 is no item.
pub const SLOTS_MAX: u16 = 254;
