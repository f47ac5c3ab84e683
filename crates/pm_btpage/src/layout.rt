//! Where the fields of an index page stand. On the disk: do not change.

/// The kind of a leaf.
pub const LEAF_KIND: u8 = 2;
/// The kind of an inner page.
pub const INNER_KIND: u8 = 3;
/// Where the number of items stands.
pub const COUNT_AT: u16 = 10;
/// Where the index of the next leaf stands, or the name of an inner page's first child.
pub const LINK_AT: u16 = 16;
/// Where the link ends. What follows it, up to the items, is zero.
pub const LINK_END: u16 = 24;
/// Where the items begin.
pub const ITEMS_AT: u16 = 32;
/// The length of an item, in bytes.
pub const ITEM_LEN: u16 = 73;
/// Where an item's word stands in it, after the length of its key and the padded key.
pub const WORD_IN_ITEM: u16 = 65;
