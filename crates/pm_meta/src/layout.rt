//! Where the fields of meta and reuse pages stand. On the disk: do not change.

/// The kind of a meta page.
pub const META_KIND: u8 = 1;
/// The kind of a reuse page.
pub const REUSE_KIND: u8 = 5;
/// Where the numbers of a meta page begin, four bytes each: the roots of the caches come first.
pub const FIELDS_AT: u16 = 32;
/// Where the heads of the buckets begin.
pub const HEADS_AT: u16 = 96;
/// Where the head of the reuse chain stands.
pub const REUSE_AT: u16 = 160;
/// Where the page count stands.
pub const PAGES_AT: u16 = 164;
/// Where the row count stands.
pub const ROWS_AT: u16 = 168;
/// Where the numbers of a meta page end. What follows is zero.
pub const FIELDS_END: u16 = 172;
/// How many of the first numbers of a meta page name pages: sixteen roots, sixteen buckets and the reuse chain.
pub const INDEXES: u16 = 33;
/// How many buckets there are.
pub const BUCKETS: u8 = 16;
/// Where the index of the next reuse page stands.
pub const NEXT_AT: u16 = 16;
/// Where the zeros of a reuse page begin.
pub const REUSE_END: u16 = 20;
/// Pages that a partition may have beside two for each row.
pub const EXTRA_PAGES: u64 = 256;
