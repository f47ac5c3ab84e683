//! Limits. Clauses name these constants, so that a change stands in one place.

/// The longest key, in bytes. On the disk: an index page keeps a key padded to this length.
pub const KEY_MAX: usize = 64;
/// The longest value, in bytes: with the longest key a row still fits a page of 1,024 bytes.
pub const VALUE_MAX: usize = 900;
/// The longest line of a script, in bytes, its newline not counted.
pub const LINE_MAX: usize = 4_096;
/// The most lines of a script: their numbers fit `u32`, and so do those of every batch.
pub const LINES_MAX: u64 = 4_000_000;
/// The most bytes of a script, newlines counted: `LINES_MAX` lines of more than `LINE_MAX` bytes fit.
pub const SCRIPT_BYTES_MAX: u64 = 17_179_869_184;
/// The most lines of a batch, whose replies are kept in memory until its end.
pub const BATCH_LINES_MAX: usize = 1_024;
/// How many caches there are. They are numbered from 0.
pub const CACHES: u8 = 16;
/// The most partitions of a store. Each has a file of its own.
pub const PARTITIONS_MAX: u16 = 64;
/// How many different pages one operation may ask for. A put asks for 23 at most (`docs/ARCHITECTURE.md`, "What a put
/// touches"): the clauses of `pm_part` count the meta page and the way to the leaf twice. A scan gives up the pages
/// that it has before it asks for more. Before an operation as many empty page frames are taken, and there has to be
/// room for as many pages in the outbox: see `FRAMES_PER_WORKER` in `pm_config`, and `OUTBOX`.
pub const OP_PAGES: u32 = 32;
/// The bytes of outbox that one operation needs beside its pages. Its head has 8 bytes, and the longest record of its
/// own has 5 and then 7 + `KEY_MAX` + `VALUE_MAX`: 984 in all, rounded up.
pub const OP_EXTRA: usize = 1_000;
/// The bytes of a worker's outbox, 1 MiB, which it takes once. An empty one has room for an operation that changes
/// `OP_PAGES` of the largest pages, which needs 526,216 bytes. A smaller one would end rounds earlier. The log writer
/// takes no operation that is longer.
pub const OUTBOX: usize = 1_048_576;
/// The slots of a worker's ring to the log writer, each of which holds a block of at most 256 bytes: as many as a full
/// outbox fills. A ring takes about 1 MiB for each worker. Not used by the program yet.
pub const RING_SLOTS: usize = 4_096;
/// The newest version of the store's files. On the disk: do not change without a reader for the old one.
pub const LAST_VERSION: u16 = 1;
/// The smallest page, in bytes.
pub const PAGE_SIZE_MIN: usize = 1_024;
/// The largest page, in bytes: each offset in a page fits `u16`.
pub const PAGE_SIZE_MAX: usize = 16_384;
/// The most ranges of a patch. On the disk: a record that changes a page has as many.
pub const PATCH_SPANS_MAX: usize = 8;
/// The most rows of one partition, over all caches: its trees need no more than eight levels.
pub const ROWS_MAX: u32 = 400_000;
/// The least bytes of a log segment: the longest frame fits, and a SEAL after it.
pub const SEGMENT_BYTES_MIN: u32 = 65_536;
/// The most bytes of a log segment, 64 MiB.
pub const SEGMENT_BYTES_MAX: u32 = 67_108_864;
