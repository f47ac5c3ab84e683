//! The limits and defaults of a configuration's fields. Clauses name these constants, so that a change
//! stands in one place. `docs/config.schema.json` shows them to an editor. The most of `partitions`, of
//! `max_rows` and of `segment_bytes` are limits of a store's shape, and stand in `pm_types`.

use crate::config::Kind;

/// The longest configuration, in bytes. A longer file is refused before it is read as JSON, so that
/// no configuration takes much memory.
pub const CONFIG_BYTES_MAX: usize = 65_536;

/// The size of each page, in bytes, where the configuration has none: the file system's block, mostly.
pub const PAGE_SIZE_DEFAULT: u32 = 4_096;

/// The number of partitions where the configuration has none.
pub const PARTITIONS_DEFAULT: u16 = 4;

/// The most rows of one partition where the configuration has none: as many as there may be.
pub const MAX_ROWS_DEFAULT: u32 = 400_000;

/// The most bytes of one log segment where the configuration has none: as many as there may be.
pub const SEGMENT_BYTES_DEFAULT: u32 = 67_108_864;

/// The most workers. Each is a thread.
pub const WORKERS_MAX: u32 = 8;

/// The workers where the configuration has none.
pub const WORKERS_DEFAULT: u32 = 2;

/// The least page frames for each worker: 32 empty ones are taken before each operation (`OP_PAGES` in
/// `pm_types`), and a checkpoint that runs beside it may hold as many again. The program makes no
/// checkpoint beside lines yet.
pub const FRAMES_PER_WORKER: u32 = 64;

/// The most page frames: 1 GiB with the largest page.
pub const FRAMES_MAX: u32 = 65_536;

/// The page frames where the configuration has none: 16 MiB with the default page.
pub const FRAMES_DEFAULT: u32 = 4_096;

/// The least buffer pages for each worker: one operation may change 32 pages of a running checkpoint,
/// and each of them is copied first. The program makes no copies yet, so it uses no buffer page.
pub const BUFFER_PAGES_PER_WORKER: u32 = 32;

/// The most buffer pages: 1 GiB with the largest page.
pub const BUFFER_PAGES_MAX: u32 = 65_536;

/// The buffer pages where the configuration has none.
pub const BUFFER_PAGES_DEFAULT: u32 = 1_024;

/// The least bytes of log after which a checkpoint begins.
pub const CHECKPOINT_BYTES_MIN: u64 = 65_536;

/// The most bytes of log after which a checkpoint begins, 1 TiB.
pub const CHECKPOINT_BYTES_MAX: u64 = 1_099_511_627_776;

/// The bytes of log after which a checkpoint begins where the configuration has none: one segment.
pub const CHECKPOINT_BYTES_DEFAULT: u64 = 67_108_864;

/// The most percent of the frames that may be dirty before a checkpoint begins.
pub const DIRTY_PERCENT_MAX: u32 = 100;

/// The percent of dirty frames above which a checkpoint begins where the configuration has none.
pub const DIRTY_PERCENT_DEFAULT: u32 = 75;

/// How frames are replaced where the configuration doesn't say.
pub const POLICY_DEFAULT: Kind = Kind::Random;
