//! The configuration of a store: its fields with their limits and defaults, and the reading of `config.json`.
#![tactic(auto)]

mod config;
mod difference;
mod fault;
mod field;
mod limits;
mod number;
mod object;
mod policy;
mod read;

pub use config::{Config, Kind};
pub use difference::first_difference;
pub use fault::ConfigFault;
pub use field::{field_name, field_of_name};
pub use limits::{
    BUFFER_PAGES_DEFAULT, BUFFER_PAGES_MAX, BUFFER_PAGES_PER_WORKER, CHECKPOINT_BYTES_DEFAULT,
    CHECKPOINT_BYTES_MAX, CHECKPOINT_BYTES_MIN, CONFIG_BYTES_MAX, DIRTY_PERCENT_DEFAULT,
    DIRTY_PERCENT_MAX, FRAMES_DEFAULT, FRAMES_MAX, FRAMES_PER_WORKER, MAX_ROWS_DEFAULT,
    PAGE_SIZE_DEFAULT, PARTITIONS_DEFAULT, POLICY_DEFAULT, SEGMENT_BYTES_DEFAULT, WORKERS_DEFAULT,
    WORKERS_MAX,
};
pub use read::read_config_text;
