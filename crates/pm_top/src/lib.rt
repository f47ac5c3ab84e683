//! The one public call of the store: it does what the words of a command line ask for.
#![tactic(auto)]

mod bad_pages;
mod batch;
mod call;
mod configuration;
mod counting;
mod counts_line;
mod drawing;
mod fault_lines;
mod gen_run;
mod generate;
mod laws;
mod outcome;
mod reply_room;
mod report;
mod run;
mod script;
mod status;
mod words;

pub use call::top;
pub use laws::{
    a_fresh_folder_is_a_start, runs_and_crashes_follow_each_other, what_a_crash_leaves_is_a_start,
    what_a_done_run_leaves_is_a_start,
};
pub use report::Report;
