//! Lines of a script as values, what each answers and changes, a plain map that answers them, and
//! who runs them in batches. Tests and `pm_bench` alone use the last two.
#![tactic(auto)]

mod batcher;
mod cache_key;
mod line;
mod orders;
mod pair_list;
mod partition;
mod plain_batcher;
mod plain_map;
mod replies;
mod reply;
mod row_counts;

pub use batcher::Batcher;
pub use cache_key::CacheKey;
pub use line::{Cmd, Line};
pub use orders::{
    a_batch_needs_prefixes_alone, a_line_depends_on_its_partition,
    acknowledged_by_number_or_by_count, barriers_part_an_order, orders_can_be_applied,
    orders_have_accepted_lines_once, orders_join, orders_leave_the_scripts_map,
    replies_are_the_scripts, script_order_is_an_order, the_first_of_an_order_are_one,
    the_first_of_an_order_have_old_lines, two_lines_may_be_swapped,
};
pub use pair_list::PairList;
pub use partition::part_of;
pub use plain_batcher::PlainBatcher;
pub use plain_map::PlainMap;
pub use replies::Replies;
pub use reply::{Answer, Reply};
