//! Meta pages: the numbers of a partition by slot. Reuse pages: the chain of pages that can be taken anew.
#![tactic(auto)]

mod checks;
mod layout;
mod meta;
mod reuse;
mod slots;

pub use checks::check;
pub use layout::{BUCKETS, META_KIND, REUSE_KIND};
pub use meta::{fresh, get, set};
pub use reuse::{check_reuse, fresh_reuse, reuse_next};
pub use slots::MetaSlot;
