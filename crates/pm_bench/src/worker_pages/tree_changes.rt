//! The keys of a tree, and how its changes go.

ghost use Rattle.std.specs.Prelude.{IfOk};
ghost use Rattle.pm_pages.specs.Paged.{AllReadable};
ghost use Rattle.pm_pages.specs.Plain.{plain_seen, ArePlain};

use crate::worker_pages::plain::filled;
use crate::worker_pages::stop::Stop;
use crate::worker_pages::tree_steps::{TreeStep, step_plain};
use pm_pages::PlainPages;
use pm_types::{Link, PageId};
use std::alloc::Global;

/// How many keys the tree has at first: the even numbers below twice as many.
pub const KEYS: u32 = 38_000;

/// A prime, by which keys come in a mixed order.
pub const STRIDE: u32 = 17_389;

// How many changes go to keys beside each other.
const RUN: u32 = 300;

/// The link of a key: a row of page 1.
pub fn link_of(number: u32) -> Link {
    Link::new(PageId::new(0, 1), (number % 254) as u8)
}

/// A partition with the tree.
pub fn with_tree(alloc: Global) -> Result<PlainPages, Stop>
    ensures plain { IfOk result ArePlain }
    ensures readable { IfOk result (λ plain. AllReadable (plain_seen plain)) }
{
    let mut plain = filled(alloc, 0, 1, 30)?;
    'keys: for i in 0..KEYS {
        let number = (i.wrapping_mul(STRIDE) % KEYS).wrapping_mul(2);
        let step = TreeStep::Put(link_of(number));
        step_plain(alloc, &mut plain, &number.to_be_bytes(), step)?;
    }
    Ok(plain)
}

/// The change with this number: its key, and what is done. Of a run of changes, which go to keys beside each
/// other, the first put new keys, so that pages are divided; then some keys get other links; and the others
/// remove keys, so that pages share their items and merge.
pub fn change_of(number: u32) -> (u32, TreeStep) {
    let place = (number / RUN).wrapping_mul(STRIDE) % KEYS;
    let base = place.wrapping_mul(2);
    let within = number % RUN;
    if within < 100 {
        let key = base.wrapping_add(within * 2 + 1);
        return (key, TreeStep::Put(link_of(key)));
    }
    if within < 150 {
        let key = base.wrapping_add((within - 100) * 2);
        return (key, TreeStep::Put(link_of(number)));
    }
    (base.wrapping_add(within - 150), TreeStep::Remove)
}
