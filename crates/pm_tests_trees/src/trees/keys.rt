//! Keys of 1 to 64 bytes, and links.

ghost use Rattle.std.specs.Prelude.{◌≤◌};

use pm_types::{Key, Link, PageId};
use std::process::Abort;

/// In which order keys lie.
#[derive(Clone, Copy)]
pub enum Order {
    Rising,
    Falling,
    Mixed,
}

/// Key i in this order, of 1 to 64 bytes. Mixed keys may be the same.
pub fn key_of(rt: &(impl Abort + AllocGlobal), order: Order, i: u16) -> Key {
    match order {
        Order::Rising => long_key(rt, i, 2 + i % 63),
        Order::Falling => long_key(rt, u16::MAX - i, 2 + i % 63),
        Order::Mixed => {
            let mixed = i.wrapping_mul(40_503);
            long_key(rt, mixed, 1 + mixed % 64)
        }
    }
}

// A key of so many bytes, which begins with a number.
fn long_key(rt: &(impl Abort + AllocGlobal), number: u16, len: u16) -> Key
    requires { (1 ≤ len) × (len ≤ 64) }
{
    let mut bytes = [7; 64];
    bytes[..2].copy_from_slice(&number.to_be_bytes());
    Key::of(rt.alloc(), &bytes[..len as usize]).expect(rt, "a key")
}

/// The name of a row: an item of page 90 of partition 2.
pub fn link_of_row(i: u16) -> u64 {
    Link::new(PageId::new(2, 90), (i % 254) as u8).0
}
