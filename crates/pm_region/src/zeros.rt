//! Memory that is zeros until it is written: it is cleared when it is first written.

ghost use Rattle.std.specs.Prelude.{◌≡◌, length, replicate, vec_len, vec_capacity};
ghost use Rattle.std.specs.Vec.{vec_ptr};
ghost use Rattle.pm_region.specs.Memory.{shown, IsAllOrNone};

use pm_types::PAGE_SIZE_MAX;
use std::mem;
use std_alloc::vec::Lodged;

// What a lease shows until it is written. No page frame is larger than the largest page; the
// program has as many bytes more of constants.
static ZEROS: [u8; PAGE_SIZE_MAX] = [0; PAGE_SIZE_MAX];

/// Room as the memory of a lease of zeros. It is cleared at once if `ZEROS` is too short for it.
pub(crate) fn with_zeros(room: Vec<u8, Lodged>) -> Vec<u8, Lodged>
    requires { vec_len room ≡ 0 }
    ensures zeros { shown (vec_capacity room) result.items ≡ replicate (vec_capacity room) 0 }
    ensures all_or_none { IsAllOrNone (vec_capacity room) (vec_len result) }
    ensures in_place { (vec_ptr result ≡ vec_ptr room) × (vec_capacity result ≡ vec_capacity room) }
{
    if room.capacity() > PAGE_SIZE_MAX {
        return cleared(room);
    }
    room
}

/// The bytes of a lease that has this memory.
pub(crate) fn bytes_of(memory: &Vec<u8, Lodged>) -> &[u8]
    requires { IsAllOrNone (vec_capacity memory.now) (vec_len memory.now) }
    ensures bytes { result.now ≡ shown (vec_capacity memory.now) memory.now.items }
    ensures len { length result.now ≡ vec_capacity memory.now }
{
    if memory.is_empty() {
        return &ZEROS[..memory.capacity()];
    }
    memory
}

/// Clears memory that wasn't cleared yet, so that it has the bytes that the lease shows.
pub(crate) fn clear_once(memory: &mut Vec<u8, Lodged>)
    requires { IsAllOrNone (vec_capacity memory.old) (vec_len memory.old) }
    ensures bytes { memory.new.items ≡ shown (vec_capacity memory.old) memory.old.items }
    ensures len { vec_len memory.new ≡ vec_capacity memory.old }
    ensures in_place { (vec_ptr memory.new ≡ vec_ptr memory.old)
        × (vec_capacity memory.new ≡ vec_capacity memory.old) }
{
    if memory.is_empty() {
        let room = mem::replace(memory, Vec::new(Lodged));
        *memory = cleared(room);
    }
}

// A vector that had no bytes, with zeros in all of its room.
//
// It is passed by value, so that its fields stay in registers and the compiler makes one `memset`
// of the loop. Behind a `&mut` each byte is a write of its own, which takes over ten times as long.
fn cleared(room: Vec<u8, Lodged>) -> Vec<u8, Lodged>
    requires { vec_len room ≡ 0 }
    ensures bytes { result.items ≡ replicate (vec_capacity room) 0 }
    ensures len { vec_len result ≡ vec_capacity room }
    ensures in_place { (vec_ptr result ≡ vec_ptr room) × (vec_capacity result ≡ vec_capacity room) }
{
    let mut memory = room;
    'zeros: while memory.len() < memory.capacity() {
        memory.push_reserved(0);
    }
    memory
}
