//! Regions and their leases: zeros at first, and written and closed by several threads.

ghost use Rattle.std.specs.Prelude.{◌≤◌};

use pm_region::{Lease, Region};
use std::alloc::{AllocError, Global};
use std::process::Abort;
use std::thread;

#[test]
fn two_threads_write_two_leases(rt: HostRuntime) {
    let (_region, mut leases) = Region::new(rt.alloc(), 2, 1024).expect(&rt, "a region");
    let (first, second) = leases.split_at_mut(1);
    thread::join_mut(
        &rt,
        &mut || first[0].bytes_mut().fill(7),
        &mut || second[0].bytes_mut().fill(9),
    );
    assert_eq!(rt; leases.len(), 2);
    let shared = &leases;
    let (sevens, nines) = thread::join(
        &rt,
        || shared[0].bytes().iter().filter(|byte| **byte == 7).count(),
        || shared[1].bytes().iter().filter(|byte| **byte == 9).count(),
    );
    assert_eq!(rt; (sevens, nines), (1024, 1024));
}

// A region of 1 MiB, made and closed. Leases of this size are written when they are made, so
// that the system has to find memory for the block.
fn make_and_close(alloc: Global) -> Result<(), AllocError> {
    let (region, leases) = Region::new(alloc, 16, 65_536)?;
    region.close(leases);
    Ok(())
}

// Together they take 25 GiB: with blocks that are kept the memory of most machines runs out.
#[test]
fn regions_in_turns_take_the_memory_of_one(rt: HostRuntime) {
    for _ in 0..25_600 {
        make_and_close(rt.alloc()).expect(&rt, "a region");
    }
}

// How many bytes of a lease are not zero.
fn nonzero(lease: &Lease) -> usize {
    lease.bytes().iter().filter(|byte| **byte != 0).count()
}

// Looks that both leases of this size are zeros.
fn zeros_are_leased(rt: &(impl Abort + AllocGlobal), size: u32)
    requires { (1 ≤ size) × (size ≤ 65_536) }
{
    let (region, leases) = Region::new(rt.alloc(), 2, size).expect(rt, "a region");
    assert_eq!(rt; leases.len(), 2);
    for lease in leases.iter() {
        assert_eq!(rt; (lease.bytes().len(), nonzero(lease)), (size as usize, 0));
    }
    region.close(leases);
}

#[test]
fn a_lease_that_was_never_written_is_zeros(rt: HostRuntime) {
    zeros_are_leased(&rt, 4096);
}

#[test]
fn writing_a_lease_leaves_the_others_zeros(rt: HostRuntime) {
    let (_region, mut leases) = Region::new(rt.alloc(), 3, 4096).expect(&rt, "a region");
    assert_eq!(rt; leases.len(), 3);
    leases[0].bytes_mut()[7] = 9;
    assert_eq!(rt;
        (
            nonzero(&leases[0]),
            nonzero(&leases[1]),
            nonzero(&leases[2])
        ),
        (1, 0, 0)
    );
    assert_eq!(rt; leases[1].bytes_mut().len(), 4096);
    assert_eq!(rt; (nonzero(&leases[0]), nonzero(&leases[1])), (1, 0));
}

#[test]
fn leases_larger_than_a_page_are_zeros(rt: HostRuntime) {
    zeros_are_leased(&rt, 20_000);
}

#[test]
fn another_thread_closes_a_region(rt: HostRuntime) {
    let (region, leases) = Region::new(rt.alloc(), 3, 512).expect(&rt, "a region");
    let closer = thread::spawn(&rt, move || region.close(leases)).expect(&rt, "a thread");
    closer.join(&rt);
}
