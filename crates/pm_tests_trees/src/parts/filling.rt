//! A partition that is filled, emptied and filled again.

ghost use Rattle.std.specs.Prelude.{◌≡◌};
ghost use Rattle.pm_types.specs.PageSizes.{IsPageSize};
ghost use Rattle.pm_types.specs.Shapes.{IsShape};
ghost use Rattle.pm_pages.specs.Paged.{AllReadable};
ghost use Rattle.pm_pages.specs.Plain.{plain_seen, ArePlain};

use crate::parts::commands::{answered, look_at_form, put_of, remove_of, shape_of};
use pm_model::Reply;
use pm_pages::PlainPages;
use pm_types::Shape;
use std::process::Abort;

// How many rows the partition may have.
const ROWS: u32 = 120;

// Puts so many keys of cache 3.
fn fill(rt: &(impl Abort + AllocGlobal), shape: Shape, pages: &mut PlainPages)
    requires plain { ArePlain pages.old }
    requires readable { AllReadable (plain_seen pages.old) }
    requires shape { IsShape shape }
    requires partitions { shape.partitions ≡ 1 }
    ensures plain { ArePlain pages.new }
    ensures readable { AllReadable (plain_seen pages.new) }
{
    'rows: for i in 0..ROWS {
        let cmd = put_of(rt, &shape, 3, i, if i % 4 == 0 { 900 } else { 0 });
        answered(rt, shape, pages, &cmd, &Reply::Done);
    }
}

// Removes the keys: each was there.
fn empty(rt: &(impl Abort + AllocGlobal), shape: Shape, pages: &mut PlainPages)
    requires plain { ArePlain pages.old }
    requires readable { AllReadable (plain_seen pages.old) }
    requires shape { IsShape shape }
    requires partitions { shape.partitions ≡ 1 }
    ensures plain { ArePlain pages.new }
    ensures readable { AllReadable (plain_seen pages.new) }
{
    'rows: for i in 0..ROWS {
        let cmd = remove_of(rt, &shape, 3, i);
        answered(rt, shape, pages, &cmd, &Reply::Was(true));
    }
}

// A full partition refuses a new key of another cache, and takes another value of a key.
fn look_at_full(rt: &(impl Abort + AllocGlobal), shape: Shape, pages: &mut PlainPages)
    requires plain { ArePlain pages.old }
    requires readable { AllReadable (plain_seen pages.old) }
    requires shape { IsShape shape }
    requires partitions { shape.partitions ≡ 1 }
    ensures plain { ArePlain pages.new }
    ensures readable { AllReadable (plain_seen pages.new) }
{
    let new = put_of(rt, &shape, 4, 1, 0);
    answered(rt, shape, pages, &new, &Reply::Full);
    let old = put_of(rt, &shape, 3, 1, 900);
    answered(rt, shape, pages, &old, &Reply::Done);
}

// A partition in pages of this size that is filled again has no more pages than before.
fn grows_once(rt: &(impl Abort + AllocGlobal), page_size: u32)
    requires size { IsPageSize page_size }
{
    let shape = shape_of(page_size, ROWS);
    let mut pages = PlainPages::new(rt.alloc(), &shape, 0).expect(rt, "a partition");
    fill(rt, shape, &mut pages);
    look_at_full(rt, shape, &mut pages);
    let count = pages.len();
    empty(rt, shape, &mut pages);
    look_at_form(rt, &shape, &pages);
    fill(rt, shape, &mut pages);
    look_at_form(rt, &shape, &pages);
    let again = pages.len();
    assert!(rt; count > 1 && again <= count, "{count} pages, and {again}");
}

#[test]
fn a_partition_that_is_filled_again_has_no_more_pages(rt: HostRuntime) {
    grows_once(&rt, 1024);
    grows_once(&rt, 4096);
    grows_once(&rt, 16_384);
}
