//! Commands on a partition in a list of pages.

ghost use Rattle.std.specs.Prelude.{◌≡◌, ℕ, ◌<◌, ◌≤◌};
ghost use Rattle.pm_types.specs.PageSizes.{IsPageSize};
ghost use Rattle.pm_types.specs.Shapes.{IsShape};
ghost use Rattle.pm_types.specs.declared.limits.TheConstants.{OP_PAGES, CACHES, ROWS_MAX};
ghost use Rattle.pm_pages.specs.Paged.{AllReadable, NoneLent};
ghost use Rattle.pm_pages.specs.Plain.{plain_seen, ArePlain};
ghost use Rattle.pm_part.specs.Commands.{IsPartCmd};

use crate::turned::copied;
use pm_model::{Cmd, PairList, Replies, Reply};
use pm_pages::{Pages, PlainPages, is_well_formed};
use pm_part::Part;
use pm_types::{Key, Shape, Value};
use std::alloc::Global;
use std::process::Abort;

/// The shape of a store of one partition.
pub fn shape_of(page_size: u32, max_rows: u32) -> Shape
    requires size { IsPageSize page_size }
    requires some { 1 ≤ max_rows }
    requires few { max_rows ≤ ROWS_MAX }
    ensures shape { IsShape result }
    ensures partitions { result.partitions ≡ 1 }
{
    Shape {
        page_size,
        partitions: 1,
        version: 1,
        max_rows,
        segment_bytes: 65_536,
    }
}

/// Looks that a partition is well formed.
pub fn look_at_form(rt: &(impl Abort + AllocGlobal), shape: &Shape, pages: &PlainPages)
    requires shape { IsShape shape.now }
{
    let all = copied(rt, pages);
    let is_so = is_well_formed(rt.alloc(), shape, 0, &all).expect(rt, "a check");
    assert!(rt; is_so, "pages: {}", all.len());
}

// Does a command, and says whether it succeeded.
fn run_over<P: Pages>(part: &Part, cmd: &Cmd, pages: &mut P, replies: &mut Replies) -> bool
    requires ready { P.ready pages.old }
    requires room { OP_PAGES ≤ (P.seen pages.old).spare }
    requires cmd { IsPartCmd part.now.shape part.now.part cmd.now }
    requires readable { AllReadable (P.seen pages.old) }
    requires spare { 0 < replies.old.spare }
    ensures kept { P.kept pages.old pages.new }
    ensures readable { AllReadable (P.seen pages.new) }
{
    part.run(cmd, pages, replies).is_ok()
}

fn pairs_over<P: Pages>(
    alloc: Global,
    part: &Part,
    cache: u8,
    pages: &mut P,
    into: &mut PairList,
) -> bool
    requires ready { P.ready pages.old }
    requires none_lent { NoneLent (P.seen pages.old) }
    requires cache { cache < CACHES }
    requires readable { AllReadable (P.seen pages.old) }
    ensures kept { P.kept pages.old pages.new }
    ensures readable { AllReadable (P.seen pages.new) }
{
    part.pairs(alloc, cache, pages, into).is_ok()
}

fn same(a: &Reply, b: &Reply) -> bool {
    match (a, b) {
        (Reply::Done, Reply::Done) => true,
        (Reply::Full, Reply::Full) => true,
        (Reply::Absent, Reply::Absent) => true,
        (Reply::Was(a), Reply::Was(b)) => a == b,
        (Reply::Found(a), Reply::Found(b)) => a.bytes() == b.bytes(),
        _ => false,
    }
}

// Does a command with room for one reply, and says whether it succeeded.
fn run(
    rt: &(impl Abort + AllocGlobal),
    shape: Shape,
    pages: &mut PlainPages,
    cmd: &Cmd,
    replies: &mut Replies,
) -> bool
    requires plain { ArePlain pages.old }
    requires readable { AllReadable (plain_seen pages.old) }
    requires shape { IsShape shape }
    requires partitions { shape.partitions ≡ 1 }
    requires cmd { IsPartCmd shape 0 cmd.now }
    requires spare { 0 < replies.old.spare }
    ensures plain { ArePlain pages.new }
    ensures readable { AllReadable (plain_seen pages.new) }
{
    pages.ready(rt.alloc()).expect(rt, "room");
    run_over(&Part::new(shape, 0), cmd, pages, replies)
}

/// Does a command, which succeeds with this one reply.
pub fn answered(
    rt: &(impl Abort + AllocGlobal),
    shape: Shape,
    pages: &mut PlainPages,
    cmd: &Cmd,
    wanted: &Reply,
)
    requires plain { ArePlain pages.old }
    requires readable { AllReadable (plain_seen pages.old) }
    requires shape { IsShape shape }
    requires partitions { shape.partitions ≡ 1 }
    requires cmd { IsPartCmd shape 0 cmd.now }
    ensures plain { ArePlain pages.new }
    ensures readable { AllReadable (plain_seen pages.new) }
{
    let mut replies = Replies::with_room(rt.alloc(), 1).expect(rt, "room");
    let done = run(rt, shape, pages, cmd, &mut replies);
    let is_wanted = done && replies.len() == 1 && same(replies.get(0), wanted);
    assert!(rt; is_wanted, "{cmd:?}: {wanted:?}");
}

/// Does a command, and says whether it succeeded; it appends a reply exactly where it does, or `None` comes.
pub fn is_done(
    rt: &(impl Abort + AllocGlobal),
    shape: Shape,
    pages: &mut PlainPages,
    cmd: &Cmd,
) -> Option<bool>
    requires plain { ArePlain pages.old }
    requires readable { AllReadable (plain_seen pages.old) }
    requires shape { IsShape shape }
    requires partitions { shape.partitions ≡ 1 }
    requires cmd { IsPartCmd shape 0 cmd.now }
    ensures plain { ArePlain pages.new }
    ensures readable { AllReadable (plain_seen pages.new) }
{
    let mut replies = Replies::with_room(rt.alloc(), 1).expect(rt, "room");
    let done = run(rt, shape, pages, cmd, &mut replies);
    if done == (replies.len() == 1) {
        Some(done)
    } else {
        None
    }
}

/// The pairs of a cache; `None` where they can't be read.
pub fn pairs_in(
    rt: &(impl Abort + AllocGlobal),
    shape: Shape,
    pages: &mut PlainPages,
    cache: u8,
) -> Option<PairList>
    requires plain { ArePlain pages.old }
    requires readable { AllReadable (plain_seen pages.old) }
    requires shape { IsShape shape }
    requires cache { cache < CACHES }
    ensures plain { ArePlain pages.new }
    ensures readable { AllReadable (plain_seen pages.new) }
{
    let part = Part::new(shape, 0);
    pages.ready(rt.alloc()).expect(rt, "room");
    let mut list = PairList {
        pairs: Vec::new(rt.alloc()),
    };
    if pairs_over(rt.alloc(), &part, cache, pages, &mut list) {
        Some(list)
    } else {
        None
    }
}

// A key of 1, 2 or 64 bytes; those of numbers below 250 differ.
fn key_of(rt: &(impl Abort + AllocGlobal), number: u32) -> Key {
    let mut bytes = [b'k'; 64];
    bytes[0] = (number % 251) as u8;
    let len = match number % 3 {
        0 => 1,
        1 => 64,
        _ => 2,
    };
    Key::of(rt.alloc(), &bytes[..len]).expect(rt, "a key")
}

fn value_of(rt: &(impl Abort + AllocGlobal), len: usize, byte: u8) -> Value {
    let bytes = [byte; 900];
    Value::of(rt.alloc(), &bytes[..len.min(900)]).expect(rt, "a value")
}

/// A put, in a store of one partition.
pub fn put_of(
    rt: &(impl Abort + AllocGlobal),
    shape: &Shape,
    cache: u8,
    number: u32,
    len: usize,
) -> Cmd
    requires partitions { shape.now.partitions ≡ 1 }
    requires cache { cache < CACHES }
    ensures { IsPartCmd shape.now 0 result }
{
    let key = key_of(rt, number);
    let value = value_of(rt, len, (number % 256) as u8);
    Cmd::Put { cache, key, value }
}

/// A removal, in a store of one partition.
pub fn remove_of(rt: &(impl Abort + AllocGlobal), shape: &Shape, cache: u8, number: u32) -> Cmd
    requires partitions { shape.now.partitions ≡ 1 }
    requires cache { cache < CACHES }
    ensures { IsPartCmd shape.now 0 result }
{
    let key = key_of(rt, number);
    Cmd::Remove { cache, key }
}

/// A get, in a store of one partition.
pub fn get_of(rt: &(impl Abort + AllocGlobal), shape: &Shape, cache: u8, number: u32) -> Cmd
    requires partitions { shape.now.partitions ≡ 1 }
    requires cache { cache < CACHES }
    ensures { IsPartCmd shape.now 0 result }
{
    let key = key_of(rt, number);
    Cmd::Get { cache, key }
}
