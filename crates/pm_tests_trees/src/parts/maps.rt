//! Commands of no order on a partition and on a plain map: both answer the same.

ghost use Rattle.std.specs.Prelude.{◌≡◌, ◌<◌};
ghost use Rattle.pm_types.specs.PageSizes.{IsPageSize};
ghost use Rattle.pm_types.specs.Shapes.{IsShape};
ghost use Rattle.pm_types.specs.declared.limits.TheConstants.{CACHES};
ghost use Rattle.pm_pages.specs.Paged.{AllReadable};
ghost use Rattle.pm_pages.specs.Plain.{plain_seen, ArePlain};
ghost use Rattle.pm_part.specs.Commands.{IsPartCmd};

use crate::parts::commands::{
    answered, get_of, look_at_form, pairs_in, put_of, remove_of, shape_of,
};
use pm_model::{Cmd, Line, PairList, PlainMap};
use pm_pages::PlainPages;
use pm_types::Shape;
use std::process::Abort;

// A number that follows another one, of no order.
fn mixed(seed: u32) -> u32 {
    seed.wrapping_mul(1_664_525).wrapping_add(1_013_904_223)
}

// A length of a value: 0, 900, 400 or short.
fn len_of(seed: u32) -> usize {
    match (seed >> 5) % 8 {
        0 => 0,
        1 => 900,
        2 => 400,
        _ => (seed >> 6) as usize % 40,
    }
}

// A command of no order over 250 keys, mostly of cache 3: of ten so many are puts.
fn cmd_of(rt: &(impl Abort + AllocGlobal), shape: &Shape, seed: u32, puts: u32) -> Cmd
    requires partitions { shape.now.partitions ≡ 1 }
    ensures { IsPartCmd shape.now 0 result }
{
    let cache = match seed >> 28 {
        0 => 0,
        1 => 15,
        _ => 3,
    };
    let number = (seed >> 8) % 250;
    let kind = (seed >> 3) % 10;
    if kind < puts {
        return put_of(rt, shape, cache, number, len_of(seed));
    }
    if kind == 9 {
        return get_of(rt, shape, cache, number);
    }
    remove_of(rt, shape, cache, number)
}

// Does a command in pages and in a map: the two answer the same.
fn step(
    rt: &(impl Abort + AllocGlobal),
    shape: Shape,
    pages: &mut PlainPages,
    map: &mut PlainMap,
    seed: u32,
    puts: u32,
)
    requires plain { ArePlain pages.old }
    requires readable { AllReadable (plain_seen pages.old) }
    requires shape { IsShape shape }
    requires partitions { shape.partitions ≡ 1 }
    ensures plain { ArePlain pages.new }
    ensures readable { AllReadable (plain_seen pages.new) }
{
    let cmd = cmd_of(rt, &shape, seed, puts);
    let same = Line::Good(cmd_of(rt, &shape, seed, puts));
    let answer = map.answer(rt.alloc(), shape, same).expect(rt, "an answer");
    answered(rt, shape, pages, &cmd, &answer.reply);
}

// Looks that the pairs of a cache are those of a map.
fn look_at_pairs(
    rt: &(impl Abort + AllocGlobal),
    shape: Shape,
    pages: &mut PlainPages,
    map: &PlainMap,
    cache: u8,
)
    requires plain { ArePlain pages.old }
    requires readable { AllReadable (plain_seen pages.old) }
    requires shape { IsShape shape }
    requires cache { cache < CACHES }
    ensures plain { ArePlain pages.new }
    ensures readable { AllReadable (plain_seen pages.new) }
{
    let wanted = map.pairs_of(rt.alloc(), cache).expect(rt, "pairs");
    let list = pairs_in(rt, shape, pages, cache).expect(rt, "pairs");
    assert!(rt; are_same(&list, &wanted), "cache {cache}");
}

fn are_same(a: &PairList, b: &PairList) -> bool {
    let mut all = a.pairs.len() == b.pairs.len();
    for (a, b) in a.pairs.iter().zip(b.pairs.iter()) {
        all = all && a.0.bytes() == b.0.bytes() && a.1.bytes() == b.1.bytes();
    }
    all
}

// Does commands of no order: each is answered as by a map, and the pages are well formed after each hundred.
// Puts and removals have the upper hand in turns.
fn steps(
    rt: &(impl Abort + AllocGlobal),
    shape: Shape,
    steps: u32,
    pages: &mut PlainPages,
    map: &mut PlainMap,
)
    requires plain { ArePlain pages.old }
    requires readable { AllReadable (plain_seen pages.old) }
    requires shape { IsShape shape }
    requires partitions { shape.partitions ≡ 1 }
    ensures plain { ArePlain pages.new }
    ensures readable { AllReadable (plain_seen pages.new) }
{
    let mut seed = shape.page_size;
    'steps: for i in 0..steps {
        seed = mixed(seed);
        let puts = if i / 2_000 % 2 == 0 { 7 } else { 3 };
        step(rt, shape, pages, map, seed, puts);
        if i % 100 == 99 {
            look_at_form(rt, &shape, pages);
        }
    }
}

// Looks that the pairs of each cache are those of a map.
fn look_at_all_pairs(
    rt: &(impl Abort + AllocGlobal),
    shape: Shape,
    pages: &mut PlainPages,
    map: &PlainMap,
)
    requires plain { ArePlain pages.old }
    requires readable { AllReadable (plain_seen pages.old) }
    requires shape { IsShape shape }
    ensures plain { ArePlain pages.new }
    ensures readable { AllReadable (plain_seen pages.new) }
{
    'caches: for cache in 0..16 {
        look_at_pairs(rt, shape, pages, map, cache);
    }
}

// Looks that a partition in pages of this size does what a map does.
fn agree(rt: &(impl Abort + AllocGlobal), page_size: u32)
    requires size { IsPageSize page_size }
{
    let shape = shape_of(page_size, 200);
    let mut pages = PlainPages::new(rt.alloc(), &shape, 0).expect(rt, "a partition");
    let mut map = PlainMap::new(rt.alloc());
    steps(rt, shape, 20_000, &mut pages, &mut map);
    look_at_all_pairs(rt, shape, &mut pages, &map);
}

#[test]
fn commands_in_pages_of_1_024_bytes_are_answered_as_by_a_map(rt: HostRuntime) {
    agree(&rt, 1024);
}

#[test]
fn commands_in_pages_of_2_048_bytes_are_answered_as_by_a_map(rt: HostRuntime) {
    agree(&rt, 2048);
}

#[test]
fn commands_in_pages_of_4_096_bytes_are_answered_as_by_a_map(rt: HostRuntime) {
    agree(&rt, 4096);
}

#[test]
fn commands_in_pages_of_8_192_bytes_are_answered_as_by_a_map(rt: HostRuntime) {
    agree(&rt, 8192);
}

#[test]
fn commands_in_pages_of_16_384_bytes_are_answered_as_by_a_map(rt: HostRuntime) {
    agree(&rt, 16_384);
}
