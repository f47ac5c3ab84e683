//! Lines that a plain map answers, one after the other and in a batch.

ghost use Rattle.std.specs.Prelude.{◌≡◌, OnOk};
ghost use Rattle.pm_model.specs.Batches.{IsBatch};
ghost use Rattle.pm_model.specs.Eval.{replies_to};
ghost use Rattle.pm_model.specs.ReplyLists.{with_replies};

use pm_model::{Answer, Batcher, Cmd, Line, PlainBatcher, PlainMap, Replies, Reply};
use pm_types::{KEY_MAX, Key, Shape, StoreFault, VALUE_MAX, Value};
use std::alloc::{AllocError, Global};
use std::process::Abort;
use std::test::Fail;

/// Two rows in the one partition.
const SMALL: Shape = Shape {
    page_size: 4_096,
    partitions: 1,
    version: 1,
    max_rows: 2,
    segment_bytes: 65_536,
};

/// A key of these bytes.
fn key(rt: &(impl Abort + AllocGlobal), bytes: &[u8]) -> Result<Key, Fail> {
    assert!(rt; !bytes.is_empty() && bytes.len() <= KEY_MAX);
    Ok(Key::of(rt.alloc(), bytes)?)
}

/// A value of these bytes.
fn value(rt: &(impl Abort + AllocGlobal), bytes: &[u8]) -> Result<Value, Fail> {
    assert!(rt; bytes.len() <= VALUE_MAX);
    Ok(Value::of(rt.alloc(), bytes)?)
}

/// What a map answers to a line.
fn answer(alloc: Global, map: &mut PlainMap, line: Line) -> Result<Answer, AllocError> {
    map.answer(alloc, SMALL, line)
}

/// Whether a reply is a value of these bytes.
fn is_found(reply: &Reply, bytes: &[u8]) -> bool {
    match reply {
        Reply::Found(value) => value.bytes() == bytes,
        _ => false,
    }
}

/// Puts a row, and looks for the put as done, or as refused by a full partition.
fn look_at_put(
    rt: &(impl Abort + AllocGlobal),
    map: &mut PlainMap,
    (cache, at, bytes, is_done): (u8, &[u8], &[u8], bool),
) -> Result<(), Fail> {
    let key = key(rt, at)?;
    let value = value(rt, bytes)?;
    let answer = answer(rt.alloc(), map, Line::Good(Cmd::Put { cache, key, value }))?;
    assert_eq!(rt; answer.is_accepted, is_done, "{bytes:?}");
    assert_eq!(rt; matches!(answer.reply, Reply::Done), is_done, "{bytes:?}");
    assert_eq!(rt; matches!(answer.reply, Reply::Full), !is_done, "{bytes:?}");
    Ok(())
}

/// Looks for these bytes as the value of the key `a` of a cache.
fn look_at_get(
    rt: &(impl Abort + AllocGlobal),
    map: &mut PlainMap,
    cache: u8,
    bytes: &[u8],
) -> Result<(), Fail> {
    let key = key(rt, b"a")?;
    let answer = answer(rt.alloc(), map, Line::Good(Cmd::Get { cache, key }))?;
    assert!(rt; is_found(&answer.reply, bytes), "{bytes:?}");
    Ok(())
}

/// Removes the key `a` of cache 0, and looks for whether that is accepted.
fn look_at_removal(
    rt: &(impl Abort + AllocGlobal),
    map: &mut PlainMap,
    is_accepted: bool,
) -> Result<(), Fail> {
    let key = key(rt, b"a")?;
    let answer = answer(rt.alloc(), map, Line::Good(Cmd::Remove { cache: 0, key }))?;
    assert_eq!(rt; answer.is_accepted, is_accepted);
    Ok(())
}

#[test]
fn a_full_partition_takes_a_key_that_it_has(rt: HostRuntime) -> Result<(), Fail> {
    let mut map = PlainMap::new(rt.alloc());
    let puts = [
        (0, b"a".as_slice(), b"1".as_slice(), true),
        (1, b"a", b"2", true),
        (0, b"b", b"3", false),
        (0, b"a", b"4", true),
    ];
    for put in puts {
        look_at_put(&rt, &mut map, put)?;
    }
    look_at_get(&rt, &mut map, 0, b"4")?;
    look_at_get(&rt, &mut map, 1, b"2")?;
    look_at_removal(&rt, &mut map, true)?;
    look_at_removal(&rt, &mut map, false)
}

/// Four partitions of many rows.
const LARGE: Shape = Shape {
    page_size: 4_096,
    partitions: 4,
    version: 1,
    max_rows: 400_000,
    segment_bytes: 67_108_864,
};

/// Runs a batch through the bound alone.
fn run_by_bound<B: Batcher>(
    alloc: Global,
    batcher: &mut B,
    lines: &[Line],
    replies: &mut Replies,
) -> Result<(), StoreFault>
    requires open { B.IsOpen batcher.old }
    requires batch { IsBatch lines.now 1 replies.old }
    ensures { OnOk result (replies.new ≡ with_replies
        (replies_to (B.shape batcher.old) lines.now (B.pairs batcher.old)) replies.old) }
{
    batcher.run_batch(alloc, lines, 1, replies)
}

/// The replies of a batcher over an empty map to a scan, a bad line and one that is too long.
fn replies_to_three(alloc: Global) -> Result<Replies, StoreFault> {
    let mut batcher = PlainBatcher::new(alloc, LARGE, PlainMap::new(alloc));
    let mut replies = Replies::with_room(alloc, 3)?;
    let lines = [Line::Good(Cmd::Scan { cache: 3 }), Line::Bad, Line::Long];
    run_by_bound(alloc, &mut batcher, &lines, &mut replies)?;
    Ok(replies)
}

#[test]
fn each_line_of_a_batch_is_answered(rt: HostRuntime) -> Result<(), Fail> {
    let replies = replies_to_three(rt.alloc())?;
    assert_eq!(rt; replies.len(), 3);
    assert!(rt; matches!(replies.get(0), Reply::Pairs(list) if list.pairs.is_empty()));
    assert!(rt; matches!(replies.get(1), Reply::BadLine));
    assert!(rt; matches!(replies.get(2), Reply::LongLine));
    Ok(())
}
