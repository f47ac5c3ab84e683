//! The replies of a batch, in their order and with their room.

use pm_model::{Replies, Reply};
use std::process::Abort;
use std::test::Fail;

/// Whether a reply is a value of these bytes.
fn is_found(reply: &Reply, bytes: &[u8]) -> bool {
    match reply {
        Reply::Found(value) => value.bytes() == bytes,
        _ => false,
    }
}

/// Looks for so many replies, and for room for so many more.
fn look_at_room(rt: &impl Abort, replies: &Replies, len: usize, spare: usize) -> Result<(), Fail> {
    assert_eq!(rt; replies.len(), len);
    assert_eq!(rt; replies.spare(), spare);
    Ok(())
}

#[test]
fn replies_stand_in_the_order_in_which_they_came(rt: HostRuntime) -> Result<(), Fail> {
    let mut replies = Replies::with_room(rt.alloc(), 3)?;
    replies.push(Reply::Was(true));
    replies.push_found(b"v");
    look_at_room(&rt, &replies, 2, 1)?;
    assert!(rt; matches!(replies.get(0), Reply::Was(true)));
    assert!(rt; is_found(replies.get(1), b"v"));
    Ok(())
}

#[test]
fn a_list_that_is_cleared_has_its_room_again(rt: HostRuntime) -> Result<(), Fail> {
    let mut replies = Replies::with_room(rt.alloc(), 2)?;
    replies.push_found(b"v");
    replies.push(Reply::Done);
    look_at_room(&rt, &replies, 2, 0)?;
    replies.clear(rt.alloc())?;
    look_at_room(&rt, &replies, 0, 2)?;
    replies.push_found(b"w");
    replies.push_found(b"x");
    assert_eq!(rt; replies.len(), 2);
    Ok(())
}
