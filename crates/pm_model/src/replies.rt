//! The replies of a batch.

ghost use Rattle.std.specs.Prelude.{◌≡◌, ◌≤◌, ◌<◌, ◌+◌, [], ◌∷◌, length, Some, IfOk, OnOk, slice_get};
ghost use Rattle.std.specs.Vec.{vec_capacity};
ghost use Rattle.pm_types.specs.Keys.{HasValueLength};
ghost use Rattle.pm_model.specs.ReplyLists.{no_replies, with_replies};

use crate::reply::Reply;
use pm_types::ValueRoom;
use std::alloc::{AllocError, Global};
use std::marker::Model;

/// A list of replies with room for more.
///
/// All memory is taken when it is made: for each reply also that of a value, so that an operation
/// that has begun is answered without taking memory. A list that is cleared keeps its memory.
#[derive(Drop)]
pub struct Replies {
    replies: Vec<Reply>,
    // How many replies the list has room for in all.
    room: usize,
    // At least as many as replies may still come.
    values: Vec<ValueRoom>,
}

impl Model for Replies {
    ghost use Rattle.std.specs.Prelude.{◌+◌, ◌-◌, ◌≤◌, length, vec_capacity};
    ghost use Rattle.pm_model.specs.ReplyLists.{ReplyList};

    ghost Value = { ReplyList };

    ghost view = { λ list. record {
      replies = list.replies.items;
      spare = list.room - length list.replies.items;
    } };

    ghost invariant = { λ list. (length list.replies.items ≤ list.room)
        × (list.room ≤ vec_capacity list.replies)
        × (list.room ≤ length list.replies.items + length list.values.items) };
}

impl Replies {
    /// No reply yet, with room for `n`, and for a value in each.
    pub fn with_room(alloc: Global, n: usize) -> Result<Replies, AllocError>
        ensures { IfOk result (λ list. list ≡ no_replies n) }
    {
        let replies = Vec::with_capacity(alloc, n)?;
        let mut values = Vec::with_capacity(alloc, n)?;
        fill_up(alloc, n, &mut values)?;
        Ok(Replies {
            replies,
            room: n,
            values,
        })
    }

    /// How many replies there are.
    pub fn len(&self) -> usize
        ensures { result ≡ length self.now.replies }
    {
        self.replies.len()
    }

    /// For how many replies more there is room.
    pub fn spare(&self) -> usize
        ensures { result ≡ self.now.spare }
    {
        self.room.saturating_sub(self.replies.len())
    }

    /// The reply with this number, counted from 0.
    pub fn get(&self, i: usize) -> &Reply
        requires { i < length self.now.replies }
        ensures { slice_get self.now.replies i ≡ Some result.now }
    {
        &self.replies[i]
    }

    /// Appends a reply, without taking memory.
    pub fn push(&mut self, reply: Reply)
        requires { 0 < self.old.spare }
        ensures { self.new ≡ with_replies (reply ∷ []) self.old }
    {
        self.replies.push(reply).unwrap();
    }

    /// Appends `Found` with a copy of this value, without taking memory.
    pub fn push_found(&mut self, value: &[u8])
        requires spare { 0 < self.old.spare }
        requires length { HasValueLength value.now }
        ensures { self.new ≡ with_replies (Reply.Found value.now ∷ []) self.old }
    {
        let room = self.values.pop().unwrap();
        self.replies.push(Reply::Found(room.fill(value))).unwrap();
    }

    /// Takes all replies out, and has room again for as many as in the beginning. The memory of the
    /// values that were found serves those to come, so that none is taken.
    ///
    /// Where memory ran out there is room for no reply, and some of the old ones may be left. No clause says
    /// this.
    pub fn clear(&mut self, alloc: Global) -> Result<(), AllocError>
        ensures { OnOk result
            (self.new ≡ no_replies (length self.old.replies + self.old.spare)) }
    {
        let room = self.room;
        let taken = take_back(alloc, &mut self.replies, &mut self.values);
        self.room = self.replies.len();
        taken?;
        fill_up(alloc, room, &mut self.values)?;
        self.room = room;
        Ok(())
    }
}

// Takes all replies out, and keeps the memory of the values that were found.
fn take_back(
    alloc: Global,
    replies: &mut Vec<Reply>,
    values: &mut Vec<ValueRoom>,
) -> Result<(), AllocError>
    ensures none { OnOk result (replies.new.items ≡ []) }
    ensures room { vec_capacity replies.new ≡ vec_capacity replies.old }
{
    'each: while let Some(reply) = replies.pop() {
        if let Reply::Found(value) = reply {
            values.push(ValueRoom::of(alloc, value)?)?;
        }
    }
    Ok(())
}

// Takes the memory of values until there is room for so many.
fn fill_up(alloc: Global, n: usize, values: &mut Vec<ValueRoom>) -> Result<(), AllocError>
    ensures { OnOk result (n ≤ length values.new.items) }
{
    'each: while values.len() < n {
        values.push(ValueRoom::new(alloc)?)?;
    }
    Ok(())
}
