//! A worker's outbox: the bytes of its operations, until they are handed to the log writer.

ghost use Rattle.std.specs.Prelude.{◌≡◌, ◌+◌, ◌≤◌, ◌++◌, [], length, drop, IfOk};
ghost use Rattle.std.specs.Option.{option_copied};
ghost use Rattle.pm_stripe.specs.Listings.{AreLoggable, pages_room, MayBeLogical, given_record};
ghost use Rattle.pm_stripe.specs.Listings.{GrowsByOperation};

use crate::held::Held;
use crate::operation::write_operation;
use pm_records::LogRecord;
use pm_types::{OP_EXTRA, OUTBOX};
use std::alloc::{AllocError, Global};
use std::marker::Model;

/// The bytes of operations that are not sent yet, in room that is taken once. Contracts see them as a list.
#[derive(Drop)]
pub struct Outbox {
    room: Vec<u8>,
    len: usize,
}

impl Model for Outbox {
    ghost use Rattle.std.specs.Prelude.{◌≡◌, ◌≤◌, ℕ, List, length, take};
    ghost use Rattle.pm_types.specs.declared.limits.TheConstants.{OUTBOX};

    ghost Value = { List ℕ };

    ghost view = { λ o. take o.len o.room.items };

    ghost invariant = { λ o. (length o.room.items ≡ OUTBOX) × (o.len ≤ OUTBOX) };
}

impl Outbox {
    /// An empty outbox. Fails where memory runs out.
    pub(crate) fn new(alloc: Global) -> Result<Outbox, AllocError>
        ensures { IfOk result (λ outbox. outbox ≡ []) }
    {
        let room = vec![in alloc; 0; OUTBOX]?;
        Ok(Outbox { room, len: 0 })
    }

    /// What is not sent yet.
    pub(crate) fn bytes(&self) -> &[u8]
        ensures { result.now ≡ self.now }
    {
        &self.room[..self.len]
    }

    /// How many bytes still fit.
    pub(crate) fn spare(&self) -> usize
        ensures { result + length self.now ≡ OUTBOX }
    {
        OUTBOX - self.len
    }

    /// Takes out the first so many bytes, which were sent.
    pub(crate) fn sent(&mut self, n: usize)
        requires { n ≤ length self.old }
        ensures { self.new ≡ drop n self.old }
    {
        self.room.copy_within(n..self.len, 0);
        self.len -= n;
    }

    /// Appends what an operation hands to the log writer: its logical record, where one is given, and a record
    /// of each page that it changed, by rising name. Of an operation without a record nothing is appended.
    pub(crate) fn log(&mut self, line: u32, rec: Option<&LogRecord<'_>>, held: &[Held])
        requires logical { MayBeLogical (given_record (option_copied rec)) }
        requires loggable { AreLoggable held.now }
        requires room { length self.old + pages_room held.now + OP_EXTRA ≤ OUTBOX }
        ensures { GrowsByOperation line (given_record (option_copied rec.entry)) held.now self.old self.new }
    {
        let len = write_operation(line, rec, held, &mut self.room[self.len..]);
        self.len += len;
    }
}
