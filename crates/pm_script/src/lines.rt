//! The lines of the input, which comes in pieces.

ghost use Rattle.std.specs.Prelude.{◌≡◌, ◌↔◌, ◌⊎◌, ◌+◌, ◌≤◌, ◌<◌, [], true, false, length, IsTrue, IfOk, OnOk};
ghost use Rattle.std.specs.Borrow.{sem};
ghost use Rattle.std.specs.Io.BufRead.{Rests};
ghost use Rattle.pm_disk.specs.States.{HasCause, IsUsable};
ghost use Rattle.pm_disk.specs.Moments.{AllMoments};
ghost use Rattle.pm_script.specs.Reading.{OnlyTakes, rest_of, has_next, KnowsEnd, TakesPart};
ghost use Rattle.pm_script.specs.Reading.{FillsPending, GivesItem, CountsItem, CountsKind, FindsKind};
ghost use Rattle.pm_script.specs.Reading.{KeepsLine, IsKind, IsEndedWith, IsEndedWithout};

use crate::buffer::{has_newline, keep_front, newline_position, read_after};
use crate::item::Item;
use pm_disk::{Failed, Host};
use pm_types::{LINE_MAX, LINES_MAX, SCRIPT_BYTES_MAX};
use std::alloc::{AllocError, Global};
use std::marker::Model;

// What stands next in a script, without the line's bytes.
#[derive(Clone, Copy, Debug, PartialEq, Eq)]
enum ItemKind {
    Text,
    Long,
    End,
    Over,
}

// One read asks for so many bytes.
const PIECE: usize = 65_536;
// The start of a line that goes on stands before the piece that follows it.
const BUFFER: usize = PIECE + LINE_MAX + 1;

/// Takes the lines of a script off the input of a host, piece by piece.
///
/// It takes its memory when it is made, and asks the host for as many bytes as its buffer has room for.
/// Of a line that is longer than `LINE_MAX` bytes it keeps one byte more than that.
#[derive(Drop)]
pub struct Lines {
    buffer: Vec<u8>,
    // The line: buffer[from..to].
    from: usize,
    to: usize,
    // What belongs to no line yet: buffer[at..end].
    at: usize,
    end: usize,
    // Whether a read found the end of the input.
    is_ended: bool,
    bytes: u64,
    lines: u64,
}

impl Model for Lines {
    ghost use Rattle.std.specs.Prelude.{◌-◌, ◌==◌, nat_lt, length, take, drop};
    ghost use Rattle.pm_script.specs.Reading.{Unread, IsReader};

    ghost Value = { Unread };

    ghost view = { λ a. record {
      pending = take (a.end - a.at) (drop a.at a.buffer.items);
      line = take (a.to - a.from) (drop a.from a.buffer.items);
      is_open = a.to == a.at;
      is_short = nat_lt a.end (length a.buffer.items);
      is_ended = a.is_ended;
      bytes = a.bytes;
      lines = a.lines;
    } };

    ghost invariant = { λ a. IsReader a.buffer.items a.from a.to a.at a.end a.bytes a.lines };
}

impl Lines {
    ghost use Rattle.pm_script.specs.contracts.lines.Lines.{the_row};

    /// A reader that has read nothing yet.
    pub fn new(alloc: Global) -> Result<Lines, AllocError>
        ensures { IfOk result (λ lines. lines ≡ record {
          pending = [];
          line = [];
          is_open = true;
          is_short = true;
          is_ended = false;
          bytes = 0;
          lines = 0;
        }) }
    {
        Ok(Lines {
            buffer: vec![in alloc; 0; BUFFER]?,
            from: 0,
            to: 0,
            at: 0,
            end: 0,
            is_ended: false,
            bytes: 0,
            lines: 0,
        })
    }

    /// Whether the next item is in hand, so that `next` finds it without a read: a whole line, with its
    /// newline, was read already, or a read found the end of the input.
    pub fn has_next(&self) -> bool
        ensures { result ≡ has_next self.now }
    {
        self.is_ended || has_newline(&self.buffer[self.at..self.end])
    }

    /// Whether the last read gave fewer bytes than it was asked for: what comes next may take time.
    /// It is true before the first read.
    pub fn was_short(&self) -> bool
        ensures { result ≡ self.now.is_short }
    {
        self.end < self.buffer.len()
    }

    /// What stands next in the script: its next line, which it takes, or its end. Once a read has found
    /// the end of the input, no other one is made.
    ///
    /// `Over` comes exactly where a line is left that isn't ended within the script's limits, and
    /// comes again at each later call. After `Failed` a part of a line may be lost: the reader is
    /// not to be used any more.
    pub fn next<H: Host>(&mut self, host: &mut H) -> Result<Item<'_>, Failed>
        requires usable { IsUsable (H.state host.old) }
        requires end { H.tells → KnowsEnd self.old (H.history host.old).world }
        ensures* gives { sem 𝓛 (Rests the_row self.entry (λ left.
            IfOk result (CountsItem self.entry.now left)
            × (H.tells → IfOk result (GivesItem self.entry.now left
            (rest_of self.entry.now (H.history host.old).world) (rest_of left
            (H.history host.new).world)))
            × (H.tells → OnOk result (KnowsEnd left (H.history host.new).world)))) }
        ensures takes { H.tells → AllMoments (H.history host.old) (H.history host.new) (OnlyTakes
            (H.history host.old).world) }
        ensures cause { HasCause (H.state host.old) (H.state host.new) result }
    {
        match self.advance(host)? {
            ItemKind::Text => Ok(Item::Text(self.line())),
            ItemKind::Long => Ok(Item::Long),
            ItemKind::End => Ok(Item::End),
            ItemKind::Over => Ok(Item::Over),
        }
    }

    // The line that was taken last.
    fn line(&self) -> &[u8]
        ensures { result.now ≡ self.now.line }
    {
        &self.buffer[self.from..self.to]
    }

    // Takes the next line.
    fn advance<H: Host>(&mut self, host: &mut H) -> Result<ItemKind, Failed>
        requires usable { IsUsable (H.state host.old) }
        requires end { H.tells → KnowsEnd self.old (H.history host.old).world }
        ensures counts { IfOk result (CountsKind self.old self.new) }
        ensures next { H.tells → IfOk result (FindsKind self.old self.new
            (rest_of self.old (H.history host.old).world) (rest_of self.new
            (H.history host.new).world)) }
        ensures end { H.tells → OnOk result (KnowsEnd self.new (H.history host.new).world) }
        ensures takes { H.tells → AllMoments (H.history host.old) (H.history host.new) (OnlyTakes
            (H.history host.old).world) }
        ensures cause { HasCause (H.state host.old) (H.state host.new) result }
    {
        self.begin();
        'pieces: loop {
            let some = self.ready(host)?;
            if !some {
                return Ok(self.end());
            }
            if !self.has_room() {
                return Ok(ItemKind::Over);
            }
            let found = self.take_part();
            if found {
                return Ok(self.kind());
            }
        }
    }

    // Ends the line that goes on with the input, if there is one.
    fn end(&mut self) -> ItemKind
        requires { (self.old.line ≡ []) ⊎ (self.old.lines < LINES_MAX) }
        ensures none { length self.old.line ≡ 0 → IsEndedWithout self.old self.new result }
        ensures some { 0 < length self.old.line → IsEndedWith self.old self.new result }
        ensures limit { self.new.bytes ≤ SCRIPT_BYTES_MAX }
    {
        if self.to == self.from {
            return ItemKind::End;
        }
        self.lines += 1;
        self.kind()
    }

    // Whether the line is long.
    fn kind(&self) -> ItemKind
        ensures { IsKind self.now.line result }
    {
        if self.to - self.from > LINE_MAX {
            ItemKind::Long
        } else {
            ItemKind::Text
        }
    }

    // Begins a line after the one before.
    fn begin(&mut self)
        ensures { self.new ≡ record self.old { line = []; is_open = true } }
    {
        self.from = self.at;
        self.to = self.at;
    }

    // Whether the line that goes on may still be ended within the limits.
    fn has_room(&self) -> bool
        ensures room { IsTrue result →
            (self.now.lines < LINES_MAX) × (self.now.bytes < SCRIPT_BYTES_MAX) }
        ensures none { result ≡ false →
            (self.now.lines ≡ LINES_MAX) ⊎ (self.now.bytes ≡ SCRIPT_BYTES_MAX) }
    {
        self.lines < LINES_MAX && self.bytes < SCRIPT_BYTES_MAX
    }

    fn is_empty(&self) -> bool
        ensures empty { IsTrue result ↔ (self.now.pending ≡ []) }
        ensures some { result ≡ false → 0 < length self.now.pending }
    {
        self.at == self.end
    }

    // Reads the next piece where there is none, and says whether there is one.
    fn ready<H: Host>(&mut self, host: &mut H) -> Result<bool, Failed>
        requires usable { IsUsable (H.state host.old) }
        requires going { self.old.is_open ≡ true }
        requires end { H.tells → KnowsEnd self.old (H.history host.old).world }
        ensures line { KeepsLine self.old self.new }
        ensures some { IfOk result (λ some. IsTrue some → 0 < length self.new.pending) }
        ensures rest { H.tells → OnOk result (rest_of self.new
            (H.history host.new).world ≡ rest_of self.old (H.history host.old).world) }
        ensures none { H.tells → IfOk result (λ some. some ≡ false →
            rest_of self.new (H.history host.new).world ≡ []) }
        ensures end { H.tells → OnOk result (KnowsEnd self.new (H.history host.new).world) }
        ensures takes { H.tells → AllMoments (H.history host.old) (H.history host.new) (OnlyTakes
            (H.history host.old).world) }
        ensures cause { HasCause (H.state host.old) (H.state host.new) result }
    {
        if !self.is_empty() {
            return Ok(true);
        }
        if self.is_ended {
            return Ok(false);
        }
        self.fill(host)
    }

    // Reads the next piece after the line that goes on, and says whether there was one.
    fn fill<H: Host>(&mut self, host: &mut H) -> Result<bool, Failed>
        requires usable { IsUsable (H.state host.old) }
        requires empty { self.old.pending ≡ [] }
        requires going { self.old.is_open ≡ true }
        ensures line { KeepsLine self.old self.new }
        ensures some { IfOk result (λ some. IsTrue some → 0 < length self.new.pending) }
        ensures fills { H.tells → IfOk result (FillsPending
            (H.history host.old).world.input self.new.pending (H.history host.new).world.input) }
        ensures end { H.tells → OnOk result (KnowsEnd self.new (H.history host.new).world) }
        ensures takes { H.tells → AllMoments (H.history host.old) (H.history host.new) (OnlyTakes
            (H.history host.old).world) }
        ensures cause { HasCause (H.state host.old) (H.state host.new) result }
    {
        let kept = keep_front(&mut self.buffer, self.from, self.to);
        self.from = 0;
        self.to = kept;
        self.at = kept;
        self.end = kept;
        let count = read_after(host, &mut self.buffer, kept)?;
        self.end += count;
        self.is_ended = count == 0;
        Ok(count > 0)
    }

    // Takes the bytes up to a newline, or what there is, and says whether a newline came.
    fn take_part(&mut self) -> bool
        requires some { 0 < length self.old.pending }
        requires going { self.old.is_open ≡ true }
        requires bytes { self.old.bytes < SCRIPT_BYTES_MAX }
        requires lines { self.old.lines < LINES_MAX }
        ensures taken { TakesPart self.old self.new result }
        ensures limit { self.new.bytes ≤ SCRIPT_BYTES_MAX }
    {
        let room = SCRIPT_BYTES_MAX - self.bytes;
        let len = room.min((self.end - self.at) as u64) as usize;
        match newline_position(&self.buffer[self.at..self.at + len]) {
            Some(i) => {
                self.to = self.at + i;
                self.at += i + 1;
                self.bytes += i as u64 + 1;
                self.lines += 1;
                true
            }
            None => {
                self.at += len;
                self.to = self.at;
                self.bytes += len as u64;
                false
            }
        }
    }
}
