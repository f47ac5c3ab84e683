//! A lock word.

ghost use Rattle.std.specs.Prelude.{◌≡◌, ◌<◌, ◌≤◌, ◌^◌, ◌↔◌, IsTrue};
ghost use Rattle.pm_locks.specs.Words as spec;
ghost use Rattle.pm_locks.specs.Words.{LockWord, CanBeStolen, IsWanted};

use pm_types::{Flag, Tag};
use std::marker::Model;

/// The holder of a frame that is at home.
pub const AT_HOME: u8 = 255;

/// A frame's last tag: it is given to no other page then.
pub const TAG_LAST: Tag = (1 << 40) - 1;

/// The flusher's number: the one after the eight workers'.
pub const FLUSHER: u8 = 8;

/// A lock word, in 64 bits: 0 to 7 the flag, 8 to 15 the holder, 16 to 23 the owner, 24 to 63 the
/// tag. Contracts see it as these four.
#[derive(Clone, Copy, Debug)]
pub struct Word(pub u64);

impl Model for Word {
    ghost use Rattle.std.specs.Prelude.{◌≡◌};
    ghost use Rattle.pm_locks.specs.Words.{LockWord, packed, unpacked};

    ghost Value = { LockWord };

    ghost view = { λ w. unpacked w.0 };

    ghost invariant = { λ w. packed (unpacked w.0) ≡ w.0 };

    ghost inverse = { λ d. record { 0 = packed d } };

    ghost inverse_ok = { λ w h i. record { 0 = h i } };
}

impl Word {
    /// What the frame holds.
    pub fn flag(&self) -> Flag
        ensures { result ≡ self.now.flag }
    {
        flag_from(self.0 % 256)
    }

    /// The number that has the frame out, or 255: the frame is at home.
    pub fn holder(&self) -> u8
        ensures { result ≡ self.now.holder }
    {
        (self.0 / 0x100 % 0x100) as u8
    }

    /// The number of the worker whose frame it is.
    pub fn owner(&self) -> u8
        ensures { result ≡ self.now.owner }
    {
        (self.0 / 0x1_0000 % 0x100) as u8
    }

    /// How often the frame was given to another page.
    pub fn tag(&self) -> Tag
        ensures tag { result ≡ self.now.tag }
        ensures at_most { result ≤ TAG_LAST }
    {
        self.0 / 0x100_0000
    }

    /// The word of these four.
    pub(crate) fn pack(tag: Tag, owner: u8, holder: u8, flag: Flag) -> Word
        requires { tag ≤ TAG_LAST }
        ensures { result ≡ record { tag = tag; owner = owner; holder = holder; flag = flag } }
    {
        Word(((tag * 256 + owner as u64) * 256 + holder as u64) * 256 + code_of(flag))
    }

    /// Whether the frame is at home, Empty or Clean, and below the last tag.
    pub(crate) fn can_be_stolen(&self) -> bool
        ensures { IsTrue result ↔ CanBeStolen self.now }
    {
        self.holder() == AT_HOME
            && matches!(self.flag(), Flag::Empty | Flag::Clean)
            && self.tag() < TAG_LAST
    }

    /// Whether the word has this tag and this flag.
    pub(crate) fn is_wanted(&self, tag: Tag, want: Flag) -> bool
        ensures { IsTrue result ↔ IsWanted self.now tag want }
    {
        self.tag() == tag && self.flag() == want
    }

    /// The same word under another holder.
    pub(crate) fn held_by(&self, holder: u8) -> Word
        ensures { result ≡ spec.held_by holder self.now }
    {
        Word::pack(self.tag(), self.owner(), holder, self.flag())
    }
}

fn code_of(flag: Flag) -> u64
    ensures { result ≡ spec.code_of flag }
{
    match flag {
        Flag::Empty => 0,
        Flag::Clean => 1,
        Flag::Dirty => 2,
        Flag::Due => 3,
        Flag::Done => 4,
    }
}

fn flag_from(code: u64) -> Flag
    ensures { result ≡ spec.flag_from code }
{
    match code {
        0 => Flag::Empty,
        1 => Flag::Clean,
        2 => Flag::Dirty,
        3 => Flag::Due,
        _ => Flag::Done,
    }
}
