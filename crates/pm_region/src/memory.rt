//! The block's room in parts, and vectors that lie in them: all of this crate's raw pointers.
//!
//! Six functions are proved by hand: `Span::cut`, `Span::join`, `open`, `close`, `over`, `under`.

ghost use Rattle.std.specs.Prelude.{◌≡◌, ℕ, ◌+◌, ◌-◌, ◌^◌, ◌<◌, ◌≤◌, vec_len, vec_capacity};
ghost use Rattle.std.specs.Vec.{vec_ptr};
ghost use base.Fml.{ftrue, fex, fwand, fsep, feq};
ghost use denote.RawPtr.{Ptr, InBlock, ◌+ₚ◌};
ghost use Rattle.pm_region.specs.Memory.{room_lies, Hollow, hollow, hollow_code};

use std::marker::{Model, Move, Owns};
use std::mem::ManuallyDrop;
use std_alloc::vec::{Lodged, lodge};

/// Room for `len` bytes from an origin on, which nothing else can reach, whether or not any were
/// written there. It takes no memory itself.
#[derive(Drop)]
pub(crate) struct Span {
    ghost origin: { Ptr },
    ghost len: { ℕ },
}

impl Model for Span {
    ghost also_owns = { λ s. room_lies s.origin s.len };
}

impl Span {
    ghost use Rattle.pm_region.specs.Spans.{IsSpan};

    /// The room of the first `at` bytes, and that of the others.
    fn cut(self, at: usize) -> (Span, Span)
        requires { at ≤ self.len }
        ensures { IsSpan result.0 self.origin at
            × IsSpan result.1 (self.origin +ₚ at) (self.len - at) }
    {
        let Span {} = self;
        (Span {}, Span {})
    }

    /// This room, and the one that follows right after it.
    pub(crate) fn join(self, following: Span) -> Span
        requires { following.origin ≡ self.origin +ₚ self.len }
        ensures { IsSpan result self.origin (self.len + following.len) }
    {
        let Span {} = self;
        let Span {} = following;
        Span {}
    }
}

/// A vector whose room is out. It can't be freed until that is back.
pub(crate) struct Shell {
    vec: Vec<u8>,
}

impl Owns for Shell {
    ghost Value = { Hollow };

    ghost coded = { hollow_code };

    ghost shr_at = { λ _ _ _. ftrue };
}

impl Move for Shell {
    // Some vector of this capacity, which the room from the origin on makes whole again.
    ghost own_val = { λ h us. fex Inside (λ i. fsep (feq ℕ i.vec.cap h.len)
        (fwand (room_lies h.origin h.len) (Fields.own_val i us))) };
}

// The heap's blocks may be given back by any thread, and a `&` shows nothing.
unsafe impl Send for Shell {}

unsafe impl Sync for Shell {}

impl Shell {
    /// Lets the vector go without its room: its memory is not given back.
    pub(crate) fn forget(self) {
        let _kept = unsafe { ManuallyDrop::new_unchecked(self) };
    }
}

/// The room of a vector that has no bytes, and the vector without it.
fn open(vec: Vec<u8>) -> (Span, Shell)
    requires { (vec_len vec ≡ 0) × (0 < vec_capacity vec) }
    ensures { (result.0.origin ≡ vec_ptr vec) × (result.0.len ≡ vec_capacity vec)
        × (result.1 ≡ hollow (vec_ptr vec) (vec_capacity vec)) × InBlock (vec_ptr vec) }
{
    (Span {}, Shell { vec })
}

/// The vector with its room back, whatever was written there.
pub(crate) fn close(span: Span, shell: Shell) -> Vec<u8>
    requires { (span.origin ≡ shell.origin) × (span.len ≡ shell.len) }
    ensures { vec_capacity result ≡ span.len }
{
    let Span {} = span;
    let Shell { vec } = shell;
    vec
}

/// A vector without bytes over this room, which it neither leaves nor frees.
fn over(origin: *mut u8, len: usize, span: Span) -> Vec<u8, Lodged>
    requires { (span.origin ≡ origin) × (span.len ≡ len) × (0 < len) × (len < 2 ^ 63) }
    ensures { (vec_ptr result ≡ origin) × (vec_capacity result ≡ len) × (vec_len result ≡ 0) }
{
    let Span {} = span;
    unsafe { lodge(origin, 0, len) }
}

/// The room that a vector lies over, whatever it has written there.
pub(crate) fn under(vec: Vec<u8, Lodged>) -> Span
    requires { 0 < vec_capacity vec }
    ensures { (result.origin ≡ vec_ptr vec) × (result.len ≡ vec_capacity vec) }
{
    let _len = vec.dislodge();
    Span {}
}

/// The room of a block that is in no vector yet.
#[derive(Drop)]
pub(crate) struct Rest {
    origin: *mut u8,
    span: Span,
}

impl Model for Rest {
    ghost use Rattle.std.specs.Prelude.{◌≡◌};
    ghost use denote.RawPtr.{InBlock};
    ghost use Rattle.pm_region.specs.declared.memory.Span.{Span};

    ghost Value = { Span };

    ghost view = { λ r. r.span };

    ghost invariant = { λ r. (r.span.origin ≡ r.origin) × InBlock r.origin };
}

impl Rest {
    ghost use Rattle.pm_region.specs.Spans.{IsSpan};

    /// The room of a vector that has no bytes, and the vector without it.
    pub(crate) fn of(mut vec: Vec<u8>) -> (Rest, Shell)
        requires { (vec_len vec ≡ 0) × (0 < vec_capacity vec) }
        ensures room { IsSpan result.0 (vec_ptr vec) (vec_capacity vec) }
        ensures shell { result.1 ≡ hollow (vec_ptr vec) (vec_capacity vec) }
        ensures placed { InBlock (vec_ptr vec) }
    {
        let origin = vec.as_mut_ptr();
        let (span, shell) = open(vec);
        (Rest { origin, span }, shell)
    }

    /// A vector without bytes over the first `len` bytes' room, and the other room.
    pub(crate) fn take(self, len: usize) -> (Vec<u8, Lodged>, Rest)
        requires some { 0 < len }
        requires within { len ≤ self.len }
        requires small { len < 2 ^ 63 }
        ensures origin { (vec_ptr result.0 ≡ self.origin) × InBlock self.origin }
        ensures room { (vec_capacity result.0 ≡ len) × (vec_len result.0 ≡ 0) }
        ensures rest { IsSpan result.1 (self.origin +ₚ len) (self.len - len) }
    {
        let Rest { origin, span } = self;
        let (front, others) = span.cut(len);
        let following = unsafe { origin.byte_add(len) };
        let rest = Rest {
            origin: following,
            span: others,
        };
        (over(origin, len, front), rest)
    }
}
