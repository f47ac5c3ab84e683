//! What changed of a page.

ghost use Rattle.std.specs.Prelude.{◌≡◌, ℕ, ◌+◌, ◌<◌, ◌≤◌, ◌↔◌, Some, false, IsTrue, length, slice_get, take};
ghost use Rattle.pm_types.specs.PageSizes.{IsPageSize};
ghost use Rattle.pm_types.specs.Spans.{IsInSpan, span_of, IsInSpans, RiseFrom, AreMany, no_coverage};
ghost use Rattle.pm_types.specs.Spans.{Covers, AlsoCovers, IsPatch};

use crate::limits::PATCH_SPANS_MAX;
use crate::spans::{Span, add_span, add_spans, byte_count};
use std::marker::Model;

// Two patches together have at most so many ranges.
const UNION_SPANS_MAX: usize = 16;

/// Which bytes of a page changed: up to eight rising ranges, or the page as a whole.
///
/// Ranges that meet or overlap are one. A patch becomes the whole page exactly where its bytes would take nine
/// ranges or more than half the page, and then stays so.
#[derive(Debug, Drop)]
pub struct Patch {
    page_size: u32,
    whole: bool,
    count: u8,
    spans: [Span; PATCH_SPANS_MAX],
}

impl Model for Patch {
    ghost use Rattle.std.specs.Prelude.{◌≡◌, length};
    ghost use Rattle.pm_types.specs.Spans.{Coverage, coverage, IsPatch};

    ghost Value = { Coverage };

    ghost view = { λ p. coverage p.page_size p.whole p.count p.spans };

    ghost invariant = { λ p. let seen = coverage p.page_size p.whole p.count p.spans in
        (p.count ≡ length seen.spans) × IsPatch seen };
}

impl Patch {
    /// A patch that covers nothing of a page of this size, in bytes.
    pub fn none(page_size: u32) -> Patch
        requires { IsPageSize page_size }
        ensures { result ≡ no_coverage page_size }
    {
        Patch {
            page_size,
            whole: false,
            count: 0,
            spans: [Span { start: 0, end: 0 }; PATCH_SPANS_MAX],
        }
    }

    /// The same patch once more.
    pub fn copy(&self) -> Patch
        ensures { result ≡ self.now }
    {
        Patch {
            page_size: self.page_size,
            whole: self.whole,
            count: self.count,
            spans: self.spans,
        }
    }

    /// Covers the `len` bytes from offset `at` on besides what is covered. With a length of 0 nothing changes.
    pub fn add(&mut self, at: u16, len: u16)
        requires { at + len ≤ self.old.page_size }
        ensures { AlsoCovers self.old self.new (IsInSpan (span_of at len)) }
    {
        if len == 0 || self.whole {
            return;
        }
        let mut spans = with_room(&self.spans[..self.count as usize]);
        let end = at + len;
        let count = add_span(&mut spans, self.count as usize, Span { start: at, end });
        *self = settled(self.page_size, &spans[..count]);
    }

    /// Covers besides what the other patch covers.
    pub fn join(&mut self, other: &Patch)
        requires { other.now.page_size ≡ self.old.page_size }
        ensures { AlsoCovers self.old self.new (Covers other.now) }
    {
        if other.whole || self.whole {
            self.whole = true;
            self.count = 0;
            return;
        }
        let mut spans = with_room(&self.spans[..self.count as usize]);
        let added = &other.spans[..other.count as usize];
        let count = add_spans(&mut spans, self.count as usize, added);
        *self = settled(self.page_size, &spans[..count]);
    }

    /// The number of ranges of a patch that isn't the whole page; of one that is, 0.
    pub fn len(&self) -> u8
        ensures number { result ≡ length self.now.spans }
        ensures patch { IsPatch self.now }
    {
        self.count
    }

    /// Where range i begins, and how many bytes it has.
    pub fn range(&self, i: u8) -> (u16, u16)
        requires { i < length self.now.spans }
        ensures range { slice_get self.now.spans i ≡ Some (span_of result.0 result.1) }
        ensures some { 1 ≤ result.1 }
        ensures within { result.0 + result.1 ≤ self.now.page_size }
    {
        let span = self.spans[i as usize];
        (span.start, span.end - span.start)
    }

    /// Whether the patch is the whole page.
    pub fn is_whole(&self) -> bool
        ensures { result ≡ self.now.whole }
    {
        self.whole
    }
}

// These ranges, with room for those of another patch after them.
fn with_room(spans: &[Span]) -> [Span; UNION_SPANS_MAX]
    requires { length spans.now ≤ UNION_SPANS_MAX }
    ensures { take (length spans.now) result ≡ spans.now }
{
    let mut room = [Span { start: 0, end: 0 }; UNION_SPANS_MAX];
    room[..spans.len()].copy_from_slice(spans);
    room
}

// The patch of these ranges, or of the whole page where they are too many.
fn settled(page_size: u32, spans: &[Span]) -> Patch
    requires size { IsPageSize page_size }
    requires rise { RiseFrom 0 spans.now }
    requires within { (k : ℕ) → IsInSpans spans.now k → k < page_size }
    requires few { length spans.now ≤ UNION_SPANS_MAX }
    ensures size { result.page_size ≡ page_size }
    ensures whole { IsTrue result.whole ↔ AreMany page_size spans.now }
    ensures spans { result.whole ≡ false → result.spans ≡ spans.now }
{
    let mut kept = [Span { start: 0, end: 0 }; PATCH_SPANS_MAX];
    if spans.len() > PATCH_SPANS_MAX || 2 * byte_count(spans) > page_size {
        return Patch {
            page_size,
            whole: true,
            count: 0,
            spans: kept,
        };
    }
    kept[..spans.len()].copy_from_slice(spans);
    Patch {
        page_size,
        whole: false,
        count: spans.len() as u8,
        spans: kept,
    }
}
