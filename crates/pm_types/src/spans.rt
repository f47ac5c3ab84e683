//! Rising ranges of a page's bytes, with a gap between each two.

ghost use Rattle.std.specs.Prelude.{◌≡◌, ℕ, ◌+◌, ◌*◌, ◌<◌, ◌≤◌, ◌⊎◌, length, take, min, max};
ghost use Rattle.pm_types.specs.Spans.{IsInSpan, IsInSpans, RiseFrom, byte_count, Lists};

/// A range of a page's bytes: from `start` on, below `end`.
#[derive(Clone, Copy, Debug)]
pub struct Span {
    pub start: u16,
    pub end: u16,
}

/// Puts rising ranges among the first `count`, and gives the number of ranges then.
pub fn add_spans(spans: &mut [Span], count: usize, added: &[Span]) -> usize
    requires room { count + length added.now ≤ length spans.old }
    requires rise { RiseFrom 0 (take count spans.old) }
    requires some { RiseFrom 0 added.now }
    ensures lists { Lists (take result spans.new)
        (λ k. IsInSpans (take count spans.old) k ⊎ IsInSpans added.now k) }
    ensures as_many_more_at_most { result ≤ count + length added.now }
{
    let mut number = count;
    'each: for span in added {
        number = add_span(spans, number, *span);
    }
    number
}

/// Puts a range among the first `count`, and gives their number then. Ranges that it meets become one with it.
pub fn add_span(spans: &mut [Span], count: usize, added: Span) -> usize
    requires room { count < length spans.old }
    requires rise { RiseFrom 0 (take count spans.old) }
    requires some { added.start < added.end }
    ensures lists { Lists (take result spans.new)
        (λ k. IsInSpans (take count spans.old) k ⊎ IsInSpan added k) }
    ensures one_more_at_most { result ≤ count + 1 }
{
    // What isn't placed yet: the range, with those that it met; once that is placed, the range after it.
    let mut carried = added;
    let mut placed = 0;
    'each: for i in 0..count {
        let span = spans[i];
        if span.end < carried.start {
            spans[placed] = span;
            placed += 1;
        } else if carried.end < span.start {
            spans[placed] = carried;
            placed += 1;
            carried = span;
        } else {
            carried = hull(carried, span);
        }
    }
    spans[placed] = carried;
    placed + 1
}

// From where the first of the two begins to where the last ends.
fn hull(a: Span, b: Span) -> Span
    ensures start { result.start ≡ min a.start b.start }
    ensures end { result.end ≡ max a.end b.end }
{
    Span {
        start: a.start.min(b.start),
        end: a.end.max(b.end),
    }
}

/// How many bytes the ranges have.
pub fn byte_count(spans: &[Span]) -> u32
    requires { length spans.now < 65536 }
    ensures bytes { result ≡ byte_count spans.now }
    ensures small { result ≤ 65535 * length spans.now }
{
    let mut bytes = 0;
    'each: for span in spans {
        bytes += u32::from(span.end.saturating_sub(span.start));
    }
    bytes
}
