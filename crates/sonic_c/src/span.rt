// The spans that a caller is told.
ghost use Rattle.std.specs.Prelude.{◌≡◌, length, map, option_map};
ghost use Rattle.sonic_find.specs.Spans.{pairs_of, pair_of};
ghost use Rattle.sonic_c.specs.Told.{shown_span};

use sonic_parser::ValueSpan;

/// Where a value is in the text, from its first byte to after its last, as indexes from 0, or twice
/// 0 for a path that lacks its key.
#[repr(C)]
#[derive(Clone, Copy)]
pub struct Span {
    /// The index of the first byte.
    pub start: usize,
    /// The index after the last byte.
    pub end: usize,
}

impl Span {
    // A span as a caller sees it.
    pub(crate) fn of(span: sonic_find::Span) -> Span
        ensures start { result.start ≡ span.start }
        ensures end { result.end ≡ span.end }
    {
        Span {
            start: span.start,
            end: span.end,
        }
    }

    // The span of a value that was passed, or of a key.
    pub(crate) fn of_value(value: ValueSpan) -> Span
        ensures { result ≡ record { start = value.start; end = value.end } }
    {
        Span {
            start: value.start,
            end: value.end,
        }
    }
}

// An entry as a caller sees it.
pub(crate) fn shown(entry: Option<sonic_find::Span>) -> Span
    ensures { result ≡ shown_span (option_map pair_of entry) }
{
    match entry {
        Some(span) => Span::of(span),
        None => Span { start: 0, end: 0 },
    }
}

// Writes the entries to the caller's array.
pub(crate) fn fill_spans(spans: &mut [Span], entries: &[Option<sonic_find::Span>])
    requires { length entries.now ≡ length spans.old }
    ensures { spans.new ≡ map shown_span (pairs_of entries.now) }
{
    for (i, entry) in entries.iter().enumerate() {
        spans[i] = shown(*entry);
    }
}
