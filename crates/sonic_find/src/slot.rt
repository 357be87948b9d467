// The slot of a path, which is filled with where it leads.
ghost use Rattle.std.specs.Prelude.{◌≡◌, Bool, true, false};
ghost use Rattle.sonic_find.specs.Internal.Fill.{told_by_span};
ghost use Rattle.sonic_find.specs.Internal.Walk.{slot_of};
ghost use Rattle.sonic_find.specs.Paths.{lacks, fails};
ghost use Rattle.sonic_find.specs.declared.outcome.PathOutcome.{PathOutcome as Told};
ghost use Rattle.sonic_find.specs.declared.span.Span.{Span as Pair};

use crate::outcome::PathOutcome;
use crate::span::Span;
use sonic_text::Stop;

// What a slot holds: the span of a value, and where there is none, why, or not.
pub(crate) trait Slot: Copy {
    // What it tells.
    ghost told: { Self → Told Pair };

    // It tells why there is no value.
    ghost tells: { Bool };

    // The path leads to a value.
    fn found(span: Span) -> Self
        ensures { told result ≡ PathOutcome.Found span };

    // An object, whose closing brace is at this place, lacks its key.
    fn missing(brace: usize) -> Self
        ensures { told result ≡ slot_of tells (lacks brace) };

    // It leads nowhere.
    fn fails(stop: Stop) -> Self
        ensures { told result ≡ slot_of tells (fails stop) };
}

impl Slot for Option<Span> {
    ghost told = { told_by_span };

    ghost tells = { false };

    fn found(span: Span) -> Option<Span> {
        Some(span)
    }

    fn missing(_brace: usize) -> Option<Span> {
        None
    }

    fn fails(_stop: Stop) -> Option<Span> {
        None
    }
}

impl Slot for PathOutcome<Span> {
    ghost told = { λ slot. slot };

    ghost tells = { true };

    fn found(span: Span) -> PathOutcome<Span> {
        PathOutcome::Found(span)
    }

    fn missing(brace: usize) -> PathOutcome<Span> {
        PathOutcome::Missing(brace)
    }

    fn fails(stop: Stop) -> PathOutcome<Span> {
        PathOutcome::Fails(stop)
    }
}
