// Where paths lead, as a caller is told it.
ghost use Rattle.std.specs.Prelude.{◌≡◌, length, map};
ghost use Rattle.sonic_c.specs.Each.{told_outcome};

use crate::code::number;
use crate::span::Span;
use sonic_find::PathOutcome;

/// Where one path leads.
#[repr(C)]
#[derive(Clone, Copy)]
pub struct Outcome {
    /// 0 where it leads to a value, 1 where an object lacks its key, and 2 where it fails.
    pub status: u32,
    /// The number of the code of a path that fails, and else 0.
    pub code: u32,
    /// Where the value is, or twice 0.
    pub span: Span,
    /// The index of the closing brace of the object that lacks the key, or of the byte at which the path
    /// fails, or else 0.
    pub place: usize,
}

impl Outcome {
    // An outcome as a caller sees it.
    pub(crate) fn of(outcome: PathOutcome<sonic_find::Span>) -> Outcome
        ensures { result ≡ told_outcome outcome }
    {
        let none = Span { start: 0, end: 0 };
        let (status, code, span, place) = match outcome {
            PathOutcome::Found(span) => (0, 0, Span::of(span), 0),
            PathOutcome::Missing(brace) => (1, 0, none, brace),
            PathOutcome::Fails(stop) => (2, number(stop.code), none, stop.place),
        };
        Outcome {
            status,
            code,
            span,
            place,
        }
    }
}

// Writes outcomes to the caller's array.
pub(crate) fn fill_outcomes(outcomes: &mut [Outcome], told: &[PathOutcome<sonic_find::Span>])
    requires { length told.now ≡ length outcomes.old }
    ensures { outcomes.new ≡ map told_outcome told.now }
{
    for (i, outcome) in told.iter().enumerate() {
        outcomes[i] = Outcome::of(*outcome);
    }
}
