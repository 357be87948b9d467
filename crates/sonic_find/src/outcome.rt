// Where a path leads.
ghost use Rattle.std.specs.Prelude.{◌≡◌, ◌↔◌, IsTrue};
ghost use Rattle.sonic_find.specs.Absence.{IsAbsence, IsAbsent};
ghost use Rattle.sonic_find.specs.Found.{found_in};

use sonic_error::{ErrorCode, JsonType, Note};
use sonic_text::Stop;

/// Where one path leads in a text, whatever others lead to.
///
/// Over `{"a":[1],"b":null}` with spans, `["a", 0]` is `Found` from 6 to 7, `["z"]` is `Missing` at 17, and
/// `["b", "c"]` `Fails` at 16, the last byte of `null`.
#[derive(Clone, Copy, Debug, PartialEq, Eq, Drop)]
pub enum PathOutcome<V> {
    /// It leads to a value.
    Found(V),
    /// An object lacks its key: the place of the closing brace.
    Missing(usize),
    /// It leads nowhere: why, and at which place.
    Fails(Stop),
}

impl<V> PathOutcome<V> {
    /// The outcome of a path of which nothing is known yet.
    pub fn none() -> PathOutcome<V>
        ensures { result ≡ PathOutcome.Missing 0 }
    {
        PathOutcome::Missing(0)
    }

    /// The value, if the path leads to one.
    ///
    /// Of `Found(7)` it is `Some(7)`, and of `Missing(1)` `None`.
    pub fn found(self) -> Option<V>
        ensures { result ≡ found_in self }
    {
        match self {
            PathOutcome::Found(value) => Some(value),
            PathOutcome::Missing(_) | PathOutcome::Fails(_) => None,
        }
    }

    /// Whether the text has no such value: an object lacks the key, an array has no such item, or the path
    /// leads below a `null`. It is no such case where a value is of another type than the path asks for.
    ///
    /// With the path `["http", "status"]` it is `true` over `{}`, `{"http":{}}` and `{"http":null}`, and `false`
    /// over `{"http":{"status":null}}` and `{"http":200}`.
    pub fn is_absent(&self) -> bool
        ensures { IsTrue result ↔ IsAbsent self.now }
    {
        match self {
            PathOutcome::Found(_) => false,
            PathOutcome::Missing(_) => true,
            PathOutcome::Fails(stop) => lacks(stop.code),
        }
    }
}

// Whether the code tells that an array has no such item, or that a `null` is where a container is wanted.
fn lacks(code: ErrorCode) -> bool
    ensures { IsTrue result ↔ IsAbsence code }
{
    match code {
        ErrorCode::GetInEmptyArray | ErrorCode::GetIndexOutOfArray => true,
        ErrorCode::Message(note) => finds_null(note),
        _ => false,
    }
}

// Whether a `null` was found.
fn finds_null(note: Note) -> bool
    ensures { IsTrue result ↔ IsAbsence (ErrorCode.Message note) }
{
    match note {
        Note::Mismatch { found, .. } => match found {
            JsonType::Null => true,
            _ => false,
        },
        Note::SchemaNotObject => false,
    }
}
