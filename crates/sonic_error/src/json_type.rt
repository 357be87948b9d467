ghost use Rattle.std.specs.Prelude.{◌≡◌, ◌≤◌, ◌↔◌, IfSome, IsSome, Some};
ghost use Rattle.sonic_error.specs.Kinds.{number_of};
ghost use Rattle.sonic_error.specs.Texts.{note_text, found_text, wanted_text};

use std::fmt;

/// The six kinds of value that JSON has (RFC 8259, section 3).
#[derive(Clone, Copy, Debug, PartialEq, Eq)]
pub enum JsonType {
    Null = 0,
    Boolean = 1,
    Number = 2,
    String = 3,
    Object = 4,
    Array = 5,
}

impl JsonType {
    /// The kind that has this number, from `Null`, which is 0, to `Array`, which is 5.
    ///
    /// `JsonType::from_u8(3)` is `Some(JsonType::String)`, and `JsonType::from_u8(6)` is `None`.
    pub fn from_u8(value: u8) -> Option<JsonType>
        ensures known { IsSome result ↔ (value ≤ 5) }
        ensures kind { IfSome result (λ kind. number_of kind ≡ value) }
    {
        match value {
            0 => Some(JsonType::Null),
            1 => Some(JsonType::Boolean),
            2 => Some(JsonType::Number),
            3 => Some(JsonType::String),
            4 => Some(JsonType::Object),
            5 => Some(JsonType::Array),
            _ => None,
        }
    }

    /// The number of the kind, from 0 for `Null` to 5 for `Array`, which `from_u8` takes.
    ///
    /// `JsonType::Object.as_u8()` is 4, as `JsonType::Object as u8` is.
    pub fn as_u8(self) -> u8
        ensures { result ≡ number_of self }
    {
        self as u8
    }
}

/// What a caller wanted where it found a value of another kind.
#[derive(Clone, Copy, Debug, PartialEq, Eq)]
pub enum Wanted {
    Object,
    Array,
    Number,
}

/// Why valid JSON doesn't fit what was asked.
#[derive(Clone, Copy, Debug, PartialEq, Eq)]
pub enum Note {
    /// The value is of the kind `found`, and the caller wanted another.
    Mismatch { found: JsonType, wanted: Wanted },
    /// The schema to be filled is no object.
    SchemaNotObject,
}

impl fmt::Display for Note {
    ghost output = { λ note. Some (note_text note) };

    fn fmt<W: fmt::Write>(&self, f: &mut fmt::Formatter<W>) -> fmt::Result {
        match self {
            Note::Mismatch { found, wanted } => {
                let (found, wanted) = (found_word(*found), wanted_words(*wanted));
                write!(f, "invalid type: {found}, expected {wanted}")
            }
            Note::SchemaNotObject => f.write_str("The schema must be an object"),
        }
    }
}

// What a message calls the kind that was found.
fn found_word(kind: JsonType) -> &'static str
    ensures { result.now ≡ found_text kind }
{
    match kind {
        JsonType::Null => "null",
        JsonType::Boolean => "boolean",
        JsonType::Number => "number",
        JsonType::String => "string",
        JsonType::Object => "map",
        JsonType::Array => "sequence",
    }
}

// What a message calls the kind that was wanted.
fn wanted_words(wanted: Wanted) -> &'static str
    ensures { result.now ≡ wanted_text wanted }
{
    match wanted {
        Wanted::Object => "a JSON object",
        Wanted::Array => "a JSON array",
        Wanted::Number => "a JSON number",
    }
}
