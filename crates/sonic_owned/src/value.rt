// Values, and the levels that they open to.
ghost use Rattle.std.specs.Prelude.{◌≡◌, false, IfOk, IfErr};
ghost use Rattle.sonic_error.specs.Errors.{IsPlainError};
ghost use Rattle.sonic_find.specs.Documents.{IsDocumentValue, IsInvalidError, IsValidDocument};
ghost use Rattle.sonic_lazy.specs.LazyValues.{raw_bytes};
ghost use Rattle.sonic_owned.specs.Forms.{raw};
ghost use Rattle.sonic_owned.specs.Owned.{IsRawDocument};
ghost use Rattle.sonic_owned.specs.Views.{form};
ghost use Rattle.sonic_text.specs.Quoting.{quoted};

use crate::integer::Integer;
use crate::made::MadeText;
use crate::raw::RawValue;
use sonic_error::{ErrorCode, Result};
use sonic_input::FastStr;
use sonic_lazy::LazyValue;
use std::alloc::Global;

// Values that are taken apart.
mod apart;
// Values that are taken and changed.
mod change;
// Values that are made of scalars and levels.
mod convert;
// Copies.
mod copy;
// What a value is.
mod kind;
// Parts that are lent.
mod lend;
// Levels that are lent.
mod lend_level;
// The levels that are opened.
mod level;
// The first level opened.
mod load;
// What a path leads to.
mod pointer;
// The value to which a path leads, changed where it is.
mod reach;
// The text.
mod show;
// What of a text is still to be written.
mod unwritten;

pub(crate) use lend::Opens;

/// A JSON value that owns its text, and is opened a level at a time.
///
/// What was never opened keeps its text, byte for byte. A level that is opened is an array or an
/// object of such values, and is written anew, without white space.
///
/// ```text
/// let value = OwnedLazyValue::from_str(alloc, " {\"a\": [1, 2]} ")?;
/// assert_eq!(rt; &value.to_string(alloc)?[..], "{\"a\": [1, 2]}");
/// ```
#[cycle(owned)]
#[derive(Drop)]
pub struct OwnedLazyValue {
    node: Node,
}

// What a value is kept as.
#[cycle(owned)]
enum Node {
    Null,
    Bool(bool),
    Integer(Integer),
    Text(MadeText),
    Raw(RawValue),
    Array(LazyArray),
    Object(LazyObject),
}

// A loop that takes no memory, so that no value is too deep for it.
impl Drop for Node {
    fn drop(mut self) {
        'values: loop {
            let rest = match self {
                Node::Null => None,
                Node::Bool(_) => None,
                Node::Integer(_) => None,
                Node::Text(_) => None,
                Node::Raw(_) => None,
                Node::Array(LazyArray { elements }) => Node::array_shrunk(elements),
                Node::Object(LazyObject { members }) => Node::object_shrunk(members),
            };
            match rest {
                Some(rest) => self = rest,
                None => return,
            }
        }
    }
}

/// An array that is opened: its elements, in order.
#[cycle(owned)]
#[derive(Drop)]
pub struct LazyArray {
    elements: Vec<OwnedLazyValue>,
}

/// An object that is opened: its members, in order, with keys that may be repeated.
#[cycle(owned)]
#[derive(Drop)]
pub struct LazyObject {
    members: Vec<(MadeText, OwnedLazyValue)>,
}

impl OwnedLazyValue {
    /// The value whose text a lazy value is.
    ///
    /// The text is copied, or shared where the lazy value is a part of shared bytes. The only error
    /// is `ErrorCode::NoMemory`.
    pub fn from_lazy(alloc: Global, value: &LazyValue<'_>) -> Result<OwnedLazyValue>
        ensures ok { IfOk result (λ made. form made ≡ raw (raw_bytes value.now)) }
        ensures err { IfErr result (λ error. IsPlainError error ErrorCode.NoMemory) }
    {
        let has_escaped = value.has_escaped();
        match value.as_raw_faststr(alloc) {
            Ok(text) => Ok(OwnedLazyValue {
                node: Node::Raw(RawValue { text, has_escaped }),
            }),
            Err(error) => Err(error),
        }
    }

    /// The value that a text is, with nothing but white space round it (RFC 8259, section 2).
    ///
    /// Else the error is the first of these: the fault of the value, and
    /// `ErrorCode::TrailingCharacters` at the first byte after it that is no white space. Running
    /// out of memory is `ErrorCode::NoMemory` without a place.
    ///
    /// Of `{"a":1.}` the error is `ErrorCode::InvalidNumber` with the offset 7.
    pub fn from_str(alloc: Global, json: &str) -> Result<OwnedLazyValue>
        ensures ok { IfOk result (λ made. IsRawDocument json.now (form made)) }
        ensures err { IfErr result (IsInvalidError json.now false) }
        ensures complete { IsValidDocument json.now
            → IfErr result (λ error. IsPlainError error ErrorCode.NoMemory) }
    {
        match sonic_lazy::from_str(alloc, json) {
            Ok(value) => OwnedLazyValue::from_lazy(alloc, &value),
            Err(error) => Err(error),
        }
    }

    /// The string that denotes a text.
    ///
    /// Of the text `a"b` the value's own text is `"a\"b"`.
    pub fn from_text(text: FastStr) -> OwnedLazyValue
        ensures { form result ≡ raw (quoted text) }
    {
        OwnedLazyValue {
            node: Node::Text(MadeText { text }),
        }
    }
}
