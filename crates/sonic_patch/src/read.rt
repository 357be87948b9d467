// A patch, and how it is read.
ghost use Rattle.std.specs.Prelude.{◌≡◌, ◌↔◌, [], false, length, IfOk, IfErr, IsTrue};
ghost use Rattle.sonic_lazy.specs.Iterators.{iterator_over};
ghost use Rattle.sonic_lazy.specs.LazyValues.{raw_bytes};
ghost use Rattle.sonic_owned.specs.Forms.{raw};
ghost use Rattle.sonic_owned.specs.Views.{form};
ghost use Rattle.sonic_patch.specs.Internal.Elements.{IsElementError, IsFaultOf, IsFaultIn, SaysOperations};
ghost use Rattle.sonic_patch.specs.Internal.Texts.{texts_of, AreRead, Makes};
ghost use Rattle.sonic_patch.specs.Pointers.{SaysFewTokens};
ghost use Rattle.sonic_patch.specs.Reading.{IsOperation, SaysPatch, IsNoPatch};
ghost use Rattle.sonic_patch.specs.Views.{operation_of, operations_of};
ghost use Rattle.sonic_text.specs.Documents.{StartsWithUtf8Value};
ghost use Rattle.sonic_text.specs.declared.kind.Kind.TheVariants.{Array};

use crate::error::PatchError;
use crate::operation::Operation;
use crate::parts::{Parts, parts_of};
use crate::pointer::{Fit, Pointer};
use sonic_error::ErrorCode;
use sonic_lazy::{ArrayJsonIter, LazyValue, from_str};
use sonic_owned::OwnedLazyValue;
use std::alloc::{AllocError, Global};

/// The operations of a patch, in order, as [`read_patch`] reads them.
#[derive(Drop)]
pub struct Patch {
    pub(crate) operations: Vec<Operation>,
}

impl Patch {
    /// The number of operations.
    ///
    /// Of `[{"op":"remove","path":"/a"}]` it is 1.
    pub fn len(&self) -> usize
        ensures { result ≡ length (operations_of self.now) }
    {
        self.operations.len()
    }

    /// Whether there is no operation, as in `[]`.
    pub fn is_empty(&self) -> bool
        ensures { IsTrue result ↔ (operations_of self.now ≡ []) }
    {
        self.operations.is_empty()
    }
}

// The value with its text as it is.
fn kept(alloc: Global, value: &LazyValue<'_>) -> Result<OwnedLazyValue, AllocError>
    ensures { IfOk result (λ made. form made ≡ raw (raw_bytes value.now)) }
{
    match OwnedLazyValue::from_lazy(alloc, value) {
        Ok(made) => Ok(made),
        Err(_) => Err(AllocError),
    }
}

// The operation that parts are, whose pointers fit.
fn made(alloc: Global, parts: &Parts<'_>) -> Result<Operation, AllocError>
    requires { AreRead SaysFewTokens (texts_of parts.now) }
    ensures { IfOk result (λ op. Makes SaysFewTokens (texts_of parts.now) (operation_of op)) }
{
    match parts {
        Parts::Remove(path) => {
            let path = Pointer::read(alloc, path.as_str())?;
            Ok(Operation::Remove(path))
        }
        Parts::Valued(word, path, value) => {
            let path = Pointer::read(alloc, path.as_str())?;
            let value = kept(alloc, value)?;
            Ok(Operation::valued(*word, path, value))
        }
        Parts::Paired(word, from, path) => {
            let from = Pointer::read(alloc, from.as_str())?;
            let path = Pointer::read(alloc, path.as_str())?;
            Ok(Operation::paired(*word, from, path))
        }
    }
}

// The operation with this number, which an element is.
fn read_operation(
    alloc: Global,
    op: usize,
    element: &LazyValue<'_>,
) -> Result<Operation, PatchError>
    ensures ok { IfOk result (λ made.
        IsOperation SaysFewTokens (raw_bytes element.now) (operation_of made)) }
    ensures err { IfErr result (IsElementError (IsFaultOf op (raw_bytes element.now))) }
{
    let Some(parts) = parts_of(alloc, element)? else {
        return Err(PatchError::Shape { op });
    };
    match parts.fit() {
        Fit::Fits => Ok(made(alloc, &parts)?),
        Fit::TooLong => Err(PatchError::TooLong { op }),
        Fit::Bad => Err(PatchError::Pointer { op }),
    }
}

// The operations that the elements of an array are. The array begins a text that is known to be a
// value, so only memory can stop the iterator.
fn read_elements(alloc: Global, mut elements: ArrayJsonIter<'_>) -> Result<Patch, PatchError>
    requires fresh { elements ≡ iterator_over Array elements.text false false }
    requires starts { StartsWithUtf8Value elements.text }
    ensures ok { IfOk result (λ patch. SaysOperations elements.entry.text (operations_of patch)) }
    ensures err { IfErr result (IsElementError (IsFaultIn elements.entry.text)) }
{
    let mut operations = Vec::new(alloc);
    'elements: while let Some(element) = elements.next() {
        let Ok(element) = element else {
            return Err(PatchError::NoMemory);
        };
        let operation = read_operation(alloc, operations.len(), &element)?;
        let Ok(()) = operations.push(operation) else {
            return Err(PatchError::NoMemory);
        };
    }
    Ok(Patch { operations })
}

/// Reads a patch (RFC 6902): a JSON text that is an array of operations.
///
/// An operation is an object. Its `op` is `add`, `remove`, `replace`, `move`, `copy` or `test`, and
/// its `path` a pointer. `add`, `replace` and `test` have a `value` too, and `move` and `copy` a
/// pointer `from`. The first member with a key counts, and other members are passed over. A pointer
/// (RFC 6901) has at most 255 tokens, and a value keeps its text.
///
/// Else the error is the first of these. `PatchError::Json`: the text is no document, for the reason
/// that `sonic_find::validate` tells. `PatchError::NotArray`: it is no array. And for the first
/// element that is no operation: `PatchError::Shape`, where a member that is needed is missing or of
/// another kind; `PatchError::Pointer`, where `path` or a `from` that is needed is no pointer; and
/// `PatchError::TooLong`, where one of them has more than 255 tokens. Running out of memory is
/// `PatchError::NoMemory`. A pointer that is refused takes none, unless its string has a backslash.
///
/// So `[{"op":"test","path":"/a~1b","value":1.0}]` is one operation, and the one token of its pointer
/// is `a/b`.
pub fn read_patch(alloc: Global, json: &str) -> Result<Patch, PatchError>
    ensures ok { IfOk result (λ patch. SaysPatch json.now (operations_of patch)) }
    ensures err { IfErr result (IsNoPatch json.now) }
{
    match from_str(alloc, json) {
        Ok(value) => match value.into_array_iter() {
            Some(elements) => read_elements(alloc, elements),
            None => Err(PatchError::NotArray),
        },
        Err(error) => match error.code() {
            ErrorCode::NoMemory => Err(PatchError::NoMemory),
            _ => Err(PatchError::Json(error)),
        },
    }
}
