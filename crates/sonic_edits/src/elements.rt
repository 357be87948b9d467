// The elements of the array that a line is.
ghost use Rattle.std.specs.Prelude.{◌≡◌, ◌<◌, ℕ, List, None, IfOk, IfSome, length, map, false};
ghost use Rattle.sonic_edits.specs.Lines.{AreElementTexts};
ghost use Rattle.sonic_edits.specs.Internal.Reading.{HasElements};
ghost use Rattle.sonic_lazy.specs.Iterators.{iterator_over};
ghost use Rattle.sonic_lazy.specs.LazyValues.{raw_bytes};
ghost use Rattle.sonic_text.specs.declared.kind.Kind.TheVariants.{Array};

use sonic_error::ErrorCode;
use sonic_lazy::{ArrayJsonIter, LazyValue, from_str};
use std::alloc::{AllocError, Global};

// The most elements that an edit line has.
const MAX_ELEMENTS: usize = 4;

// The elements of the array that a text is, with white space around it, if they are at most
// `MAX_ELEMENTS`.
pub(crate) fn few_elements<'de>(
    alloc: Global,
    text: &'de str,
) -> Result<Option<Vec<LazyValue<'de>>>, AllocError>
    ensures some { IfOk result (λ found. IfSome found (λ elements.
        HasElements text.now (map raw_bytes elements.items))) }
    ensures none { IfOk result (λ found. found ≡ None
        → (texts : List (List ℕ)) → HasElements text.now texts → 4 < length texts) }
{
    match from_str(alloc, text) {
        Ok(value) => match value.into_array_iter() {
            Some(array) => first_elements(alloc, array),
            None => Ok(None),
        },
        Err(error) => match error.code() {
            ErrorCode::NoMemory => Err(AllocError),
            _ => Ok(None),
        },
    }
}

// The elements of an array, which begins a text that is known to be a value, if they are at most
// `MAX_ELEMENTS`. So only memory can stop the iterator.
fn first_elements<'de>(
    alloc: Global,
    mut array: ArrayJsonIter<'de>,
) -> Result<Option<Vec<LazyValue<'de>>>, AllocError>
    requires { array ≡ iterator_over Array array.text false false }
    ensures some { IfOk result (λ found. IfSome found (λ elements.
        AreElementTexts array.entry.text (map raw_bytes elements.items))) }
    ensures none { IfOk result (λ found. found ≡ None
        → (texts : List (List ℕ)) → AreElementTexts array.entry.text texts → 4 < length texts) }
{
    let mut elements = Vec::new(alloc);
    'elements: while let Some(element) = array.next() {
        let Ok(element) = element else {
            return Err(AllocError);
        };
        if elements.len() == MAX_ELEMENTS {
            return Ok(None);
        }
        elements.push(element)?;
    }
    Ok(Some(elements))
}
