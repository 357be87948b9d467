// What many paths find in an input that is known to begin with a value in UTF-8.
ghost use Rattle.std.specs.Prelude.{◌≡◌, Some, None, option_map, IfOk, IfErr, IfSome};
ghost use Rattle.sonic_error.specs.Errors.{IsPlainError};
ghost use Rattle.sonic_text.specs.Documents.{StartsWithUtf8Value};
ghost use Rattle.sonic_find.specs.Answers.{span_text};
ghost use Rattle.sonic_find.specs.Causes.{IsAnswerable, IsRefusal};
ghost use Rattle.sonic_find.specs.Parts.{IsPart, AreSpans};
ghost use Rattle.sonic_find.specs.Spans.{pair_of, pairs_of};
ghost use Rattle.sonic_lazy.specs.LazyValues.{raw_bytes};
ghost use Rattle.sonic_lazy.specs.Shown.{AreValues};
ghost use Rattle.sonic_lazy.specs.Internal.Shown.{HaveTexts};

use crate::lazyvalue::LazyValue;
use sonic_error::{Error, ErrorCode};
use sonic_find::internal::value_span;
use sonic_find::{Span, find_many_unchecked};
use sonic_input::JsonInput;
use sonic_pointer::PointerTree;
use std::alloc::{AllocError, Global};

// The lazy value in an input where the span of one was found.
fn value_of_span<'de, I: JsonInput<'de>>(json: I, span: Option<Span>) -> Option<LazyValue<'de>>
    requires { IfSome span (λ s. IsPart (I.JsonInput.content json) s.start s.end) }
    ensures { option_map raw_bytes result
        ≡ option_map (span_text (I.JsonInput.content json)) (option_map pair_of span) }
{
    match span {
        Some(span) => Some(LazyValue::at(json, value_span(json.to_u8_slice(), span))),
        None => None,
    }
}

// The lazy values of the spans, in their order.
fn values<'de, I: JsonInput<'de>>(
    alloc: Global,
    json: I,
    spans: &[Option<Span>],
) -> Result<Vec<Option<LazyValue<'de>>>, AllocError>
    requires { AreSpans (I.JsonInput.content json) spans.now }
    ensures { IfOk result (λ values.
        HaveTexts (I.JsonInput.content json) values.items (pairs_of spans.now)) }
{
    let mut values = Vec::with_capacity(alloc, spans.len())?;
    for span in spans {
        values.push(value_of_span(json, *span))?;
    }
    Ok(values)
}

/// What the paths of a tree lead to, in the order in which they were added, in an input that
/// begins with a value in UTF-8.
///
/// It is what [`get_many`](crate::get_many) answers, found as [`find_many_unchecked`] finds it:
/// memory is taken for the answer alone. What follows the input's value may be anything.
///
/// With the paths `["a"]`, `["b"]` and `["c", 1]` over `{"a":1,"c":[2,3]}]` it is the values `1`,
/// none and `3`.
#[tactic(auto, using(crate::proofs::ShownLemmas::answers))]
pub fn get_many_unchecked<'de, I: JsonInput<'de>>(
    alloc: Global,
    json: I,
    tree: &PointerTree,
) -> Result<Vec<Option<LazyValue<'de>>>, Error>
    requires { StartsWithUtf8Value (I.JsonInput.content json) }
    ensures ok { IfOk result (λ values.
        AreValues (I.JsonInput.content json) I.JsonInput.is_bytes tree.now values.items) }
    ensures err { IfErr result (λ error. IsRefusal (I.JsonInput.content json) I.JsonInput.is_bytes
        tree.now error) }
    ensures complete { IsAnswerable (I.JsonInput.content json) I.JsonInput.is_bytes tree.now
        → IfErr result (λ error. IsPlainError error ErrorCode.NoMemory) }
{
    let Ok(mut spans) = vec![in alloc; None; tree.size()] else {
        return Err(Error::plain(ErrorCode::NoMemory));
    };
    find_many_unchecked(json, tree, &mut spans)?;
    match values(alloc, json, &spans) {
        Ok(values) => Ok(values),
        Err(_) => Err(Error::plain(ErrorCode::NoMemory)),
    }
}
