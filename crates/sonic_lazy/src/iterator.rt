// Iterators over the items of a container.
ghost use Rattle.std.specs.Prelude.{◌≡◌, true, false};
ghost use Rattle.sonic_text.specs.Documents.{StartsWithUtf8Value};
ghost use Rattle.sonic_text.specs.declared.kind.Kind.{Kind};
ghost use Rattle.sonic_lazy.specs.Iterators.{iterator_over};

use crate::items::Found;
use crate::iteration::Items;
use crate::lazyvalue::LazyValue;
use crate::value_trait::JsonValueTrait;
use sonic_error::{ErrorCode, Result};
use sonic_input::JsonInput;
use sonic_parser::ValueSpan;
use sonic_text::Kind;
use std::alloc::Global;
use std::borrow::CowStr;
use std::marker::Model;

/// An iterator over the members of an object, each with its key as text.
///
/// What it has not come to isn't read, and after the closing brace nothing is. The makers say what
/// it looks at: [`to_object_iter`], [`to_object_iter_unchecked`] and
/// [`LazyValue::into_object_iter`].
///
/// ```text
/// let mut members = to_object_iter(alloc, r#"{"a": null, "b": [1]}"#);
/// while let Some(member) = members.next() {
///     let (key, value) = member?;
/// }
/// ```
#[derive(Drop)]
pub struct ObjectJsonIter<'de> {
    alloc: Global,
    items: Items<'de>,
}

impl<'de> Model for ObjectJsonIter<'de> {
    ghost use Rattle.std.specs.Prelude.{◌≡◌};
    ghost use Rattle.sonic_text.specs.declared.kind.Kind.{Kind};
    ghost use Rattle.sonic_lazy.specs.Iterators.{IteratorState};

    ghost Value = { IteratorState };

    ghost view = { λ members. members.items };

    ghost invariant = { λ members. members.items.kind ≡ Kind.Object };
}

impl<'de> ObjectJsonIter<'de> {
    ghost use Rattle.std.specs.Prelude.{◌≡◌, true, slice_range, IfSome, IfOk, IfErr, OnOk, OnErr};
    ghost use Rattle.sonic_error.specs.Errors.{IsPlainError};
    ghost use Rattle.sonic_text.specs.Strings.{IsEscapedString};
    ghost use Rattle.sonic_lazy.specs.Internal.Items.{IsKeyOf, IsKeyText};
    ghost use Rattle.sonic_parser.specs.ValueSpans.{FlagsEscape};
    ghost use Rattle.sonic_lazy.specs.Iterators.{IsHonestNext, IsNext, ShowsMember};
    ghost use Rattle.sonic_lazy.specs.LazyValues.{raw_bytes};
    ghost use Rattle.sonic_find.specs.Parts.{IsPart};

    /// The next member: what its key denotes, and its value. `None` after the last, and for ever.
    ///
    /// The key is borrowed from the input exactly where it has no backslash. After an error every
    /// call gives `None`. The errors are the object's: `ErrorCode::ExpectedObjectStart` where none
    /// begins, `ErrorCode::ExpectedObjectCommaOrEnd` after its brace and after a member, and
    /// `ErrorCode::ExpectObjectKeyOrEnd` after a comma, at the end of the input too; else the fault of
    /// the key, the colon or the value. Running out of memory is `ErrorCode::NoMemory` without a
    /// place: of an unchecked iterator it comes only at a key with a backslash.
    ///
    /// Of `{"a":1,"b":[2]}` the first call gives `a` and `1`, the second `b` and `[2]`.
    pub fn next(&mut self) -> Option<Result<(CowStr<'de>, LazyValue<'de>)>>
        ensures next { IsNext ShowsMember self.old self.new result }
        ensures kind { self.new.kind ≡ Kind.Object }
        ensures honest { IfSome result (λ r. IfErr r (IsHonestNext self.old)) }
    {
        match self.items.next() {
            Some(Ok(found)) => Some(self.member(found)),
            Some(Err(fault)) => Some(Err(fault.error(self.items.text()))),
            None => None,
        }
    }

    // A member, by what was found of it. The only error is `ErrorCode::NoMemory`, which ends the
    // iterator.
    fn member(&mut self, found: Found) -> Result<(CowStr<'de>, LazyValue<'de>)>
        requires value { IsPart self.old.text found.value.start found.value.end }
        requires escaped { FlagsEscape self.old.text found.value }
        requires key { IsKeyOf self.old.text found.key }
        ensures kept { OnOk result (self.new ≡ self.old) }
        ensures text { IfOk result (λ member. IsKeyText self.old.text found.key member.0) }
        ensures value { IfOk result (λ member.
            raw_bytes member.1 ≡ slice_range self.old.text found.value.start found.value.end) }
        ensures err { IfErr result (λ error. IsPlainError error ErrorCode.NoMemory) }
        ensures ended { OnErr result (self.new ≡ record self.old { ended = true }) }
        ensures memory { OnErr result (IfSome found.key (λ k.
            IsEscapedString self.old.text k.start k.end)) }
    {
        match self.text_of(found.key) {
            Ok(text) => Ok((text, self.items.lazy_value(found.value))),
            Err(error) => {
                self.items.end();
                Err(error)
            }
        }
    }

    // What the key of a member denotes. The only error is `ErrorCode::NoMemory`.
    fn text_of(&self, key: Option<ValueSpan>) -> Result<CowStr<'de>>
        requires { IsKeyOf self.now.text key }
        ensures ok { IfOk result (IsKeyText self.now.text key) }
        ensures err { IfErr result (λ error. IsPlainError error ErrorCode.NoMemory) }
        ensures memory { OnErr result (IfSome key (λ k. IsEscapedString self.now.text k.start k.end)) }
    {
        match key {
            Some(key) => Ok(key.text(self.alloc, self.items.text())?),
            None => unreachable!(),
        }
    }
}

/// An iterator over the elements of an array.
///
/// What it has not come to isn't read, and after the closing bracket nothing is. The makers say
/// what it looks at: [`to_array_iter`], [`to_array_iter_unchecked`] and
/// [`LazyValue::into_array_iter`].
///
/// ```text
/// let mut elements = to_array_iter(alloc, "[1, [2]]");
/// while let Some(element) = elements.next() {
///     let value = element?;
/// }
/// ```
#[derive(Drop)]
pub struct ArrayJsonIter<'de> {
    items: Items<'de>,
}

impl<'de> Model for ArrayJsonIter<'de> {
    ghost use Rattle.std.specs.Prelude.{◌≡◌};
    ghost use Rattle.sonic_text.specs.declared.kind.Kind.{Kind};
    ghost use Rattle.sonic_lazy.specs.Iterators.{IteratorState};

    ghost Value = { IteratorState };

    ghost view = { λ elements. elements.items };

    ghost invariant = { λ elements. elements.items.kind ≡ Kind.Array };
}

impl<'de> ArrayJsonIter<'de> {
    ghost use Rattle.std.specs.Prelude.{IfSome, IfErr};
    ghost use Rattle.sonic_lazy.specs.Iterators.{IsHonestNext, IsNext, ShowsElement};

    /// The next element. `None` after the last, and for ever.
    ///
    /// After an error every call gives `None`. The errors are the array's:
    /// `ErrorCode::ExpectedArrayStart` where none begins, and `ErrorCode::ExpectedArrayCommaOrEnd`
    /// after an element, at the end of the input too, and where the input ends after the bracket; else
    /// the fault of the element. Running out of memory is `ErrorCode::NoMemory` without a place; an
    /// unchecked iterator takes none.
    ///
    /// Of `[1,[2]]` the first call gives `1`, the second `[2]`.
    pub fn next(&mut self) -> Option<Result<LazyValue<'de>>>
        ensures next { IsNext ShowsElement self.old self.new result }
        ensures kind { self.new.kind ≡ Kind.Array }
        ensures honest { IfSome result (λ r. IfErr r (IsHonestNext self.old)) }
    {
        match self.items.next() {
            Some(Ok(Found { value, .. })) => Some(Ok(self.items.lazy_value(value))),
            Some(Err(fault)) => Some(Err(fault.error(self.items.text()))),
            None => None,
        }
    }
}

/// The members of the object that an input begins with, one after the other.
///
/// Each is looked at as it is passed. For `&[u8]` and `&Bytes` the first call of `next` looks for
/// broken UTF-8 in the whole input, and `ErrorCode::InvalidUTF8` is its answer where there is some.
/// What follows the object may be anything else.
///
/// Of ` {"a":1} x` it gives the member `a`.
pub fn to_object_iter<'de, I: JsonInput<'de>>(alloc: Global, json: I) -> ObjectJsonIter<'de>
    ensures { result ≡ iterator_over Kind.Object (I.JsonInput.content json) I.JsonInput.is_bytes true }
{
    let items = Items::checked(alloc, json, Kind::Object);
    ObjectJsonIter { alloc, items }
}

/// The elements of the array that an input begins with, one after the other.
///
/// Each is looked at as it is passed. For `&[u8]` and `&Bytes` the first call of `next` looks for
/// broken UTF-8 in the whole input, and `ErrorCode::InvalidUTF8` is its answer where there is some.
/// What follows the array may be anything else.
///
/// Of ` [1, 2] x` it gives `1` and `2`.
pub fn to_array_iter<'de, I: JsonInput<'de>>(alloc: Global, json: I) -> ArrayJsonIter<'de>
    ensures { result ≡ iterator_over Kind.Array (I.JsonInput.content json) I.JsonInput.is_bytes true }
{
    let items = Items::checked(alloc, json, Kind::Array);
    ArrayJsonIter { items }
}

/// The members of the object that an input begins with, which is known to begin with a value in
/// UTF-8.
///
/// Values are passed without a second look at what is in them, and memory is taken for a key with a
/// backslash alone. An input that was taken by [`validate`](crate::validate) begins so. Its members
/// are those of [`to_object_iter`].
pub fn to_object_iter_unchecked<'de, I: JsonInput<'de>>(
    alloc: Global,
    json: I,
) -> ObjectJsonIter<'de>
    requires { StartsWithUtf8Value (I.JsonInput.content json) }
    ensures { result ≡ iterator_over Kind.Object (I.JsonInput.content json) false false }
{
    let items = Items::unchecked(json.to_json_slice(), Kind::Object);
    ObjectJsonIter { alloc, items }
}

/// The elements of the array that an input begins with, which is known to begin with a value in
/// UTF-8.
///
/// Values are passed without a second look at what is in them, and without memory. An input that
/// was taken by [`validate`](crate::validate) begins so. Its elements are those of
/// [`to_array_iter`].
pub fn to_array_iter_unchecked<'de, I: JsonInput<'de>>(json: I) -> ArrayJsonIter<'de>
    requires { StartsWithUtf8Value (I.JsonInput.content json) }
    ensures { result ≡ iterator_over Kind.Array (I.JsonInput.content json) false false }
{
    let items = Items::unchecked(json.to_json_slice(), Kind::Array);
    ArrayJsonIter { items }
}

impl<'a> LazyValue<'a> {
    ghost use Rattle.std.specs.Prelude.{◌↔◌, IsSome, IfSome};
    ghost use Rattle.sonic_lazy.specs.LazyValues.{raw_bytes};
    ghost use Rattle.sonic_lazy.specs.Scalars.{container, scalar_of};

    /// The members of the value where it is an object, and else `None`.
    ///
    /// Memory is taken for a key with a backslash alone. Of `{"a":1}` the first member is `a` and `1`.
    pub fn into_object_iter(self, alloc: Global) -> Option<ObjectJsonIter<'a>>
        ensures members { IfSome result (λ it.
            it ≡ iterator_over Kind.Object (raw_bytes self.entry) false false) }
        ensures kind { IsSome result ↔ (scalar_of (raw_bytes self.entry) ≡ container Kind.Object) }
    {
        if !self.is_object() {
            return None;
        }
        let items = Items::unchecked(self.raw(), Kind::Object);
        Some(ObjectJsonIter { alloc, items })
    }

    /// The elements of the value where it is an array, and else `None`. No memory is taken.
    ///
    /// Of `[1, 2]` the first element is `1`.
    pub fn into_array_iter(self) -> Option<ArrayJsonIter<'a>>
        ensures elements { IfSome result (λ it.
            it ≡ iterator_over Kind.Array (raw_bytes self.entry) false false) }
        ensures kind { IsSome result ↔ (scalar_of (raw_bytes self.entry) ≡ container Kind.Array) }
    {
        if !self.is_array() {
            return None;
        }
        let items = Items::unchecked(self.raw(), Kind::Array);
        Some(ArrayJsonIter { items })
    }
}
