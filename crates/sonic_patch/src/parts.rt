// The members of an operation.
ghost use Rattle.std.specs.Prelude.{◌≡◌, ◌≢◌, ℕ, List, None, IfOk, IfSome, length, codes};
ghost use Rattle.std.specs.Cow.{cow_str_bytes};
ghost use Rattle.sonic_lazy.specs.LazyValues.{raw_bytes};
ghost use Rattle.sonic_patch.specs.Reading.{HasMember, SaysText, AnyText, IsSomeOperation};
ghost use Rattle.sonic_patch.specs.Internal.Texts.{word_text, texts_of, HasTexts, AreRead};
ghost use Rattle.sonic_patch.specs.Internal.Judged.{IsJudged};
ghost use Rattle.sonic_patch.specs.Internal.Pieces.{IsReadBy};
ghost use Rattle.sonic_patch.specs.Pointers.{SaysTokens, SaysFewTokens};
ghost use Rattle.sonic_text.specs.Strings.{strict, IsString};

use crate::pointer::{Fit, fit_of};
use sonic_lazy::LazyValue;
use sonic_pointer::PointerNode;
use std::alloc::{AllocError, Global};
use std::borrow::CowStr;

// The words of operations that have a value.
#[derive(Clone, Copy)]
pub(crate) enum Valued {
    Add,
    Replace,
    Test,
}

// The words of those that go from one pointer to another.
#[derive(Clone, Copy)]
pub(crate) enum Paired {
    Move,
    Copy,
}

// The word of an operation.
#[derive(Clone, Copy)]
pub(crate) enum Word {
    Remove,
    Valued(Valued),
    Paired(Paired),
}

// An operation with its pointers as texts, and its value where it stands.
#[derive(Drop)]
pub(crate) enum Parts<'a> {
    Remove(CowStr<'a>),
    Valued(Valued, CowStr<'a>, LazyValue<'a>),
    // From the first to the second.
    Paired(Paired, CowStr<'a>, CowStr<'a>),
}

// The word that a text is.
fn word_of(text: &str) -> Option<Word>
    ensures some { IfSome result (λ word. text.now ≡ word_text word) }
    ensures none { result ≡ None → (word : Word) → text.now ≢ word_text word }
{
    match text {
        "add" => Some(Word::Valued(Valued::Add)),
        "remove" => Some(Word::Remove),
        "replace" => Some(Word::Valued(Valued::Replace)),
        "move" => Some(Word::Paired(Paired::Move)),
        "copy" => Some(Word::Paired(Paired::Copy)),
        "test" => Some(Word::Valued(Valued::Test)),
        _ => None,
    }
}

// The value of the first member with a key.
fn member<'a>(object: &LazyValue<'a>, key: &str) -> Option<LazyValue<'a>>
    ensures some { IfSome result (λ value.
        HasMember (raw_bytes object.now) key.now (raw_bytes value)) }
    ensures none { result ≡ None
        → (value : List ℕ) → ¬ HasMember (raw_bytes object.now) key.now value }
{
    object.get(PointerNode::Key(key))
}

// What a value denotes, if it is a string.
fn denoted<'a>(alloc: Global, value: &LazyValue<'a>) -> Result<Option<CowStr<'a>>, AllocError>
    ensures some { IfOk result (λ found. IfSome found (λ text.
        IsString strict (raw_bytes value.now) 0 (length (raw_bytes value.now)) (cow_str_bytes text))) }
    ensures none { IfOk result (λ found. found ≡ None
        → (b : List ℕ) → ¬ IsString strict (raw_bytes value.now) 0 (length (raw_bytes value.now)) b) }
{
    match value.as_str(alloc) {
        Ok(found) => Ok(found),
        Err(_) => Err(AllocError),
    }
}

// The text that the first member with a key denotes, if that is there and a string.
fn text_of<'a>(
    alloc: Global,
    object: &LazyValue<'a>,
    key: &str,
) -> Result<Option<CowStr<'a>>, AllocError>
    ensures some { IfOk result (λ found. IfSome found (λ text.
        SaysText (raw_bytes object.now) key.now (cow_str_bytes text))) }
    ensures none { IfOk result (λ found. found ≡ None
        → (b : List ℕ) → ¬ SaysText (raw_bytes object.now) key.now b) }
{
    match member(object, key) {
        Some(value) => denoted(alloc, &value),
        None => Ok(None),
    }
}

// The parts of the operation that an object is, if it is one whatever its pointers are.
pub(crate) fn parts_of<'a>(
    alloc: Global,
    object: &LazyValue<'a>,
) -> Result<Option<Parts<'a>>, AllocError>
    ensures some { IfOk result (λ found. IfSome found (λ parts.
        HasTexts (raw_bytes object.now) (texts_of parts))) }
    ensures none { IfOk result (λ found. found ≡ None
        → ¬ IsSomeOperation AnyText (raw_bytes object.now)) }
{
    let Some(op) = text_of(alloc, object, "op")? else {
        return Ok(None);
    };
    let Some(word) = word_of(op.as_str()) else {
        return Ok(None);
    };
    let Some(path) = text_of(alloc, object, "path")? else {
        return Ok(None);
    };
    match word {
        Word::Remove => Ok(Some(Parts::Remove(path))),
        Word::Valued(word) => match member(object, "value") {
            Some(value) => Ok(Some(Parts::Valued(word, path, value))),
            None => Ok(None),
        },
        Word::Paired(word) => match text_of(alloc, object, "from")? {
            Some(from) => Ok(Some(Parts::Paired(word, from, path))),
            None => Ok(None),
        },
    }
}

// What two pointers are: the worse of both.
fn fit_of_both(from: &str, path: &str) -> Fit
    ensures { IsJudged (IsReadBy SaysFewTokens from.now × IsReadBy SaysFewTokens path.now)
        (IsReadBy SaysTokens from.now × IsReadBy SaysTokens path.now) result }
{
    match fit_of(from) {
        Fit::Fits => fit_of(path),
        Fit::TooLong => match fit_of(path) {
            Fit::Bad => Fit::Bad,
            _ => Fit::TooLong,
        },
        Fit::Bad => Fit::Bad,
    }
}

impl Parts<'_> {
    // What the pointers are.
    pub(crate) fn fit(&self) -> Fit
        ensures { IsJudged (AreRead SaysFewTokens (texts_of self.now))
            (AreRead SaysTokens (texts_of self.now)) result }
    {
        match self {
            Parts::Remove(path) => fit_of(path.as_str()),
            Parts::Valued(_, path, _) => fit_of(path.as_str()),
            Parts::Paired(_, from, path) => fit_of_both(from.as_str(), path.as_str()),
        }
    }
}
