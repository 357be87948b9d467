// What an edit line asks for.
ghost use Rattle.std.specs.Prelude.{◌≡◌, ℕ, List, None, IfOk, IfSome, map};
ghost use Rattle.std.specs.Cow.{cow_str_bytes};
ghost use Rattle.sonic_edits.specs.Edits.{edit_of};
ghost use Rattle.sonic_edits.specs.Lines.{Denotes, SaysEdit};
ghost use Rattle.sonic_edits.specs.Internal.Reading.{SaysChange};
ghost use Rattle.sonic_lazy.specs.LazyValues.{raw_bytes};
ghost use Rattle.sonic_owned.specs.Changes.{change_of};
ghost use Rattle.sonic_owned.specs.Forms.{Form, raw};
ghost use Rattle.sonic_owned.specs.TreeEdits as edits;
ghost use Rattle.sonic_owned.specs.Views.{form};

use crate::edit::Edit;
use sonic_input::FastStr;
use sonic_lazy::LazyValue;
use sonic_owned::{Change, OwnedLazyValue};
use sonic_paths::path_of_line;
use std::alloc::{AllocError, Global};
use std::borrow::CowStr;

// The edit that the elements of a line say.
pub(crate) fn said_edit(
    alloc: Global,
    elements: &[LazyValue<'_>],
) -> Result<Option<Edit>, AllocError>
    ensures some { IfOk result (λ found. IfSome found (λ edit.
        SaysEdit (map raw_bytes elements.now) (edit_of edit))) }
    ensures none { IfOk result (λ found. found ≡ None
        → (e : edits.Edit Form) → ¬ SaysEdit (map raw_bytes elements.now) e) }
{
    let [word, path, operands @ ..] = elements else {
        return Ok(None);
    };
    let Some(path) = path_of_line(alloc, path.as_raw_str().as_bytes())? else {
        return Ok(None);
    };
    let Some(word) = denoted(alloc, word)? else {
        return Ok(None);
    };
    match said_change(alloc, word.as_str(), operands)? {
        Some(change) => Ok(Some(Edit { path, change })),
        None => Ok(None),
    }
}

// The text that a value denotes, if it is a string.
fn denoted<'a>(alloc: Global, value: &LazyValue<'a>) -> Result<Option<CowStr<'a>>, AllocError>
    ensures some { IfOk result (λ found. IfSome found (λ text.
        Denotes (raw_bytes value.now) (cow_str_bytes text))) }
    ensures none { IfOk result (λ found. found ≡ None → (b : List ℕ) → ¬ Denotes (raw_bytes value.now) b) }
{
    match value.as_str(alloc) {
        Ok(found) => Ok(found),
        Err(_) => Err(AllocError),
    }
}

// The change that a word asks for, with what comes after the path.
fn said_change(
    alloc: Global,
    word: &str,
    operands: &[LazyValue<'_>],
) -> Result<Option<Change>, AllocError>
    ensures some { IfOk result (λ found. IfSome found (λ change.
        SaysChange word.now (map raw_bytes operands.now) (change_of change))) }
    ensures none { IfOk result (λ found. found ≡ None
        → (c : edits.Change Form) → ¬ SaysChange word.now (map raw_bytes operands.now) c) }
{
    match operands {
        [] => match word {
            "take" => Ok(Some(Change::Take)),
            _ => Ok(None),
        },
        [value] => match word {
            "set" => Ok(Some(Change::Set(kept(alloc, value)?))),
            "push" => Ok(Some(Change::Push(kept(alloc, value)?))),
            _ => Ok(None),
        },
        [key, value] => match word {
            "pair" => said_pair(alloc, key, value),
            _ => Ok(None),
        },
        _ => Ok(None),
    }
}

// The change that appends a member, if its key is a string.
fn said_pair(
    alloc: Global,
    key: &LazyValue<'_>,
    value: &LazyValue<'_>,
) -> Result<Option<Change>, AllocError>
    ensures some { IfOk result (λ found. IfSome found (λ change. (k : List ℕ) × Denotes (raw_bytes key.now) k
        × (change_of change ≡ edits.pair k (raw (raw_bytes value.now))))) }
    ensures none { IfOk result (λ found. found ≡ None → (k : List ℕ) → ¬ Denotes (raw_bytes key.now) k) }
{
    let Some(key) = denoted(alloc, key)? else {
        return Ok(None);
    };
    let Ok(key) = FastStr::new(alloc, key.as_str()) else {
        return Err(AllocError);
    };
    Ok(Some(Change::Pair(key, kept(alloc, value)?)))
}

// The value with its text as it is.
fn kept(alloc: Global, value: &LazyValue<'_>) -> Result<OwnedLazyValue, AllocError>
    ensures { IfOk result (λ made. form made ≡ raw (raw_bytes value.now)) }
{
    match OwnedLazyValue::from_lazy(alloc, value) {
        Ok(made) => Ok(made),
        Err(_) => Err(AllocError),
    }
}
