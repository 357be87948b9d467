// The operations of a patch, one by one.
ghost use Rattle.std.specs.Prelude.{◌≡◌, Option, IfOk, IfErr, OnOk};
ghost use Rattle.std.specs.Cow.{cow_str_bytes};
ghost use Rattle.sonic_owned.specs.Forms.{Form, FormMeans, raw, text};
ghost use Rattle.sonic_owned.specs.Seen.{view_form};
ghost use Rattle.sonic_owned.specs.TreeEdits.{Edit};
ghost use Rattle.sonic_owned.specs.Views.{form};
ghost use Rattle.sonic_patch.specs.Internal.Plans.{IsPlanned};
ghost use Rattle.sonic_patch.specs.Internal.Refusals.{HasCause, IsMissing};
ghost use Rattle.sonic_patch.specs.Internal.Resolved.{LeadNowhere};
ghost use Rattle.sonic_patch.specs.Operations as operations;
ghost use Rattle.sonic_patch.specs.Patches.{PointsTo, IsDecided, IsAddition, IsRemoval, IsReplacement, OperationMakes, IsUnmade};
ghost use Rattle.sonic_patch.specs.Patching.{is_before};
ghost use Rattle.sonic_patch.specs.Views.{tokens_of, operation_of};
ghost use Rattle.sonic_text.specs.Trees.{Tree};

use crate::compared::same;
use crate::error::Refusal;
use crate::operation::Operation;
use crate::plan::{Plan, addition, removal, replacement};
use crate::pointer::Pointer;
use crate::resolve::resolve;
use sonic_input::FastStr;
use sonic_owned::{OwnedLazyValue, OwnedView};
use std::alloc::{AllocError, Global};
use std::borrow::CowStr;

// Makes an edit that is decided for the value.
fn make(alloc: Global, value: &mut OwnedLazyValue, plan: Option<Plan<'_>>) -> Result<(), Refusal>
    ensures made { (d : Tree → Option (Edit Form)) → IsPlanned d (form value.old) plan.entry
        → OnOk result (IsDecided d (form value.old) (form value.new)) }
    ensures refused { (d : Tree → Option (Edit Form)) → IsPlanned d (form value.old) plan.entry
        → IfErr result (IsMissing ((h : Form) → ¬ IsDecided d (form value.old) h)) }
{
    let Some(Plan { nodes, change }) = plan else {
        return Err(Refusal::Missing);
    };
    match value.edit(alloc, nodes.as_slice(), change) {
        Ok(true) => Ok(()),
        Ok(false) => Err(Refusal::Missing),
        Err(_) => Err(Refusal::NoMemory),
    }
}

// Adds a value where a pointer says.
fn add(
    alloc: Global,
    value: &mut OwnedLazyValue,
    path: &Pointer,
    new: OwnedLazyValue,
) -> Result<(), Refusal>
    ensures made { OnOk result (IsAddition (tokens_of path.now) (form new) (form value.old) (form value.new)) }
    ensures refused { IfErr result (IsMissing
        ((h : Form) → ¬ IsAddition (tokens_of path.now) (form new) (form value.old) h)) }
{
    let plan = addition(alloc, value, path.tokens.as_slice(), new)?;
    make(alloc, value, plan)
}

// Removes what a pointer leads to.
fn remove(alloc: Global, value: &mut OwnedLazyValue, path: &Pointer) -> Result<(), Refusal>
    ensures made { OnOk result (IsRemoval (tokens_of path.now) (form value.old) (form value.new)) }
    ensures refused { IfErr result (IsMissing
        ((h : Form) → ¬ IsRemoval (tokens_of path.now) (form value.old) h)) }
{
    let plan = removal(alloc, value, path.tokens.as_slice())?;
    make(alloc, value, plan)
}

// Puts a value in the place of what a pointer leads to.
fn replace(
    alloc: Global,
    value: &mut OwnedLazyValue,
    path: &Pointer,
    new: OwnedLazyValue,
) -> Result<(), Refusal>
    ensures made { OnOk result (IsReplacement (tokens_of path.now) (form new) (form value.old) (form value.new)) }
    ensures refused { IfErr result (IsMissing
        ((h : Form) → ¬ IsReplacement (tokens_of path.now) (form new) (form value.old) h)) }
{
    let plan = replacement(alloc, value, path.tokens.as_slice(), new)?;
    make(alloc, value, plan)
}

// Another owner of a value.
fn own(alloc: Global, value: &OwnedLazyValue) -> Result<OwnedLazyValue, AllocError>
    ensures { IfOk result (λ made. form made ≡ form value.now) }
{
    match value.clone(alloc) {
        Ok(made) => Ok(made),
        Err(_) => Err(AllocError),
    }
}

// The value of the text of a part.
fn closed(alloc: Global, part: &OwnedView<'_>) -> Result<OwnedLazyValue, AllocError>
    ensures { IfOk result (λ made. form made ≡ raw (text (view_form part.now))) }
{
    match part.closed(alloc) {
        Ok(made) => Ok(made),
        Err(_) => Err(AllocError),
    }
}

// The text of a part.
fn text_of<'v>(alloc: Global, part: &OwnedView<'v>) -> Result<CowStr<'v>, AllocError>
    ensures { IfOk result (λ shown. cow_str_bytes shown ≡ text (view_form part.now)) }
{
    match part.text(alloc) {
        Ok(shown) => Ok(shown),
        Err(_) => Err(AllocError),
    }
}

// What a pointer leads to, by its text, unopened. It may be put elsewhere.
fn closed_at(
    alloc: Global,
    value: &OwnedLazyValue,
    from: &Pointer,
) -> Result<OwnedLazyValue, Refusal>
    ensures found { IfOk result (λ made. (g : Form) × PointsTo (tokens_of from.now) (form value.now) g
        × (form made ≡ raw (text g))) }
    ensures missing { IfErr result (IsMissing (LeadNowhere (tokens_of from.now) (form value.now))) }
{
    let Some(led) = resolve(alloc, value, from.tokens.as_slice())? else {
        return Err(Refusal::Missing);
    };
    let made = closed(alloc, &led.part)?;
    Ok(made)
}

// Whether the first tokens are those of the second up to some, and not all.
fn is_before(from: &[FastStr], path: &[FastStr]) -> bool
    ensures { result ≡ is_before from.now path.now }
{
    if path.len() <= from.len() {
        return false;
    }
    let mut i = 0;
    'tokens: while i < from.len() {
        if from[i] != path[i] {
            return false;
        }
        i += 1;
    }
    true
}

// Moves what one pointer leads to where another says.
fn move_to(
    alloc: Global,
    value: &mut OwnedLazyValue,
    from: &Pointer,
    path: &Pointer,
) -> Result<(), Refusal>
    ensures made { OnOk result (OperationMakes (form value.old) (form value.new)
        (operations.move (tokens_of from.now) (tokens_of path.now))) }
    ensures unmade { IfErr result (HasCause (IsUnmade
        (operations.move (tokens_of from.now) (tokens_of path.now)) (form value.old))) }
{
    if is_before(from.tokens.as_slice(), path.tokens.as_slice()) {
        return Err(Refusal::IntoChild);
    }
    let moved = closed_at(alloc, value, from)?;
    remove(alloc, value, from)?;
    add(alloc, value, path, moved)
}

// Adds what one pointer leads to once more where another says.
fn copy_to(
    alloc: Global,
    value: &mut OwnedLazyValue,
    from: &Pointer,
    path: &Pointer,
) -> Result<(), Refusal>
    ensures made { OnOk result (OperationMakes (form value.old) (form value.new)
        (operations.copy (tokens_of from.now) (tokens_of path.now))) }
    ensures unmade { IfErr result (HasCause (IsUnmade
        (operations.copy (tokens_of from.now) (tokens_of path.now)) (form value.old))) }
{
    let copied = closed_at(alloc, value, from)?;
    add(alloc, value, path, copied)
}

// Tests whether what a pointer leads to is the same as a value.
fn test(
    alloc: Global,
    value: &OwnedLazyValue,
    path: &Pointer,
    wanted: &OwnedLazyValue,
) -> Result<(), Refusal>
    ensures made { OnOk result (OperationMakes (form value.now) (form value.now)
        (operations.test (tokens_of path.now) (form wanted.now))) }
    ensures unmade { IfErr result (HasCause (IsUnmade
        (operations.test (tokens_of path.now) (form wanted.now)) (form value.now))) }
{
    let Some(led) = resolve(alloc, value, path.tokens.as_slice())? else {
        return Err(Refusal::Missing);
    };
    let found = text_of(alloc, &led.part)?;
    let other = text_of(alloc, &OwnedView::Node(wanted))?;
    if same(alloc, found.as_str(), other.as_str())? {
        Ok(())
    } else {
        Err(Refusal::TestFailed)
    }
}

// Makes one operation. Where it isn't made, the value isn't of use.
pub(crate) fn perform(
    alloc: Global,
    value: &mut OwnedLazyValue,
    operation: &Operation,
) -> Result<(), Refusal>
    ensures made { OnOk result (OperationMakes (form value.old) (form value.new) (operation_of operation.now)) }
    ensures unmade { IfErr result (HasCause (IsUnmade (operation_of operation.now) (form value.old))) }
{
    match operation {
        Operation::Add(path, new) => {
            let new = own(alloc, new)?;
            add(alloc, value, path, new)
        }
        Operation::Remove(path) => remove(alloc, value, path),
        Operation::Replace(path, new) => {
            let new = own(alloc, new)?;
            replace(alloc, value, path, new)
        }
        Operation::Move(from, path) => move_to(alloc, value, from, path),
        Operation::Copy(from, path) => copy_to(alloc, value, from, path),
        Operation::Test(path, wanted) => test(alloc, value, path, wanted),
    }
}
