// Where each of many paths leads, whatever the others lead to.
ghost use Rattle.std.specs.Prelude.{◌≡◌, length};
ghost use Rattle.sonic_pointer.specs.declared.rule.KeyRule.TheVariants.{First};
ghost use Rattle.sonic_text.specs.Documents.{StartsWithUtf8Value};
ghost use Rattle.sonic_c.specs.Each.{IsEachCall, IsEachListCall};
ghost use Rattle.sonic_c.specs.Internal.Each.{TellsEach};

use crate::fault::{Fault, tell};
use crate::many::tree_of;
use crate::outcome::{Outcome, fill_outcomes};
use crate::status::{NO_MEMORY, OK};
use sonic_find::{PathOutcome, find_each, find_each_unchecked};
use sonic_pointer::{KeyRule, PointerTree};
use std::alloc::Global;

/// Where each of the paths leads in the text, in their order, whatever the others lead to.
///
/// `paths` has a path on each line, as for `jihluka_get_many`, and there have to be as many outcomes as
/// paths. The error is one of the text, where it comes before all paths are settled.
#[unsafe(no_mangle)]
pub extern "C" fn jihluka_get_each(
    alloc: Global,
    json: &[u8],
    paths: &[u8],
    outcomes: &mut [Outcome],
    error: &mut Fault,
) -> u32
    ensures { IsEachCall json.now paths.now (record { outcomes = outcomes.old; error = error.old })
        (record { outcomes = outcomes.new; error = error.new }) result }
{
    let tree = match tree_of(alloc, paths, outcomes.len(), error) {
        Ok(tree) => tree,
        Err(status) => return status,
    };
    follow(alloc, json, &tree, outcomes, error)
}

/// Where each of the paths leads in a text that is known to begin with a value in UTF-8, as one that
/// `jihluka_validate` took does: what `jihluka_get_each` tells, without a second look at what it passes.
#[unsafe(no_mangle)]
pub extern "C" fn jihluka_get_each_unchecked(
    alloc: Global,
    json: &[u8],
    paths: &[u8],
    outcomes: &mut [Outcome],
    error: &mut Fault,
) -> u32
    requires { StartsWithUtf8Value json.now }
    ensures { IsEachCall json.now paths.now (record { outcomes = outcomes.old; error = error.old })
        (record { outcomes = outcomes.new; error = error.new }) result }
{
    let tree = match tree_of(alloc, paths, outcomes.len(), error) {
        Ok(tree) => tree,
        Err(status) => return status,
    };
    let Ok(mut told) = vec![in alloc; PathOutcome::none(); tree.size()] else {
        return NO_MEMORY;
    };
    tell_each_unchecked(json, &tree, told.as_mut_slice(), outcomes);
    OK
}

// Follows the paths of a tree, of which as many outcomes are there.
fn follow(
    alloc: Global,
    json: &[u8],
    tree: &PointerTree,
    outcomes: &mut [Outcome],
    error: &mut Fault,
) -> u32
    requires { length tree.now ≡ length outcomes.old }
    ensures { IsEachListCall json.now (record { rule = First; paths = tree.now })
        (record { outcomes = outcomes.old; error = error.old })
        (record { outcomes = outcomes.new; error = error.new }) result }
{
    match find_each(alloc, json, tree, KeyRule::First) {
        Ok(told) => {
            fill_outcomes(outcomes, &told);
            OK
        }
        Err(reason) => tell(error, &reason),
    }
}

// The same in a text that is known to begin with a value in UTF-8, which is never refused.
pub(crate) fn tell_each_unchecked(
    json: &[u8],
    tree: &PointerTree,
    told: &mut [PathOutcome<sonic_find::Span>],
    outcomes: &mut [Outcome],
)
    requires starts { StartsWithUtf8Value json.now }
    requires told { length told.old ≡ length tree.now }
    requires outcomes { length tree.now ≡ length outcomes.old }
    ensures outcomes { TellsEach json.now (record { rule = First; paths = tree.now }) outcomes.new }
    ensures told { length told.new ≡ length told.old }
{
    find_each_unchecked(json, tree, told);
    fill_outcomes(outcomes, told);
}
