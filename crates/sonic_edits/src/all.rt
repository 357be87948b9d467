// Edits made one after another.
ghost use Rattle.std.specs.Prelude.{◌≡◌, ◌⊎◌, ◌+◌, None, IfOk, IfSome, OnErr, length, map};
ghost use Rattle.sonic_edits.specs.Edits.{edit_of, Fails, StopsAt};
ghost use Rattle.sonic_edits.specs.Internal.Parted.{joined, kind_of_change, nodes_of, place_of, AreShort};
ghost use Rattle.sonic_owned.specs.Changes.{change_of};
ghost use Rattle.sonic_owned.specs.Edits.{AreEdits, IsFirstRefused};
ghost use Rattle.sonic_owned.specs.Views.{form};

use crate::edit::Edit;
use sonic_owned::{Change, OwnedLazyValue};
use sonic_pointer::{OwnedPath, PointerNode};
use std::alloc::{AllocError, Global};

/// Makes the edits in order, as [`OwnedLazyValue::edit`] makes each. `None` where all are made, and
/// else the number of the first that is refused, from 1; those before it are made then, and levels
/// along its path may be opened.
///
/// So on `{"a":0}` the edits of `["set",[],{"b":[]}]` and `["push",["a"],1]` give 2. The only error
/// is that memory ran out: before the first edit, or for one that opens a level or appends, and the
/// edits before that are made then.
pub fn edit_all(
    alloc: Global,
    value: &mut OwnedLazyValue,
    edits: Vec<Edit>,
) -> Result<Option<usize>, AllocError>
    ensures made { IfOk result (λ refused. refused ≡ None
        → AreEdits (map edit_of edits.items) (form value.old) (form value.new)) }
    ensures refused { IfOk result (λ refused.
        IfSome refused (IsFirstRefused (map edit_of edits.items) (form value.old))) }
    ensures left { IfOk result (λ refused.
        IfSome refused (StopsAt (map edit_of edits.items) (form value.old) (form value.new))) }
    ensures failed { OnErr result ((form value.new ≡ form value.old)
        ⊎ Fails (map edit_of edits.items) (form value.old) (form value.new)) }
{
    let (paths, changes) = parted(alloc, edits)?;
    let paths = lent(alloc, paths.as_slice())?;
    make_all(alloc, value, paths.as_slice(), changes)
}

// The paths of the edits, and their changes.
fn parted(alloc: Global, edits: Vec<Edit>) -> Result<(Vec<OwnedPath>, Vec<Change>), AllocError>
    ensures paths { IfOk result (λ parts. parts.0.items ≡ map place_of edits.items) }
    ensures changes { IfOk result (λ parts.
        map change_of parts.1.items ≡ map kind_of_change edits.items) }
{
    let mut paths = Vec::new(alloc);
    let mut changes = Vec::new(alloc);
    'edits: for edit in edits {
        let Edit { path, change } = edit;
        paths.push(path)?;
        changes.push(change)?;
    }
    Ok((paths, changes))
}

// The nodes of each path, whose keys are borrowed.
fn lent(alloc: Global, paths: &[OwnedPath]) -> Result<Vec<Vec<PointerNode<'_>>>, AllocError>
    ensures { IfOk result (λ lists. map nodes_of lists.items ≡ paths.now) }
{
    let mut lists = Vec::new(alloc);
    for path in paths {
        lists.push(path.nodes(alloc)?)?;
    }
    Ok(lists)
}

// Makes the changes in order, each at its path.
fn make_all(
    alloc: Global,
    value: &mut OwnedLazyValue,
    paths: &[Vec<PointerNode<'_>>],
    changes: Vec<Change>,
) -> Result<Option<usize>, AllocError>
    requires even { length paths.now ≡ length changes.items }
    requires short { AreShort (map nodes_of paths.now) }
    ensures made { IfOk result (λ refused. refused ≡ None
        → AreEdits (joined (map nodes_of paths.now) (map change_of changes.items))
        (form value.old) (form value.new)) }
    ensures refused { IfOk result (λ refused. IfSome refused
        (IsFirstRefused (joined (map nodes_of paths.now) (map change_of changes.items))
        (form value.old))) }
    ensures left { IfOk result (λ refused. IfSome refused
        (StopsAt (joined (map nodes_of paths.now) (map change_of changes.items))
        (form value.old) (form value.new))) }
    ensures failed { OnErr result
        (Fails (joined (map nodes_of paths.now) (map change_of changes.items))
        (form value.old) (form value.new)) }
{
    let mut number = 0;
    'changes: for change in changes {
        match value.edit(alloc, paths[number].as_slice(), change) {
            Ok(true) => number += 1,
            Ok(false) => return Ok(Some(number + 1)),
            Err(_) => return Err(AllocError),
        }
    }
    Ok(None)
}
