// Edits that are decided for a value.
ghost use Rattle.std.specs.Prelude.{◌≡◌, IfOk, Some, option_map};
ghost use Rattle.sonic_lazy.specs.Scalars.{container as a_container};
ghost use Rattle.sonic_owned.specs.Changes.{change_of};
ghost use Rattle.sonic_owned.specs.Forms.{FormMeans, scalar_of_form};
ghost use Rattle.sonic_owned.specs.Seen.{view_form};
ghost use Rattle.sonic_owned.specs.Views.{form};
ghost use Rattle.sonic_patch.specs.Internal.Plans.{edit_of, edit_here, after, IsPlanned};
ghost use Rattle.sonic_patch.specs.Patching.{into_object, into_array, into, out_of, addition, removal, replacement};
ghost use Rattle.sonic_pointer.specs.Nodes.{path_of};
ghost use Rattle.sonic_text.specs.TreePaths.{member_of};
ghost use Rattle.sonic_text.specs.Trees.{Tree, Items, container};
ghost use Rattle.sonic_text.specs.declared.kind.Kind.TheVariants.{Object};

use crate::resolve::{Led, index_of, node_in, resolve};
use sonic_error::JsonType;
use sonic_input::FastStr;
use sonic_lazy::JsonValueTrait;
use sonic_owned::{Change, OwnedLazyValue, OwnedView};
use sonic_pointer::PointerNode;
use std::alloc::{AllocError, Global};

// An edit that is decided.
#[derive(Drop)]
pub(crate) struct Plan<'t> {
    pub(crate) nodes: Vec<PointerNode<'t>>,
    pub(crate) change: Change,
}

// How a value comes into an array by the last token of a pointer.
fn into_array<'t>(
    nodes: Vec<PointerNode<'t>>,
    last: &FastStr,
    new: OwnedLazyValue,
) -> Option<Plan<'t>>
    ensures { option_map (after (path_of nodes.entry.items)) (into_array (form new) last.now)
        ≡ option_map edit_of result }
{
    if last.as_str() == "-" {
        return Some(Plan {
            nodes,
            change: Change::Push(new),
        });
    }
    match index_of(last.as_str()) {
        Some(i) => Some(Plan {
            nodes,
            change: Change::Insert(i, new),
        }),
        None => None,
    }
}

// How it comes into an object.
fn into_object<'t>(
    alloc: Global,
    led: Led<'_, 't>,
    last: &'t FastStr,
    new: OwnedLazyValue,
) -> Result<Plan<'t>, AllocError>
    ensures { IfOk result (λ plan. (xs : Items) → FormMeans (view_form led.entry.part) (container Object xs)
        → after (path_of led.entry.nodes.items) (into_object (form new) (member_of last.now xs) last.now)
        ≡ edit_of plan) }
{
    let Led { mut nodes, part } = led;
    let key = PointerNode::Key(last.as_str());
    if let Some(_) = part.get(key) {
        nodes.push(key)?;
        return Ok(Plan {
            nodes,
            change: Change::Set(new),
        });
    }
    match last.clone(alloc) {
        Ok(key) => Ok(Plan {
            nodes,
            change: Change::Pair(key, new),
        }),
        Err(_) => Err(AllocError),
    }
}

// How it comes into a container.
fn into<'t>(
    alloc: Global,
    led: Led<'_, 't>,
    last: &'t FastStr,
    new: OwnedLazyValue,
) -> Result<Option<Plan<'t>>, AllocError>
    ensures { IfOk result (λ plan. (u : Tree) → FormMeans (view_form led.entry.part) u
        → option_map (after (path_of led.entry.nodes.items)) (into (form new) u last.now)
        ≡ option_map edit_of plan) }
{
    match led.part.get_type() {
        JsonType::Object => Ok(Some(into_object(alloc, led, last, new)?)),
        JsonType::Array => Ok(into_array(led.nodes, last, new)),
        _ => Ok(None),
    }
}

// The edit that adds a value where tokens say.
pub(crate) fn addition<'t>(
    alloc: Global,
    value: &OwnedLazyValue,
    tokens: &'t [FastStr],
    new: OwnedLazyValue,
) -> Result<Option<Plan<'t>>, AllocError>
    ensures { IfOk result (IsPlanned (addition tokens.now (form new)) (form value.now)) }
{
    let Some((last, front)) = tokens.split_last() else {
        return Ok(Some(Plan {
            nodes: Vec::new(alloc),
            change: Change::Set(new),
        }));
    };
    let Some(led) = resolve(alloc, value, front)? else {
        return Ok(None);
    };
    into(alloc, led, last, new)
}

// How what a token leads to is taken out.
fn out_of(alloc: Global, part: &OwnedView<'_>, last: &FastStr) -> Result<Option<Change>, AllocError>
    ensures { IfOk result (λ change. (u : Tree) → FormMeans (view_form part.now) u
        → out_of u last.now ≡ option_map edit_here change) }
{
    match node_in(part, last) {
        None => Ok(None),
        Some(PointerNode::Index(i)) => Ok(Some(Change::RemoveElement(i))),
        Some(PointerNode::Key(_)) => match last.clone(alloc) {
            Ok(key) => Ok(Some(Change::RemoveMember(key))),
            Err(_) => Err(AllocError),
        },
    }
}

// The edit that removes what tokens lead to.
pub(crate) fn removal<'t>(
    alloc: Global,
    value: &OwnedLazyValue,
    tokens: &'t [FastStr],
) -> Result<Option<Plan<'t>>, AllocError>
    ensures { IfOk result (IsPlanned (removal tokens.now) (form value.now)) }
{
    let Some((last, front)) = tokens.split_last() else {
        return Ok(Some(Plan {
            nodes: Vec::new(alloc),
            change: Change::Take,
        }));
    };
    let Some(Led { nodes, part }) = resolve(alloc, value, front)? else {
        return Ok(None);
    };
    match out_of(alloc, &part, last)? {
        Some(change) => Ok(Some(Plan { nodes, change })),
        None => Ok(None),
    }
}

// The edit that puts a value in the place of what tokens lead to.
pub(crate) fn replacement<'t>(
    alloc: Global,
    value: &OwnedLazyValue,
    tokens: &'t [FastStr],
    new: OwnedLazyValue,
) -> Result<Option<Plan<'t>>, AllocError>
    ensures { IfOk result (IsPlanned (replacement tokens.now (form new)) (form value.now)) }
{
    let Some(led) = resolve(alloc, value, tokens)? else {
        return Ok(None);
    };
    Ok(Some(Plan {
        nodes: led.nodes,
        change: Change::Set(new),
    }))
}
