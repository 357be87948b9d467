// Two texts that tell the same parts in the same order.
ghost use Rattle.std.specs.Prelude.{◌≡◌, ℕ, List, Option, IfOk, IsTrue, length};
ghost use Rattle.sonic_text.specs.Trees.{Tree, Means};
ghost use Rattle.sonic_patch.specs.Internal.Tags.{Tag};
ghost use Rattle.sonic_patch.specs.Internal.Walks.{IsLeaf, TellsTag};

use crate::walk::{Event, Leaf, Walk};
use crate::word::{same_keys, same_words};
use sonic_parser::Fault;
use std::alloc::{AllocError, Global};

// Whether two values without parts are one.
#[inline(always)]
fn same_leaves(alloc: Global, one: Leaf<'_>, other: Leaf<'_>) -> Result<bool, AllocError>
    requires one { (x : Tree) × IsLeaf one x }
    requires other { (x : Tree) × IsLeaf other x }
    ensures { IfOk result (λ same. IsTrue same → (x y : Tree) → IsLeaf one.entry x → IsLeaf other.entry y → x ≡ y) }
{
    match (one, other) {
        (Leaf::Null, Leaf::Null) => Ok(true),
        (Leaf::Truth(truth), Leaf::Truth(other)) => Ok(truth == other),
        (Leaf::Number(number), Leaf::Number(other)) => Ok(number == other),
        (Leaf::Text(text), Leaf::Text(other)) => same_words(alloc, text, other),
        (Leaf::Empty(kind), Leaf::Empty(other)) => Ok(kind == other),
        _ => Ok(false),
    }
}

// Whether two parts are one.
#[inline(always)]
fn same_events(alloc: Global, one: Event<'_>, other: Event<'_>) -> Result<bool, AllocError>
    requires one { (tag : Tag) × TellsTag one tag }
    requires other { (tag : Tag) × TellsTag other tag }
    ensures { IfOk result (λ same. IsTrue same → (a b : Tag) → TellsTag one.entry a → TellsTag other.entry b → a ≡ b) }
{
    match (one, other) {
        (Event::Leaf(key, leaf), Event::Leaf(other_key, other_leaf)) => {
            Ok(same_keys(alloc, key, other_key)? && same_leaves(alloc, leaf, other_leaf)?)
        }
        (Event::Begin(key, kind), Event::Begin(other_key, other_kind)) if kind == other_kind => {
            same_keys(alloc, key, other_key)
        }
        (Event::End(kind), Event::End(other)) => Ok(kind == other),
        _ => Ok(false),
    }
}

// Whether two values tell the same parts in the same order, so that they have one tree.
pub(crate) fn in_order(alloc: Global, left: &str, right: &str) -> Result<bool, Fault>
    requires left { (x : Tree) × Means left.now 0 (length left.now) x }
    requires right { (x : Tree) × Means right.now 0 (length right.now) x }
    ensures { IfOk result (λ same. IsTrue same → (x y : Tree) → Means left.now 0 (length left.now) x
        → Means right.now 0 (length right.now) y → x ≡ y) }
{
    let mut one = Walk::new(alloc, left);
    let mut other = Walk::new(alloc, right);
    'parts: loop {
        let part = one.next(alloc)?;
        let counterpart = other.next(alloc)?;
        let Some(part) = part else {
            return Ok(counterpart.is_none());
        };
        let Some(counterpart) = counterpart else {
            return Ok(false);
        };
        if !same_events(alloc, part, counterpart)? {
            return Ok(false);
        }
    }
}
