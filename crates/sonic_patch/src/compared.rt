// Whether two values are the same.
ghost use Rattle.std.specs.Prelude.{◌≡◌, ◌↔◌, length, IfOk, IsTrue};
ghost use Rattle.sonic_text.specs.Strings.{strict};
ghost use Rattle.sonic_text.specs.Trees.{Tree, Means};
ghost use Rattle.sonic_text.specs.Values.{IsValue};
ghost use Rattle.sonic_patch.specs.Sameness.{same as same_tree};

use crate::in_order::in_order;
use crate::marks::mark_of;
use crate::shape::Numbers;
use sonic_parser::Fault;
use std::alloc::{AllocError, Global};

/// Whether two texts, each of which is one value, are the same to a `test` (RFC 6902, section 4.6).
///
/// Scalars are the same if they are equal, numbers by their text: `1` isn't `1.0`, though the RFC takes
/// them for one. Arrays have the same elements, one by one. Objects have as many members, in any order,
/// and each member of either has one in the other with an equal key and the same value. Strings and keys
/// are equal if they denote the same bytes, however they are written: `"\u0061"` is `"a"`.
///
/// The only error is out of memory. No clause says how much memory or time is taken. Two texts with the
/// same parts in the same order, that differ in white space or escapes, are gone over once, with a byte
/// for each container that is open. Other texts are gone over once more, and what each value is, by what
/// its parts are, is looked up among those before it.
///
/// `{"a":1,"b":[]}` and `{ "b": [], "a": 1 }` are the same, and `[1,2]` and `[2,1]` aren't.
pub fn same(alloc: Global, left: &str, right: &str) -> Result<bool, AllocError>
    requires left { IsValue strict left.now 0 (length left.now) }
    requires right { IsValue strict right.now 0 (length right.now) }
    ensures { IfOk result (λ is_same. (x y : Tree) → Means left.now 0 (length left.now) x
        → Means right.now 0 (length right.now) y → IsTrue is_same ↔ IsTrue (same_tree x y)) }
{
    match decide(alloc, left, right) {
        Ok(is_same) => Ok(is_same),
        Err(_) => Err(AllocError),
    }
}

// Whether they are the same. A value has no fault, so want of memory alone can stop a walk.
fn decide(alloc: Global, left: &str, right: &str) -> Result<bool, Fault>
    requires left { (x : Tree) × Means left.now 0 (length left.now) x }
    requires right { (x : Tree) × Means right.now 0 (length right.now) x }
    ensures { IfOk result (λ is_same. (x y : Tree) → Means left.now 0 (length left.now) x
        → Means right.now 0 (length right.now) y → IsTrue is_same ↔ IsTrue (same_tree x y)) }
{
    if in_order(alloc, left, right)? {
        return Ok(true);
    }
    let mut numbers = Numbers::new(alloc);
    let one = mark_of(alloc, &mut numbers, left)?;
    let other = mark_of(alloc, &mut numbers, right)?;
    Ok(one == other)
}
