// The slots of the paths of a tree, set for all that go on alike.
ghost use Rattle.std.specs.Prelude.{◌≡◌, ◌<◌, ℕ, length};
ghost use Rattle.std.specs.List.{Contains};
ghost use Rattle.sonic_find.specs.Internal.Walk.{AreSet, Begins, GoesBy, IsOpen};

use crate::visited::Visited;
use sonic_pointer::TreeView;

// Sets the slots of the paths of these numbers.
#[inline(always)]
pub(crate) fn keep<X: Copy>(slots: &mut [X], orders: &[usize], x: X)
    requires { (k : ℕ) → Contains orders.now k → k < length slots.old }
    ensures { AreSet (Contains orders.now) slots.old slots.new x }
{
    for order in orders {
        slots[*order] = x;
    }
}

// Sets the slots of all paths that begin with the prefix of the view.
pub(crate) fn settle<X: Copy>(slots: &mut [X], view: &TreeView<'_>, x: X)
    requires { length slots.old ≡ length view.now.paths }
    ensures { AreSet (Begins view.now.paths view.now.prefix) slots.old slots.new x }
{
    for i in 0..view.count() {
        let (_, below) = view.child(i);
        settle(slots, &below, x);
    }
    keep(slots, view.orders(), x);
}

// Sets the slots of the paths that go on from the prefix of the view by a child that was not visited.
pub(crate) fn settle_open<X: Copy>(slots: &mut [X], view: &TreeView<'_>, visited: &Visited, x: X)
    requires slots { length slots.old ≡ length view.now.paths }
    requires visited { length visited.now ≡ length view.now.children }
    ensures { AreSet (GoesBy view.now.paths view.now.prefix view.now.children (IsOpen visited.now))
        slots.old slots.new x }
{
    for i in 0..view.count() {
        if !visited.has(i) {
            let (_, below) = view.child(i);
            settle(slots, &below, x);
        }
    }
}
