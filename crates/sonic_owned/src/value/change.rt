// Values that are taken, and items that are lent to be changed.
ghost use Rattle.std.specs.Prelude.{◌≡◌, codes, option_map, slice_get, slice_set, OnSome};
ghost use Rattle.std.specs.Borrow.{sem, LendsSo};
ghost use Rattle.sonic_owned.specs.Forms.{raw};
ghost use Rattle.sonic_owned.specs.Puts.{with_value};
ghost use Rattle.sonic_owned.specs.Views.{form, elements, members};
ghost use Rattle.sonic_owned.specs.contracts.value.OwnedLazyValue.{the_row as value_row};
ghost use Rattle.sonic_owned.specs.contracts.value.LazyArray.{the_row as array_row};
ghost use Rattle.sonic_owned.specs.contracts.value.LazyObject.{the_row as object_row};

use super::{LazyArray, LazyObject, Node, OwnedLazyValue};
use std::mem;

impl OwnedLazyValue {
    /// Takes the value, and leaves `null`.
    pub fn take(&mut self) -> OwnedLazyValue
        ensures taken { form result ≡ form self.old }
        ensures left { form self.new ≡ raw (codes "null") }
    {
        OwnedLazyValue {
            node: mem::replace(&mut self.node, Node::Null),
        }
    }
}

impl LazyArray {
    /// The element at a position, to be changed, and `None` past the last.
    pub fn at_mut(&mut self, i: usize) -> Option<&mut OwnedLazyValue>
        ensures* back { sem 𝓛 (LendsSo array_row value_row self.entry result
            (λ m w. OnSome result (elements m ≡ slice_set (elements self.old) i (form w)))
            (λ m. elements m ≡ elements self.old)) }
        ensures value { option_map (λ v. form v.now) result ≡ slice_get (elements self.old) i }
    {
        self.elements.get_mut(i)
    }
}

impl LazyObject {
    /// The value of the member at a position, to be changed, and `None` past the last. The key stays.
    pub fn at_mut(&mut self, i: usize) -> Option<&mut OwnedLazyValue>
        ensures* back { sem 𝓛 (LendsSo object_row value_row self.entry result
            (λ m w. OnSome result (members m ≡ with_value i (form w) (members self.old)))
            (λ m. members m ≡ members self.old)) }
        ensures value { option_map (λ v. form v.now) result
            ≡ option_map (λ m. m.1) (slice_get (members self.old) i) }
    {
        match self.members.get_mut(i) {
            Some(member) => Some(&mut member.1),
            None => None,
        }
    }
}
