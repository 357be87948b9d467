// What values are by the marks of their parts, and numbers for that.
ghost use Rattle.std.specs.Prelude.{ℕ, IfOk};
ghost use Rattle.sonic_patch.specs.Internal.Marks.{AreNumbers, Signature, Names, signature_of};

use std::alloc::{AllocError, Global};
use std::collections::{BTreeMap, BTreeSet};

// What a value is by the marks of its parts: a scalar by its own text, an array by the marks of its
// elements, and an object by how many members it has, and the marks of the keys and of the values, each
// pair once.
#[derive(PartialEq, Eq, PartialOrd, Ord, Drop)]
pub(crate) enum Shape {
    Null,
    Truth(bool),
    Number(Vec<u8>),
    Text(Vec<u8>),
    Elements(Vec<usize>),
    Members(usize, BTreeSet<(usize, usize)>),
}

// Shapes, each with a number of its own, from 0.
#[derive(Drop)]
pub(crate) struct Numbers {
    given: BTreeMap<Shape, usize>,
}

impl Numbers {
    // No shape has a number.
    pub(crate) fn new(alloc: Global) -> Numbers
        ensures { AreNumbers result.given }
    {
        Numbers {
            given: BTreeMap::new(alloc),
        }
    }

    // The number of a shape, or the next one where it has none.
    pub(crate) fn number(&mut self, shape: Shape) -> Result<usize, AllocError>
        requires { AreNumbers self.old.given }
        ensures kept { AreNumbers self.new.given }
        ensures number { IfOk result (Names self.new.given (signature_of shape)) }
        ensures more { (f : Signature) → (n : ℕ) → Names self.old.given f n → Names self.new.given f n }
    {
        if let Some(number) = self.given.get(&shape) {
            return Ok(*number);
        }
        let number = self.given.len();
        self.given.insert(shape, number)?;
        Ok(number)
    }
}
