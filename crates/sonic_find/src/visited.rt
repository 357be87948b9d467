// Which children of a prefix of the tree were visited.
ghost use Rattle.std.specs.Prelude.{◌≡◌, ◌<◌, ◌+◌, ℕ, Some, true, false, length, set, slice_get, IfOk, IfSome, IfNone, IsTrue, IsFalse};
ghost use Rattle.sonic_find.specs.Internal.Visits.{AreFresh};
ghost use Rattle.sonic_find.specs.Internal.Walk.{SomeOpen};

use std::alloc::{AllocError, Global};
use std::marker::Model;

// For how many children the bits of a word are enough.
const FEW: usize = 64;

// Whether each child was visited: of few children the bits of a word say it, which takes no memory.
#[derive(Drop)]
enum Flags {
    Few(u64),
    Many(Vec<bool>),
}

// Whether each of so many children was visited, and how many were not.
#[derive(Drop)]
pub(crate) struct Visited {
    flags: Flags,
    count: usize,
    left: usize,
}

impl Model for Visited {
    ghost use Rattle.std.specs.Prelude.{◌≡◌, Bool, List, count_by, not};
    ghost use Rattle.sonic_find.specs.Internal.Visits.{visits_of, AreVisits};

    ghost Value = { List Bool };

    ghost view = { visits_of };

    ghost invariant = { AreVisits };
}

impl Visited {
    // No child was visited yet.
    pub(crate) fn new(alloc: Global, count: usize) -> Result<Visited, AllocError>
        ensures long { IfOk result (λ visited. length visited ≡ count) }
        ensures none { IfOk result (λ visited. (c : ℕ) → c < count → slice_get visited c ≡ Some false) }
    {
        let flags = fresh_flags(alloc, count)?;
        let left = count;
        Ok(Visited { flags, count, left })
    }

    // The child, if there is one that was not visited yet.
    pub(crate) fn unvisited(&self, child: Option<usize>) -> Option<usize>
        requires { IfSome child (λ c. c < length self.now) }
        ensures some { IfSome result (λ c. (child ≡ Some c) × (slice_get self.now c ≡ Some false)) }
        ensures none { IfNone result (IfSome child (λ c. slice_get self.now c ≡ Some true)) }
    {
        match child {
            Some(child) if !self.has(child) => Some(child),
            _ => None,
        }
    }

    // Whether this child was visited.
    pub(crate) fn has(&self, child: usize) -> bool
        requires { child < length self.now }
        ensures { slice_get self.now child ≡ Some result }
    {
        match &self.flags {
            Flags::Few(word) => (*word >> child) & 1 == 1,
            Flags::Many(flags) => flags[child],
        }
    }

    // Notes that a child is visited.
    pub(crate) fn visit(&mut self, child: usize)
        requires { slice_get self.old child ≡ Some false }
        ensures { self.new ≡ set self.old child true }
    {
        self.left -= 1;
        match &mut self.flags {
            Flags::Few(word) => *word |= 1 << child,
            Flags::Many(flags) => flags[child] = true,
        }
    }

    // How many children were visited. No clause says so, as it is a hint.
    pub(crate) fn count(&self) -> usize {
        self.count.saturating_sub(self.left)
    }

    // Whether each child was visited.
    pub(crate) fn is_done(&self) -> bool
        ensures done { IsTrue result → ¬ SomeOpen self.now }
        ensures some { IsFalse result → SomeOpen self.now }
    {
        self.left == 0
    }
}

// Of so many children none was visited.
fn fresh_flags(alloc: Global, count: usize) -> Result<Flags, AllocError>
    ensures { IfOk result (AreFresh count) }
{
    if count <= FEW {
        return Ok(Flags::Few(0));
    }
    let flags = vec![in alloc; false; count]?;
    Ok(Flags::Many(flags))
}
