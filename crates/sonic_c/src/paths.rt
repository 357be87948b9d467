// The paths that a caller keeps.
ghost use Rattle.std.specs.Prelude.{◌≡◌, length, None, IfSome};
ghost use Rattle.sonic_c.specs.Kept.{PathList, no_list};

use crate::kept::Kept;
use crate::unboxed::Unboxed;
use std::alloc::Global;
use std::marker::Model;
use std::mem::replace;

/// Paths that are kept from call to call, with the room that a walk along them takes. A clause sees the
/// list of them, and which of equal keys counts.
#[repr(C)]
pub struct Paths {
    // Where they are, if `held` isn't 0.
    kept: *mut u8,
    held: usize,
    /// How many there are.
    pub count: usize,
    alloc: Global,
    pub(crate) ghost list: { PathList },
}

impl Model for Paths {
    ghost use Rattle.std.specs.Box.Ownership.{box_owns};
    ghost use Rattle.std.specs.contracts.impls.GlobalAllocator.TheImpl.{ghosts};
    ghost use Rattle.sonic_c.specs.Internal.Owned.{owns};
    ghost use Rattle.sonic_c.specs.contracts.kept.Kept.{the_row as Kept_row};

    ghost also_owns = { λ p.
        owns p.held p.count p.list (box_owns (ghosts.dealloc_token p.alloc) Kept_row p.kept p.list) };
}

impl Drop for Paths {
    fn drop(self) {
        self.into_box();
    }
}

impl Paths {
    // No paths. They take no memory.
    pub(crate) fn none(alloc: Global) -> Paths
        ensures held { result.held ≡ 0 }
        ensures count { result.count ≡ 0 }
        ensures list { result.list ≡ no_list }
    {
        Paths {
            kept: std::ptr::null_mut(),
            held: 0,
            count: 0,
            alloc,
        }
    }

    fn of(unboxed: Unboxed<Kept, Global>, count: usize) -> Paths
        requires { count ≡ length unboxed.value.paths }
        ensures count { result.count ≡ count }
        ensures list { result.list ≡ unboxed.value }
    {
        let Unboxed { at, alloc } = unboxed;
        Paths {
            kept: at as *mut u8,
            held: 1,
            count,
            alloc,
        }
    }

    fn into_unboxed(self) -> Option<Unboxed<Kept, Global>>
        ensures some { IfSome result (λ unboxed.
            (unboxed.value ≡ self.list) × (self.count ≡ length self.list.paths)) }
        ensures none { result ≡ None → (self.list ≡ no_list) × (self.count ≡ 0) }
    {
        let Paths {
            kept,
            held,
            count: _,
            alloc,
        } = self;
        if held == 0 {
            return None;
        }
        Some(Unboxed {
            at: kept as *mut Kept,
            alloc,
        })
    }

    fn into_box(self) -> Option<Box<Kept>>
        ensures some { IfSome result (λ kept.
            (kept.value ≡ self.list) × (self.count ≡ length self.list.paths)) }
        ensures none { result ≡ None → (self.list ≡ no_list) × (self.count ≡ 0) }
    {
        match self.into_unboxed() {
            None => None,
            Some(unboxed) => Some(unboxed.into_box()),
        }
    }

    // Takes what is kept, and leaves no paths.
    pub(crate) fn take(&mut self, alloc: Global) -> Option<Box<Kept>>
        ensures some { IfSome result (λ kept.
            (kept.value ≡ self.old.list) × (self.old.count ≡ length self.old.list.paths)) }
        ensures none { result ≡ None → (self.old.list ≡ no_list) × (self.old.count ≡ 0) }
        ensures left { self.new.list ≡ no_list }
        ensures none_left { self.new.count ≡ 0 }
    {
        replace(self, Paths::none(alloc)).into_box()
    }

    // Keeps this, in place of what was kept.
    pub(crate) fn keep(&mut self, kept: Box<Kept>)
        ensures list { self.new.list ≡ kept.value }
        ensures count { self.new.count ≡ length kept.value.paths }
    {
        let count = kept.len();
        *self = Paths::of(Unboxed::of(kept), count);
    }
}
