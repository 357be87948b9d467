// The value to which a path leads, changed where it is.
ghost use Rattle.std.specs.Prelude.{◌≡◌, ◌<◌, ◌≤◌, IsErr, IfOk, IfErr, IfSome, OnErr, None, length};
ghost use Rattle.std.specs.Fn.{FnOnceReturnsAtMut};
ghost use Rattle.sonic_error.specs.Errors.{IsPlainError};
ghost use Rattle.sonic_owned.specs.Internal.Lends.{IsPartChanged};
ghost use Rattle.sonic_owned.specs.Reached.{IsChangedAt, IsKeptAlong, IsOpenedOn, IsUnreached, LeadsNowhere};
ghost use Rattle.sonic_owned.specs.Views.{form};
ghost use Rattle.sonic_pointer.specs.Nodes.{path_of};

use super::OwnedLazyValue;
use super::lend::{Stop, Walks, lend_part};
use sonic_error::{Error, ErrorCode, Result};
use sonic_pointer::{MAX_NODES, PointerNode};
use std::alloc::Global;

impl OwnedLazyValue {
    /// Calls `f` with the value to which a path leads in this one, to be changed there, and gives what
    /// `f` gives. `None` where the path leads to none; `f` isn't called then.
    ///
    /// The levels on the way are opened. All else stays as it was: whatever `f` leaves, the other
    /// items mean what they meant, and those that weren't opened keep their texts. After `None` and
    /// after an error the value means what it meant, and levels on the way are all that may be opened.
    ///
    /// The first error is `ErrorCode::RecursionLimitExceeded`, of a path of more than 255 nodes, and
    /// the value is unchanged then. The other is `ErrorCode::NoMemory`.
    ///
    /// ```text
    /// let mut value = OwnedLazyValue::from_str(alloc, "{\"a\" : [1, 2] , \"b\":{ }}")?;
    /// let old = value.with_mut(alloc, &pointer!["a", 1], |element| element.take())?;
    /// assert_eq!(rt; &value.to_string(alloc)?[..], "{\"a\":[1,null],\"b\":{ }}");
    /// ```
    pub fn with_mut<R, F: FnOnce(&mut OwnedLazyValue) -> R + Drop>(
        &mut self,
        alloc: Global,
        path: &[PointerNode<'_>],
        f: F,
    ) -> Result<Option<R>>
        requires { F.IsAlwaysCallable f }
        ensures some { IfOk result (λ found. IfSome found (λ given.
            IsChangedAt (path_of path.now) self.old self.new
            (λ part left. FnOnceReturnsAtMut F.FnOnce f part given left))) }
        ensures none { IfOk result (λ found. found ≡ None → LeadsNowhere (path_of path.now) (form self.old)) }
        ensures same { IfOk result (λ found. found ≡ None
            → IsKeptAlong (path_of path.now) (form self.old) (form self.new)) }
        ensures err { IfErr result (IsUnreached (path_of path.now)) }
        ensures kept { OnErr result (IsKeptAlong (path_of path.now) (form self.old) (form self.new)) }
        ensures limit { 255 < length path.now → IsErr result × (self.new ≡ self.old) }
        ensures memory { OnErr result (length path.now ≤ 255
            → IsOpenedOn (path_of path.now) (form self.old)) }
    {
        if path.len() > MAX_NODES {
            return Err(Error::plain(ErrorCode::RecursionLimitExceeded));
        }
        reach(self, alloc, path, f)
    }
}

// The same, for a value that is known by its form alone.
fn reach<A: Walks, R, F: FnOnce(&mut OwnedLazyValue) -> R + Drop>(
    value: &mut A,
    alloc: Global,
    path: &[PointerNode<'_>],
    f: F,
) -> Result<Option<R>>
    requires callable { F.IsAlwaysCallable f }
    requires short { length path.now ≤ 255 }
    ensures some { IfOk result (λ found. IfSome found (λ given.
        IsPartChanged (path_of path.now) (A.Walks.seen value.old) (A.Walks.seen value.new)
        (λ part left. FnOnceReturnsAtMut F.FnOnce f part given left))) }
    ensures none { IfOk result (λ found. found ≡ None
        → LeadsNowhere (path_of path.now) (A.Walks.seen value.old)) }
    ensures same { IfOk result (λ found. found ≡ None
        → IsKeptAlong (path_of path.now) (A.Walks.seen value.old) (A.Walks.seen value.new)) }
    ensures err { IfErr result (λ error. IsPlainError error ErrorCode.NoMemory) }
    ensures kept { OnErr result (IsKeptAlong (path_of path.now)
        (A.Walks.seen value.old) (A.Walks.seen value.new)) }
    ensures memory { OnErr result (IsOpenedOn (path_of path.now) (A.Walks.seen value.old)) }
{
    match lend_part(value, alloc, path) {
        Ok(part) => Ok(Some(f(part))),
        Err(Stop::Nowhere) => Ok(None),
        Err(Stop::NoMemory) => Err(Error::plain(ErrorCode::NoMemory)),
        Err(Stop::TooDeep) => unreachable!(),
    }
}
