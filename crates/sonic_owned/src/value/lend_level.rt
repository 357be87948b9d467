// Levels that are lent to be changed.
ghost use Rattle.std.specs.Prelude.{◌≡◌, IfOk, IfErr, IfSome, IsSome, OnErr, OnSome, ◌↔◌};
ghost use Rattle.std.specs.Borrow.{sem, follows_so, LendsSoOk};
ghost use Rattle.sonic_error.specs.Errors.{IsPlainError};
ghost use Rattle.sonic_lazy.specs.Scalars.{container};
ghost use Rattle.sonic_owned.specs.Forms.{level, unnamed, named, scalar_of_form};
ghost use Rattle.sonic_owned.specs.Lends.{answer_name};
ghost use Rattle.sonic_owned.specs.Internal.Lends.{IsLevelFound};
ghost use Rattle.sonic_owned.specs.Opened.{IsOpened, IsClosedOf};
ghost use Rattle.sonic_owned.specs.Views.{form, elements, members};
ghost use Rattle.sonic_owned.specs.contracts.value.OwnedLazyValue.{the_row as value_row};
ghost use Rattle.sonic_owned.specs.contracts.value.LazyArray.{the_row as array_row};
ghost use Rattle.sonic_owned.specs.contracts.value.LazyObject.{the_row as object_row};
ghost use Rattle.sonic_text.specs.declared.kind.Kind.TheVariants.{Array, Object};

use super::lend::{Opens, Stop, found_or_error};
use super::{LazyArray, LazyObject, OwnedLazyValue};
use sonic_error::{ErrorCode, Result};
use sonic_lazy::JsonValueTrait;
use std::alloc::Global;

// The array that a value is.
fn lend_array<'a>(
    value: &'a mut OwnedLazyValue,
    alloc: Global,
) -> std::result::Result<&'a mut LazyArray, Stop>
    ensures* back { sem 𝓛 (LendsSoOk value_row array_row value.entry result
        (λ m w. form m ≡ level Array (unnamed (elements w)))
        (λ m. form m ≡ form value.old)) }
    ensures found { IsLevelFound Array (form value.old) (λ array. unnamed (elements array)) result }
{
    if !value.is_array() {
        return Err(Stop::Nowhere);
    }
    let Ok(()) = value.load(alloc) else {
        return Err(Stop::NoMemory);
    };
    match value.array_level() {
        Some(array) => Ok(array),
        // An array that is opened is a level.
        None => unreachable!(),
    }
}

// The object that a value is.
fn lend_object<'a>(
    value: &'a mut OwnedLazyValue,
    alloc: Global,
) -> std::result::Result<&'a mut LazyObject, Stop>
    ensures* back { sem 𝓛 (LendsSoOk value_row object_row value.entry result
        (λ m w. form m ≡ level Object (named (members w)))
        (λ m. form m ≡ form value.old)) }
    ensures found { IsLevelFound Object (form value.old) (λ object. named (members object)) result }
{
    if !value.is_object() {
        return Err(Stop::Nowhere);
    }
    let Ok(()) = value.load(alloc) else {
        return Err(Stop::NoMemory);
    };
    match value.object_level() {
        Some(object) => Ok(object),
        // An object that is opened is a level.
        None => unreachable!(),
    }
}

impl OwnedLazyValue {
    /// The array that the value is, to be changed: its first level is opened. `None` of every other
    /// kind, and the value is unchanged then.
    ///
    /// Once the loan ends the value is the array that was left. The only error is
    /// `ErrorCode::NoMemory`, and the value is unchanged then.
    ///
    /// ```text
    /// let mut value = OwnedLazyValue::from_str(alloc, "[\"a\", \"hello world\"]")?;
    /// if let Some(array) = value.as_array_mut(alloc)? {
    ///     let bar = OwnedLazyValue::from_text(FastStr::new(alloc, "bar")?);
    ///     assert!(rt; array.push(bar).is_ok());
    /// }
    /// assert_eq!(rt; &value.to_string(alloc)?[..], "[\"a\",\"hello world\",\"bar\"]");
    /// ```
    pub fn as_array_mut(&mut self, alloc: Global) -> Result<Option<&mut LazyArray>>
        ensures* back { sem 𝓛 (follows_so value_row array_row self.entry.ghost_name (answer_name result)
            (λ w m. IfOk result (λ found.
            OnSome found (form m ≡ level Array (unnamed (elements w)))))
            (λ m. form m ≡ form self.old)) }
        ensures some { IfOk result (λ found. IfSome found (λ array.
            IsOpened (form self.old) (level Array (unnamed (elements array.now))))) }
        ensures none { IfOk result (λ found. IsSome found
            ↔ (scalar_of_form (form self.old) ≡ container Array)) }
        ensures err { IfErr result (λ error. IsPlainError error ErrorCode.NoMemory) }
        ensures memory { OnErr result (IsClosedOf Array (form self.old)) }
    {
        found_or_error(lend_array(self, alloc))
    }

    /// The object that the value is, to be changed: its first level is opened. `None` of every other
    /// kind, and the value is unchanged then.
    ///
    /// Once the loan ends the value is the object that was left. The only error is
    /// `ErrorCode::NoMemory`, and the value is unchanged then.
    ///
    /// ```text
    /// let mut value = OwnedLazyValue::from_str(alloc, "{\"a\": \"hello world\"}")?;
    /// if let Some(object) = value.as_object_mut(alloc)? {
    ///     let bar = OwnedLazyValue::from_text(FastStr::new(alloc, "bar")?);
    ///     assert!(rt; object.append_pair(FastStr::new(alloc, "foo")?, bar).is_ok());
    /// }
    /// assert_eq!(rt; &value.to_string(alloc)?[..], "{\"a\":\"hello world\",\"foo\":\"bar\"}");
    /// ```
    pub fn as_object_mut(&mut self, alloc: Global) -> Result<Option<&mut LazyObject>>
        ensures* back { sem 𝓛 (follows_so value_row object_row self.entry.ghost_name (answer_name result)
            (λ w m. IfOk result (λ found.
            OnSome found (form m ≡ level Object (named (members w)))))
            (λ m. form m ≡ form self.old)) }
        ensures some { IfOk result (λ found. IfSome found (λ object.
            IsOpened (form self.old) (level Object (named (members object.now))))) }
        ensures none { IfOk result (λ found. IsSome found
            ↔ (scalar_of_form (form self.old) ≡ container Object)) }
        ensures err { IfErr result (λ error. IsPlainError error ErrorCode.NoMemory) }
        ensures memory { OnErr result (IsClosedOf Object (form self.old)) }
    {
        found_or_error(lend_object(self, alloc))
    }
}
