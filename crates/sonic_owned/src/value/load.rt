// Values, opened a level.
ghost use Rattle.std.specs.Prelude.{◌≡◌, IfOk, IfErr, IfSome, OnOk, OnErr, None, false};
ghost use Rattle.sonic_error.specs.Errors.{IsPlainError};
ghost use Rattle.sonic_lazy.specs.Iterators.{iterator_over};
ghost use Rattle.sonic_owned.specs.Forms.{unnamed, named};
ghost use Rattle.sonic_owned.specs.Opened.{AreAllMembers, IsClosedContainer, IsOpened};
ghost use Rattle.sonic_owned.specs.Views.{form, elements, members};
ghost use Rattle.sonic_text.specs.declared.kind.Kind.TheVariants.{Array, Object};

use super::{LazyArray, LazyObject, Node, OwnedLazyValue};
use crate::made::MadeText;
use sonic_error::{Error, ErrorCode, Result};
use sonic_input::FastStr;
use sonic_lazy::{ArrayJsonIter, ObjectJsonIter};
use std::alloc::{AllocError, Global};

impl OwnedLazyValue {
    /// Opens the first level of the value: a container that isn't opened becomes a level whose items
    /// keep their texts. Everything else stays as it is.
    ///
    /// The value means what it meant, and paths lead where they led. The container's own white space
    /// and the spelling of its keys are lost. What is in its values isn't read again. The only error
    /// is `ErrorCode::NoMemory`, of a container that isn't opened alone, and the value is unchanged
    /// then.
    ///
    /// Of `{"\/" : [1, 2]}` the text is `{"/":[1, 2]}` afterwards.
    pub fn load(&mut self, alloc: Global) -> Result<()>
        ensures ok { OnOk result (IsOpened (form self.old) (form self.new)) }
        ensures err { IfErr result (λ error. IsPlainError error ErrorCode.NoMemory) }
        ensures same { OnErr result (form self.new ≡ form self.old) }
        ensures memory { OnErr result (IsClosedContainer (form self.old)) }
    {
        match open(alloc, self) {
            Ok(Some(opened)) => {
                *self = opened;
                Ok(())
            }
            Ok(None) => Ok(()),
            Err(_) => Err(Error::plain(ErrorCode::NoMemory)),
        }
    }
}

// The value with its first level opened, and `None` where nothing is to be opened.
fn open(
    alloc: Global,
    value: &OwnedLazyValue,
) -> std::result::Result<Option<OwnedLazyValue>, AllocError>
    ensures some { IfOk result (λ found. IfSome found (λ opened.
        IsOpened (form value.now) (form opened))) }
    ensures none { IfOk result (λ found. found ≡ None → ¬ IsClosedContainer (form value.now)) }
    ensures memory { OnErr result (IsClosedContainer (form value.now)) }
{
    let Node::Raw(raw) = &value.node else {
        return Ok(None);
    };
    if let Some(array) = raw.as_lazy().into_array_iter() {
        let node = Node::Array(open_elements(alloc, array)?);
        return Ok(Some(OwnedLazyValue { node }));
    }
    match raw.as_lazy().into_object_iter(alloc) {
        Some(object) => {
            let node = Node::Object(open_members(alloc, object)?);
            Ok(Some(OwnedLazyValue { node }))
        }
        None => Ok(None),
    }
}

// The elements of an array, which begins a text that is known to be a value. So only memory can stop
// the iterator.
fn open_elements(
    alloc: Global,
    mut array: ArrayJsonIter<'_>,
) -> std::result::Result<LazyArray, AllocError>
    requires { array ≡ iterator_over Array array.text false false }
    ensures { IfOk result (λ made.
        AreAllMembers array.entry.text Array (unnamed (elements made))) }
{
    let mut elements = Vec::new(alloc);
    'elements: while let Some(element) = array.next() {
        let Ok(element) = element else {
            return Err(AllocError);
        };
        let Ok(element) = OwnedLazyValue::from_lazy(alloc, &element) else {
            return Err(AllocError);
        };
        elements.push(element)?;
    }
    Ok(LazyArray { elements })
}

// The members of an object, in the same way.
fn open_members(
    alloc: Global,
    mut object: ObjectJsonIter<'_>,
) -> std::result::Result<LazyObject, AllocError>
    requires { object ≡ iterator_over Object object.text false false }
    ensures { IfOk result (λ made.
        AreAllMembers object.entry.text Object (named (members made))) }
{
    let mut members = Vec::new(alloc);
    'members: while let Some(member) = object.next() {
        let Ok((key, value)) = member else {
            return Err(AllocError);
        };
        let Ok(text) = FastStr::new(alloc, key.as_str()) else {
            return Err(AllocError);
        };
        let Ok(value) = OwnedLazyValue::from_lazy(alloc, &value) else {
            return Err(AllocError);
        };
        members.push((MadeText { text }, value))?;
    }
    Ok(LazyObject { members })
}
