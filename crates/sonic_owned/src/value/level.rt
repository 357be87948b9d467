// The levels of a value that are opened.
ghost use Rattle.std.specs.Prelude.{◌≡◌, ℕ, None, IfSome, ◌+◌, ◌≤◌, ◌==◌, ◌++◌, ◌∷◌, [], length, option_map, slice_get, IsOk, IfOk, OnOk, IfErr, OnErr};
ghost use Rattle.std.specs.List.{insert, remove};
ghost use Rattle.sonic_error.specs.Errors.{IsPlainError};
ghost use Rattle.sonic_owned.specs.Owned.{HasKeyAt, IsFirstOfKey};
ghost use Rattle.sonic_owned.specs.Views.{form, elements, members, array_spare, object_spare};

use super::{LazyArray, LazyObject, OwnedLazyValue};
use crate::made::MadeText;
use sonic_error::{Error, ErrorCode, Result};
use sonic_input::FastStr;
use std::alloc::Global;

impl LazyArray {
    /// An array without elements.
    pub fn new(alloc: Global) -> LazyArray
        ensures { elements result ≡ [] }
    {
        LazyArray {
            elements: Vec::new(alloc),
        }
    }

    /// An array without elements that has room for so many: they are pushed without memory.
    ///
    /// The only error is `ErrorCode::NoMemory`.
    pub fn with_capacity(alloc: Global, cap: usize) -> Result<LazyArray>
        ensures empty { IfOk result (λ made. elements made ≡ []) }
        ensures spare { IfOk result (λ made. cap ≤ array_spare made) }
        ensures err { IfErr result (λ error. IsPlainError error ErrorCode.NoMemory) }
    {
        match Vec::with_capacity(alloc, cap) {
            Ok(elements) => Ok(LazyArray { elements }),
            Err(_) => Err(Error::plain(ErrorCode::NoMemory)),
        }
    }

    /// The number of elements.
    pub fn len(&self) -> usize
        ensures { result ≡ length (elements self.now) }
    {
        self.elements.len()
    }

    /// Whether there is no element.
    pub fn is_empty(&self) -> bool
        ensures { result ≡ (length (elements self.now) == 0) }
    {
        self.elements.is_empty()
    }

    /// Appends an element. It comes back where memory runs out, and the array is unchanged then.
    pub fn push(&mut self, value: OwnedLazyValue) -> std::result::Result<(), OwnedLazyValue>
        ensures ok { OnOk result (elements self.new ≡ elements self.old ++ form value ∷ []) }
        ensures err { IfErr result (λ back. back ≡ value) }
        ensures same { OnErr result (elements self.new ≡ elements self.old) }
        ensures room { 1 ≤ array_spare self.old → IsOk result }
        ensures spare { array_spare self.old ≤ array_spare self.new + 1 }
    {
        match self.elements.push(value) {
            Ok(()) => Ok(()),
            Err(refused) => Err(refused.value),
        }
    }

    /// Puts an element before the one at a position, or after the last one. It comes back where memory
    /// runs out, and the array is unchanged then.
    ///
    /// The elements from that position on move, which takes time for each of them. Into `[1,2]` the
    /// element `3` is put at 1 as `[1,3,2]`, and at 2 as `[1,2,3]`.
    pub fn insert(
        &mut self,
        i: usize,
        value: OwnedLazyValue,
    ) -> std::result::Result<(), OwnedLazyValue>
        requires { i ≤ length (elements self.old) }
        ensures ok { OnOk result (elements self.new ≡ insert (elements self.old) i (form value)) }
        ensures err { IfErr result (λ back. back ≡ value) }
        ensures same { OnErr result (elements self.new ≡ elements self.old) }
        ensures room { 1 ≤ array_spare self.old → IsOk result }
        ensures spare { array_spare self.old ≤ array_spare self.new + 1 }
    {
        match self.elements.insert(i, value) {
            Ok(()) => Ok(()),
            Err(refused) => Err(refused.value),
        }
    }

    /// Removes the element at a position, and gives it; `None` past the last one, and the array is
    /// unchanged then.
    ///
    /// The elements after it move up, which takes time for each of them, and no memory. Of `[1,2,3]`
    /// the element at 1 is `2`, and `[1,3]` stays.
    pub fn remove(&mut self, i: usize) -> Option<OwnedLazyValue>
        ensures removed { option_map form result ≡ slice_get (elements self.old) i }
        ensures rest { elements self.new ≡ remove (elements self.old) i }
        ensures spare { array_spare self.old ≤ array_spare self.new }
    {
        if i < self.elements.len() {
            Some(self.elements.remove(i))
        } else {
            None
        }
    }

    /// The element at a position, and `None` past the last one.
    pub fn at(&self, i: usize) -> Option<&OwnedLazyValue>
        ensures { option_map (λ value. form value.now) result ≡ slice_get (elements self.now) i }
    {
        self.elements.get(i)
    }
}

impl LazyObject {
    /// An object without members.
    pub fn new(alloc: Global) -> LazyObject
        ensures { members result ≡ [] }
    {
        LazyObject {
            members: Vec::new(alloc),
        }
    }

    /// An object without members that has room for so many: they are appended without memory.
    ///
    /// The only error is `ErrorCode::NoMemory`.
    pub fn with_capacity(alloc: Global, cap: usize) -> Result<LazyObject>
        ensures empty { IfOk result (λ made. members made ≡ []) }
        ensures spare { IfOk result (λ made. cap ≤ object_spare made) }
        ensures err { IfErr result (λ error. IsPlainError error ErrorCode.NoMemory) }
    {
        match Vec::with_capacity(alloc, cap) {
            Ok(members) => Ok(LazyObject { members }),
            Err(_) => Err(Error::plain(ErrorCode::NoMemory)),
        }
    }

    /// The number of members.
    pub fn len(&self) -> usize
        ensures { result ≡ length (members self.now) }
    {
        self.members.len()
    }

    /// Whether there is no member.
    pub fn is_empty(&self) -> bool
        ensures { result ≡ (length (members self.now) == 0) }
    {
        self.members.is_empty()
    }

    /// Appends a member, whatever keys there are. Key and value come back where memory runs out, and
    /// the object is unchanged then.
    pub fn append_pair(
        &mut self,
        key: FastStr,
        value: OwnedLazyValue,
    ) -> std::result::Result<(), (FastStr, OwnedLazyValue)>
        ensures ok { OnOk result (members self.new ≡ members self.old ++ (key, form value) ∷ []) }
        ensures err { IfErr result (λ back. back ≡ (key, value)) }
        ensures same { OnErr result (members self.new ≡ members self.old) }
        ensures room { 1 ≤ object_spare self.old → IsOk result }
        ensures spare { object_spare self.old ≤ object_spare self.new + 1 }
    {
        match self.members.push((MadeText { text: key }, value)) {
            Ok(()) => Ok(()),
            Err(refused) => {
                let (key, value) = refused.value;
                Err((key.text, value))
            }
        }
    }

    /// Removes the member at a position, and gives its key and its value; `None` past the last one,
    /// and the object is unchanged then.
    ///
    /// The members after it move up, which takes time for each of them, and no memory. Of
    /// `{"a":1,"b":2}` the member at 0 is `"a"` with `1`, and `{"b":2}` stays.
    pub fn remove(&mut self, i: usize) -> Option<(FastStr, OwnedLazyValue)>
        ensures removed { option_map (λ pair. (pair.0, form pair.1)) result
            ≡ slice_get (members self.old) i }
        ensures rest { members self.new ≡ remove (members self.old) i }
        ensures spare { object_spare self.old ≤ object_spare self.new }
    {
        if i < self.members.len() {
            let (key, value) = self.members.remove(i);
            Some((key.text, value))
        } else {
            None
        }
    }

    /// The member at a position, and `None` past the last one.
    pub fn at(&self, i: usize) -> Option<(&FastStr, &OwnedLazyValue)>
        ensures { option_map (λ pair. (pair.0.now, form pair.1.now)) result
            ≡ slice_get (members self.now) i }
    {
        match self.members.get(i) {
            Some((key, value)) => Some((&key.text, value)),
            None => None,
        }
    }

    /// The position of the first member with a key, and `None` where no member has it.
    ///
    /// Keys are compared as the text that they denote.
    pub fn first_of_key(&self, key: &str) -> Option<usize>
        ensures some { IfSome result (IsFirstOfKey (members self.now) key.now) }
        ensures none { result ≡ None → (p : ℕ) → ¬ HasKeyAt (members self.now) key.now p }
    {
        let members = &self.members;
        let mut i = 0;
        while i < members.len() {
            if members[i].0.text.as_str() == key {
                return Some(i);
            }
            i += 1;
        }
        None
    }
}
