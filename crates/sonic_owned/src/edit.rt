// Edits of a value.
ghost use Rattle.std.specs.Prelude.{◌≡◌, ◌<◌, ◌≤◌, ◌++◌, length, IfOk, IfErr, IsErr, IsTrue, OnErr, IsFalse};
ghost use Rattle.sonic_owned.specs.Changes.{change_of};
ghost use Rattle.sonic_owned.specs.Edits.{IsEdit, IsRefused};
ghost use Rattle.sonic_owned.specs.Internal.Changed.{IsChanged};
ghost use Rattle.sonic_owned.specs.Reached.{IsKeptAlong, IsUnreached, NeedsMemory, way_to_item};
ghost use Rattle.sonic_owned.specs.TreeEdits.{edit_at, push, pair, insert, remove};
ghost use Rattle.sonic_owned.specs.Views.{form};
ghost use Rattle.sonic_pointer.specs.Nodes.{node_of, path_of};

use crate::value::{Opens, OwnedLazyValue};
use sonic_error::{Error, ErrorCode, Result};
use sonic_input::FastStr;
use sonic_lazy::JsonValueTrait;
use sonic_pointer::PointerNode;
use std::alloc::Global;

/// What an edit does to the value to which its path leads.
#[derive(Drop)]
pub enum Change {
    /// Sets this value in its place.
    Set(OwnedLazyValue),
    /// Appends this element to it, where it is an array.
    Push(OwnedLazyValue),
    /// Appends a member with this key and this value to it, where it is an object. A member with the
    /// key that is there already stays, and is what the key leads to.
    Pair(FastStr, OwnedLazyValue),
    /// Takes it, and leaves `null`.
    Take,
    /// Puts this element before the one at the position, or after the last one, where it is an array
    /// with so many elements. Positions are counted from 0.
    Insert(usize, OwnedLazyValue),
    /// Removes the element at the position, where it is an array that has one there. Those after it
    /// move up.
    RemoveElement(usize),
    /// Removes the first member with this key, where it is an object that has one. Later members with
    /// the key stay, and the next of them is what the key leads to then.
    RemoveMember(FastStr),
}

impl OwnedLazyValue {
    /// Changes the value to which a path leads in this one. `false` where the edit is refused: the
    /// path leads to none, what is added to isn't an array or an object, as is wanted, an array has no
    /// such place, or there is no such item to remove.
    ///
    /// The levels on the way are opened, and the one to which an item is added, or of which one is
    /// removed. All else stays as it was, and what wasn't opened keeps its text. A refused edit, and
    /// an error, leave what the value means, and open no other level. The errors are those of
    /// [`OwnedLazyValue::with_mut`], and memory runs out only where a level is to be opened, or
    /// something is to be added.
    ///
    /// Of `{"a" : [1, 2] , "b":{ }}` pushing `3` at the path of `a` makes `{"a":[1,2,3],"b":{ }}`,
    /// inserting `3` there at 1 makes `{"a":[1,3,2],"b":{ }}`, and removing the member `a` at the empty
    /// path makes `{"b":{ }}`.
    pub fn edit(&mut self, alloc: Global, path: &[PointerNode<'_>], change: Change) -> Result<bool>
        ensures made { IfOk result (λ made. IsTrue made
            → IsEdit (edit_at (path_of path.now) (change_of change)) (form self.old) (form self.new)) }
        ensures refused { IfOk result (λ made. IsFalse made
            → IsRefused (edit_at (path_of path.now) (change_of change)) (form self.old)) }
        ensures same { IfOk result (λ made. IsFalse made
            → IsKeptAlong (path_of path.now) (form self.old) (form self.new)) }
        ensures err { IfErr result (IsUnreached (path_of path.now)) }
        ensures limit { 255 < length path.now → IsErr result × (self.new ≡ self.old) }
        ensures kept { OnErr result (IsKeptAlong (path_of path.now ++ way_to_item (change_of change))
            (form self.old) (form self.new)) }
        ensures memory { OnErr result (length path.now ≤ 255
            → NeedsMemory (edit_at (path_of path.now) (change_of change)) (form self.old)) }
    {
        let changed = self.with_mut(
            alloc,
            path,
            move |part: &mut OwnedLazyValue|
                ensures { IsChanged (change_of change) (form part.old) (form part.new) result }
            { part.change(alloc, change) },
        )?;
        match changed {
            Some(made) => made,
            None => Ok(false),
        }
    }

    // Changes the value, unless it isn't of the kind that is wanted.
    fn change(&mut self, alloc: Global, change: Change) -> Result<bool>
        ensures { IsChanged (change_of change) (form self.old) (form self.new) result }
    {
        match change {
            Change::Set(value) => {
                *self = value;
                Ok(true)
            }
            Change::Push(element) => self.push_element(alloc, element),
            Change::Pair(key, value) => self.append_member(alloc, key, value),
            Change::Take => {
                self.take();
                Ok(true)
            }
            Change::Insert(i, element) => self.insert_element(alloc, i, element),
            Change::RemoveElement(i) => self.remove_item(alloc, PointerNode::Index(i)),
            Change::RemoveMember(key) => self.remove_item(alloc, PointerNode::Key(key.as_str())),
        }
    }

    // Appends an element to an array.
    fn push_element(&mut self, alloc: Global, element: OwnedLazyValue) -> Result<bool>
        ensures { IsChanged (push (form element)) (form self.old) (form self.new) result }
    {
        if !self.is_array() {
            return Ok(false);
        }
        self.load(alloc)?;
        let Some(array) = self.array_level() else {
            // An array that is loaded is opened.
            unreachable!();
        };
        match array.push(element) {
            Ok(()) => Ok(true),
            Err(_) => Err(Error::plain(ErrorCode::NoMemory)),
        }
    }

    // Appends a member to an object.
    fn append_member(&mut self, alloc: Global, key: FastStr, value: OwnedLazyValue) -> Result<bool>
        ensures { IsChanged (pair key (form value)) (form self.old) (form self.new) result }
    {
        if !self.is_object() {
            return Ok(false);
        }
        self.load(alloc)?;
        let Some(object) = self.object_level() else {
            // An object that is loaded is opened.
            unreachable!();
        };
        match object.append_pair(key, value) {
            Ok(()) => Ok(true),
            Err(_) => Err(Error::plain(ErrorCode::NoMemory)),
        }
    }

    // Puts an element into an array before the one at a position, or after the last one. An array
    // without such a place isn't opened.
    fn insert_element(&mut self, alloc: Global, i: usize, element: OwnedLazyValue) -> Result<bool>
        ensures { IsChanged (insert i (form element)) (form self.old) (form self.new) result }
    {
        if !self.is_array() {
            return Ok(false);
        }
        if i > 0 && self.get(PointerNode::Index(i - 1)).is_none() {
            return Ok(false);
        }
        self.load(alloc)?;
        let Some(array) = self.array_level() else {
            // An array that is loaded is opened.
            unreachable!();
        };
        match array.insert(i, element) {
            Ok(()) => Ok(true),
            Err(_) => Err(Error::plain(ErrorCode::NoMemory)),
        }
    }

    // Removes the item that a node names. A value without such an item isn't opened.
    fn remove_item(&mut self, alloc: Global, node: PointerNode<'_>) -> Result<bool>
        ensures { IsChanged (remove (node_of node.entry)) (form self.old) (form self.new) result }
    {
        if self.get(node).is_none() {
            return Ok(false);
        }
        self.load(alloc)?;
        if let PointerNode::Index(i) = node {
            let Some(array) = self.array_level() else {
                // Only an array has elements.
                unreachable!();
            };
            array.remove(i);
            return Ok(true);
        }
        let PointerNode::Key(key) = node else {
            // A node is an index or a key.
            unreachable!();
        };
        let Some(object) = self.object_level() else {
            // Only an object has members.
            unreachable!();
        };
        let Some(i) = object.first_of_key(key) else {
            // The key led to one.
            unreachable!();
        };
        object.remove(i);
        Ok(true)
    }
}
