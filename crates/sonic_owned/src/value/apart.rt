// Values that are taken apart.
ghost use Rattle.std.specs.Prelude.{◌≡◌, ◌<◌, ◌+◌, IfSome, MatchOption};
ghost use Rattle.sonic_owned.specs.Forms.{named, unnamed};
ghost use Rattle.sonic_owned.specs.Internal.Bulks.{bulk, members_bulk, node_form};
ghost use Rattle.sonic_owned.specs.Internal.Levels.{elements_of, members_of};

use super::{LazyArray, LazyObject, Node, OwnedLazyValue};
use crate::made::MadeText;
use std::mem;

impl Node {
    // What is left of an array with these elements without its last ones, up to one that is a level, or
    // without some of that. `None` where nothing is left.
    pub(super) fn array_shrunk(mut elements: Vec<OwnedLazyValue>) -> Option<Self>
        ensures { IfSome result (λ rest.
            bulk (node_form rest) < 3 + members_bulk (unnamed (elements_of elements.items))) }
    {
        'elements: while let Some(last) = elements.pop() {
            let Some(level) = last.node.level() else {
                continue;
            };
            if elements.is_empty() {
                elements.destroy_empty();
                return Some(level);
            }
            return Some(Node::Array(LazyArray { elements }).below(level));
        }
        elements.destroy_empty();
        None
    }

    // The same of an object with these members.
    pub(super) fn object_shrunk(mut members: Vec<(MadeText, OwnedLazyValue)>) -> Option<Self>
        ensures { IfSome result (λ rest.
            bulk (node_form rest) < 3 + members_bulk (named (members_of members.items))) }
    {
        'members: while let Some((_, last)) = members.pop() {
            let Some(level) = last.node.level() else {
                continue;
            };
            if members.is_empty() {
                members.destroy_empty();
                return Some(level);
            }
            return Some(Node::Object(LazyObject { members }).below(level));
        }
        members.destroy_empty();
        None
    }

    // A level as it is. A scalar is dropped.
    #[inline(always)]
    fn level(self) -> Option<Self>
        ensures { IfSome result (λ level. level ≡ self) }
    {
        match self {
            Node::Null => None,
            Node::Bool(_) => None,
            Node::Integer(_) => None,
            Node::Text(_) => None,
            Node::Raw(_) => None,
            Node::Array(level) => Some(Node::Array(level)),
            Node::Object(level) => Some(Node::Object(level)),
        }
    }

    // Goes down the first items of an item, up to one that has none, which is dropped. What is around
    // each waits in its first item's place, and so this value does.
    fn below(self, item: Self) -> Self
        ensures { bulk (node_form result) < bulk (node_form self) + bulk (node_form item) }
    {
        let mut around = self;
        let mut item = item;
        'values: loop {
            let (outer, first) = item.enter(around);
            around = outer;
            match first {
                Some(inner) => item = inner,
                None => return around,
            }
        }
    }

    // Puts what is around a value in its first item's place, and gives the value and that item. A value
    // that has none is dropped.
    fn enter(self, around: Self) -> (Self, Option<Self>)
        ensures whole { MatchOption result.1 (result.0 ≡ around)
            (λ first. bulk (node_form result.0) + bulk (node_form first)
            ≡ bulk (node_form around) + bulk (node_form self)) }
        ensures less { IfSome result.1 (λ first. bulk (node_form first) < bulk (node_form self)) }
    {
        match self {
            Node::Null => (around, None),
            Node::Bool(_) => (around, None),
            Node::Integer(_) => (around, None),
            Node::Text(_) => (around, None),
            Node::Raw(_) => (around, None),
            Node::Array(LazyArray { elements }) if elements.is_empty() => {
                elements.destroy_empty();
                (around, None)
            }
            Node::Array(LazyArray { mut elements }) => {
                let first = mem::replace(&mut elements[0].node, around);
                (Node::Array(LazyArray { elements }), Some(first))
            }
            Node::Object(LazyObject { members }) if members.is_empty() => {
                members.destroy_empty();
                (around, None)
            }
            Node::Object(LazyObject { mut members }) => {
                let first = mem::replace(&mut members[0].1.node, around);
                (Node::Object(LazyObject { members }), Some(first))
            }
        }
    }
}
