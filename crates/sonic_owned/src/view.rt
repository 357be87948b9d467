// What a path leads to.
ghost use Rattle.std.specs.Prelude.{◌≡◌, ◌↔◌, ◌∷◌, [], length, IsSome, IfSome, IfOk, IfErr, OnErr, None};
ghost use Rattle.std.specs.Cow.{cow_str_bytes};
ghost use Rattle.sonic_error.specs.Errors.{IsPlainError};
ghost use Rattle.sonic_lazy.specs.LazyValues.{raw_bytes};
ghost use Rattle.sonic_lazy.specs.Scalars.{text as a_text};
ghost use Rattle.sonic_lazy.specs.StringTexts.{IsEscapedText};
ghost use Rattle.sonic_owned.specs.Forms.{Form, raw, text, scalar_of_form};
ghost use Rattle.sonic_owned.specs.Leading.{LeadsTo};
ghost use Rattle.sonic_owned.specs.Seen.{view_form, view_made, IsLentText};
ghost use Rattle.sonic_pointer.specs.Nodes.{node_of, path_of};
ghost use Rattle.sonic_text.specs.Strings.{strict, IsString};

use crate::value::{LazyArray, LazyObject, OwnedLazyValue};
use sonic_error::{ErrorCode, JsonType, Result};
use sonic_lazy::{JsonContainerTrait, JsonValueTrait, LazyValue};
use sonic_pointer::PointerNode;
use std::alloc::Global;
use std::borrow::CowStr;

/// What a path leads to in an [`OwnedLazyValue`]: a value that is kept, or a part of the text of one
/// that isn't opened.
#[derive(Drop)]
pub enum OwnedView<'a> {
    /// A value inside the levels that are opened.
    Node(&'a OwnedLazyValue),
    /// A value inside a text that isn't opened.
    Raw(LazyValue<'a>),
}

impl<'a> OwnedView<'a> {
    /// The item that a node names, as [`OwnedLazyValue::get`] gives it.
    pub fn get(&self, node: PointerNode<'_>) -> Option<OwnedView<'a>>
        ensures some { IfSome result (λ seen. LeadsTo (node_of node.entry ∷ []) (view_form self.now) (view_form seen)) }
        ensures none { result ≡ None → (g : Form) → ¬ LeadsTo (node_of node.entry ∷ []) (view_form self.now) g }
    {
        self.pointer(&[node])
    }

    /// The value to which a path leads in this one, as [`OwnedLazyValue::pointer`] gives it.
    pub fn pointer(&self, path: &[PointerNode<'_>]) -> Option<OwnedView<'a>>
        ensures some { IfSome result (λ seen. LeadsTo (path_of path.now) (view_form self.now) (view_form seen)) }
        ensures none { result ≡ None → (g : Form) → ¬ LeadsTo (path_of path.now) (view_form self.now) g }
    {
        match self {
            OwnedView::Node(value) => value.pointer(path),
            OwnedView::Raw(value) => look_into(value, path),
        }
    }

    /// What the value denotes where it is a string (RFC 8259, section 7), and else `None`.
    ///
    /// The text is borrowed exactly where the string was made of it, or has no backslash. Only else it
    /// takes memory, and the only error is `ErrorCode::NoMemory`.
    pub fn as_str(&self, alloc: Global) -> Result<Option<CowStr<'_>>>
        ensures some { IfOk result (λ found. IsSome found ↔ (scalar_of_form (view_form self.now) ≡ a_text)) }
        ensures text { IfOk result (λ found. IfSome found (λ shown.
            IsString strict (text (view_form self.now)) 0 (length (text (view_form self.now))) (cow_str_bytes shown))) }
        ensures err { IfErr result (λ error. IsPlainError error ErrorCode.NoMemory) }
        ensures lent { IfOk result (λ found. IfSome found
            (IsLentText (view_made self.now) (text (view_form self.now)))) }
        ensures memory { OnErr result
            ((view_made self.now ≡ None) × IsEscapedText (text (view_form self.now))) }
    {
        match self {
            OwnedView::Node(value) => value.as_str(alloc),
            OwnedView::Raw(value) => value.as_str(alloc),
        }
    }
}

/// What it is, as far as its own first level says.
impl JsonValueTrait for OwnedView<'_> {
    ghost use Rattle.sonic_owned.specs.Forms.{scalar_of_form};
    ghost use Rattle.sonic_owned.specs.Seen.{view_form};

    ghost scalar = { λ view. scalar_of_form (view_form view) };

    fn get_type(&self) -> JsonType {
        match self {
            OwnedView::Node(value) => value.get_type(),
            OwnedView::Raw(value) => value.get_type(),
        }
    }

    fn as_bool(&self) -> Option<bool> {
        match self {
            OwnedView::Node(value) => value.as_bool(),
            OwnedView::Raw(value) => value.as_bool(),
        }
    }

    fn as_i64(&self) -> Option<i64> {
        match self {
            OwnedView::Node(value) => value.as_i64(),
            OwnedView::Raw(value) => value.as_i64(),
        }
    }

    fn as_u64(&self) -> Option<u64> {
        match self {
            OwnedView::Node(value) => value.as_u64(),
            OwnedView::Raw(value) => value.as_u64(),
        }
    }
}

/// The level of a value that is opened. A text that isn't opened has none.
impl JsonContainerTrait for OwnedView<'_> {
    type ObjectType = LazyObject;

    type ArrayType = LazyArray;

    ghost use Rattle.sonic_owned.specs.Seen.{view_array, view_object};

    ghost object = { view_object };

    ghost array = { view_array };

    fn as_object(&self) -> Option<&LazyObject> {
        match self {
            OwnedView::Node(value) => value.as_object(),
            OwnedView::Raw(_) => None,
        }
    }

    fn as_array(&self) -> Option<&LazyArray> {
        match self {
            OwnedView::Node(value) => value.as_array(),
            OwnedView::Raw(_) => None,
        }
    }
}

// What a path leads to in a text that isn't opened.
pub(crate) fn look_into<'a>(
    value: &LazyValue<'a>,
    path: &[PointerNode<'_>],
) -> Option<OwnedView<'a>>
    ensures some { IfSome result (λ seen.
        LeadsTo (path_of path.now) (raw (raw_bytes value.now)) (view_form seen)) }
    ensures none { result ≡ None → (g : Form) → ¬ LeadsTo (path_of path.now) (raw (raw_bytes value.now)) g }
{
    match value.pointer(path) {
        Some(found) => Some(OwnedView::Raw(found)),
        None => None,
    }
}
