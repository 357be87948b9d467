// Copies of values.
ghost use Rattle.std.specs.Prelude.{◌≡◌, ◌+◌, ◌<◌, option_map, Some, None, IfOk, IfErr, IfSome, OnOk};
ghost use Rattle.sonic_error.specs.Errors.{IsPlainError};
ghost use Rattle.sonic_owned.specs.Forms.{raw, text};
ghost use Rattle.sonic_owned.specs.Internal.Bulks.{bulk};
ghost use Rattle.sonic_owned.specs.Internal.Copies.{copied_form, copying_bulk, next_form, waiting_bulk, HasCopied};
ghost use Rattle.sonic_owned.specs.Seen.{view_form};
ghost use Rattle.sonic_owned.specs.Views.{form};

use super::{LazyArray, LazyObject, Node, OwnedLazyValue};
use crate::integer::Integer;
use crate::made::MadeText;
use crate::raw::RawValue;
use crate::view::OwnedView;
use sonic_error::{Error, ErrorCode, Result};
use sonic_input::JsonSlice;
use sonic_lazy::LazyValue;
use std::alloc::{AllocError, Global};

impl OwnedLazyValue {
    /// An equal value: opened as far as this one is, with the same text.
    ///
    /// The only error is `ErrorCode::NoMemory`.
    pub fn clone(&self, alloc: Global) -> Result<OwnedLazyValue>
        ensures ok { IfOk result (λ made. form made ≡ form self.now) }
        ensures err { IfErr result (λ error. IsPlainError error ErrorCode.NoMemory) }
    {
        let mut level = match begin(self, alloc)? {
            Copying::Whole(made) => return Ok(made),
            begun => begun,
        };
        // The levels that are open wait here, so that none is too deep.
        let mut opened = Vec::new(alloc);
        'levels: loop {
            if let Some(inner) = level.next(alloc)? {
                opened.push(level).or(Err(AllocError))?;
                level = inner;
                continue;
            }
            let made = level.close();
            let Some(outer) = opened.pop() else {
                return Ok(made);
            };
            level = outer;
            level.put(made, alloc)?;
        }
    }
}

impl OwnedView<'_> {
    /// A value that means the same and isn't opened: its text is that of this one, byte for byte.
    ///
    /// The only error is `ErrorCode::NoMemory`. Of a value that was opened to `{"a":[1, 2]}` it is the
    /// text `{"a":[1, 2]}`.
    pub fn closed(&self, alloc: Global) -> Result<OwnedLazyValue>
        ensures ok { IfOk result (λ made. form made ≡ raw (text (view_form self.now))) }
        ensures err { IfErr result (λ error. IsPlainError error ErrorCode.NoMemory) }
    {
        let value: &OwnedLazyValue = match self {
            OwnedView::Node(value) => value,
            OwnedView::Raw(value) => return OwnedLazyValue::from_lazy(alloc, value),
        };
        match &value.node {
            Node::Array(_) | Node::Object(_) => {
                let text = value.to_string(alloc)?;
                let text = JsonSlice::from(text.as_str());
                OwnedLazyValue::from_lazy(alloc, &LazyValue::whole(text, false))
            }
            _ => value.clone(alloc),
        }
    }
}

// A copy that is being made: it is whole, or these items of a level are left, and those before them
// are copied.
#[derive(Drop)]
enum Copying<'a> {
    Whole(OwnedLazyValue),
    Array(&'a [OwnedLazyValue], Vec<OwnedLazyValue>),
    Object(&'a [(MadeText, OwnedLazyValue)], Vec<(MadeText, OwnedLazyValue)>),
}

// Begins a copy: of a scalar it is whole.
#[inline(always)]
fn begin(value: &OwnedLazyValue, alloc: Global) -> Result<Copying<'_>>
    ensures same { IfOk result (λ begun. copied_form begun ≡ form value.now) }
    ensures less { IfOk result (λ begun. copying_bulk begun < bulk (form value.now)) }
    ensures err { IfErr result (λ error. IsPlainError error ErrorCode.NoMemory) }
{
    let node = match &value.node {
        Node::Null => Node::Null,
        Node::Bool(truth) => Node::Bool(*truth),
        Node::Integer(integer) => Node::Integer(Integer { kept: integer.kept }),
        Node::Text(text) => Node::Text(text.clone(alloc)?),
        Node::Raw(raw) => Node::Raw(RawValue {
            text: raw.text.clone(alloc)?,
            has_escaped: raw.has_escaped,
        }),
        Node::Array(level) => {
            let made = Vec::with_capacity(alloc, level.elements.len())?;
            return Ok(Copying::Array(&level.elements, made));
        }
        Node::Object(level) => {
            let made = Vec::with_capacity(alloc, level.members.len())?;
            return Ok(Copying::Object(&level.members, made));
        }
    };
    Ok(Copying::Whole(OwnedLazyValue { node }))
}

impl<'a> Copying<'a> {
    // Copies the items that are left up to the first that is a level, and begins a copy of that.
    fn next(&mut self, alloc: Global) -> Result<Option<Copying<'a>>>
        ensures same { OnOk result (copied_form self.new ≡ copied_form self.old) }
        ensures next { IfOk result (λ begun. option_map copied_form begun ≡ next_form self.new) }
        ensures less { IfOk result (λ begun. IfSome begun (λ inner.
            copying_bulk inner + waiting_bulk self.new < copying_bulk self.old)) }
        ensures err { IfErr result (λ error. IsPlainError error ErrorCode.NoMemory) }
    {
        'items: while let Some(item) = self.first() {
            match begin(item, alloc)? {
                Copying::Whole(made) => self.put(made, alloc)?,
                inner => return Ok(Some(inner)),
            }
        }
        Ok(None)
    }

    // The first item that is left.
    fn first(&self) -> Option<&'a OwnedLazyValue>
        ensures next { option_map (λ item. form item.now) result ≡ next_form self.now }
        ensures less { IfSome result (λ item.
            copying_bulk self.now ≡ waiting_bulk self.now + bulk (form item.now)) }
    {
        match self {
            Copying::Whole(_) => None,
            Copying::Array(elements, _) => elements.first(),
            Copying::Object(members, _) => match members.first() {
                Some((_, value)) => Some(value),
                None => None,
            },
        }
    }

    // Puts a copy of that item to the others.
    #[inline(always)]
    fn put(&mut self, item: OwnedLazyValue, alloc: Global) -> std::result::Result<(), AllocError>
        requires { next_form self.old ≡ Some (form item) }
        ensures { OnOk result (HasCopied self.old (form item) self.new) }
    {
        match self {
            Copying::Whole(_) => (),
            Copying::Array(elements, made) => {
                made.push(item)?;
                *elements = &elements[1..];
            }
            Copying::Object(members, made) => {
                made.push((members[0].0.clone(alloc)?, item))?;
                *members = &members[1..];
            }
        }
        Ok(())
    }

    // The copy, where no item is left.
    fn close(self) -> OwnedLazyValue
        ensures { next_form self.entry ≡ None → form result ≡ copied_form self.entry }
    {
        match self {
            Copying::Whole(made) => made,
            Copying::Array(_, elements) => OwnedLazyValue {
                node: Node::Array(LazyArray { elements }),
            },
            Copying::Object(_, members) => OwnedLazyValue {
                node: Node::Object(LazyObject { members }),
            },
        }
    }
}
