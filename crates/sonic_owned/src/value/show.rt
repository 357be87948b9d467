// The text of a value, written piece by piece.
ghost use Rattle.std.specs.Prelude.{◌≡◌, ◌↔◌, ◌++◌, ◌∷◌, [], None, string_bytes, IfOk, IfErr, IsSome, OnErr};
ghost use Rattle.std.specs.Cow.{cow_str_bytes, IsBorrowedStr};
ghost use Rattle.std.specs.Fmt.{WritesOnOk};
ghost use Rattle.sonic_error.specs.Errors.{IsPlainError};
ghost use Rattle.sonic_owned.specs.Forms.{text, members_text, unnamed, named};
ghost use Rattle.sonic_owned.specs.Seen.{view_form, view_read};
ghost use Rattle.sonic_owned.specs.Views.{form, elements, members};

use super::unwritten::{Unwritten, begin, show_left};
use super::{LazyArray, LazyObject, Node, OwnedLazyValue};
use crate::view::OwnedView;
use sonic_error::{Error, ErrorCode, Result};
use std::alloc::Global;
use std::borrow::CowStr;
use std::fmt;
use std::fmt::Write;

impl OwnedLazyValue {
    /// The text of the value: what was never opened as it is, and a level that was opened without
    /// white space.
    ///
    /// The only error is `ErrorCode::NoMemory`. Of `{"\/" : 1}` it is `{"\/" : 1}`, and after
    /// the value was opened `{"/":1}`.
    pub fn to_string(&self, alloc: Global) -> Result<String>
        ensures ok { IfOk result (λ made. string_bytes made ≡ text (form self.now)) }
        ensures err { IfErr result (λ error. IsPlainError error ErrorCode.NoMemory) }
    {
        match format!(in alloc; "{self}") {
            Ok(text) => Ok(text),
            Err(_) => Err(Error::plain(ErrorCode::NoMemory)),
        }
    }
}

impl<'a> OwnedView<'a> {
    /// The text of the value, as [`OwnedLazyValue::to_string`] writes it.
    ///
    /// A text that was read and isn't opened is borrowed. Only else memory is taken, and the only error
    /// is `ErrorCode::NoMemory`. Where `["a"]` leads in `{"a":[1, 2]}` it is `[1, 2]`.
    pub fn text(&self, alloc: Global) -> Result<CowStr<'a>>
        ensures ok { IfOk result (λ shown. cow_str_bytes shown ≡ text (view_form self.now)) }
        ensures err { IfErr result (λ error. IsPlainError error ErrorCode.NoMemory) }
        ensures lent { IfOk result (λ shown. IsBorrowedStr shown ↔ IsSome (view_read self.now)) }
        ensures memory { OnErr result (view_read self.now ≡ None) }
    {
        let value: &'a OwnedLazyValue = match self {
            OwnedView::Node(value) => value,
            OwnedView::Raw(value) => return Ok(value.as_raw_cow()),
        };
        match &value.node {
            Node::Raw(raw) => Ok(CowStr::Borrowed(raw.text.as_str())),
            _ => Ok(CowStr::Owned(value.to_string(alloc)?)),
        }
    }
}

/// The text of the value, as [`OwnedLazyValue::to_string`] writes it.
///
/// It fails only where the writer fails. Levels that are begun wait in memory of where the value's own
/// came from. Where that runs out each level more is one call more.
impl fmt::Display for OwnedLazyValue {
    ghost use Rattle.std.specs.Prelude.{Some};
    ghost use Rattle.sonic_owned.specs.Forms.{text};
    ghost use Rattle.sonic_owned.specs.Views.{form};

    ghost output = { λ value. Some (text (form value)) };

    fn fmt<W: Write>(&self, f: &mut fmt::Formatter<W>) -> fmt::Result {
        match begin(self, f)? {
            Some(left) => show_left(left, f),
            None => Ok(()),
        }
    }
}

/// The text of the value, as `Display` writes it.
impl fmt::Debug for OwnedLazyValue {
    ghost use Rattle.std.specs.Prelude.{Some};
    ghost use Rattle.sonic_owned.specs.Forms.{text};
    ghost use Rattle.sonic_owned.specs.Views.{form};

    ghost debug_output = { λ value. Some (text (form value)) };

    fn fmt<W: Write>(&self, f: &mut fmt::Formatter<W>) -> fmt::Result {
        fmt::Display::fmt(self, f)
    }
}

/// The text of the array. It fails only where the writer fails.
impl fmt::Debug for LazyArray {
    ghost use Rattle.std.specs.Prelude.{Some};
    ghost use Rattle.sonic_owned.specs.Forms.{level, text, unnamed};
    ghost use Rattle.sonic_owned.specs.Views.{elements};
    ghost use Rattle.sonic_text.specs.declared.kind.Kind.TheVariants.{Array};

    ghost debug_output = { λ array. Some (text (level Array (unnamed (elements array)))) };

    fn fmt<W: Write>(&self, f: &mut fmt::Formatter<W>) -> fmt::Result {
        f.write_str("[")?;
        let alloc = *self.elements.allocator();
        show_left(Unwritten::Elements(&self.elements, false, alloc), f)
    }
}

/// The text of the object. It fails only where the writer fails.
impl fmt::Debug for LazyObject {
    ghost use Rattle.std.specs.Prelude.{Some};
    ghost use Rattle.sonic_owned.specs.Forms.{level, named, text};
    ghost use Rattle.sonic_owned.specs.Views.{members};
    ghost use Rattle.sonic_text.specs.declared.kind.Kind.TheVariants.{Object};

    ghost debug_output = { λ object. Some (text (level Object (named (members object)))) };

    fn fmt<W: Write>(&self, f: &mut fmt::Formatter<W>) -> fmt::Result {
        f.write_str("{")?;
        let alloc = *self.members.allocator();
        show_left(Unwritten::Members(&self.members, false, alloc), f)
    }
}
