// Text that is written piece by piece.
ghost use Rattle.std.specs.Prelude.{◌≡◌, ◌≤◌, ◌+◌, IfOk, IfSome};
ghost use Rattle.std.specs.Fmt.{WritesOnOk};
ghost use Rattle.sonic_owned.specs.Forms.{text};
ghost use Rattle.sonic_owned.specs.Internal.Unwritten.{item_left, items_left, left_text, level_left, text_left};
ghost use Rattle.sonic_owned.specs.Writing.{WritesUpTo};
ghost use Rattle.sonic_owned.specs.Internal.Bulks.{members_bulk, bulk};
ghost use Rattle.sonic_owned.specs.Views.{form};

use super::{Node, OwnedLazyValue};
use crate::made::MadeText;
use sonic_text::write_quoted;
use std::alloc::Global;
use std::fmt;
use std::fmt::Write;

// The items of a level that are still to be written, whether some were, and where the memory of the
// level came from.
#[derive(Clone, Copy)]
pub(super) enum Unwritten<'a> {
    Elements(&'a [OwnedLazyValue], bool, Global),
    Members(&'a [(MadeText, OwnedLazyValue)], bool, Global),
}

impl<'a> Unwritten<'a> {
    // Writes the items that are left up to the first that is a level, and begins that. After the last
    // item it is the closing bracket.
    fn next_level<W: Write>(
        &mut self,
        f: &mut fmt::Formatter<W>,
    ) -> Result<Option<Unwritten<'a>>, fmt::Error>
        ensures text { WritesUpTo W.Write.write_str_gives f.old (left_text self.old)
            (level_left self.new) result f.new }
        ensures less { IfOk result (λ found. IfSome found (λ inner.
            3 + members_bulk (items_left inner) + members_bulk (items_left self.new)
            ≤ members_bulk (items_left self.old))) }
    {
        'items: while let Some(item) = self.next(f)? {
            if let Some(inner) = begin(item, f)? {
                return Ok(Some(inner));
            }
        }
        Ok(None)
    }

    // Writes all that stands before the value of the next item, and gives that value. After the last
    // item it is the closing bracket. The first element has an arm of its own, since to write a comma or
    // nothing takes as long as a short number.
    #[inline(always)]
    fn next<W: Write>(
        &mut self,
        f: &mut fmt::Formatter<W>,
    ) -> Result<Option<&'a OwnedLazyValue>, fmt::Error>
        ensures text { WritesUpTo W.Write.write_str_gives f.old (left_text self.old)
            (item_left self.new) result f.new }
        ensures less { IfOk result (λ found. IfSome found (λ item.
            bulk (form item.now) + members_bulk (items_left self.new)
            ≡ members_bulk (items_left self.old))) }
    {
        match self {
            Unwritten::Elements([element, rest @ ..], false, alloc) => {
                *self = Unwritten::Elements(rest, true, *alloc);
                Ok(Some(element))
            }
            Unwritten::Elements([element, rest @ ..], true, alloc) => {
                f.write_str(",")?;
                *self = Unwritten::Elements(rest, true, *alloc);
                Ok(Some(element))
            }
            Unwritten::Members([(key, value), rest @ ..], more, alloc) => {
                f.write_str(if *more { "," } else { "" })?;
                write_quoted(key.text.as_str(), f)?;
                f.write_str(":")?;
                *self = Unwritten::Members(rest, true, *alloc);
                Ok(Some(value))
            }
            Unwritten::Elements(_, _, _) => {
                f.write_str("]")?;
                Ok(None)
            }
            Unwritten::Members(_, _, _) => {
                f.write_str("}")?;
                Ok(None)
            }
        }
    }
}

// Begins the text of a value: of a level it is the opening bracket, and else all.
#[inline(always)]
pub(super) fn begin<'a, W: Write>(
    value: &'a OwnedLazyValue,
    f: &mut fmt::Formatter<W>,
) -> Result<Option<Unwritten<'a>>, fmt::Error>
    ensures text { WritesUpTo W.Write.write_str_gives f.old (text (form value.now)) text_left
        result f.new }
    ensures less { IfOk result (λ found. IfSome found (λ left.
        3 + members_bulk (items_left left) ≡ bulk (form value.now))) }
{
    match &value.node {
        Node::Null => f.write_str("null")?,
        Node::Bool(true) => f.write_str("true")?,
        Node::Bool(false) => f.write_str("false")?,
        Node::Integer(integer) => write!(f, "{integer}")?,
        Node::Text(text) => write_quoted(text.text.as_str(), f)?,
        Node::Raw(raw) => f.write_str(raw.text.as_str())?,
        Node::Array(level) => {
            f.write_str("[")?;
            let alloc = *level.elements.allocator();
            return Ok(Some(Unwritten::Elements(&level.elements, false, alloc)));
        }
        Node::Object(level) => {
            f.write_str("{")?;
            let alloc = *level.members.allocator();
            return Ok(Some(Unwritten::Members(&level.members, false, alloc)));
        }
    }
    Ok(None)
}

// Writes what is left of a level. The levels that are open wait in a vector, so that none is too deep
// while there is memory for it. It calls itself only where memory runs out.
pub(super) fn show_left<W: Write>(left: Unwritten<'_>, f: &mut fmt::Formatter<W>) -> fmt::Result
    ensures { WritesOnOk W.Write.write_str_gives f.old result (left_text left.entry) f.new }
{
    let alloc = match left {
        Unwritten::Elements(_, _, alloc) => alloc,
        Unwritten::Members(_, _, alloc) => alloc,
    };
    let mut opened = Vec::new(alloc);
    let mut level = Some(left);
    'levels: while let Some(mut left) = level {
        let Some(inner) = left.next_level(f)? else {
            level = opened.pop();
            continue;
        };
        if opened.push(left).is_ok() {
            level = Some(inner);
        } else {
            show_left(inner, f)?;
            level = Some(left);
        }
    }
    Ok(())
}
