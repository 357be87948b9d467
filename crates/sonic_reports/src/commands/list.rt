//! What the command `list` writes of an input: the items of the container that it is.
ghost use Rattle.std.specs.Prelude.{◌≡◌, IfOk};
ghost use Rattle.sonic_lazy.specs.LazyValues.{raw_bytes};
ghost use Rattle.sonic_text.specs.declared.kind.Kind.{Kind};
ghost use Rattle.sonic_reports.specs.Commands.Items.{IsListReport, listed_kind};
ghost use Rattle.sonic_reports.specs.Internal.Listed.{AreListed};
ghost use Rattle.sonic_reports.specs.Internal.Replies.{text_of};

use crate::error_line::error_line;
use crate::reply::{Lines, Reply};
use crate::status::Status;
use sonic_error::Error;
use sonic_lazy::{LazyValue, to_array_iter, to_object_iter};
use sonic_text::{Kind, byte_at, skip_space};
use std::alloc::{AllocError, Global};
use std::borrow::CowStr;

// The items of a container as far as they fit, and the error that ends them, if one does.
#[derive(Drop)]
pub(crate) struct Listed<'i> {
    pub(crate) lines: Lines<'i>,
    pub(crate) error: Option<Error>,
}

impl<'i> Listed<'i> {
    fn new(lines: Lines<'i>, error: Option<Error>) -> Listed<'i>
        ensures { result ≡ record { lines = lines.entry; error = error } }
    {
        Listed { lines, error }
    }
}

// The report of an input. All memory that it takes is taken here.
pub(crate) fn report<'i>(alloc: Global, input: &'i [u8]) -> Result<Reply<'i>, AllocError>
    ensures { IfOk result (λ reply. IsListReport input.now (text_of reply) reply.status) }
{
    let Listed { lines, error } = items(alloc, input)?;
    match error {
        Some(error) => {
            let line = error_line(alloc, &error)?;
            Reply::of_lines(alloc, Status::DocumentError, lines, line)
        }
        None => Reply::of_lines(alloc, Status::Done, lines, CowStr::Borrowed("")),
    }
}

// The items of the container that is listed.
fn items<'i>(alloc: Global, input: &'i [u8]) -> Result<Listed<'i>, AllocError>
    ensures { IfOk result (AreListed input.now (listed_kind input.now)) }
{
    match listed_kind(input) {
        Kind::Array => elements(alloc, input),
        Kind::Object => members(alloc, input),
    }
}

// The kind of container that is listed.
fn listed_kind(input: &[u8]) -> Kind
    ensures { result ≡ listed_kind input.now }
{
    match byte_at(input, skip_space(input, 0)) {
        b'{' => Kind::Object,
        _ => Kind::Array,
    }
}

// The elements of an array.
fn elements<'i>(alloc: Global, input: &'i [u8]) -> Result<Listed<'i>, AllocError>
    ensures { IfOk result (AreListed input.now Kind.Array) }
{
    let mut listed = Vec::new(alloc);
    let mut elements = to_array_iter(alloc, input);
    'elements: while let Some(element) = elements.next() {
        match element {
            Ok(value) => listed.push(borrowed_text(&value))?,
            Err(error) => return Ok(Listed::new(Lines::Texts(listed), Some(error))),
        }
    }
    Ok(Listed::new(Lines::Texts(listed), None))
}

// The members of an object.
fn members<'i>(alloc: Global, input: &'i [u8]) -> Result<Listed<'i>, AllocError>
    ensures { IfOk result (AreListed input.now Kind.Object) }
{
    let mut listed = Vec::new(alloc);
    let mut members = to_object_iter(alloc, input);
    'members: while let Some(member) = members.next() {
        match member {
            Ok((key, value)) => listed.push((key, borrowed_text(&value)))?,
            Err(error) => return Ok(Listed::new(Lines::Members(listed), Some(error))),
        }
    }
    Ok(Listed::new(Lines::Members(listed), None))
}

// The text of a value, as long as the input lives: a third of what the value takes.
fn borrowed_text<'i>(value: &LazyValue<'i>) -> &'i str
    ensures { result.now ≡ raw_bytes value.now }
{
    match value.as_raw_cow() {
        CowStr::Borrowed(text) => text,
        CowStr::Owned(_) => unreachable!(),
    }
}
