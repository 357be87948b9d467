//! What the command `gen` writes: a report over a document that it makes itself.
ghost use Rattle.std.specs.Prelude.{◌≡◌, ◌++◌, string_bytes, count_by, sum_by, codes, IfOk, OnOk};
ghost use Rattle.std.specs.Fmt.{decimal};
ghost use Rattle.sonic_find.specs.Documents.{IsValidDocument};
ghost use Rattle.sonic_text.specs.Documents.{StartsWithUtf8Value};
ghost use Rattle.sonic_reports.specs.Commands.Generated.{IsGenReport, generated, record_text, separator, mark, asked_paths, is_found};
ghost use Rattle.sonic_reports.specs.Internal.Counted.{value_length, counts_of_values};
ghost use Rattle.sonic_reports.specs.Internal.Replies.{text_of};

use crate::commands::get::report_answer;
use crate::reply::Reply;
use crate::status::Status;
use sonic_lazy::{LazyValue, get_many, get_many_unchecked, validate};
use sonic_pointer::{PathError, PointerTree, pointer};
use std::alloc::{AllocError, Global};
use std::borrow::CowStr;

// The most bytes of an object with a comma before it, where there are no more than a million.
const ROOM: usize = 67;

// The report over so many objects. All memory that it takes is taken here.
pub(crate) fn report<'i>(alloc: Global, count: u32) -> Result<Reply<'i>, AllocError>
    ensures { IfOk result (λ reply. IsGenReport count (text_of reply) reply.status) }
{
    let document = generate(alloc, count)?;
    match validate(alloc, document.as_slice()) {
        Ok(()) => report_valid(alloc, count, document.as_slice()),
        Err(error) => report_answer(alloc, Err(error)),
    }
}

// The document of so many objects.
fn generate(alloc: Global, count: u32) -> Result<Vec<u8>, AllocError>
    ensures { IfOk result (λ text. text.items ≡ generated count) }
{
    let mut text = Vec::with_capacity(alloc, count as usize * ROOM + 2)?;
    text.push(b'[')?;
    for number in 0..count {
        push_record(&mut text, number)?;
    }
    text.push(b']')?;
    Ok(text)
}

// Appends the object with this number, and a comma before it where it isn't the first.
fn push_record(text: &mut Vec<u8>, number: u32) -> Result<(), AllocError>
    ensures { OnOk result (text.new.items ≡ text.old.items ++ separator number ++ record_text number) }
{
    let mut digits = itoa::Buffer::new();
    let digits = digits.format(number).as_bytes();
    text.extend_from_slice(separator(number))?;
    text.extend_from_slice(b"{\"id\":")?;
    text.extend_from_slice(digits)?;
    text.extend_from_slice(b",\"name\":\"n\\\"")?;
    text.extend_from_slice(digits)?;
    text.extend_from_slice(b"\",\"tags\":[")?;
    text.extend_from_slice(digits)?;
    text.extend_from_slice(b", \"x\\\\\"],\"ok\":")?;
    text.extend_from_slice(mark(number))?;
    text.push(b'}')?;
    Ok(())
}

// What stands before the object with this number.
fn separator(number: u32) -> &'static [u8]
    ensures { result.now ≡ separator number }
{
    if number == 0 { b"" } else { b"," }
}

// How the object with this number is marked.
fn mark(number: u32) -> &'static [u8]
    ensures { result.now ≡ mark number }
{
    if number % 2 == 0 { b"true" } else { b"false" }
}

// The report over a valid document of so many objects.
fn report_valid<'i>(alloc: Global, count: u32, document: &[u8]) -> Result<Reply<'i>, AllocError>
    requires is { document.now ≡ generated count }
    requires valid { IsValidDocument document.now }
    requires starts { StartsWithUtf8Value document.now }
    ensures { IfOk result (λ reply. IsGenReport count (text_of reply) reply.status) }
{
    let Ok(tree) = asked_paths(alloc, count) else {
        return Err(AllocError);
    };
    let checked = match get_many(alloc, document, &tree) {
        Ok(values) => values,
        Err(error) => return report_answer(alloc, Err(error)),
    };
    let unchecked = match get_many_unchecked(alloc, document, &tree) {
        Ok(values) => values,
        Err(error) => return report_answer(alloc, Err(error)),
    };
    let len = document.len();
    let checked = counts(alloc, &checked)?;
    let unchecked = counts(alloc, &unchecked)?;
    let text = format!(in alloc;
        "objects {count}\nbytes {len}\nchecked {checked}\nunchecked {unchecked}\n"
    )?;
    Ok(Reply::one(alloc, Status::Done, CowStr::Owned(text)))
}

// The paths that are asked for. None is refused unless memory runs out: indexes come first in all of
// them, and then keys.
fn asked_paths(alloc: Global, count: u32) -> Result<PointerTree, PathError>
    ensures { IfOk result (λ tree. tree ≡ asked_paths count) }
{
    let last = count.saturating_sub(1) as usize;
    let mut tree = PointerTree::new(alloc);
    tree.add_path(alloc, &pointer![last, "name"])?;
    tree.add_path(alloc, &pointer![0usize, "id"])?;
    tree.add_path(alloc, &pointer![last, "missing"])?;
    tree.add_path(alloc, &pointer![last])?;
    Ok(tree)
}

// How many values there are, how many are absent, and how long the texts are together.
fn counts(alloc: Global, values: &[Option<LazyValue<'_>>]) -> Result<String, AllocError>
    ensures { IfOk result (λ text. string_bytes text ≡ counts_of_values values.now) }
{
    let found = found(values);
    let absent = values.len() - found;
    let length = length(values);
    let text = format!(in alloc; "{found} {absent} {length}")?;
    Ok(text)
}

// How many values there are.
fn found(values: &[Option<LazyValue<'_>>]) -> usize
    ensures { result ≡ count_by is_found values.now }
{
    let mut found = 0;
    for value in values {
        if value.is_some() {
            found += 1;
        }
    }
    found
}

// How long the texts of the values are together. Their number and the lengths have 64 bits each.
fn length(values: &[Option<LazyValue<'_>>]) -> u128
    ensures { result ≡ sum_by value_length values.now }
{
    let mut length: u128 = 0;
    for value in values {
        length += text_len(value) as u128;
    }
    length
}

// How long the text of a value is, if there is one.
fn text_len(value: &Option<LazyValue<'_>>) -> usize
    ensures { result ≡ value_length value.now }
{
    match value {
        Some(value) => value.as_raw_str().len(),
        None => 0,
    }
}
