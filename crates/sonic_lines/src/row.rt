// The rows of the lines of a stream.
ghost use Rattle.std.specs.Prelude.{◌≡◌, ◌+◌, ◌-◌, ◌^◌, ◌<◌, ◌≤◌, ◌++◌, ◌∷◌, ◌↔◌, ℕ, List, true, codes, length, drop, slice_range, IfErr, IfOk, IsTrue, OnErr, OnOk, decimal};
ghost use Rattle.std.specs.Str.{IsUtf8};
ghost use Rattle.sonic_error.specs.Errors.{error_code, error_offset};
ghost use Rattle.sonic_parser.specs.Faults.{IsStopFor};
ghost use Rattle.sonic_find.specs.Parts.{AreFoundParts};
ghost use Rattle.sonic_lines.specs.Internal.Rows.{AreWithin, IsMore, IsWithin, columns_of, tab_before};
ghost use Rattle.sonic_lines.specs.LineRows.{AreColumns, AreRows, HasErrorRow, IsErrorLine, IsLineStop, IsRow, apart, outcomes_text, together};
ghost use Rattle.sonic_lines.specs.LineTexts.{counted, error_text, outcome_text};
ghost use Rattle.sonic_lines.specs.Streams.{lines_of};

use crate::short::{SHORT, put_entries};
use memchr::memchr;
use sonic_error::{Error, ErrorCode};
use sonic_find::internal::{fill_buffers, fill_each_buffers};
use sonic_find::{PathOutcome, Span, WalkBuffers};
use sonic_input::JsonInput;
use sonic_parser::Fault;
use sonic_pointer::{KeyRule, PointerTree};
use sonic_text::skip_space;
use std::alloc::{AllocError, Global};

/// Appends the rows of the lines of a stream, before which there were `before` lines: whether one of
/// the rows is an error.
///
/// A line ends with a line feed, and the last one also with the stream. Each is read by itself. A line
/// of white space alone (RFC 8259, section 2) counts, and has no row. The row of another one has an
/// entry for each path of the tree, with a tab between two of them, and a line feed after the last:
/// an entry is the length of the value's text in bytes, a blank and that text, or a dash where an
/// object lacks the path's key. Where a line has no answer, its row is `! N WORD CODE OFFSET`: the
/// number of the line, which is `before + 1` for the first, the family of the error, its code, and
/// its place in the line, in bytes from 0.
///
/// With the path `["id"]` the stream `{"id":7}`, a line feed and `{"id":tru}` has the rows `1 7` and
/// `! 2 syntax InvalidLiteral 9`, and the answer is `true`.
///
/// The only error is that memory ran out, and then `out` is as it was.
pub fn append_rows(
    alloc: Global,
    tree: &PointerTree,
    before: u64,
    stream: &[u8],
    out: &mut Vec<u8>,
) -> Result<bool, AllocError>
    requires { before + length stream.now < 2 ^ 64 - 1 }
    ensures rows { OnOk result ((rows : List ℕ) × AreRows (together tree.now) before stream.now rows
        × (out.new.items ≡ out.old.items ++ rows)) }
    ensures errors { IfOk result (λ some.
        IsTrue some ↔ HasErrorRow (together tree.now) (lines_of stream.now)) }
    ensures same { OnErr result (out.new.items ≡ out.old.items) }
{
    append(alloc, tree, false, &Lines { before, stream }, out)
}

/// Appends the rows of the lines of a stream, in which each path is told where it leads by itself.
///
/// It is [`append_rows`], but for a path that leads nowhere: in its column is an exclamation mark with the
/// code of the error, and the row stands. A row is an error where the line isn't valid JSON before all paths
/// are settled, or isn't UTF-8 as far as they need it.
///
/// With the paths `["level"]` and `["http", "status"]` the line `{"level":"info","http":null}` has the row
/// `6 "info"`, a tab and `!Message`, which is the code of a `null` where an object is wanted.
pub fn append_rows_each(
    alloc: Global,
    tree: &PointerTree,
    before: u64,
    stream: &[u8],
    out: &mut Vec<u8>,
) -> Result<bool, AllocError>
    requires { before + length stream.now < 2 ^ 64 - 1 }
    ensures rows { OnOk result ((rows : List ℕ) × AreRows (apart tree.now) before stream.now rows
        × (out.new.items ≡ out.old.items ++ rows)) }
    ensures errors { IfOk result (λ some.
        IsTrue some ↔ HasErrorRow (apart tree.now) (lines_of stream.now)) }
    ensures same { OnErr result (out.new.items ≡ out.old.items) }
{
    append(alloc, tree, true, &Lines { before, stream }, out)
}

// Appends the rows of lines, with what the paths are told together or each by itself, or nothing where
// memory runs out.
fn append(
    alloc: Global,
    tree: &PointerTree,
    each: bool,
    lines: &Lines<'_>,
    out: &mut Vec<u8>,
) -> Result<bool, AllocError>
    requires { lines.now.before + length lines.now.stream.now < 2 ^ 64 - 1 }
    ensures rows { OnOk result ((rows : List ℕ)
        × AreRows (columns_of tree.now each) lines.now.before lines.now.stream.now rows
        × (out.new.items ≡ out.old.items ++ rows)) }
    ensures errors { IfOk result (λ some.
        IsTrue some ↔ HasErrorRow (columns_of tree.now each) (lines_of lines.now.stream.now)) }
    ensures same { OnErr result (out.new.items ≡ out.old.items) }
{
    let mut buffers = WalkBuffers::new(alloc);
    let written = out.len();
    match add_rows(alloc, &mut buffers, tree, each, lines, out) {
        Ok(has_error) => Ok(has_error),
        Err(error) => {
            out.truncate(written);
            Err(error)
        }
    }
}

// The lines of a stream, before which there were so many.
#[derive(Drop)]
pub(crate) struct Lines<'s> {
    pub(crate) before: u64,
    pub(crate) stream: &'s [u8],
}

// A line with its number, counted from 1, and whether it is known to be UTF-8.
#[derive(Drop)]
pub(crate) struct Line<'s> {
    pub(crate) number: u64,
    pub(crate) text: &'s [u8],
    pub(crate) is_text: bool,
}

// Appends the rows of lines: whether one of them is an error. After running out of memory some rows
// may be appended.
pub(crate) fn add_rows(
    alloc: Global,
    buffers: &mut WalkBuffers,
    tree: &PointerTree,
    each: bool,
    lines: &Lines<'_>,
    out: &mut Vec<u8>,
) -> Result<bool, AllocError>
    requires { lines.now.before + length lines.now.stream.now < 2 ^ 64 - 1 }
    ensures rows { OnOk result ((rows : List ℕ)
        × AreRows (columns_of tree.now each) lines.now.before lines.now.stream.now rows
        × (out.new.items ≡ out.old.items ++ rows)) }
    ensures errors { IfOk result (λ some.
        IsTrue some ↔ HasErrorRow (columns_of tree.now each) (lines_of lines.now.stream.now)) }
    ensures more { IsMore out.old.items out.new.items }
{
    let is_text = simdutf8::is_utf8(lines.stream);
    let mut number = lines.before;
    let mut has_error = false;
    let mut start = 0;
    'line: while start < lines.stream.len() {
        let end = line_end(lines.stream, start);
        number += 1;
        let text = &lines.stream[start..end];
        let line = Line {
            number,
            text,
            is_text,
        };
        if add_row(alloc, buffers, tree, each, &line, out)? {
            has_error = true;
        }
        start = end + 1;
    }
    Ok(has_error)
}

// Where the line ends that begins at a place of the stream.
fn line_end(stream: &[u8], start: usize) -> usize
    requires { start < length stream.now }
    ensures within { (start ≤ result) × (result ≤ length stream.now) }
    ensures line { lines_of (drop start stream.now)
        ≡ slice_range stream.now start result ∷ lines_of (drop (result + 1) stream.now) }
    ensures text { IsUtf8 (drop start stream.now)
        → IsUtf8 (slice_range stream.now start result) × IsUtf8 (drop (result + 1) stream.now) }
{
    match memchr(b'\n', &stream[start..]) {
        Some(n) => start + n,
        None => stream.len(),
    }
}

// Where the paths lead in a line. Where it is known to be UTF-8, nothing looks for that.
#[inline(always)]
fn find_in_line(
    alloc: Global,
    buffers: &mut WalkBuffers,
    tree: &PointerTree,
    each: bool,
    line: &Line<'_>,
) -> Result<(), Fault>
    requires { IsTrue line.now.is_text → IsUtf8 line.now.text.now }
    ensures ok { OnOk result (AreColumns true (columns_of tree.now each) line.now.text.now
        (outcomes_text line.now.text.now buffers.new)) }
    ensures parts { OnOk result (AreFoundParts line.now.text.now buffers.new) }
    ensures err { IfErr result (IsStopFor (IsLineStop true (columns_of tree.now each) line.now.text.now)) }
    ensures within { IfErr result (IsStopFor (λ s. s.place ≤ length line.now.text.now)) }
{
    if !line.is_text {
        return find_in_bytes(alloc, buffers, tree, each, line.text);
    }
    // SAFETY: the line is UTF-8, as it says.
    let text = unsafe { std::str::from_utf8_unchecked(line.text) };
    find(alloc, buffers, tree, each, text)
}

// The same in a line that may be no UTF-8, out of line.
#[inline(never)]
fn find_in_bytes(
    alloc: Global,
    buffers: &mut WalkBuffers,
    tree: &PointerTree,
    each: bool,
    text: &[u8],
) -> Result<(), Fault>
    ensures ok { OnOk result (AreColumns true (columns_of tree.now each) text.now
        (outcomes_text text.now buffers.new)) }
    ensures parts { OnOk result (AreFoundParts text.now buffers.new) }
    ensures err { IfErr result (IsStopFor (IsLineStop true (columns_of tree.now each) text.now)) }
    ensures within { IfErr result (IsStopFor (λ s. s.place ≤ length text.now)) }
{
    find(alloc, buffers, tree, each, text)
}

// Where the paths lead in an input, all together or each by itself.
#[inline(always)]
fn find<'de, I: JsonInput<'de>>(
    alloc: Global,
    buffers: &mut WalkBuffers,
    tree: &PointerTree,
    each: bool,
    json: I,
) -> Result<(), Fault>
    ensures ok { OnOk result (AreColumns I.JsonInput.is_bytes (columns_of tree.now each)
        (I.JsonInput.content json) (outcomes_text (I.JsonInput.content json) buffers.new)) }
    ensures parts { OnOk result (AreFoundParts (I.JsonInput.content json) buffers.new) }
    ensures err { IfErr result (IsStopFor (IsLineStop I.JsonInput.is_bytes (columns_of tree.now each)
        (I.JsonInput.content json))) }
    ensures within { IfErr result (IsStopFor (λ s. s.place ≤ length (I.JsonInput.content json))) }
{
    if each {
        return fill_each_buffers(alloc, buffers, json, tree, KeyRule::First);
    }
    fill_buffers(alloc, buffers, json, tree, KeyRule::First)
}

// Appends the row of one line: whether it is an error. After running out of memory a part of it may
// be appended.
pub(crate) fn add_row(
    alloc: Global,
    buffers: &mut WalkBuffers,
    tree: &PointerTree,
    each: bool,
    line: &Line<'_>,
    out: &mut Vec<u8>,
) -> Result<bool, AllocError>
    requires { IsTrue line.now.is_text → IsUtf8 line.now.text.now }
    ensures row { OnOk result ((row : List ℕ)
        × IsRow (columns_of tree.now each) line.now.number line.now.text.now row
        × (out.new.items ≡ out.old.items ++ row)) }
    ensures error { IfOk result (λ some.
        IsTrue some ↔ IsErrorLine (columns_of tree.now each) line.now.text.now) }
    ensures more { IsMore out.old.items out.new.items }
{
    let text = line.text;
    if skip_space(text, 0) == text.len() {
        return Ok(false);
    }
    match find_in_line(alloc, buffers, tree, each, line) {
        Ok(()) => {
            add_entries(text, buffers, out)?;
            Ok(false)
        }
        Err(fault) => {
            add_error(line.number, &fault.error(text), out)?;
            Ok(true)
        }
    }
}

// Appends the entries of a line, with a tab between two of them. Mostly they are few and short, and
// then they are put together first and appended at once.
fn add_entries(line: &[u8], buffers: &WalkBuffers, out: &mut Vec<u8>) -> Result<(), AllocError>
    requires { AreWithin line.now buffers.now }
    ensures ok { OnOk result (out.new.items
        ≡ out.old.items ++ (outcomes_text line.now buffers.now ++ codes "\n")) }
    ensures more { IsMore out.old.items out.new.items }
{
    let mut short = [0; SHORT];
    match put_entries(&mut short, line, buffers) {
        Some(start) => out.extend_from_slice(&short[start..]),
        None => add_long_entries(line, buffers, out),
    }
}

// Appends the entries one by one.
#[inline(never)]
fn add_long_entries(line: &[u8], buffers: &WalkBuffers, out: &mut Vec<u8>) -> Result<(), AllocError>
    requires { AreWithin line.now buffers.now }
    ensures ok { OnOk result (out.new.items
        ≡ out.old.items ++ (outcomes_text line.now buffers.now ++ codes "\n")) }
    ensures more { IsMore out.old.items out.new.items }
{
    for number in 0..buffers.len() {
        add_tab(number, out)?;
        add_entry(line, buffers.at(number), out)?;
    }
    out.push(b'\n')?;
    Ok(())
}

// Appends a tab, but before the first entry.
fn add_tab(number: usize, out: &mut Vec<u8>) -> Result<(), AllocError>
    ensures ok { OnOk result (out.new.items ≡ out.old.items ++ tab_before number) }
    ensures more { IsMore out.old.items out.new.items }
{
    if 0 < number {
        out.push(b'\t')?;
    }
    Ok(())
}

// Appends one entry.
fn add_entry(line: &[u8], outcome: PathOutcome<Span>, out: &mut Vec<u8>) -> Result<(), AllocError>
    requires { IsWithin line.now outcome }
    ensures ok { OnOk result (out.new.items ≡ out.old.items ++ outcome_text line.now outcome) }
    ensures more { IsMore out.old.items out.new.items }
{
    match outcome {
        PathOutcome::Found(Span { start, end }) => add_counted(&line[start..end], out),
        PathOutcome::Missing(_) => out.extend_from_slice(b"-"),
        PathOutcome::Fails(stop) => {
            out.push(b'!')?;
            out.extend_from_slice(stop.code.name().as_bytes())
        }
    }
}

// Appends a text after its length.
fn add_counted(text: &[u8], out: &mut Vec<u8>) -> Result<(), AllocError>
    ensures ok { OnOk result (out.new.items ≡ out.old.items ++ counted text.now) }
    ensures more { IsMore out.old.items out.new.items }
{
    add_number(text.len(), out)?;
    out.push(b' ')?;
    out.extend_from_slice(text)
}

// Appends a number, which mostly has one digit.
fn add_number(number: usize, out: &mut Vec<u8>) -> Result<(), AllocError>
    ensures ok { OnOk result (out.new.items ≡ out.old.items ++ decimal number) }
    ensures more { IsMore out.old.items out.new.items }
{
    if number < 10 {
        out.push(b'0' + number as u8)?;
        return Ok(());
    }
    let mut digits = itoa::Buffer::new();
    out.extend_from_slice(digits.format(number).as_bytes())
}

// Appends the row of an error, unless memory ran out.
fn add_error(number: u64, error: &Error, out: &mut Vec<u8>) -> Result<(), AllocError>
    ensures ok { OnOk result (out.new.items ≡ out.old.items
        ++ error_text (decimal number ++ codes " ") (error_code error.now) (decimal (error_offset error.now))) }
    ensures memory { OnOk result (error_code error.now ≡ ErrorCode.NoMemory → ⊥) }
    ensures more { IsMore out.old.items out.new.items }
{
    if let ErrorCode::NoMemory = error.code() {
        return Err(AllocError);
    }
    let mut digits = itoa::Buffer::new();
    out.extend_from_slice(b"! ")?;
    out.extend_from_slice(digits.format(number).as_bytes())?;
    out.extend_from_slice(b" ")?;
    out.extend_from_slice(error.classify().word().as_bytes())?;
    out.extend_from_slice(b" ")?;
    out.extend_from_slice(error.code().name().as_bytes())?;
    out.extend_from_slice(b" ")?;
    out.extend_from_slice(digits.format(error.offset()).as_bytes())?;
    out.extend_from_slice(b"\n")?;
    Ok(())
}
