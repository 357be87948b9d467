ghost use Rattle.std.specs.Prelude.{◌≡◌, ◌+◌, ◌-◌, ◌≤◌, length, take, count_by, slice_range, Some};
ghost use Rattle.std.specs.List.{after_last};
ghost use Rattle.sonic_error.specs.Places.{is_line_feed, fragment_start, fragment_end};
ghost use Rattle.sonic_error.specs.Texts.{dots, mask_text};
ghost use Rattle.sonic_error.specs.declared.fragment.TheConstants.{FRAGMENT_ROOM};

use crate::fragment::{FRAGMENT_ROOM, Lossy, end_of_fragment, fragment_of, start_of_fragment};
use sonic_blocks::internal::count_of;
use std::fmt;

/// A place in a text, with the bytes round it, so that it is printed without the text.
///
/// `fragment` holds the text's bytes from `start` to `end`, and zeros after them.
#[derive(Clone, Copy, PartialEq, Eq)]
pub(crate) struct Position {
    pub(crate) offset: usize,
    pub(crate) line: usize,
    pub(crate) column: usize,
    start: usize,
    end: usize,
    fragment: [u8; FRAGMENT_ROOM],
    ghost before: { start ≤ offset },
    ghost after: { offset ≤ end },
    ghost room: { end - start ≤ FRAGMENT_ROOM },
}

impl Position {
    /// The position of the byte at `offset`, which is the length only where the text is empty.
    pub(crate) fn new(json: &[u8], offset: usize) -> Position
        requires { offset ≤ length json.now }
        ensures offset { result.offset ≡ offset }
        ensures line { result.line ≡ 1 + count_by is_line_feed (take offset json.now) }
        ensures column { result.column ≡ 1 + length (after_last is_line_feed (take offset json.now)) }
        ensures start { result.start ≡ fragment_start json.now offset }
        ensures end { result.end ≡ fragment_end json.now offset }
        ensures fragment { let kept = take (result.end - result.start) result.fragment in
            kept ≡ slice_range json.now result.start result.end }
    {
        let start = start_of_fragment(json, offset);
        let end = end_of_fragment(json, offset);
        Position {
            offset,
            line: line_at(json, offset),
            column: column_at(json, offset),
            start,
            end,
            fragment: fragment_of(&json[start..end]),
        }
    }
}

// The line of the byte at `offset`.
fn line_at(json: &[u8], offset: usize) -> usize
    requires { offset ≤ length json.now }
    ensures { result ≡ 1 + count_by is_line_feed (take offset json.now) }
{
    1 + count_of(&json[..offset], b'\n')
}

// The start of the line of the byte at `offset`, looked for from there back.
fn line_start(json: &[u8], offset: usize) -> usize
    requires { offset ≤ length json.now }
    ensures within { result ≤ offset }
    ensures start { offset - result ≡ length (after_last is_line_feed (take offset json.now)) }
{
    let mut start = offset;
    while start > 0 && json[start - 1] != b'\n' {
        start -= 1;
    }
    start
}

// The column of the byte at `offset`: carriage returns count as any other byte.
fn column_at(json: &[u8], offset: usize) -> usize
    requires { offset ≤ length json.now }
    ensures { result ≡ 1 + length (after_last is_line_feed (take offset json.now)) }
{
    1 + (offset - line_start(json, offset))
}

impl fmt::Display for Position {
    ghost use Rattle.sonic_error.specs.Errors.{kept_text};

    ghost output = { λ position. Some (kept_text position) };

    fn fmt<W: fmt::Write>(&self, f: &mut fmt::Formatter<W>) -> fmt::Result {
        let fragment = Lossy(&self.fragment[..self.end - self.start]);
        let mask = Mask {
            before: self.offset - self.start,
            after: (self.end - self.offset).saturating_sub(1),
        };
        write!(f, " at line {} column {}", self.line, self.column)?;
        write!(f, "\n\n\t{fragment}\n\t{mask}\n")
    }
}

// A line that points at one byte of the line above it.
#[derive(Clone, Copy)]
struct Mask {
    before: usize,
    after: usize,
}

impl fmt::Display for Mask {
    ghost output = { λ mask. Some (mask_text mask.before mask.after) };

    fn fmt<W: fmt::Write>(&self, f: &mut fmt::Formatter<W>) -> fmt::Result {
        write!(f, "{}^{}", Dots(self.before), Dots(self.after))
    }
}

// So many dots.
#[derive(Clone, Copy)]
struct Dots(usize);

impl fmt::Display for Dots {
    ghost output = { λ shown. Some (dots shown.0) };

    fn fmt<W: fmt::Write>(&self, f: &mut fmt::Formatter<W>) -> fmt::Result {
        for _dot in 0..self.0 {
            f.write_str(".")?;
        }
        Ok(())
    }
}
