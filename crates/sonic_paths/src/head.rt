// Heads of lines, whatever the lines say: where they end, and where the document begins.
ghost use Rattle.std.specs.Prelude.{◌≡◌, ◌≤◌, [], ℕ, List, length, IsTrue, IfOk, OnErr, IsFalse};
ghost use Rattle.sonic_paths.specs.Heads.{line_end, IsBlank, IsHead, IsBad, EndsHead, StopsInHead};

use sonic_text::skip_space;
use std::alloc::{AllocError, Global};

/// What the lines of a head are read into, one after the other.
///
/// An implementor says what a line says. A tree of paths is one: each line says a path, which the
/// tree then holds at its end.
pub trait LineReader {
    // The kind of what is said.
    ghost Said: { Type 0 };

    // What the lines that were read say.
    ghost said: { Self → Said };

    // What was said before a line, the line, and what is said with it.
    ghost says: { Said → List ℕ → Said → Type 0 };

    /// Takes what a line says, unless it says nothing.
    ///
    /// `Ok(true)` if it was taken, and `Ok(false)` if the line is bad, which changes nothing. The
    /// only error is that memory ran out, which changes nothing either. A line ends before its line
    /// feed.
    fn read_line(&mut self, alloc: Global, line: &[u8]) -> Result<bool, AllocError>
        ensures good { IfOk result (λ good.
            IsTrue good → says (said self.old) line.now (said self.new)) }
        ensures bad { IfOk result (λ good. IsFalse good → IsBad says (said self.old) line.now) }
        ensures kept { IfOk result (λ good. IsFalse good → said self.new ≡ said self.old) }
        ensures short { OnErr result (said self.new ≡ said self.old) };
}

/// How the head of an input ends.
#[derive(Clone, Copy, Debug, PartialEq, Eq)]
pub enum HeadEnd {
    /// Each line says something, and the document begins at this offset, in bytes from 0.
    Document(usize),
    /// The line with this number, from 1, is the first that says nothing.
    Bad(usize),
}

/// Reads the lines of an input up to the first line of white space alone, or to its end.
///
/// Each is read by `reader.read_line`, in order, up to the first that is bad: the reader is then as
/// after the lines before it. The document begins after the line of white space; where none comes,
/// it is empty. So of `[0]\n\n[7]` a tree of paths takes the path `[0]`, and the document begins at
/// 5.
///
/// The only error is that memory ran out. The reader is then as before the line for which it did:
/// all lines before that one are read.
pub fn read_head<R: LineReader>(
    alloc: Global,
    input: &[u8],
    reader: &mut R,
) -> Result<HeadEnd, AllocError>
    ensures ends { IfOk result (EndsHead R.says input.now (R.said reader.old) (R.said reader.new)) }
    ensures short { OnErr result (StopsInHead R.says input.now (R.said reader.old)
        (R.said reader.new)) }
{
    let mut start = 0;
    let mut number = 1;
    'lines: loop {
        let end = find_line_end(input, start);
        if is_blank(input, start, end) {
            return Ok(HeadEnd::Document(document_start(input, start, end)));
        }
        if !reader.read_line(alloc, &input[start..end])? {
            return Ok(HeadEnd::Bad(number));
        }
        if end == input.len() {
            return Ok(HeadEnd::Document(end));
        }
        start = end + 1;
        number += 1;
    }
}

/// The end of the line that begins at `start`: the offset of its line feed, or the end of the input.
///
/// Offsets are in bytes, from 0. Of `[0]\n[1]` the line that begins at 0 ends at 3, and the one that
/// begins at 4 ends at 7.
pub fn find_line_end(input: &[u8], start: usize) -> usize
    requires { start ≤ length input.now }
    ensures place { result ≡ line_end input.now start }
    ensures within { result ≤ length input.now }
{
    let mut place = start;
    while place < input.len() && input[place] != b'\n' {
        place += 1;
    }
    place
}

// Whether the line from `start` to `end` has nothing but white space in it (RFC 8259, section 2).
fn is_blank(input: &[u8], start: usize, end: usize) -> bool
    requires within { start ≤ length input.now }
    requires line { end ≡ line_end input.now start }
    ensures blank { IsTrue result → IsBlank input.now start }
    ensures text { IsFalse result → ¬ IsBlank input.now start }
{
    end <= skip_space(input, start)
}

// Where the document begins after the blank line from `start` to `end`: after its line feed, or at
// the end of the input.
#[tactic(auto, using(crate::proofs::HeadLemmas::document_heads))]
fn document_start(input: &[u8], start: usize, end: usize) -> usize
    requires within { end ≤ length input.now }
    requires line { end ≡ line_end input.now start }
    requires blank { IsBlank input.now start }
    ensures { IsHead input.now start [] result }
{
    if end < input.len() { end + 1 } else { end }
}
