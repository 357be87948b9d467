// A stream that comes in pieces.
ghost use Rattle.std.specs.Prelude.{◌≡◌, ◌+◌, ◌-◌, ◌^◌, ◌<◌, ◌≤◌, ◌++◌, ℕ, List, drop, length, take, IfErr, OnErr, OnOk};
ghost use Rattle.sonic_error.specs.Errors.{IsPlainError};
ghost use Rattle.sonic_lines.specs.Internal.Rows.{IsMore};
ghost use Rattle.sonic_lines.specs.LineRows.{AreRows, IsRow, apart, together};
ghost use Rattle.sonic_lines.specs.Pieces.{IsFed, begun};
ghost use Rattle.sonic_lines.specs.Streams.{EndsLines, IsOneLine};

use crate::row::{Line, Lines, add_row, add_rows};
use memchr::{memchr, memrchr};
use sonic_blocks::internal::count_of;
use sonic_error::{Error, ErrorCode, Result};
use sonic_find::WalkBuffers;
use sonic_pointer::PointerTree;
use std::alloc::{AllocError, Global};
use std::marker::Model;

/// The rows of a stream of lines that comes in pieces, as a log that is still being written.
///
/// The stream has a value in each line, which many call NDJSON or JSON Lines. Its rows are what
/// [`append_rows`](crate::append_rows) appends of the whole stream, however it is cut. A piece may end
/// anywhere, inside an escape or a char too. Lines that lie whole in a piece are read where they are,
/// and nothing of the stream is kept but what follows its last line feed, up to the piece that ends that
/// line.
///
/// ```text
/// let mut tree = PointerTree::new(alloc);
/// tree.add_path(alloc, &pointer!["id"])?;
/// let (mut rows, mut out) = (Rows::new(alloc, tree), Vec::new(alloc));
/// rows.feed(alloc, b"{\"id\":7}\n{\"i", &mut out)?;
/// assert_eq!(rt; out.as_slice(), b"1 7\n");
/// rows.feed(alloc, b"d\":80}", &mut out)?;
/// rows.finish(alloc, &mut out)?;
/// assert_eq!(rt; out.as_slice(), b"1 7\n2 80\n");
/// ```
#[derive(Drop)]
pub struct Rows {
    tree: PointerTree,
    each: bool,
    lines: u64,
    held: Vec<u8>,
    buffers: WalkBuffers,
}

impl Model for Rows {
    ghost use Rattle.sonic_lines.specs.Pieces.{LineReading};

    ghost Value = { LineReading };

    ghost use Rattle.sonic_lines.specs.Internal.Held.{HoldsOneLine, reading_of};

    ghost view = { reading_of };

    ghost invariant = { HoldsOneLine };
}

// Where the lines of a text end: after its last line feed, or at 0.
fn lines_end(text: &[u8]) -> usize
    ensures within { result ≤ length text.now }
    ensures ends { EndsLines (take result text.now) }
    ensures after { IsOneLine (drop result text.now) }
{
    match memrchr(b'\n', text) {
        Some(last) => last + 1,
        None => 0,
    }
}

impl Rows {
    /// The rows of a stream of which nothing came yet, for the paths of a tree. It takes no memory.
    ///
    /// `lines` of it is 0.
    pub fn new(alloc: Global, tree: PointerTree) -> Rows
        ensures { result ≡ begun (together tree) }
    {
        let each = false;
        let lines = 0;
        let held = Vec::new(alloc);
        let buffers = WalkBuffers::new(alloc);
        Rows {
            tree,
            each,
            lines,
            held,
            buffers,
        }
    }

    /// The same, where each path is told where it leads by itself: the rows are those that
    /// [`append_rows_each`](crate::append_rows_each) appends.
    pub fn each(alloc: Global, tree: PointerTree) -> Rows
        ensures { result ≡ begun (apart tree) }
    {
        let mut rows = Rows::new(alloc, tree);
        rows.each = true;
        rows
    }

    /// How many lines have ended, each with a line feed.
    ///
    /// After the piece `{}`, a line feed and `[` it is 1.
    pub fn lines(&self) -> u64
        ensures { result ≡ self.now.lines }
    {
        self.lines
    }

    /// Takes a piece of the stream, and appends the rows of the lines that end in it.
    ///
    /// With the path `["id"]` the pieces `{"id":` and `7}` append nothing, and a line feed after them
    /// appends the row `1 7`.
    ///
    /// The only error is `ErrorCode::NoMemory`, and then the stream and `out` are as they were: the same
    /// piece can be fed again.
    pub fn feed(&mut self, alloc: Global, piece: &[u8], out: &mut Vec<u8>) -> Result<()>
        requires { self.old.lines + length piece.now < 2 ^ 64 - 1 }
        ensures ok { OnOk result ((rows : List ℕ) × IsFed self.old piece.now self.new rows
            × (out.new.items ≡ out.old.items ++ rows)) }
        ensures err { IfErr result (λ error. IsPlainError error ErrorCode.NoMemory) }
        ensures same { OnErr result ((self.new ≡ self.old) × (out.new.items ≡ out.old.items)) }
    {
        let (written, held) = (out.len(), self.held.len());
        match self.take(alloc, piece, out) {
            Ok(()) => Ok(()),
            Err(_) => {
                out.truncate(written);
                self.held.truncate(held);
                Err(Error::plain(ErrorCode::NoMemory))
            }
        }
    }

    // The same, but for what is left after running out of memory: more may be held and appended then.
    fn take(
        &mut self,
        alloc: Global,
        piece: &[u8],
        out: &mut Vec<u8>,
    ) -> std::result::Result<(), AllocError>
        requires { self.old.lines + length piece.now < 2 ^ 64 - 1 }
        ensures ok { OnOk result ((rows : List ℕ) × IsFed self.old piece.now self.new rows
            × (out.new.items ≡ out.old.items ++ rows)) }
        ensures more { IsMore out.old.items out.new.items }
        ensures held { OnErr result (IsMore self.old.held self.new.held) }
        ensures kept { OnErr result (self.new ≡ record self.old { held = self.new.held }) }
    {
        let Some(first) = memchr(b'\n', piece) else {
            return self.hold(piece);
        };
        let rest = &piece[first + 1..];
        let end = lines_end(rest);
        let mut left = Vec::new(alloc);
        left.extend_from_slice(&rest[end..])?;
        self.end_line(alloc, &piece[..first], out)?;
        let lines = Lines {
            before: self.lines + 1,
            stream: &rest[..end],
        };
        add_rows(alloc, &mut self.buffers, &self.tree, self.each, &lines, out)?;
        self.lines += count_of(piece, b'\n') as u64;
        self.held = left;
        Ok(())
    }

    // Holds bytes without a line feed after those that are held.
    fn hold(&mut self, bytes: &[u8]) -> std::result::Result<(), AllocError>
        requires { IsOneLine bytes.now }
        ensures ok { OnOk result ((self.new ≡ record self.old { held = self.old.held ++ bytes.now })
            × IsOneLine self.new.held) }
        ensures err { OnErr result (self.new ≡ self.old) }
    {
        self.held.extend_from_slice(bytes)
    }

    // Appends the row of the line that is held and ends with these bytes. They may be held then, too.
    fn end_line(
        &mut self,
        alloc: Global,
        end: &[u8],
        out: &mut Vec<u8>,
    ) -> std::result::Result<(), AllocError>
        requires { IsOneLine end.now }
        ensures row { OnOk result ((row : List ℕ)
            × IsRow self.old.columns (self.old.lines + 1) (self.old.held ++ end.now) row
            × (out.new.items ≡ out.old.items ++ row)) }
        ensures one { OnOk result (IsOneLine (self.old.held ++ end.now)) }
        ensures more { IsMore out.old.items out.new.items }
        ensures held { IsMore self.old.held self.new.held }
        ensures kept { self.new ≡ record self.old { held = self.new.held } }
    {
        let number = self.lines + 1;
        if self.held.is_empty() {
            let line = Line {
                number,
                text: end,
                is_text: false,
            };
            add_row(alloc, &mut self.buffers, &self.tree, self.each, &line, out)?;
            return Ok(());
        }
        self.hold(end)?;
        let line = Line {
            number,
            text: &self.held,
            is_text: false,
        };
        add_row(alloc, &mut self.buffers, &self.tree, self.each, &line, out)?;
        Ok(())
    }

    /// Appends the row of the last line, where no line feed ended it. A new stream begins then, whose
    /// lines are numbered from 1.
    ///
    /// With the path `["id"]` it appends the row `1 7` after the piece `{"id":7}`, and nothing where the
    /// piece ends with a line feed.
    ///
    /// The only error is `ErrorCode::NoMemory`, and then the stream and `out` are as they were.
    pub fn finish(&mut self, alloc: Global, out: &mut Vec<u8>) -> Result<()>
        ensures ok { OnOk result ((rows : List ℕ) × AreRows self.old.columns self.old.lines self.old.held rows
            × (out.new.items ≡ out.old.items ++ rows)) }
        ensures begun { OnOk result (self.new ≡ begun self.old.columns) }
        ensures err { IfErr result (λ error. IsPlainError error ErrorCode.NoMemory) }
        ensures same { OnErr result ((self.new ≡ self.old) × (out.new.items ≡ out.old.items)) }
    {
        let written = out.len();
        let last = Line {
            number: self.lines + 1,
            text: &self.held,
            is_text: false,
        };
        match add_row(alloc, &mut self.buffers, &self.tree, self.each, &last, out) {
            Ok(_) => {
                self.lines = 0;
                self.held.clear();
                Ok(())
            }
            Err(_) => {
                out.truncate(written);
                Err(Error::plain(ErrorCode::NoMemory))
            }
        }
    }
}
