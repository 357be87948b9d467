// A log reader that asks each line for the same fields.
ghost use Rattle.std.specs.Prelude.{◌↔◌, IfOk, IsTrue};
ghost use Rattle.sonic_lines.specs.LineRows.{AreRows, HasErrorRow, together};
ghost use Rattle.sonic_lines.specs.Streams.{lines_of};

use sonic_lines::append_rows;
use sonic_pointer::{PointerTree, pointer};
use std::alloc::{AllocError, Global};
use std::{io, str};

/// The rows of a log, and whether one of them is an error.
///
/// With the path `["id"]` the lines `{"id":7}` and `[` have the rows `1 7` and
/// `! 2 eof EofWhileParsing 0`.
pub fn rows_of(alloc: Global, tree: &PointerTree, log: &[u8]) -> Result<(Vec<u8>, bool), AllocError>
    ensures rows { IfOk result (λ answer. AreRows (together tree.now) 0 log.now answer.0.items) }
    ensures errors { IfOk result (λ answer.
        IsTrue answer.1 ↔ HasErrorRow (together tree.now) (lines_of log.now)) }
{
    let mut rows = Vec::new(alloc);
    let has_error = append_rows(alloc, tree, 0, log, &mut rows)?;
    Ok((rows, has_error))
}

const LOG: &[u8] =
    b"{\"id\": 7, \"level\": \"info\"}\n\n{\"id\": 8, \"level\": inf}\n{\"id\": 9}\n";

// The tree of two fields.
fn fields(alloc: Global) -> Option<PointerTree> {
    let mut tree = PointerTree::new(alloc);
    tree.add_path(alloc, &pointer!["id"]).ok()?;
    tree.add_path(alloc, &pointer!["level"]).ok()?;
    Some(tree)
}

/// The rows of four lines, a blank and a broken one among them.
pub fn show(rt: &impl Print, alloc: Global) -> io::Result<()> {
    let Some(tree) = fields(alloc) else {
        return println!(rt; "out of memory");
    };
    let (rows, has_error) = rows_of(alloc, &tree, LOG)?;
    let text = str::from_utf8(&rows).unwrap_or("no text\n");
    println!(rt; "{text}errors: {has_error}")
}
