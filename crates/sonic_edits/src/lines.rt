// Heads of any number of lines, each of an edit.
ghost use Rattle.std.specs.Prelude.{IfOk};
ghost use Rattle.sonic_edits.specs.Heads.{SaysNextEdit, SaysEdits};

use crate::edit::Edit;
use crate::line::edit_of_line;
use sonic_paths::internal::{HeadEnd, LineReader, read_head};
use std::alloc::{AllocError, Global};

/// What the head of an input says.
#[derive(Drop)]
pub enum EditHead {
    /// Each line says an edit. They are in order, and the document begins at this offset, in bytes
    /// from 0.
    Edits(Vec<Edit>, usize),
    /// The line with this number, from 1, is the first that says no edit.
    Bad(usize),
}

/// Reads the lines of an input up to the first line of white space alone, or to its end.
///
/// Each line is read as by [`edit_of_line`](crate::edit_of_line). The document begins after the
/// line of white space; where none comes, it is empty. So of `["take",[]]\n\n[7]` the one edit
/// takes the whole document, and this begins at 13.
///
/// The only error is that memory ran out.
pub fn read_edits(alloc: Global, input: &[u8]) -> Result<EditHead, AllocError>
    ensures { IfOk result (λ head. SaysEdits input.now head) }
{
    let edits = Vec::new(alloc);
    let mut reader = EditReader { edits };
    match read_head(alloc, input, &mut reader)? {
        HeadEnd::Document(place) => Ok(EditHead::Edits(reader.edits, place)),
        HeadEnd::Bad(number) => Ok(EditHead::Bad(number)),
    }
}

// The edits of the lines that were read.
#[derive(Drop)]
struct EditReader {
    edits: Vec<Edit>,
}

impl LineReader for EditReader {
    ghost use Rattle.std.specs.Prelude.{List, map};
    ghost use Rattle.sonic_edits.specs.Edits.{edit_of};
    ghost use Rattle.sonic_owned.specs.Forms.{Form};
    ghost use Rattle.sonic_owned.specs.TreeEdits as tree_edits;

    ghost Said = { List (tree_edits.Edit Form) };

    ghost said = { λ reader. map edit_of reader.edits.items };

    ghost says = { SaysNextEdit };

    fn read_line(&mut self, alloc: Global, line: &[u8]) -> Result<bool, AllocError> {
        let Some(edit) = edit_of_line(alloc, line)? else {
            return Ok(false);
        };
        self.edits.push(edit)?;
        Ok(true)
    }
}
