// Heads of any number of lines, each of keys and indexes.
ghost use Rattle.std.specs.Prelude.{List, IfOk};
ghost use Rattle.sonic_text.specs.Paths.{Path};
ghost use Rattle.sonic_paths.specs.Lines.{SaysPath, SaysPaths};

use crate::head::{HeadEnd, LineReader, read_head};
use crate::line::path_of_line;
use sonic_pointer::{PathError, PointerTree};
use std::alloc::{AllocError, Global};

/// What the head of an input says.
#[derive(Drop)]
pub enum Head {
    /// Each line says a path. The tree holds them in order, and the document begins at this offset,
    /// in bytes from 0.
    Paths(PointerTree, usize),
    /// The line with this number, from 1, is the first that is bad: it says no path, or one that
    /// mixes keys and indexes with the path of an earlier line.
    Bad(usize),
}

/// Reads the lines of an input up to the first line of white space alone, or to its end.
///
/// Each line is read as by `path_of_line`. After nodes that two lines share, one can't go on with a
/// key and the other with an index: in `["a", 1]` and then `["a", "b"]` the second line is bad.
/// The document begins after the line of white space; where none comes, it is empty. So of
/// `[0]\n\n[7]` the tree has the path `[0]`, and the document begins at 5.
///
/// The only error is that memory ran out.
pub fn read_paths(alloc: Global, input: &[u8]) -> Result<Head, AllocError>
    ensures { IfOk result (λ head. SaysPaths input.now head) }
{
    let mut tree = PointerTree::new(alloc);
    match read_head(alloc, input, &mut tree)? {
        HeadEnd::Document(place) => Ok(Head::Paths(tree, place)),
        HeadEnd::Bad(number) => Ok(Head::Bad(number)),
    }
}

/// A line says a path, which the tree takes at its end.
impl LineReader for PointerTree {
    ghost Said = { List Path };

    ghost said = { λ tree. tree };

    ghost says = { SaysPath };

    fn read_line(&mut self, alloc: Global, line: &[u8]) -> Result<bool, AllocError> {
        let Some(path) = path_of_line(alloc, line)? else {
            return Ok(false);
        };
        match self.add_owned_path(alloc, path) {
            Ok(()) => Ok(true),
            Err(PathError::Mixed) => Ok(false),
            // The line has at most 255 nodes.
            Err(PathError::TooLong) => unreachable!(),
            Err(PathError::NoMemory) => Err(AllocError),
        }
    }
}
