// An editor that marks where the fields of a document are.
ghost use Rattle.std.specs.Prelude.{false};
ghost use Rattle.sonic_find.specs.Spans.{IsFinding};
ghost use Rattle.sonic_pointer.specs.Nodes.{path_of};

use sonic_error::Error;
use sonic_find::{Span, find};
use sonic_pointer::{PointerNode, pointer};
use std::alloc::Global;
use std::io;

/// Where the value of a field stands in a document, to be marked there.
///
/// Of the path `["host"]` in `{"host": "a"}` it is from 9 to 12.
pub fn place(alloc: Global, document: &str, path: &[PointerNode<'_>]) -> Result<Span, Error>
    ensures { IsFinding document.now false (path_of path.now) result }
{
    find(alloc, document, path)
}

const SERVICE: &str = r#"{"host": "a.example", "ports": [80, 443], "tags": []}"#;

/// The places of three fields, or why one has none.
pub fn show(rt: &impl Print, alloc: Global) -> io::Result<()> {
    for path in [
        &pointer!["host"][..],
        &pointer!["ports", 1][..],
        &pointer!["tags", 0][..],
    ] {
        match place(alloc, SERVICE, path) {
            Ok(span) => println!(rt; "from {} to {}", span.start, span.end)?,
            Err(error) => println!(rt; "column {}: {}", error.column(), error.code())?,
        }
    }
    Ok(())
}
