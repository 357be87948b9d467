// A log reader that takes three fields of each record.
ghost use Rattle.std.specs.Prelude.{false, IfOk, IfErr};
ghost use Rattle.sonic_find.specs.Causes.{IsRefusal};
ghost use Rattle.sonic_lazy.specs.Shown.{AreValues};

use sonic_error::Error;
use sonic_lazy::{LazyValue, get_many};
use sonic_pointer::{PointerTree, pointer};
use std::alloc::Global;
use std::io;

/// The paths of the three fields, or that memory ran out.
pub fn paths(alloc: Global) -> Result<PointerTree, Error> {
    let mut tree = PointerTree::new(alloc);
    for path in [
        &pointer!["ts"][..],
        &pointer!["user", "id"][..],
        &pointer!["tags", 0][..],
    ] {
        tree.add_path(alloc, path)?;
    }
    Ok(tree)
}

/// The fields of the record on a line, each as its exact text, or `None` where the record has none.
pub fn fields<'t>(
    alloc: Global,
    paths: &PointerTree,
    line: &'t str,
) -> Result<Vec<Option<LazyValue<'t>>>, Error>
    ensures ok { IfOk result (λ values. AreValues line.now false paths.now values.items) }
    ensures err { IfErr result (IsRefusal line.now false paths.now) }
{
    get_many(alloc, line, paths)
}

const LOG: &str = r#"{"ts": "12:00:00", "user": {"id": 42}, "tags": ["api", "v2"]}
{"user": {"id": 7, "name": "Zo\u00eb"}, "tags": ["web"]}
{"ts": "12:00:02", "user": {"id": 8}, "tags": []}
{"ts": "12:00:03", "user": nobody, "tags": ["api"]}
"#;

// Prints the fields of a record on one line, `-` for one that it lacks.
fn show_fields(rt: &impl Print, values: &[Option<LazyValue<'_>>]) -> io::Result<()> {
    for value in values {
        match value {
            Some(value) => print!(rt; "{value} ")?,
            None => print!(rt; "- ")?,
        }
    }
    println!(rt; "")
}

/// The three fields of each record, or what is wrong with it.
pub fn show(rt: &impl Print, alloc: Global) -> io::Result<()> {
    let tree = match paths(alloc) {
        Ok(tree) => tree,
        Err(error) => return println!(rt; "{error}"),
    };
    for line in LOG.lines() {
        match fields(alloc, &tree, line) {
            Ok(values) => show_fields(rt, &values)?,
            Err(error) => println!(rt; "column {}: {}", error.column(), error.code())?,
        }
    }
    Ok(())
}
