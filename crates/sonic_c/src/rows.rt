// The rows of lines.
ghost use Rattle.std.specs.Prelude.{◌≡◌, IfOk, IfErr, OnOk};
ghost use Rattle.sonic_c.specs.Rows.{AreNoRows, AreSaidRows, IsRowsCall};
ghost use Rattle.sonic_c.specs.Internal.Texts.{OrOutOfMemory};

use crate::fault::Fault;
use crate::many::paths_of;
use crate::room::write_bytes;
use crate::status::{BAD_NUMBER, NO_MEMORY};
use sonic_lines::append_rows;
use std::alloc::Global;

/// The rows of the lines of a stream, of what paths lead to in each, which is read by itself: writes as
/// many of their bytes as the room takes to the start of the room, and tells how many all have.
///
/// `paths` has a path on each line, as for `jihluka_get_many`. So many lines come before the first, which
/// error rows are numbered after; with the length of the stream that has to stay below 2^64 - 1, or it is
/// `BAD_NUMBER`. With the path `["id"]` the lines `{"id":7}` and `{` have the rows `1 7` and
/// `! 2 eof EofWhileParsing 0`.
#[unsafe(no_mangle)]
pub extern "C" fn jihluka_rows(
    alloc: Global,
    stream: &[u8],
    paths: &[u8],
    before: u64,
    room: &mut [u8],
    wanted: &mut usize,
    error: &mut Fault,
) -> u32
    ensures { IsRowsCall stream.now paths.now before
        (record { room = room.old; wanted = wanted.old; error = error.old })
        (record { room = room.new; wanted = wanted.new; error = error.new }) result }
{
    match rows_of(alloc, stream, paths, before, error) {
        Ok(rows) => write_bytes(&rows, room, wanted),
        Err(status) => status,
    }
}

// The rows of the lines of a stream, or the status, with what is told.
fn rows_of(
    alloc: Global,
    stream: &[u8],
    paths: &[u8],
    before: u64,
    error: &mut Fault,
) -> Result<Vec<u8>, u32>
    ensures made { IfOk result (λ rows. AreSaidRows stream.now paths.now before rows.items) }
    ensures kept { OnOk result (error.new ≡ error.old) }
    ensures refused { IfErr result (OrOutOfMemory (AreNoRows stream.now paths.now before)
        error.old error.new) }
{
    if stream.len() as u64 >= u64::MAX - before {
        return Err(BAD_NUMBER);
    }
    let tree = match paths_of(alloc, paths, error) {
        Ok(tree) => tree,
        Err(status) => return Err(status),
    };
    let mut rows = Vec::new(alloc);
    match append_rows(alloc, &tree, before, stream, &mut rows) {
        Ok(_) => Ok(rows),
        Err(_) => Err(NO_MEMORY),
    }
}
