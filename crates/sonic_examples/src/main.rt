//! What the README shows, as one program: small functions over the library, and what they answer.
#![tactic(auto)]

// A gateway that reads the subject of a token from a request's body.
mod gateway;
// The items of a container, one after the other.
mod items;
// A look-up of one path by the library's calls, for measuring them.
mod lookup;
// A service that reads its options whole.
mod plain;
// A log reader that takes three fields of each record.
mod records;
// A log reader that asks each line for the same fields.
mod rows;
// An editor that opens a file of settings.
mod settings;
// An editor that marks where the fields of a document are.
mod spans;
// A log reader that takes a stream of records in pieces.
mod stream;
// What no clause says: that an edit keeps every byte that it doesn't concern.
#[cfg(test)]
mod tests;
// Lazy values: their types, and paths inside them.
mod values;
// A viewer that shows which value of a document is under the cursor.
mod viewer;

use std::alloc::Global;
use std::io;
use std::process::ExitCode;

// All that the README shows.
fn show(rt: &impl Print, alloc: Global) -> io::Result<()> {
    gateway::show(rt, alloc)?;
    records::show(rt, alloc)?;
    values::show(rt, alloc)?;
    items::show(rt, alloc)?;
    settings::show(rt, alloc)?;
    stream::show(rt, alloc)?;
    spans::show(rt, alloc)?;
    plain::show(rt, alloc)?;
    rows::show(rt, alloc)?;
    viewer::show(rt, alloc)
}

fn main(rt: HostRuntime) -> ExitCode {
    let alloc = rt.alloc();
    let done = match lookup::asked(&rt, alloc) {
        Ok(Some(call)) => call.run(&rt, alloc),
        Ok(None) => show(&rt, alloc),
        Err(error) => Err(error),
    };
    match done {
        Ok(()) => ExitCode::SUCCESS,
        Err(_) => ExitCode::FAILURE,
    }
}
