// A log reader that takes a stream of records in pieces.
use sonic_stream::{NextRecord, RecordStream};
use std::alloc::Global;
use std::{io, str};

const PIECES: [&str; 4] = [
    "{\"ts\": 1, \"us",
    "er\": 7}\n{\"ts\": x, \"user\"",
    ": 8}\n1",
    "2\n[{\"ts\"",
];

// Prints a record, which is held from one place to another.
fn show_record(rt: &impl Print, held: &[u8], start: usize, end: usize) -> io::Result<()> {
    match str::from_utf8(held.get(start..end).unwrap_or(b"")) {
        Ok(text) => println!(rt; "{text}"),
        Err(_) => println!(rt; "no text"),
    }
}

// Prints what is next, until more bytes are needed.
fn show_next(rt: &impl Print, alloc: Global, records: &mut RecordStream) -> io::Result<()> {
    for _ in 0..=records.held().len() {
        match records.next(alloc)? {
            NextRecord::Record { start, end } => show_record(rt, records.held(), start, end)?,
            NextRecord::Wrong { place, code } => println!(rt; "dropped at {place}: {code}")?,
            NextRecord::Cut => println!(rt; "the last record is cut")?,
            NextRecord::NeedsMore | NextRecord::End => return Ok(()),
        }
    }
    Ok(())
}

/// Each record of a log that comes in pieces, and what is wrong with those that are dropped.
pub fn show(rt: &impl Print, alloc: Global) -> io::Result<()> {
    let mut records = RecordStream::new(alloc);
    for piece in PIECES {
        records.add(alloc, piece.as_bytes())?;
        show_next(rt, alloc, &mut records)?;
    }
    records.finish();
    show_next(rt, alloc, &mut records)
}
