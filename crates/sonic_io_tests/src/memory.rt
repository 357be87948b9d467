// What passes sources and sinks over memory.
use crate::same::{same, same_at};
use crate::stdio::deliver;
use sonic_io::{MemorySink, SureSink, SureSource, read_all};
use std::alloc::Global;
use std::process::Abort;
use std::test::Fail;

// Reads `text` from a source over memory by pieces.
fn check_pieces(rt: &impl Abort, alloc: Global, text: &[u8], piece: usize) -> Result<(), Fail> {
    let mut source = SureSource::new(Vec::from_slice(alloc, text)?, piece.max(1));
    let read = read_all(alloc, &mut source)?;
    same_at(rt, read.as_slice(), text, piece);
    Ok(())
}

#[test]
fn reads_by_pieces(rt: HostRuntime) -> Result<(), Fail> {
    let alloc = rt.alloc();
    check_pieces(&rt, alloc, b"", 1)?;
    check_pieces(&rt, alloc, b"[1, 2]", 1)?;
    check_pieces(&rt, alloc, b"[1, 2]", 4)?;
    let long = vec![in alloc; 32u8; 140_000]?;
    check_pieces(&rt, alloc, &long, 65_000)?;
    check_pieces(&rt, alloc, &long, 200_000)
}

#[test]
fn takes_everything(rt: HostRuntime) {
    same(&rt, deliver(&mut SureSink::new(), &[b"[1,", b"2]"]), Ok(()));
}

#[test]
fn a_new_sink_is_empty(rt: HostRuntime) -> Result<(), Fail> {
    let alloc = rt.alloc();
    let sink = MemorySink::new(alloc, 8, 1, Vec::new(alloc))
        .ok()
        .ok_or("no memory")?;
    same(&rt, sink.written(), b"".as_slice());
    Ok(())
}
