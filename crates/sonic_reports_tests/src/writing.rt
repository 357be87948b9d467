// By which calls a report goes out: short pieces together, and long values by themselves.
use crate::same::same;
use sonic_io::{MemorySink, SureSource};
use sonic_reports::{Status, run};
use std::alloc::Global;
use std::process::Abort;
use std::test::Fail;

// An input, its report, and by how many writes it goes to a sink that takes each whole.
#[derive(Drop)]
struct Large {
    input: Vec<u8>,
    report: Vec<u8>,
    writes: u64,
}

// How the run ends and what the sink holds, which takes `piece` bytes in a call and fails in one.
fn written(
    alloc: Global,
    large: &Large,
    piece: usize,
    fails: u64,
) -> Result<(Status, Vec<u8>), Fail> {
    let mut source = SureSource::new(Vec::from_slice(alloc, &large.input)?, 65_536);
    let failing = Vec::from_slice(alloc, &[fails])?;
    let mut sink = MemorySink::new(alloc, large.report.len(), piece.max(1), failing)
        .ok()
        .ok_or("no memory")?;
    let words = Vec::new(alloc);
    let status = run(alloc, &words, &mut source, &mut sink);
    Ok((status, Vec::from_slice(alloc, sink.written())?))
}

// The finish is the call after the last write, and there is none after it.
fn check(rt: &impl Abort, alloc: Global, large: &Large) -> Result<(), Fail> {
    let finish = large.writes.saturating_add(1);
    let (status, text) = written(alloc, large, 100_000, finish.saturating_add(1))?;
    same(rt, status, Status::Done);
    assert!(rt; text == large.report, "all");
    let (status, text) = written(alloc, large, 100_000, finish)?;
    same(rt, status, Status::WriteFault);
    assert!(rt; text == large.report, "all but the finish");
    let (status, text) = written(alloc, large, 100_000, large.writes)?;
    same(rt, status, Status::WriteFault);
    assert!(rt; text.len() < large.report.len(), "all but the last write");
    assert!(rt; large.report.starts_with(&text), "all but the last write");
    let (status, text) = written(alloc, large, 999, 0)?;
    same(rt, status, Status::Done);
    assert!(rt; text == large.report, "by small pieces");
    Ok(())
}

// A string of so many bytes with its quotes.
fn string(alloc: Global, length: usize) -> Result<Vec<u8>, Fail> {
    let mut text = vec![in alloc; b'a'; length.max(2)]?;
    if let Some(first) = text.first_mut() {
        *first = b'"';
    }
    if let Some(last) = text.last_mut() {
        *last = b'"';
    }
    Ok(text)
}

#[test]
fn writes_200_000_short_answers_by_13_calls(rt: HostRuntime) -> Result<(), Fail> {
    let alloc = rt.alloc();
    let mut input = Vec::new(alloc);
    let mut report = Vec::new(alloc);
    for _ in 0..200_000 {
        input.extend_from_slice(b"[0]\n")?;
        report.extend_from_slice(b"1 7\n")?;
    }
    input.extend_from_slice(b"\n[7]")?;
    let large = Large {
        input,
        report,
        writes: 13,
    };
    check(&rt, alloc, &large)
}

// The answer before it goes out with the number of its length, and the one after it with its end.
#[test]
fn writes_a_long_value_by_itself(rt: HostRuntime) -> Result<(), Fail> {
    let alloc = rt.alloc();
    let text = string(alloc, 70_002)?;
    let mut input = Vec::from_slice(alloc, b"[0]\n[1]\n[2]\n\n[7, ")?;
    input.extend_from_slice(&text)?;
    input.extend_from_slice(b", 8]")?;
    let mut report = Vec::from_slice(alloc, b"1 7\n70002 ")?;
    report.extend_from_slice(&text)?;
    report.extend_from_slice(b"\n1 8\n")?;
    let large = Large {
        input,
        report,
        writes: 3,
    };
    let (status, text) = written(alloc, &large, 100_000, 2)?;
    same(&rt, status, Status::WriteFault);
    same(&rt, text.as_slice(), b"1 7\n70002 ".as_slice());
    check(&rt, alloc, &large)
}

// A report of one line, whose length has five digits.
fn one_line(alloc: Global, length: usize, writes: u64) -> Result<Large, Fail> {
    let text = string(alloc, length)?;
    let mut input = Vec::from_slice(alloc, b"[]\n\n")?;
    input.extend_from_slice(&text)?;
    let mut report = Vec::from_slice(alloc, format!(in alloc; "{length} ")?.as_bytes())?;
    report.extend_from_slice(&text)?;
    report.push(b'\n')?;
    Ok(Large {
        input,
        report,
        writes,
    })
}

// The first report fills the buffer, and of the next one a byte is left over.
#[test]
fn writes_what_fits_by_one_call(rt: HostRuntime) -> Result<(), Fail> {
    let alloc = rt.alloc();
    let full = one_line(alloc, 65_529, 1)?;
    same(&rt, full.report.len(), 65_536);
    check(&rt, alloc, &full)?;
    let over = one_line(alloc, 65_530, 2)?;
    same(&rt, over.report.len(), 65_537);
    check(&rt, alloc, &over)
}
