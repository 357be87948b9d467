// Whole runs of `gen`, which reads nothing: what goes out, and the status. The numbers are worked out
// by hand from the form of the document.
use crate::rows::{Broken, check_run, owned};
use crate::same::same_at;
use sonic_io::{InputSource, MemorySink};
use sonic_reports::{Status, run};
use std::alloc::Global;
use std::process::Abort;
use std::test::Fail;

// A number of objects and what is written for it.
type Row = (&'static str, &'static str);

// Object 0 has 50 bytes, and object 1 has 51; a name of one digit has 6.
const COUNTS: [Row; 8] = [
    (
        "1",
        "objects 1\nbytes 52\nchecked 3 1 57\nunchecked 3 1 57\n",
    ),
    (
        "2",
        "objects 2\nbytes 104\nchecked 3 1 58\nunchecked 3 1 58\n",
    ),
    (
        "3",
        "objects 3\nbytes 155\nchecked 3 1 57\nunchecked 3 1 57\n",
    ),
    // The last number has one digit, and two.
    (
        "10",
        "objects 10\nbytes 516\nchecked 3 1 58\nunchecked 3 1 58\n",
    ),
    (
        "11",
        "objects 11\nbytes 570\nchecked 3 1 61\nunchecked 3 1 61\n",
    ),
    (
        "100",
        "objects 100\nbytes 5421\nchecked 3 1 62\nunchecked 3 1 62\n",
    ),
    (
        "1000",
        "objects 1000\nbytes 57171\nchecked 3 1 66\nunchecked 3 1 66\n",
    ),
    (
        "100000",
        "objects 100000\nbytes 6316671\nchecked 3 1 74\nunchecked 3 1 74\n",
    ),
];

// Words that are no command.
const OTHERS: [&[&str]; 17] = [
    &["gen"],
    &["gen", "0"],
    &["gen", "00"],
    &["gen", "007"],
    &["gen", "+7"],
    &["gen", "-7"],
    &["gen", " 7"],
    &["gen", "7 "],
    &["gen", "7.0"],
    &["gen", "x"],
    &["gen", ""],
    &["gen", "1000001"],
    // One more than the greatest number of 32 bits, and as it comes round.
    &["gen", "4294967296"],
    &["gen", "4294967297"],
    &["gen", "1", "1"],
    &["1", "gen"],
    &["list", "1"],
];

// Checks a run over a source that would fail.
fn check_unread(
    rt: &impl Abort,
    alloc: Global,
    words: &[&str],
    output: &str,
    ending: Status,
) -> Result<(), Fail> {
    let owned = owned(alloc, words)?;
    let mut sink = MemorySink::new(alloc, 99, 99, Vec::new(alloc))
        .ok()
        .ok_or("no memory")?;
    let status = run(alloc, &owned, &mut InputSource::new(Broken), &mut sink);
    same_at(rt, status, ending, words);
    same_at(rt, sink.written(), output.as_bytes(), words);
    Ok(())
}

#[test]
fn counts_what_both_walks_find(rt: HostRuntime) -> Result<(), Fail> {
    let alloc = rt.alloc();
    for &(count, output) in &COUNTS {
        check_run(&rt, alloc, &["gen", count], b"[1", output, Status::Done)?;
        check_unread(&rt, alloc, &["gen", count], output, Status::Done)?;
    }
    Ok(())
}

#[test]
fn takes_no_other_words(rt: HostRuntime) -> Result<(), Fail> {
    for &words in &OTHERS {
        check_unread(&rt, rt.alloc(), words, "! usage\n", Status::BadUsage)?;
    }
    Ok(())
}
