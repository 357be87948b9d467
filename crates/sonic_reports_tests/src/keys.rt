// Whole runs of `get --keys`: which member a path leads to where several have its key, and the words
// that ask for a rule. The expected lines are by the grammar, counted by hand.
use crate::rows::check_run;
use sonic_reports::Status;
use std::alloc::Global;
use std::process::Abort;
use std::test::Fail;

// The name of a rule, an input and its report.
type Row = (&'static str, &'static [u8], &'static str);

// The paths find a value.
const FOUND: [Row; 4] = [
    (
        "last",
        b"[\"a\"]\n[\"b\"]\n\n{\"a\":1,\"a\":2,\"b\":3}",
        "1 2\n1 3\n",
    ),
    (
        "first",
        b"[\"a\"]\n[\"b\"]\n\n{\"a\":1,\"a\":2,\"b\":3}",
        "1 1\n1 3\n",
    ),
    // Equal keys that no path asks for.
    ("refuse", b"[\"b\"]\n\n{\"a\":1,\"a\":2,\"b\":3}", "1 3\n"),
    (
        "last",
        b"[\"a\",\"x\"]\n\n{\"a\":{},\"a\":{\"x\":5}}",
        "1 5\n",
    ),
];

// A second equal key is refused, the end of the object isn't there, or the path leads nowhere.
const LOST: [Row; 4] = [
    (
        "refuse",
        b"[\"a\"]\n[\"b\"]\n\n{\"a\":1,\"a\":2,\"b\":3}",
        "! syntax DuplicateKey 1 8 7\n",
    ),
    (
        "last",
        b"[\"a\"]\n\n{\"a\":1,",
        "! eof EofWhileParsing 1 7 6\n",
    ),
    // A key is compared as the text that it denotes.
    (
        "refuse",
        b"[\"a\"]\n\n{\"a\":1,\"\\u0061\":2}",
        "! syntax DuplicateKey 1 8 7\n",
    ),
    (
        "first",
        b"[\"a\",\"x\"]\n\n{\"a\":{},\"a\":{\"x\":5}}",
        "! not-found GetInEmptyObject 1 7 6\n",
    ),
];

// Words that ask for no command.
const OTHER: [&[&str]; 7] = [
    &["get", "--keys", "third"],
    &["get", "--keys"],
    &["get", "--keys", "last", "first"],
    &["--keys", "last", "get"],
    &["get", "last", "--keys"],
    &["list", "--keys", "last"],
    &["get", "--keys", "First"],
];

// Runs over each input, and compares.
fn check(rt: &impl Abort, alloc: Global, rows: &[Row], ending: Status) -> Result<(), Fail> {
    for &(rule, input, output) in rows {
        check_run(rt, alloc, &["get", "--keys", rule], input, output, ending)?;
    }
    Ok(())
}

#[test]
fn finds_the_value_under_the_rule(rt: HostRuntime) -> Result<(), Fail> {
    check(&rt, rt.alloc(), &FOUND, Status::Done)
}

#[test]
fn reports_what_the_rule_refuses(rt: HostRuntime) -> Result<(), Fail> {
    check(&rt, rt.alloc(), &LOST, Status::DocumentError)
}

#[test]
fn refuses_other_words_about_keys(rt: HostRuntime) -> Result<(), Fail> {
    for &words in &OTHER {
        check_run(
            &rt,
            rt.alloc(),
            words,
            b"[]\n\n1",
            "! usage\n",
            Status::BadUsage,
        )?;
    }
    Ok(())
}
