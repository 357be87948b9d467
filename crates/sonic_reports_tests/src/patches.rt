// Whole runs of `patch` over memory: what comes in, what goes out, and the status.
use crate::rows::check_run;
use sonic_reports::Status;
use std::test::Fail;

// An input and what is written for it.
type Row = (&'static [u8], &'static str);

const PATCHED: [Row; 23] = [
    // RFC 6902, appendix A.
    (
        b"[{\"op\":\"add\",\"path\":\"/baz\",\"value\":\"qux\"}]\n{\"foo\": \"bar\"}",
        "{\"foo\":\"bar\",\"baz\":\"qux\"}\n",
    ),
    (
        b"[{\"op\":\"add\",\"path\":\"/foo/1\",\"value\":\"qux\"}]\n{\"foo\":[\"bar\",\"baz\"]}",
        "{\"foo\":[\"bar\",\"qux\",\"baz\"]}\n",
    ),
    (
        b"[{\"op\":\"remove\",\"path\":\"/baz\"}]\n{\"baz\":\"qux\",\"foo\":\"bar\"}",
        "{\"foo\":\"bar\"}\n",
    ),
    (
        b"[{\"op\":\"remove\",\"path\":\"/foo/1\"}]\n{\"foo\":[\"bar\",\"qux\",\"baz\"]}",
        "{\"foo\":[\"bar\",\"baz\"]}\n",
    ),
    (
        b"[{\"op\":\"replace\",\"path\":\"/baz\",\"value\":\"boo\"}]\n{\"baz\":\"qux\",\"foo\":\"bar\"}",
        "{\"baz\":\"boo\",\"foo\":\"bar\"}\n",
    ),
    (
        b"[{\"op\":\"move\",\"from\":\"/foo/waldo\",\"path\":\"/qux/thud\"}]\n{\"foo\":{\"bar\":\"baz\",\"waldo\":\"fred\"},\"qux\":{\"corge\":\"grault\"}}",
        "{\"foo\":{\"bar\":\"baz\"},\"qux\":{\"corge\":\"grault\",\"thud\":\"fred\"}}\n",
    ),
    (
        b"[{\"op\":\"move\",\"from\":\"/foo/1\",\"path\":\"/foo/3\"}]\n{\"foo\":[\"all\",\"grass\",\"cows\",\"eat\"]}",
        "{\"foo\":[\"all\",\"cows\",\"eat\",\"grass\"]}\n",
    ),
    (
        b"[{\"op\":\"test\",\"path\":\"/baz\",\"value\":\"qux\"},{\"op\":\"test\",\"path\":\"/foo/1\",\"value\":2}]\n{\"baz\":\"qux\", \"foo\":[\"a\",2,\"c\"]}",
        "{\"baz\":\"qux\", \"foo\":[\"a\",2,\"c\"]}\n",
    ),
    (
        b"[{\"op\":\"add\",\"path\":\"/child\",\"value\":{\"grandchild\":{ }}}]\n{\"foo\":\"bar\"}",
        "{\"foo\":\"bar\",\"child\":{\"grandchild\":{ }}}\n",
    ),
    (
        b"[{\"op\":\"add\",\"path\":\"/baz\",\"value\":\"qux\",\"xyz\":123}]\n{\"foo\":\"bar\"}",
        "{\"foo\":\"bar\",\"baz\":\"qux\"}\n",
    ),
    (
        b"[{\"op\":\"test\",\"path\":\"/~01\",\"value\":10}]\n{\"/\":9,\"~1\":10}",
        "{\"/\":9,\"~1\":10}\n",
    ),
    (
        b"[{\"op\":\"add\",\"path\":\"/foo/-\",\"value\":[\"abc\", \"def\"]}]\n{\"foo\":[\"bar\"]}",
        "{\"foo\":[\"bar\",[\"abc\", \"def\"]]}\n",
    ),
    // Of equal keys the first counts: in an operation, and in the document.
    (
        b"[{\"op\":\"add\",\"path\":\"/baz\",\"value\":\"qux\",\"op\":\"remove\"}]\n{\"foo\":\"bar\"}",
        "{\"foo\":\"bar\",\"baz\":\"qux\"}\n",
    ),
    (
        b"[{\"op\":\"remove\",\"path\":\"/a\"}]\n{\"a\":1,\"b\":2,\"a\":3}",
        "{\"b\":2,\"a\":3}\n",
    ),
    (
        b"[{\"op\":\"move\",\"from\":\"/a\",\"path\":\"/a\"}]\n{\"a\":1,\"a\":2}",
        "{\"a\":1}\n",
    ),
    // The whole document.
    (b"[{\"op\":\"remove\",\"path\":\"\"}]\n{\"a\":1}", "null\n"),
    (
        b"[{\"op\":\"replace\",\"path\":\"\",\"value\": [ 1 ]}]\n{\"a\":1}",
        "[ 1 ]\n",
    ),
    (
        b"[{\"op\":\"copy\",\"from\":\"\",\"path\":\"/b\"}]\n{\"a\":[ 1 ]}",
        "{\"a\":[ 1 ],\"b\":{\"a\":[ 1 ]}}\n",
    ),
    // A member that is named as an index, or with a dash, a slash or a tilde, or not at all.
    (
        b"[{\"op\":\"replace\",\"path\":\"/-\",\"value\":1},{\"op\":\"replace\",\"path\":\"/0\",\"value\":2}]\n{\"-\":0,\"0\":0}",
        "{\"-\":1,\"0\":2}\n",
    ),
    (
        b"[{\"op\":\"add\",\"path\":\"/a~1b\",\"value\":1},{\"op\":\"add\",\"path\":\"/\",\"value\":2},{\"op\":\"add\",\"path\":\"/m~0n\",\"value\":3}]\n{}",
        "{\"a/b\":1,\"\":2,\"m~n\":3}\n",
    ),
    // What the same is: any order of members, other escapes and spacing, and numbers by their text.
    (
        b"[{\"op\":\"test\",\"path\":\"\",\"value\":{\"b\":[1, \"\\u0061\"],\"a\":{}}}]\n{\"a\" : {}, \"b\":[1,\"a\"]}",
        "{\"a\" : {}, \"b\":[1,\"a\"]}\n",
    ),
    (b"[]\n 7 ", "7\n"),
    (b"[ ]\n{\"a\" : 1}\n", "{\"a\" : 1}\n"),
];

const REFUSED: [Row; 21] = [
    (
        b"[{\"op\":\"test\",\"path\":\"/baz\",\"value\":\"bar\"}]\n{\"baz\":\"qux\"}",
        "! op 0 TestFailed\n",
    ),
    (
        b"[{\"op\":\"add\",\"path\":\"/baz/bat\",\"value\":\"qux\"}]\n{\"foo\":\"bar\"}",
        "! op 0 Missing\n",
    ),
    (
        b"[{\"op\":\"test\",\"path\":\"/~01\",\"value\":\"10\"}]\n{\"/\":9,\"~1\":10}",
        "! op 0 TestFailed\n",
    ),
    (
        b"[{\"op\":\"add\",\"path\":\"/a\",\"value\":1},{\"op\":\"test\",\"path\":\"/a\",\"value\":1.0}]\n{}",
        "! op 1 TestFailed\n",
    ),
    (
        b"[{\"op\":\"test\",\"path\":\"\",\"value\":[1,2]}]\n[2,1]",
        "! op 0 TestFailed\n",
    ),
    (
        b"[{\"op\":\"test\",\"path\":\"\",\"value\":{\"a\":1}}]\n{\"a\":1,\"a\":1}",
        "! op 0 TestFailed\n",
    ),
    (
        b"[{\"op\":\"move\",\"from\":\"/a\",\"path\":\"/a/b\"}]\n{\"b\":1}",
        "! op 0 IntoChild\n",
    ),
    (
        b"[{\"op\":\"move\",\"from\":\"\",\"path\":\"/a\"}]\n{\"a\":1}",
        "! op 0 IntoChild\n",
    ),
    (
        b"[{\"op\":\"add\",\"path\":\"/3\",\"value\":1}]\n[1,2]",
        "! op 0 Missing\n",
    ),
    (
        b"[{\"op\":\"add\",\"path\":\"/01\",\"value\":1}]\n[1,2]",
        "! op 0 Missing\n",
    ),
    (
        b"[{\"op\":\"add\",\"path\":\"/1e0\",\"value\":1}]\n[1,2]",
        "! op 0 Missing\n",
    ),
    (
        b"[{\"op\":\"add\",\"path\":\"/18446744073709551616\",\"value\":1}]\n[1,2]",
        "! op 0 Missing\n",
    ),
    (
        b"[{\"op\":\"remove\",\"path\":\"/-\"}]\n[1,2]",
        "! op 0 Missing\n",
    ),
    (
        b"[{\"op\":\"replace\",\"path\":\"/-\",\"value\":1}]\n[1,2]",
        "! op 0 Missing\n",
    ),
    (
        b"[{\"op\":\"copy\",\"from\":\"/-\",\"path\":\"/0\"}]\n[1,2]",
        "! op 0 Missing\n",
    ),
    (
        b"[{\"op\":\"replace\",\"path\":\"/a\",\"value\":1}]\n{}",
        "! op 0 Missing\n",
    ),
    (
        b"[{\"op\":\"test\",\"path\":\"/a\",\"value\":1}]\n{}",
        "! op 0 Missing\n",
    ),
    (
        b"[{\"op\":\"add\",\"path\":\"/a\",\"value\":1}]\n7",
        "! op 0 Missing\n",
    ),
    (
        b"[{\"op\":\"remove\",\"path\":\"/a\"}]\n{\"a\":1} x",
        "! syntax TrailingCharacters 1 9 8\n",
    ),
    (b"[]", "! eof EofWhileParsing 1 1 0\n"),
    (b"[]\n", "! eof EofWhileParsing 1 1 0\n"),
];

const NO_PATCH: [&[u8]; 21] = [
    b"",
    b"\n{}",
    b"{}\n{}",
    b"7\n{}",
    b"[\n{}",
    b"[] x\n{}",
    b"[7]\n{}",
    b"[{}]\n{}",
    b"[{\"op\":\"remove\"}]\n{}",
    b"[{\"op\":7,\"path\":\"\"}]\n{}",
    b"[{\"op\":\"add\",\"path\":\"\"}]\n{}",
    b"[{\"op\":\"test\",\"path\":\"\"}]\n{}",
    b"[{\"op\":\"move\",\"path\":\"\"}]\n{}",
    b"[{\"op\":\"Add\",\"path\":\"\",\"value\":1}]\n{}",
    b"[{\"op\":\"remove\",\"path\":7}]\n{}",
    b"[{\"op\":\"remove\",\"path\":\"a\"}]\n{}",
    b"[{\"op\":\"remove\",\"path\":\"/~\"}]\n{}",
    b"[{\"op\":\"remove\",\"path\":\"/~2\"}]\n{}",
    b"[{\"op\":\"copy\",\"from\":\"a\",\"path\":\"\"}]\n{}",
    b"[{\"op\":\"remove\",\"path\":\"\"},{\"op\":\"remove\"}]\n{",
    b"[\"\xff\"]\n{}",
];

#[test]
fn applies_patches(rt: HostRuntime) -> Result<(), Fail> {
    for &(input, output) in &PATCHED {
        check_run(&rt, rt.alloc(), &["patch"], input, output, Status::Done)?;
    }
    Ok(())
}

#[test]
fn tells_which_operation_isnt_done(rt: HostRuntime) -> Result<(), Fail> {
    for &(input, output) in &REFUSED {
        check_run(
            &rt,
            rt.alloc(),
            &["patch"],
            input,
            output,
            Status::DocumentError,
        )?;
    }
    Ok(())
}

#[test]
fn tells_a_line_that_is_no_patch(rt: HostRuntime) -> Result<(), Fail> {
    for &input in &NO_PATCH {
        check_run(
            &rt,
            rt.alloc(),
            &["patch"],
            input,
            "! patch 1\n",
            Status::BadLines,
        )?;
    }
    Ok(())
}
