// Whole runs of `edit` over memory: what comes in, what goes out, and the status. The expected texts
// are by the rule that only levels on the way of an edit are written anew.
use crate::rows::{check_run, owned};
use crate::same::same_at;
use sonic_io::{MemorySink, SureSource};
use sonic_reports::{Status, run};
use std::alloc::Global;
use std::process::Abort;
use std::test::Fail;

// An input and what is written for it.
type Row = (&'static [u8], &'static str);

const MADE: [Row; 22] = [
    (
        br#"["set",["a",1],true]

{"a" : [1, 2] , "b":{ "c" : 0 }}"#,
        "{\"a\":[1,true],\"b\":{ \"c\" : 0 }}\n",
    ),
    (
        b"[\"pair\",[],\"z\",[ 1 ]]\n[\"take\",[\"a\"]]\n\n{\"a\":5}",
        "{\"a\":null,\"z\":[ 1 ]}\n",
    ),
    // No edit: the value's text, without the white space round it.
    (b"\n {\"a\" : [ ]}\t\r\n", "{\"a\" : [ ]}\n"),
    (b" \t\n\n 1.50\n\n", "1.50\n"),
    // The root.
    (b"[\"take\",[]]\n\n[1, 2]", "null\n"),
    (b"[\"set\",[],{ }]\n\n[1, 2]", "{ }\n"),
    (b"[\"push\",[],\" \"]\n\n [ ] ", "[\" \"]\n"),
    (b"[\"pair\",[],\"\",0]\n\n{ }", "{\"\":0}\n"),
    // A key that is there already, and keys that are repeated.
    (b"[\"pair\",[],\"a\",2]\n\n{\"a\":1}", "{\"a\":1,\"a\":2}\n"),
    (
        b"[\"set\",[\"a\"],0]\n\n{\"a\":1,\"a\":2}",
        "{\"a\":0,\"a\":2}\n",
    ),
    (
        b"[\"pair\",[],\"a\",2]\n[\"set\",[\"a\"],3]\n\n{\"a\":1}",
        "{\"a\":3,\"a\":2}\n",
    ),
    // Keys are compared unescaped, and written so where their object is opened.
    (
        br#"["set",["\u0061"],1]

{"\u0061":0, "\/" : "\/"}"#,
        "{\"a\":1,\"/\":\"\\/\"}\n",
    ),
    // One after another, and in what an edit before has put.
    (
        b"[\"push\",[\"a\"],1]\n[\"push\",[\"a\"],2]\n\n{\"a\":[]}",
        "{\"a\":[1,2]}\n",
    ),
    (
        b"[\"set\",[],7]\n[\"set\",[],[8]]\n[\"push\",[],9]\n\n0",
        "[8,9]\n",
    ),
    (
        b"[\"take\",[\"a\"]]\n[\"set\",[\"a\"],{}]\n[\"pair\",[\"a\"],\"b\",[]]\n\n{\"a\":1}",
        "{\"a\":{\"b\":[]}}\n",
    ),
    (
        b"[\"set\",[0],1]\n[\"set\",[0],2]\n[\"set\",[0],3]\n\n[0]",
        "[3]\n",
    ),
    // What isn't on the way keeps its text, also line feeds, spellings and numbers.
    (
        b"[\"set\",[\"b\"],1]\n\n{\"a\":[1,\n\n 2],\n\"b\":0}",
        "{\"a\":[1,\n\n 2],\"b\":1}\n",
    ),
    (
        b"[\"set\",[\"a\",\"b\"],1]\n\n{\"a\":{ \"b\" : 0 , \"c\" : [ ] }, \"d\" : { } }",
        "{\"a\":{\"b\":1,\"c\":[ ]},\"d\":{ }}\n",
    ),
    (
        b"[\"set\",[0],1.0]\n\n[0, 1.50e+1, -0, \"\\u0041\"]",
        "[1.0,1.50e+1,-0,\"\\u0041\"]\n",
    ),
    (
        b"[\"set\",[\"a\"],{ \"x\" : [ ] }]\n\n{\"a\":0}",
        "{\"a\":{ \"x\" : [ ] }}\n",
    ),
    // White space where JSON allows it, and words that are spelled otherwise.
    (b" [ \"\\u0073et\" , [ 0 ] , 5 ] \r\n\t\r\n[1\n]", "[5]\n"),
    (
        b"[\"set\",[\"\xc3\xa9\"],\"\xc3\xa9\"]\n\n{\"\xc3\xa9\":1}",
        "{\"\u{e9}\":\"\u{e9}\"}\n",
    ),
];

const REFUSED: [Row; 15] = [
    (
        b"[\"set\",[],{\"a\":{}}]\n[\"push\",[\"a\"],1]\n\n0",
        "! edit 2\n",
    ),
    // The path leads nowhere.
    (b"[\"set\",[\"b\"],1]\n\n{\"a\":1}", "! edit 1\n"),
    (b"[\"take\",[\"A\"]]\n\n{\"a\":1}", "! edit 1\n"),
    (b"[\"take\",[1]]\n\n[0]", "! edit 1\n"),
    (b"[\"take\",[0]]\n\n[]", "! edit 1\n"),
    (b"[\"set\",[\"a\",0],1]\n\n{\"a\":0}", "! edit 1\n"),
    (b"[\"set\",[0],1]\n\n{\"0\":1}", "! edit 1\n"),
    (b"[\"set\",[\"0\"],1]\n\n[1]", "! edit 1\n"),
    // What is appended to is of another kind.
    (b"[\"push\",[],1]\n\n{}", "! edit 1\n"),
    (b"[\"push\",[],1]\n\n\"[]\"", "! edit 1\n"),
    (b"[\"pair\",[],\"k\",1]\n\n[]", "! edit 1\n"),
    (b"[\"pair\",[],\"k\",1]\n\nnull", "! edit 1\n"),
    // The first that is refused, after those before it.
    (b"[\"take\",[\"x\"]]\n[\"push\",[],1]\n\n{}", "! edit 1\n"),
    (
        b"[\"take\",[0]]\n[\"take\",[1]]\n[\"take\",[2]]\n[\"take\",[3]]\n\n[1,2]",
        "! edit 3\n",
    ),
    (
        b"[\"take\",[\"a\"]]\n[\"set\",[\"a\",\"b\"],1]\n\n{\"a\":{\"b\":0}}",
        "! edit 2\n",
    ),
];

const NO_DOCUMENT: [Row; 11] = [
    (
        b"[\"take\",[]]\n\n{\"a\":}",
        "! syntax InvalidJsonValue 1 6 5\n",
    ),
    (b"[\"take\",[]]\n\n[1,\n2", "! eof EofWhileParsing 2 1 4\n"),
    // The document is looked at whole before the first edit.
    (
        b"[\"take\",[\"b\"]]\n\n{\"a\":1} x",
        "! syntax TrailingCharacters 1 9 8\n",
    ),
    (
        b"[\"take\",[]]\n\n1\n2",
        "! syntax TrailingCharacters 2 1 2\n",
    ),
    (
        b"[\"take\",[\"a\"]]\n\n{\"a\":1,\"b\":tru}",
        "! syntax InvalidLiteral 1 15 14\n",
    ),
    // The fault of the value comes first, then what follows it, and then the first broken place.
    (b"[\"take\",[]]\n\n\"\xff\"", "! syntax InvalidUTF8 1 2 1\n"),
    (
        b"[\"take\",[]]\n\n\"\xff\" x",
        "! syntax TrailingCharacters 1 5 4\n",
    ),
    (
        b"[\"take\",[]]\n\n[\"\xff\",]",
        "! syntax InvalidJsonValue 1 6 5\n",
    ),
    (b"\n{}\xff", "! syntax TrailingCharacters 1 3 2\n"),
    // No document.
    (b"", "! eof EofWhileParsing 1 1 0\n"),
    (b"[\"take\",[]]", "! eof EofWhileParsing 1 1 0\n"),
];

const BAD_LINES: [Row; 7] = [
    (b"[\"drop\",[]]\n\n0", "! edits 1\n"),
    (b"[\"take\",[]]\n[\"set\",[]]\n\n0", "! edits 2\n"),
    (b"[\"a\"]\n\n{\"a\":1}", "! edits 1\n"),
    // The lines are read before the document, and before an edit is made.
    (b"[\"take\",[]] x\n\n{", "! edits 1\n"),
    (b"[\"take\",[\"b\"]]\n[]\n\n{}", "! edits 2\n"),
    (b"[\"take\",[\"\xff\"]]\n\n0", "! edits 1\n"),
    (b"{\"a\":1}", "! edits 1\n"),
];

// Each row, over a source that gives five bytes in a call.
fn check_rows(rt: &impl Abort, alloc: Global, rows: &[Row], status: Status) -> Result<(), Fail> {
    for (input, output) in rows {
        check_run(rt, alloc, &["edit"], input, output, status)?;
    }
    Ok(())
}

#[test]
fn writes_the_edited_value(rt: HostRuntime) -> Result<(), Fail> {
    check_rows(&rt, rt.alloc(), &MADE, Status::Done)
}

#[test]
fn tells_the_first_edit_that_is_refused(rt: HostRuntime) -> Result<(), Fail> {
    check_rows(&rt, rt.alloc(), &REFUSED, Status::DocumentError)
}

#[test]
fn tells_why_the_document_is_none(rt: HostRuntime) -> Result<(), Fail> {
    check_rows(&rt, rt.alloc(), &NO_DOCUMENT, Status::DocumentError)
}

#[test]
fn tells_the_first_bad_line(rt: HostRuntime) -> Result<(), Fail> {
    check_rows(&rt, rt.alloc(), &BAD_LINES, Status::BadLines)
}

// How a run ends, over pieces of such a size, where one call of the sink fails, and what it wrote.
fn written(
    alloc: Global,
    input: &[u8],
    piece: usize,
    fails: u64,
) -> Result<(Status, Vec<u8>), Fail> {
    let words = owned(alloc, &["edit"])?;
    let mut source = SureSource::new(Vec::from_slice(alloc, input)?, piece.max(1));
    let mut sink = MemorySink::new(alloc, 4096, 3, Vec::from_slice(alloc, &[fails])?)
        .ok()
        .ok_or("no memory")?;
    let status = run(alloc, &words, &mut source, &mut sink);
    Ok((status, Vec::from_slice(alloc, sink.written())?))
}

#[test]
fn reads_by_pieces_of_any_size(rt: HostRuntime) -> Result<(), Fail> {
    for &(input, output) in &MADE {
        for &piece in &[1, 2, 7, 1000] {
            let (status, text) = written(rt.alloc(), input, piece, 0)?;
            same_at(&rt, status, Status::Done, input);
            same_at(&rt, &text[..], output.as_bytes(), input);
        }
    }
    Ok(())
}

// Each call but the last ones fails in turn, and what was written is a prefix of the report.
#[test]
fn breaks_off_at_a_failing_write(rt: HostRuntime) -> Result<(), Fail> {
    let input = b"[\"set\",[\"a\",1],true]\n\n{\"a\":[1,2]}";
    let report = b"{\"a\":[1,true]}\n";
    for call in 1..10 {
        let (status, text) = written(rt.alloc(), input, 4, call)?;
        let whole = text.len() == report.len();
        assert!(rt; report.starts_with(&text), "{call}");
        same_at(&rt, status == Status::Done, call > 6, call);
        same_at(&rt, status == Status::WriteFault, call <= 6, call);
        same_at(&rt, whole, call >= 6, call);
    }
    Ok(())
}
