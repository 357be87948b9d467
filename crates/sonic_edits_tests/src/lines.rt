// Edit lines, and heads of such lines: expected values by the grammar of JSON.
use crate::same::{same, same_at};
use sonic_edits::{EditHead, edit_of_line, read_edits};
use sonic_owned::{Change, OwnedLazyValue};
use sonic_pointer::PointerNode;
use sonic_pointer::PointerNode::{Index, Key};
use std::alloc::{AllocError, Global};
use std::process::Abort;
use std::test::Fail;

// A line, the path that it says, and what it asks for: a word, a key if the word takes one, and the text
// of a value if it takes one.
type Good = (
    &'static [u8],
    &'static [PointerNode<'static>],
    &'static [u8],
);

const GOOD: [Good; 32] = [
    (b"[\"set\",[],null]", &[], b"set null"),
    (b"[\"set\",[],true]", &[], b"set true"),
    (b"[\"set\",[],false]", &[], b"set false"),
    (b"[\"set\",[],1.10e+2]", &[], b"set 1.10e+2"),
    (b"[\"set\",[],-0]", &[], b"set -0"),
    (b"[\"set\",[],\"\\u0061\\/\"]", &[], b"set \"\\u0061\\/\""),
    (b"[\"set\",[],[ 1 , [2] ]]", &[], b"set [ 1 , [2] ]"),
    (
        b"[\"set\",[],{ \"a\" : 1 , \"a\" : [] }]",
        &[],
        b"set { \"a\" : 1 , \"a\" : [] }",
    ),
    (b"[\"set\",[\"a\"],\"set\"]", &[Key("a")], b"set \"set\""),
    (
        b"[\"set\",[\"a\",1,\"\"],[]]",
        &[Key("a"), Index(1), Key("")],
        b"set []",
    ),
    (b" \t[ \"set\" , [ 0 ] , 7 ]\r", &[Index(0)], b"set 7"),
    (b"\n[\n\"set\"\n,\n[\n]\n,\n7\n]\n", &[], b"set 7"),
    (b"[\"s\\u0065t\",[],7]", &[], b"set 7"),
    (b"[\"\\u0073\\u0065\\u0074\",[],7]", &[], b"set 7"),
    (b"[\"set\",[\"\\u0061\"],7]", &[Key("a")], b"set 7"),
    (
        b"[\"set\",[\"\xc3\xa9\"],\"\xf0\x9f\x98\x80\"]",
        &[Key("é")],
        b"set \"\xf0\x9f\x98\x80\"",
    ),
    (b"[\"push\",[\"a\"],1.0]", &[Key("a")], b"push 1.0"),
    (b"[\"push\",[],null]", &[], b"push null"),
    (b"[\"push\",[3],{}]", &[Index(3)], b"push {}"),
    (b"[\"pus\\u0068\",[],0]", &[], b"push 0"),
    (b"[\"pair\",[],\"k\",1]", &[], b"pair k 1"),
    (b"[\"pair\",[],\"\",\"\"]", &[], b"pair  \"\""),
    (
        b"[\"pair\",[\"k\"],\"k\",[\"k\"]]",
        &[Key("k")],
        b"pair k [\"k\"]",
    ),
    (
        b"[\"pair\",[1],\"\\u0061\\n\\ud83d\\ude00\\\"\",{\"a\":{}}]",
        &[Index(1)],
        b"pair a\n\xf0\x9f\x98\x80\" {\"a\":{}}",
    ),
    (
        b"[\"p\\u0061ir\" , [] ,\t\"a b\" , \"c\\/\" ]",
        &[],
        b"pair a b \"c\\/\"",
    ),
    (b"[\"pair\",[],\"\\u0000\",0]", &[], b"pair \0 0"),
    (b"[\"take\",[]]", &[], b"take"),
    (b"[\"take\",[\"a\",\"a\"]]", &[Key("a"), Key("a")], b"take"),
    (
        b"[\"take\",[0,\"a\",18446744073709551615]]",
        &[Index(0), Key("a"), Index(usize::MAX)],
        b"take",
    ),
    (b" [\"take\" ,[\"[\"]] ", &[Key("[")], b"take"),
    (b"[\"\\u0074ake\",[]]", &[], b"take"),
    (b"[\"take\",[ ]]", &[], b"take"),
];

// What a change is: its word, and its key and the text of its value, where it has them.
fn shown(alloc: Global, change: &Change) -> Result<String, AllocError> {
    let (key, value) = match change {
        Change::Set(value) | Change::Push(value) => (None, Some(value)),
        Change::Pair(key, value) => (Some(key), Some(value)),
        // No line says the others.
        _ => (None, None),
    };
    let mut text = String::from_str(alloc, word(change))?;
    if let Some(key) = key {
        text.push(' ')?;
        text.push_str(key.as_str())?;
    }
    if let Some(value) = value {
        text.push(' ')?;
        text.push_str(&format!(in alloc; "{value}")?)?;
    }
    Ok(text)
}

// Whether a line says no edit.
fn is_refused(alloc: Global, line: &[u8]) -> Result<bool, AllocError> {
    Ok(edit_of_line(alloc, line)?.is_none())
}

#[test]
fn reads_edits_of_each_word(rt: HostRuntime) -> Result<(), Fail> {
    let alloc = rt.alloc();
    for &(line, path, wanted) in &GOOD {
        match edit_of_line(alloc, line)? {
            Some(edit) => {
                same_at(&rt, edit.path.nodes(alloc)?.as_slice(), path, line);
                same_at(&rt, shown(alloc, &edit.change)?.as_bytes(), wanted, line);
            }
            None => panic!(rt; "{line:?} says no edit"),
        }
    }
    Ok(())
}

const BAD: [&[u8]; 66] = [
    // Words.
    b"[\"Set\",[],1]",
    b"[\"SET\",[],1]",
    b"[\"set \",[],1]",
    b"[\"sets\",[],1]",
    b"[\"se\",[],1]",
    b"[\"\",[],1]",
    b"[\"take\",[],1]",
    b"[\"set\",[]]",
    b"[\"push\",[]]",
    b"[\"pair\",[],\"k\"]",
    b"[\"pair\",[]]",
    b"[\"pair\",[],1]",
    b"[\"set\",[],\"k\",1]",
    b"[\"push\",[],\"k\",1]",
    b"[\"take\",[],\"k\",1]",
    b"[\"pop\",[]]",
    b"[set,[],1]",
    b"['set',[],1]",
    b"[null,[],1]",
    b"[[\"set\"],[],1]",
    b"[\"\\\"set\\\"\",[],1]",
    // Too few elements, or too many.
    b"[]",
    b"[ ]",
    b"[\"set\"]",
    b"[\"take\"]",
    b"[[]]",
    b"[\"take\",[],[]]",
    b"[\"set\",[],1,2]",
    b"[\"pair\",[],\"k\",1,2]",
    b"[\"pair\",[],\"k\",1,2,3,4,5,6]",
    // Paths.
    b"[\"set\",null,1]",
    b"[\"set\",\"a\",1]",
    b"[\"set\",0,1]",
    b"[\"set\",{},1]",
    b"[\"set\",[-1],1]",
    b"[\"set\",[-0],1]",
    b"[\"set\",[1.0],1]",
    b"[\"set\",[18446744073709551616],1]",
    b"[\"set\",[null],1]",
    b"[\"set\",[[]],1]",
    b"[\"take\",[{}]]",
    b"[[],\"set\",1]",
    // Keys.
    b"[\"pair\",[],null,1]",
    b"[\"pair\",[],1,1]",
    b"[\"pair\",[],[\"k\"],1]",
    b"[\"pair\",[],{},1]",
    // Values, and what is no JSON.
    b"[\"set\",[],1.]",
    b"[\"set\",[],nul]",
    b"[\"set\",[],]",
    b"[\"set\",[],1",
    b"[\"set\",[],[1]",
    b"[\"set\",[],\"a]",
    b"[\"set\",[],\"\\ud83d\"]",
    b"[\"set\",[] 1]",
    b"[\"set\":[],1]",
    b"[\"take\",[]]x",
    b"[\"take\",[]] [\"take\",[]]",
    b"[\"take\",[]],",
    b"",
    b" ",
    // Other kinds.
    b"{\"set\":[]}",
    b"\"take\"",
    // No UTF-8.
    b"[\"set\",[],\"\xff\"]",
    b"[\"take\",[\"\xc3\"]]",
    b"[\"take\",[]]\xff",
    b"\xef\xbb\xbf[\"take\",[]]",
];

#[test]
fn refuses_what_is_no_edit(rt: HostRuntime) -> Result<(), Fail> {
    for &line in &BAD {
        assert!(rt; is_refused(rt.alloc(), line)?, "{line:?}");
    }
    Ok(())
}

// A line whose path has so many nodes.
fn line_of(alloc: Global, count: usize) -> Result<String, AllocError> {
    let mut line = String::from_str(alloc, "[\"take\",[")?;
    for i in 0..count {
        if i > 0 {
            line.push(',')?;
        }
        line.push('0')?;
    }
    line.push_str("]]")?;
    Ok(line)
}

#[test]
fn takes_paths_of_at_most_255_nodes(rt: HostRuntime) -> Result<(), Fail> {
    let alloc = rt.alloc();
    let line = line_of(alloc, 255)?;
    match edit_of_line(alloc, line.as_bytes())? {
        Some(edit) => same(&rt, edit.path.len(), 255),
        None => panic!(rt; "255 nodes are refused"),
    }
    let long = line_of(alloc, 256)?;
    assert!(rt; is_refused(alloc, long.as_bytes())?);
    Ok(())
}

// The word of a change.
fn word(change: &Change) -> &'static str {
    match change {
        Change::Set(_) => "set",
        Change::Push(_) => "push",
        Change::Pair(_, _) => "pair",
        Change::Take => "take",
        _ => "no word of a line",
    }
}

// A head, the words of its edits, and where the document begins.
type Whole = (&'static [u8], &'static [&'static str], usize);

const WHOLE: [Whole; 12] = [
    (b"", &[], 0),
    (b" \t", &[], 2),
    (b"\n", &[], 1),
    (b" \r\n[\"take\",[]]", &[], 3),
    (b"[\"take\",[]]", &["take"], 11),
    (b"[\"take\",[]]\n", &["take"], 12),
    (b"[\"take\",[]]\n\n[7]", &["take"], 13),
    (b"[\"take\",[]]\r\n\r\n1", &["take"], 15),
    (b"[\"take\",[]]\n\n\xff", &["take"], 13),
    (
        b"[\"set\",[0],1]\n[\"push\",[\"a\"],[]]\n\n{}",
        &["set", "push"],
        33,
    ),
    (
        b"[\"pair\",[],\"k\",1]\n[\"take\",[\"k\"]]\n \t\r\nx",
        &["pair", "take"],
        37,
    ),
    (
        b"[\"take\",[]]\n[\"take\",[]]\n[\"set\",[],null]",
        &["take", "take", "set"],
        39,
    ),
];

#[test]
fn reads_heads(rt: HostRuntime) -> Result<(), Fail> {
    let alloc = rt.alloc();
    for &(input, words, document) in &WHOLE {
        match read_edits(alloc, input)? {
            EditHead::Edits(edits, place) => {
                same_at(&rt, place, document, input);
                assert_eq!(rt; edits.len(), words.len(), "{input:?}");
                for i in 0..words.len() {
                    same_at(&rt, word(&edits[i].change), words[i], input);
                }
            }
            EditHead::Bad(line) => panic!(rt; "{input:?} has a bad line {line}"),
        }
    }
    Ok(())
}

// A head, and its first bad line.
const FAULTY: [(&[u8], usize); 9] = [
    (b"x", 1),
    (b"[]\n\n", 1),
    (b"{}\n[\"take\",[]]\n\n", 1),
    (b"[\"take\",[]]\n[\"Take\",[]]\n\n1", 2),
    (b"[\"take\",[]]\n[\"take\",[]", 2),
    (b"[\"take\",[]]\n[\"take\",[]]\n[\"take\",[-0]]\nx\n\n", 3),
    (
        b"[\"set\",[0],1]\n[\"set\",[\"a\"],1]\n[\"set\",[],]\n\n",
        3,
    ),
    (b"\xc2\xa0\n\n", 1),
    (b"[\"take\",[]]\n[\"set\",\n[],1]\n\n", 2),
];

#[test]
fn finds_the_first_bad_line(rt: HostRuntime) -> Result<(), Fail> {
    let alloc = rt.alloc();
    for &(input, number) in &FAULTY {
        match read_edits(alloc, input)? {
            EditHead::Bad(line) => same_at(&rt, line, number, input),
            EditHead::Edits(_, _) => panic!(rt; "{input:?} has no bad line"),
        }
    }
    Ok(())
}

// Two thousand lines of values.
fn many_lines(alloc: Global) -> Result<String, Fail> {
    let mut input = String::new(alloc);
    for i in 0..2000usize {
        input.push_str(&format!(in alloc; "[\"set\",[\"k{i}\"],[{i}]]\n")?)?;
    }
    Ok(input)
}

#[test]
fn reads_two_thousand_lines(rt: HostRuntime) -> Result<(), Fail> {
    let alloc = rt.alloc();
    let mut input = many_lines(alloc)?;
    match read_edits(alloc, input.as_bytes())? {
        EditHead::Edits(edits, document) => {
            same(&rt, document, input.len());
            assert_eq!(rt; edits.len(), 2000);
            same(&rt, &shown(alloc, &edits[1999].change)?[..], "set [1999]");
        }
        EditHead::Bad(line) => panic!(rt; "line {line} is bad"),
    }
    input.push_str("[\"set\"]\n")?;
    match read_edits(alloc, input.as_bytes())? {
        EditHead::Bad(line) => same(&rt, line, 2001),
        EditHead::Edits(_, _) => panic!(rt; "no line is bad"),
    }
    Ok(())
}

// An array of a hundred thousand elements says no edit, and is read no further than its fifth.
#[test]
fn refuses_a_long_array(rt: HostRuntime) -> Result<(), Fail> {
    let alloc = rt.alloc();
    let mut line = String::from_str(alloc, "[\"take\",[]")?;
    for _ in 0..100_000 {
        line.push_str(",0")?;
    }
    line.push(']')?;
    assert!(rt; is_refused(alloc, line.as_bytes())?);
    Ok(())
}
