// Lines of keys and indexes, and heads of such lines: expected values by the grammar of JSON.
use crate::same::{same, same_at};
use sonic_paths::{Head, path_of_line, read_paths};
use sonic_pointer::PointerNode::{Index, Key};
use sonic_pointer::{PointerNode, PointerTree, TreeView};
use std::alloc::{AllocError, Global};
use std::process::Abort;
use std::test::Fail;

// A line, and the path that it says.
type Good = (&'static [u8], &'static [PointerNode<'static>]);

const GOOD: [Good; 20] = [
    (b"[]", &[]),
    (b" \t[ \r] ", &[]),
    (b"[0]", &[Index(0)]),
    (b"[\"a\"]", &[Key("a")]),
    (b"[\"\"]", &[Key("")]),
    (b"[\"1\",1]", &[Key("1"), Index(1)]),
    (
        b" [ \"a\" ,\t12 , \"\" ]\r",
        &[Key("a"), Index(12), Key("")],
    ),
    (
        b"[7,\"a\",0,\"bc\"]",
        &[Index(7), Key("a"), Index(0), Key("bc")],
    ),
    (b"[\"],[\"]", &[Key("],[")]),
    (b"[\"\\u0061\",\"a\"]", &[Key("a"), Key("a")]),
    (b"[\"\\u00E9\\u00e9\"]", &[Key("éé")]),
    (b"[\"\\\"\\\\\\/\\n\\r\\t\"]", &[Key("\"\\/\n\r\t")]),
    (b"[\"\\u0000\",\"\\b\\f\"]", &[Key("\0"), Key("\x08\x0c")]),
    (b"[\"\\ud83d\\ude00\"]", &[Key("😀")]),
    (b"[\"x\\uD83D\\uDE00y\",3]", &[Key("x😀y"), Index(3)]),
    (b"[\"\xc3\xa9\xf0\x9f\x98\x80\"]", &[Key("é😀")]),
    (b"[\"\xc3\xa9\\u00e9\xc3\xa9\"]", &[Key("ééé")]),
    (b"[\"\x7f\"]", &[Key("\x7f")]),
    (b"[18446744073709551615]", &[Index(usize::MAX)]),
    (b"[10,100]", &[Index(10), Index(100)]),
];

#[test]
fn reads_lines_of_keys_and_indexes(rt: HostRuntime) -> Result<(), Fail> {
    let alloc = rt.alloc();
    for &(line, path) in &GOOD {
        match path_of_line(alloc, line)? {
            Some(found) => {
                same_at(&rt, found.len(), path.len(), line);
                same_at(&rt, found.nodes(alloc)?.as_slice(), path, line);
            }
            None => panic!(rt; "{line:?} says no path"),
        }
    }
    Ok(())
}

const BAD: [&[u8]; 53] = [
    b"",
    b" ",
    b"[",
    b"]",
    b"[1",
    b"[1,",
    b"[1,]",
    b"[,1]",
    b"[1,,2]",
    b"[1 2]",
    b"[\"a\" \"b\"]",
    b"[\"a\"1]",
    b"[\"a\":1]",
    b"[1]x",
    b"[1] [2]",
    b"[1],",
    b"[]]",
    b"\"a\"",
    b"1",
    b"null",
    b"{}",
    b"{\"a\":1}",
    b"[null]",
    b"[true]",
    b"[[1]]",
    b"[\"a\",[]]",
    b"[{}]",
    b"[1,{\"a\":1}]",
    b"[-0]",
    b"[-1]",
    b"[+1]",
    b"[01]",
    b"[1.0]",
    b"[1e0]",
    b"[1e2]",
    b"[[],1]",
    b"[0E1]",
    b"[18446744073709551616]",
    b"[99999999999999999999999]",
    b"[a]",
    b"['a']",
    b"[\"a]",
    b"[\"\\x\"]",
    b"[\"\\u12\"]",
    b"[\"\\ud83d\"]",
    b"[\"\\ude00\\ud83d\"]",
    b"[\"a\nb\"]",
    b"[\"\x1f\"]",
    b"[\"\xff\"]",
    b"[\"\xc3\"]",
    b"[\"\xed\xa0\x80\"]",
    b"[1]\xff",
    b"\xef\xbb\xbf[]",
];

#[test]
fn refuses_what_is_no_line_of_nodes(rt: HostRuntime) -> Result<(), Fail> {
    for &line in &BAD {
        assert!(rt; path_of_line(rt.alloc(), line)?.is_none(), "{line:?}");
    }
    Ok(())
}

// An array of the node, so many times.
fn array_of(alloc: Global, node: &str, count: usize) -> Result<String, AllocError> {
    let mut line = String::from_str(alloc, "[")?;
    for i in 0..count {
        if i > 0 {
            line.push(',')?;
        }
        line.push_str(node)?;
    }
    line.push(']')?;
    Ok(line)
}

#[test]
fn takes_at_most_255_nodes(rt: HostRuntime) -> Result<(), Fail> {
    let alloc = rt.alloc();
    for &node in &["0", "\"k\"", "\"\\u006b\""] {
        let line = array_of(alloc, node, 255)?;
        match path_of_line(alloc, line.as_bytes())? {
            Some(path) => same_at(&rt, path.nodes(alloc)?.len(), 255, node),
            None => panic!(rt; "255 nodes {node} are refused"),
        }
        let long = array_of(alloc, node, 256)?;
        assert!(rt; path_of_line(alloc, long.as_bytes())?.is_none(), "{node}");
    }
    Ok(())
}

// The place that this node leads to.
fn follow<'t>(view: &TreeView<'t>, node: PointerNode<'_>) -> Option<TreeView<'t>> {
    for i in 0..view.count() {
        let (label, below) = view.child(i);
        if label == node {
            return Some(below);
        }
    }
    None
}

// The numbers of the paths that are equal to this one.
fn orders<'t>(tree: &'t PointerTree, path: &[PointerNode<'_>]) -> Option<&'t [usize]> {
    let mut view = tree.view();
    for node in path {
        view = follow(&view, *node)?;
    }
    Some(view.orders())
}

// A path, and the numbers of the lines that say it, from 0.
type Said = (&'static [PointerNode<'static>], &'static [usize]);

// A head, the number of its lines, their paths, and where the document begins.
type Whole = (&'static [u8], usize, &'static [Said], usize);

const WHOLE: [Whole; 16] = [
    (b"", 0, &[], 0),
    (b" \t", 0, &[], 2),
    (b"\n", 0, &[], 1),
    (b" \r\n[]", 0, &[], 3),
    (b"[]", 1, &[(&[], &[0])], 2),
    (b"[]\n", 1, &[(&[], &[0])], 3),
    (b"[]\n\n{}", 1, &[(&[], &[0])], 4),
    (b"[]\r\n\r\n1", 1, &[(&[], &[0])], 6),
    (b"[]\n\n\xff", 1, &[(&[], &[0])], 4),
    (b"[]\n\n\n[", 1, &[(&[], &[0])], 4),
    (b"[\"a\"]\n[\"a\"]", 2, &[(&[Key("a")], &[0, 1])], 11),
    (
        b"[\"a\"]\n[\"a\",0]\n\n",
        2,
        &[(&[Key("a")], &[0]), (&[Key("a"), Index(0)], &[1])],
        15,
    ),
    (
        b"[\"a\",0]\n[\"b\",\"c\"]\n[]\n \n0",
        3,
        &[
            (&[Key("a"), Index(0)], &[0]),
            (&[Key("b"), Key("c")], &[1]),
            (&[], &[2]),
        ],
        23,
    ),
    (
        b"[1]\n[0]\n[1,\"k\"]\n[1]\n\nnull",
        4,
        &[
            (&[Index(0)], &[1]),
            (&[Index(1)], &[0, 3]),
            (&[Index(1), Key("k")], &[2]),
        ],
        21,
    ),
    (
        b"[\"\\u0061\"]\n[\"a\",\"b\"]\n\n",
        2,
        &[(&[Key("a")], &[0]), (&[Key("a"), Key("b")], &[1])],
        22,
    ),
    (
        b"[\"1\"]\n[\"2\",1]\n[\"1\",2]\n\n",
        3,
        &[
            (&[Key("1")], &[0]),
            (&[Key("1"), Index(2)], &[2]),
            (&[Key("2"), Index(1)], &[1]),
        ],
        23,
    ),
];

#[test]
fn reads_heads(rt: HostRuntime) -> Result<(), Fail> {
    let alloc = rt.alloc();
    for &(input, count, said, document) in &WHOLE {
        match read_paths(alloc, input)? {
            Head::Paths(tree, place) => {
                same_at(&rt, tree.size(), count, input);
                same_at(&rt, place, document, input);
                for (path, numbers) in said {
                    same_at(&rt, orders(&tree, *path), Some(*numbers), input);
                }
            }
            Head::Bad(line) => panic!(rt; "{input:?} has a bad line {line}"),
        }
    }
    Ok(())
}

// A head, and its first bad line.
const FAULTY: [(&[u8], usize); 14] = [
    (b"x", 1),
    (b"[1.0]\n\n", 1),
    (b"{}\n[]\n\n", 1),
    (b"[]\n[", 2),
    (b"[]\n[\"a\"]\n[-0]\nx\n\n", 3),
    (b"[\"a\"]\n[0]\n\n{}", 2),
    (b"[0]\n[\"a\"]\n\n{}", 2),
    (b"[\"a\"]\n[\"a\",0]\n[\"a\",\"b\"]\n\n", 3),
    (b"[\"\\u0061\",0]\n[\"a\",\"b\"]\n\n", 2),
    (b"[]\n[]\n[0]\n[1]\n[\"\"]\n[x]", 5),
    (b"[\"0\"]\n[0]", 2),
    (b"\xc2\xa0\n\n", 1),
    (b"[\"\xff\"]\n\n", 1),
    (b"[]\n[]]\n\n", 2),
];

#[test]
fn finds_the_first_bad_line(rt: HostRuntime) -> Result<(), Fail> {
    let alloc = rt.alloc();
    for &(input, number) in &FAULTY {
        match read_paths(alloc, input)? {
            Head::Bad(line) => same_at(&rt, line, number, input),
            Head::Paths(_, _) => panic!(rt; "{input:?} has no bad line"),
        }
    }
    Ok(())
}

// Two thousand lines of a key and an index.
fn many_lines(alloc: Global) -> Result<String, Fail> {
    let mut input = String::new(alloc);
    for i in 0..2000usize {
        input.push_str(&format!(in alloc; "[\"k{i}\",{i}]\n")?)?;
    }
    Ok(input)
}

#[test]
fn reads_two_thousand_lines(rt: HostRuntime) -> Result<(), Fail> {
    let alloc = rt.alloc();
    let mut input = many_lines(alloc)?;
    match read_paths(alloc, input.as_bytes())? {
        Head::Paths(tree, document) => {
            same(&rt, tree.size(), 2000);
            same(&rt, document, input.len());
            let last = [Key("k1999"), Index(1999)];
            same(&rt, orders(&tree, &last), Some(&[1999][..]));
        }
        Head::Bad(line) => panic!(rt; "line {line} is bad"),
    }
    input.push_str("[\"k7\",\"7\"]\n")?;
    match read_paths(alloc, input.as_bytes())? {
        Head::Bad(line) => same(&rt, line, 2001),
        Head::Paths(_, _) => panic!(rt; "no line is bad"),
    }
    Ok(())
}
