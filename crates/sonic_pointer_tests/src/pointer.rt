// What no clause says: that the calls answer the worked examples of their documents, and that
// trees with many keys under one prefix are quick to make and to search.
ghost use Rattle.std.specs.Prelude.{◌<◌, ◌≤◌};

use crate::same::{same, same_at};
use sonic_input::FastStr;
use sonic_pointer::{
    Branch, OwnedNode, OwnedPath, PathError, PointerNode, PointerTree, TreeView, pointer,
};
use sonic_text::string_end;
use std::alloc::{AllocError, Global};
use std::cmp::Ordering;
use std::process::Abort;

#[test]
fn makes_nodes(rt: HostRuntime) -> Result<(), AllocError> {
    let owned = String::from_str(rt.alloc(), "c")?;
    let path = pointer!["a", 1, &2usize, &owned];
    same(&rt, path[0].as_key(), Some("a"));
    same(&rt, path[0].as_index(), None);
    same(&rt, path[1].as_index(), Some(1));
    same(&rt, path[1].as_key(), None);
    same(&rt, path[2], PointerNode::Index(2));
    same(&rt, path[3], PointerNode::Key("c"));
    same(&rt, pointer![].len(), 0);
    if let Ok(shared) = FastStr::new(rt.alloc(), "d") {
        same(&rt, PointerNode::from(&shared), PointerNode::Key("d"));
    }
    same(
        &rt,
        PointerNode::Key("z").cmp(&PointerNode::Index(0)),
        Ordering::Less,
    );
    same(&rt, PathError::from(AllocError), PathError::NoMemory);
    Ok(())
}

// The child with this number, if there is one.
fn child<'t>(view: &TreeView<'t>, i: usize) -> Option<(PointerNode<'t>, TreeView<'t>)> {
    if i < view.count() {
        Some(view.child(i))
    } else {
        None
    }
}

// The number of the child whose key the text is a string for. Where that has no backslash it is asked for
// in both ways, and is none if they differ.
fn number_of(view: &TreeView<'_>, text: &[u8]) -> Option<usize> {
    if text.is_empty() || text[0] != b'"' {
        return None;
    }
    let Ok(end) = string_end(text, 0, false) else {
        return None;
    };
    let found = view.of_key(text, 0, end.end);
    if end.escaped || found == view.of_plain_key(text, 0, end.end) {
        found
    } else {
        None
    }
}

// The vertex after a path.
fn at<'t>(tree: &'t PointerTree, path: &[PointerNode<'_>]) -> Option<TreeView<'t>> {
    let mut view = tree.view();
    for node in path {
        view = below(&view, *node)?;
    }
    Some(view)
}

fn below<'t>(view: &TreeView<'t>, node: PointerNode<'_>) -> Option<TreeView<'t>> {
    for i in 0..view.count() {
        let (found, below) = view.child(i);
        if found == node {
            return Some(below);
        }
    }
    None
}

fn check(
    rt: &impl Abort,
    tree: &PointerTree,
    path: &[PointerNode<'_>],
    orders: &[usize],
    branch: Branch,
    count: usize,
) {
    match at(tree, path) {
        Some(view) => {
            same_at(rt, view.orders(), orders, path);
            same_at(rt, view.branch(), branch, path);
            same_at(rt, view.count(), count, path);
        }
        None => panic!(rt; "no vertex {path:?}"),
    }
}

fn add(rt: &impl Abort, alloc: Global, tree: &mut PointerTree, path: &[PointerNode<'_>]) {
    same(rt, tree.add_path(alloc, path), Ok(()));
}

fn refuse(
    rt: &impl Abort,
    alloc: Global,
    tree: &mut PointerTree,
    path: &[PointerNode<'_>],
    error: PathError,
) {
    same(rt, tree.add_path(alloc, path), Err(error));
}

fn seven_paths(rt: &impl Abort, alloc: Global) -> PointerTree {
    let mut tree = PointerTree::new(alloc);
    add(rt, alloc, &mut tree, &pointer!["a", "a_b", "a_b_c"]);
    add(rt, alloc, &mut tree, &pointer!["a", "a_b"]);
    add(rt, alloc, &mut tree, &pointer!["a", "a_a", 1]);
    add(rt, alloc, &mut tree, &pointer!["a"]);
    add(rt, alloc, &mut tree, &pointer!["a"]);
    add(rt, alloc, &mut tree, &pointer!["b", 2]);
    add(rt, alloc, &mut tree, &pointer![]);
    tree
}

fn check_seven(rt: &impl Abort, tree: &PointerTree) {
    same(rt, tree.size(), 7);
    check(rt, tree, &pointer![], &[6], Branch::Keys, 2);
    check(rt, tree, &pointer!["a"], &[3, 4], Branch::Keys, 2);
    check(rt, tree, &pointer!["b"], &[], Branch::Indexes, 1);
    check(rt, tree, &pointer!["a", "a_a"], &[], Branch::Indexes, 1);
    check(rt, tree, &pointer!["a", "a_b"], &[1], Branch::Keys, 1);
    check(rt, tree, &pointer!["a", "a_a", 1], &[2], Branch::Leaf, 0);
    check(
        rt,
        tree,
        &pointer!["a", "a_b", "a_b_c"],
        &[0],
        Branch::Leaf,
        0,
    );
    check(rt, tree, &pointer!["b", 2], &[5], Branch::Leaf, 0);
}

#[test]
fn keeps_seven_paths_and_refuses_two(rt: HostRuntime) {
    let mut tree = seven_paths(&rt, rt.alloc());
    check_seven(&rt, &tree);
    let long = [PointerNode::Index(0); 256];
    refuse(&rt, rt.alloc(), &mut tree, &long, PathError::TooLong);
    check_seven(&rt, &tree);
    refuse(&rt, rt.alloc(), &mut tree, &pointer![0], PathError::Mixed);
    check_seven(&rt, &tree);
}

#[test]
fn takes_paths_of_255_nodes(rt: HostRuntime) {
    let mut tree = PointerTree::new(rt.alloc());
    let long = [PointerNode::Index(7); 255];
    add(&rt, rt.alloc(), &mut tree, &long);
    check(&rt, &tree, &long[..254], &[], Branch::Indexes, 1);
    check(&rt, &tree, &long, &[0], Branch::Leaf, 0);
}

#[test]
fn shows_an_empty_tree(rt: HostRuntime) {
    let tree = PointerTree::new(rt.alloc());
    same(&rt, tree.size(), 0);
    check(&rt, &tree, &pointer![], &[], Branch::Leaf, 0);
    same(&rt, tree.view().of_index(0), None);
    same(&rt, number_of(&tree.view(), b"\"a\""), None);
}

#[test]
fn keeps_repeated_and_empty_paths(rt: HostRuntime) {
    let mut tree = PointerTree::new(rt.alloc());
    add(&rt, rt.alloc(), &mut tree, &pointer![]);
    add(&rt, rt.alloc(), &mut tree, &pointer![3, "x"]);
    add(&rt, rt.alloc(), &mut tree, &pointer![3, "x"]);
    add(&rt, rt.alloc(), &mut tree, &pointer![]);
    add(&rt, rt.alloc(), &mut tree, &pointer![1, 1]);
    refuse(
        &rt,
        rt.alloc(),
        &mut tree,
        &pointer![3, 1],
        PathError::Mixed,
    );
    same_at(&rt, tree.size(), 5, &tree);
    check(&rt, &tree, &pointer![], &[0, 3], Branch::Indexes, 2);
    check(&rt, &tree, &pointer![1], &[], Branch::Indexes, 1);
    check(&rt, &tree, &pointer![3], &[], Branch::Keys, 1);
    check(&rt, &tree, &pointer![3, "x"], &[1, 2], Branch::Leaf, 0);
    check_index(&rt, &tree.view(), 1, Some(0));
    check_index(&rt, &tree.view(), 3, Some(1));
    check_index(&rt, &tree.view(), 2, None);
    for &(number, next) in &[
        (0, Err(1)),
        (1, Ok(0)),
        (2, Err(3)),
        (3, Ok(1)),
        (4, Err(usize::MAX)),
        (usize::MAX, Err(usize::MAX)),
    ] {
        for near in 0..4 {
            same(&rt, tree.view().index_from(number, near), next);
        }
    }
}

// From wherever it is looked for.
fn check_index(rt: &impl Abort, view: &TreeView<'_>, number: usize, found: Option<usize>) {
    same(rt, view.of_index(number), found);
    for near in 0..4 {
        same(rt, view.index_from(number, near).ok(), found);
    }
}

#[test]
fn finds_escaped_keys(rt: HostRuntime) {
    let mut tree = PointerTree::new(rt.alloc());
    for &key in &["a", "é", "ab", "", "\u{1f600}", "a\"b", "b\n"] {
        same(&rt, tree.add_path(rt.alloc(), &pointer![key]), Ok(()));
    }
    let view = tree.view();
    for &(text, key) in &[
        (&b"\"\\u0061\""[..], "a"),
        (&b"\"\\u00e9\""[..], "é"),
        (&b"\"\xc3\xa9\""[..], "é"),
        (&b"\"a\\u0062\""[..], "ab"),
        (&b"\"\""[..], ""),
        (&b"\"\\ud83d\\ude00\""[..], "\u{1f600}"),
        (&b"\"a\\\"b\""[..], "a\"b"),
        (&b"\"b\\n\""[..], "b\n"),
    ] {
        match number_of(&view, text) {
            Some(i) => match child(&view, i) {
                Some((node, _)) => same(&rt, node, PointerNode::Key(key)),
                None => panic!(rt; "no child {i}"),
            },
            None => panic!(rt; "no key {key}"),
        }
    }
    same(&rt, number_of(&view, b"\"b\""), None);
    same(&rt, number_of(&view, b"\"a\\\\\""), None);
    same(&rt, number_of(&view, b"\"abc\""), None);
    same(&rt, view.of_index(0), None);
}

// The child whose key the text is a string for ends these paths.
fn check_orders(rt: &impl Abort, view: &TreeView<'_>, text: &[u8], orders: &[usize]) {
    let Some(i) = number_of(view, text) else {
        panic!(rt; "no key {text:?}");
    };
    match child(view, i) {
        Some((_, below)) => same(rt, below.orders(), orders),
        None => panic!(rt; "no child {i}"),
    }
}

#[test]
fn finds_each_of_many_siblings(rt: HostRuntime) -> Result<(), AllocError> {
    let mut tree = PointerTree::new(rt.alloc());
    for i in 0..20000usize {
        let n = i * 12347 % 20000;
        let key = format!(in rt.alloc(); "key{n}")?;
        same(
            &rt,
            tree.add_path(rt.alloc(), &pointer!["all", &key]),
            Ok(()),
        );
    }
    same(&rt, tree.size(), 20000);
    if let Some((_, all)) = child(&tree.view(), 0) {
        same(&rt, all.count(), 20000);
        for i in 0..20000usize {
            let n = i * 12347 % 20000;
            let text = format!(in rt.alloc(); "\"k\\u0065y{n}\"")?;
            check_orders(&rt, &all, text.as_str().as_bytes(), &[i]);
        }
        same(&rt, number_of(&all, b"\"key20000\""), None);
    }
    Ok(())
}

// The order in which siblings come.
#[derive(Clone, Copy, Debug)]
enum Order {
    Rising,
    Falling,
    Halving,
    Shuffled,
}

const ORDERS: [Order; 4] = [
    Order::Rising,
    Order::Falling,
    Order::Halving,
    Order::Shuffled,
];

// Half of the children that are kept together: with that many more they are split.
const HALF: usize = 2048;

// More siblings than four times those that are kept together.
const MANY: usize = 10 * HALF;

// The sibling that comes at this place of an order.
fn sibling(order: Order, i: usize) -> usize
    requires { i < 20_480 }
    ensures { result < 20_480 }
{
    match order {
        Order::Rising => i,
        Order::Falling => MANY - 1 - i,
        Order::Halving => i * 10_241 % MANY,
        Order::Shuffled => i * 1237 % MANY,
    }
}

#[test]
fn sorts_siblings(rt: HostRuntime) -> Result<(), AllocError> {
    for &order in &ORDERS {
        let mut tree = PointerTree::new(rt.alloc());
        for i in 0..MANY {
            let key = format!(in rt.alloc(); "key{}", MANY + sibling(order, i))?;
            add(&rt, rt.alloc(), &mut tree, &pointer!["all", &key]);
        }
        match child(&tree.view(), 0) {
            Some((_, all)) => check_siblings(&rt, rt.alloc(), &all)?,
            None => panic!(rt; "no child"),
        }
    }
    Ok(())
}

// The keys are in order, and each is found.
fn check_siblings(rt: &impl Abort, alloc: Global, all: &TreeView<'_>) -> Result<(), AllocError> {
    same(rt, all.count(), MANY);
    for i in 0..MANY {
        let key = format!(in alloc; "key{}", MANY + i)?;
        let text = format!(in alloc; "\"{key}\"")?;
        check_child(rt, all, i, PointerNode::Key(key.as_str()));
        same(rt, number_of(all, text.as_str().as_bytes()), Some(i));
    }
    Ok(())
}

// The child with this number has this node.
fn check_child(rt: &impl Abort, view: &TreeView<'_>, i: usize, node: PointerNode<'_>) {
    match child(view, i) {
        Some((found, _)) => same(rt, found, node),
        None => panic!(rt; "no child {i}"),
    }
}

// After so many odd indexes in rising order, one more at a position is found there, and all others
// beside it.
fn check_position(rt: &impl Abort, alloc: Global, count: usize, position: usize)
    requires count { count < 20_480 }
    requires position { position ≤ count }
{
    let mut tree = PointerTree::new(alloc);
    for i in 0..count {
        add(rt, alloc, &mut tree, &[PointerNode::Index(2 * i + 1)]);
    }
    add(rt, alloc, &mut tree, &[PointerNode::Index(2 * position)]);
    let view = tree.view();
    same(rt, view.count(), count + 1);
    for i in 0..count + 1 {
        let number = match i.cmp(&position) {
            Ordering::Less => 2 * i + 1,
            Ordering::Equal => 2 * i,
            Ordering::Greater => 2 * i - 1,
        };
        check_child(rt, &view, i, PointerNode::Index(number));
    }
    check_index(rt, &view, 2 * position, Some(position));
}

// After so many siblings in rising order those that are kept together first are as many as may be,
// or the second ones, or the last of four.
#[test]
fn splits_siblings(rt: HostRuntime) {
    for &(count, position) in &[
        (2 * HALF, 0),
        (2 * HALF, HALF - 1),
        (2 * HALF, HALF),
        (2 * HALF, HALF + 1),
        (2 * HALF, 2 * HALF),
        (3 * HALF, 1),
        (3 * HALF, 2 * HALF - 1),
        (3 * HALF, 2 * HALF),
        (3 * HALF, 2 * HALF + 1),
        (3 * HALF, 3 * HALF),
        (5 * HALF, HALF),
        (5 * HALF, 3 * HALF - 1),
        (5 * HALF, 4 * HALF - 1),
        (5 * HALF, 4 * HALF),
        (5 * HALF, 5 * HALF - 1),
        (5 * HALF, 5 * HALF),
    ] {
        check_position(&rt, rt.alloc(), count, position);
    }
}

#[test]
fn takes_paths_that_own_their_keys(rt: HostRuntime) -> Result<(), AllocError> {
    let alloc = rt.alloc();
    let long = [PointerNode::Index(0); 256];
    let rows: [(&[PointerNode<'_>], Result<(), PathError>); 5] = [
        (&pointer!["a", 1], Ok(())),
        (&pointer!["a", "b"], Err(PathError::Mixed)),
        (&pointer!["a", 0], Ok(())),
        (&long, Err(PathError::TooLong)),
        (&pointer![], Ok(())),
    ];
    let mut tree = PointerTree::new(alloc);
    for (path, answer) in rows {
        let owned = OwnedPath::from_nodes(alloc, path)?;
        same_at(&rt, owned.len(), path.len(), path);
        same_at(&rt, owned.nodes(alloc)?.as_slice(), path, path);
        same_at(&rt, tree.add_owned_path(alloc, owned), answer, path);
    }
    let mut pushed = OwnedPath::new(alloc);
    pushed.push(OwnedNode::Key(String::from_str(alloc, "a")?))?;
    pushed.push(OwnedNode::Index(1))?;
    same(&rt, tree.add_owned_path(alloc, pushed), Ok(()));
    check(&rt, &tree, &pointer!["a", 1], &[0, 3], Branch::Leaf, 0);
    check(&rt, &tree, &pointer!["a"], &[], Branch::Indexes, 2);
    check(&rt, &tree, &pointer![], &[2], Branch::Keys, 1);
    Ok(())
}
