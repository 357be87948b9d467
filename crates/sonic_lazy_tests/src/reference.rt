// Each path followed by itself, as plain as it gets, beside the walk that follows them all at once.
ghost use Rattle.std.specs.Prelude.{◌≡◌, ◌≢◌, ◌+◌, ◌<◌, ◌≤◌, ◌⊎◌, ℕ, List, [], ◌∷◌, Ok, true, false, length, IfOk, IfErr, IfSome, IfNone, OnOk};
ghost use Rattle.sonic_text.specs.Paths.{Node};
ghost use Rattle.sonic_text.specs.Strings.{strict};
ghost use Rattle.sonic_text.specs.Values.{IsValue};
ghost use Rattle.sonic_text.specs.Faults.{IsFault, IsKeyFault};
ghost use Rattle.sonic_pointer.specs.Nodes.{node_of, path_of};
ghost use Rattle.sonic_parser.specs.Faults.{IsStopFor};
ghost use Rattle.sonic_parser.specs.Parsers.{moved};
ghost use Rattle.sonic_find.specs.Paths.{found, lacks, fails, cut, fails_at, empty_code, kind_of, nowhere, wanted_of, IsNamed, LeadsOn, LeadsBy, EvaluatesBy};

use crate::lookups::{Paths, tree_of};
use crate::same::same_at;
use sonic_error::{Error, ErrorCode, Note, Wanted};
use sonic_find::find_many;
use sonic_input::{JsonSlice, Read};
use sonic_lazy::{LazyValue, Span, get_many_with};
use sonic_parser::{Fault, Parser};
use sonic_pointer::PointerNode::{Index, Key};
use sonic_pointer::{KeyRule, PointerNode, PointerTree};
use sonic_text::{Kind, Stop, byte_at, same_key, skip_space, type_of};
use std::alloc::{AllocError, Global};
use std::process::Abort;
use std::test::Fail;

// What is reported of a path.
#[derive(Clone, Copy, Debug, PartialEq)]
pub(crate) enum Reported {
    // It leads to the value that begins and ends here.
    Found(usize, usize),
    // It leads nowhere, as an object lacks its key, whose closing brace is here.
    Lacks(usize),
    // It leads nowhere for this reason.
    Fails(Stop),
    // The text has this fault first.
    Cut(Stop),
}

// A parser at a place of a text.
pub(crate) fn parser_at(text: &[u8], place: usize) -> Parser<'_>
    requires { place ≤ length text.now }
    ensures text { result.text ≡ text.now }
    ensures place { result.place ≡ place }
    ensures lossy { result.lossy ≡ strict }
{
    let mut read = Read::unscanned(JsonSlice::Raw(text));
    read.set_index(place);
    Parser::new(read)
}

// The end of the value at a place, or its fault.
pub(crate) fn value_end(alloc: Global, text: &[u8], place: usize) -> Result<usize, Fault>
    requires { place ≤ length text.now }
    ensures ok { IfOk result (λ end. IsValue strict text.now place end) }
    ensures err { IfErr result (IsStopFor (IsFault strict text.now place)) }
{
    let mut parser = parser_at(text, place);
    parser.skip_value(alloc)?;
    Ok(parser.offset())
}

// The kind of container that a node asks for.
fn kind_of(node: &PointerNode<'_>) -> Kind
    ensures { result ≡ kind_of (node_of node.now) }
{
    match node {
        Key(_) => Kind::Object,
        Index(_) => Kind::Array,
    }
}

// Goes up to the value of the item here, and says whether the node names it.
fn is_named(parser: &mut Parser<'_>, node: &PointerNode<'_>, passed: usize) -> Result<bool, Stop>
    requires reads { parser.old.lossy ≡ strict }
    ensures item { IfOk result (λ is_it. (item : Node) × IsNamed parser.old.text
        (kind_of (node_of node.now)) passed parser.old.place parser.new.place item
        × (is_it ≡ true → item ≡ node_of node.now) × (is_it ≡ false → item ≢ node_of node.now)) }
    ensures moved { OnOk result (parser.new ≡ moved parser.old parser.new.place) }
    ensures err { IfErr result (λ s. (kind_of (node_of node.now) ≡ Kind.Object)
        × IsKeyFault strict parser.old.text parser.old.place s) }
{
    match node {
        Key(text) => {
            let start = parser.offset();
            let string = parser.key()?;
            Ok(same_key(parser.text(), start, string.end, *text))
        }
        Index(number) => Ok(*number == passed),
    }
}

// Goes up to the value that the node leads to in the value here, if it leads to one.
fn seek(alloc: Global, parser: &mut Parser<'_>, node: &PointerNode<'_>) -> Result<bool, Fault>
    requires reads { parser.old.lossy ≡ strict }
    ensures yes { IfOk result (λ leads. leads ≡ true
        → LeadsOn parser.old.text parser.old.place (node_of node.now) parser.new.place) }
    ensures no { IfOk result (λ leads. leads ≡ false
        → (v : ℕ) → ¬ LeadsOn parser.old.text parser.old.place (node_of node.now) v) }
    ensures moved { OnOk result (parser.new ≡ moved parser.old parser.new.place) }
    ensures err { IfErr result (IsStopFor (λ s. (v : ℕ)
        → ¬ LeadsOn parser.old.text parser.old.place (node_of node.now) v)) }
{
    let kind = kind_of(node);
    if byte_at(parser.text(), parser.offset()) != kind.opening() {
        return Ok(false);
    }
    if !parser.enter(kind) {
        return Ok(false);
    }
    let mut passed = 0;
    'items: loop {
        if is_named(parser, node, passed)? {
            return Ok(true);
        }
        parser.skip_value(alloc)?;
        if !parser.next_item(kind)? {
            return Ok(false);
        }
        passed += 1;
    }
}

// The place of the value that the node leads to by the first of equal keys, if it leads to one.
fn plain_step(
    alloc: Global,
    text: &[u8],
    place: usize,
    node: &PointerNode<'_>,
) -> Result<Option<usize>, AllocError>
    requires { place ≤ length text.now }
    ensures leads { IfOk result (λ way. IfSome way (LeadsOn text.now place (node_of node.now))) }
    ensures within { IfOk result (λ way. IfSome way (λ next. next ≤ length text.now)) }
    ensures nowhere { IfOk result (λ way. IfNone way
        ((v : ℕ) → ¬ LeadsOn text.now place (node_of node.now) v)) }
{
    let mut parser = parser_at(text, place);
    match seek(alloc, &mut parser, node) {
        Ok(true) => Ok(Some(parser.offset())),
        Ok(false) => Ok(None),
        Err(Fault::At(_)) => Ok(None),
        Err(Fault::OutOfMemory) => Err(AllocError),
    }
}

// Where a node leads under a rule.
#[derive(Clone, Copy)]
enum Way {
    // On to the value here.
    On(usize),
    // Nowhere, as its key comes twice, and that is refused at the second one, which is here.
    Twice(usize),
    // Nowhere.
    Nowhere,
}

// Whether the first item that a node names is the one that counts: an array has no two with one index.
fn first_counts(node: &PointerNode<'_>, rule: KeyRule) -> bool
    ensures yes { result ≡ true
        → (rule ≡ KeyRule.First) ⊎ (kind_of (node_of node.now) ≡ Kind.Array) }
    ensures no { result ≡ false
        → (rule ≢ KeyRule.First) × (kind_of (node_of node.now) ≡ Kind.Object) }
{
    match node {
        Key(_) => rule == KeyRule::First,
        Index(_) => true,
    }
}

// Where a key has led, after one more item at `head`, with its value at `value`.
fn after_item(way: Way, rule: KeyRule, named: bool, head: usize, value: usize) -> Way
    ensures other { named ≡ false → result ≡ way }
    ensures last { named ≡ true → rule ≡ KeyRule.Last → result ≡ Way.On value }
    ensures first { named ≡ true → rule ≡ KeyRule.Refuse → way ≡ Way.Nowhere
        → result ≡ Way.On value }
    ensures second { named ≡ true → rule ≡ KeyRule.Refuse → (v : ℕ) → way ≡ Way.On v
        → result ≡ Way.Twice head }
    ensures more { named ≡ true → rule ≡ KeyRule.Refuse → (q : ℕ) → way ≡ Way.Twice q
        → result ≡ way }
    ensures either { (v : ℕ) → result ≡ Way.On v → (v ≡ value) ⊎ (way ≡ Way.On v) }
{
    if !named {
        return way;
    }
    match (rule, way) {
        (KeyRule::Refuse, Way::On(_)) => Way::Twice(head),
        (KeyRule::Refuse, Way::Twice(_)) => way,
        _ => Way::On(value),
    }
}

// Goes over all items of the whole value here, and says where the node leads among them.
fn look(
    alloc: Global,
    parser: &mut Parser<'_>,
    node: &PointerNode<'_>,
    rule: KeyRule,
) -> Result<Way, Fault>
    requires reads { parser.old.lossy ≡ strict }
    requires whole { (end : ℕ) × IsValue strict parser.old.text parser.old.place end }
    requires counts { rule ≢ KeyRule.First }
    ensures on { (v : ℕ) → result ≡ Ok (Way.On v)
        → LeadsBy rule parser.old.text parser.old.place (node_of node.now) v }
    ensures within { (v : ℕ) → result ≡ Ok (Way.On v) → v ≤ length parser.old.text }
    ensures twice { (q : ℕ) → result ≡ Ok (Way.Twice q) → (rest : List Node)
        → EvaluatesBy rule parser.old.text parser.old.place (node_of node.now ∷ rest)
        (fails_at q ErrorCode.DuplicateKey) }
    ensures nowhere { result ≡ Ok Way.Nowhere → (v : ℕ)
        → ¬ LeadsOn parser.old.text parser.old.place (node_of node.now) v }
    ensures err { IfErr result (IsStopFor (λ s. ⊥)) }
{
    let kind = kind_of(node);
    if byte_at(parser.text(), parser.offset()) != kind.opening() {
        return Ok(Way::Nowhere);
    }
    if !parser.enter(kind) {
        return Ok(Way::Nowhere);
    }
    let mut way = Way::Nowhere;
    let mut passed = 0;
    'items: loop {
        let head = parser.offset();
        let named = is_named(parser, node, passed)?;
        let value = parser.offset();
        parser.skip_value(alloc)?;
        way = after_item(way, rule, named, head, value);
        if !parser.next_item(kind)? {
            return Ok(way);
        }
        passed += 1;
    }
}

// Where the node leads under a rule. A key that isn't the first one that counts leads nowhere in a value that has a fault.
fn step(
    alloc: Global,
    text: &[u8],
    place: usize,
    node: &PointerNode<'_>,
    rule: KeyRule,
) -> Result<Way, AllocError>
    requires { place ≤ length text.now }
    ensures on { (v : ℕ) → result ≡ Ok (Way.On v)
        → LeadsBy rule text.now place (node_of node.now) v }
    ensures within { (v : ℕ) → result ≡ Ok (Way.On v) → v ≤ length text.now }
    ensures twice { (q : ℕ) → result ≡ Ok (Way.Twice q) → (rest : List Node)
        → EvaluatesBy rule text.now place (node_of node.now ∷ rest)
        (fails_at q ErrorCode.DuplicateKey) }
    ensures nowhere { result ≡ Ok Way.Nowhere → (v : ℕ)
        → ¬ LeadsBy rule text.now place (node_of node.now) v }
    ensures whole { result ≡ Ok Way.Nowhere → (end : ℕ) → IsValue strict text.now place end
        → (v : ℕ) → ¬ LeadsOn text.now place (node_of node.now) v }
{
    if first_counts(node, rule) {
        return match plain_step(alloc, text, place, node)? {
            Some(next) => Ok(Way::On(next)),
            None => Ok(Way::Nowhere),
        };
    }
    match value_end(alloc, text, place) {
        Ok(_) => {}
        Err(Fault::At(_)) => return Ok(Way::Nowhere),
        Err(Fault::OutOfMemory) => return Err(AllocError),
    }
    let mut parser = parser_at(text, place);
    match look(alloc, &mut parser, node, rule) {
        Ok(way) => Ok(way),
        Err(_) => Err(AllocError),
    }
}

// The code for an empty container.
fn empty_code(kind: Kind) -> ErrorCode
    ensures { result ≡ empty_code kind }
{
    match kind {
        Kind::Array => ErrorCode::GetInEmptyArray,
        Kind::Object => ErrorCode::GetInEmptyObject,
    }
}

// What is wanted where a container is.
fn wanted_of(kind: Kind) -> Wanted
    ensures { result ≡ wanted_of kind }
{
    match kind {
        Kind::Array => Wanted::Array,
        Kind::Object => Wanted::Object,
    }
}

// Why a node that asks for this kind and leads nowhere in the whole value at a place fails there,
// or `None` where it is a key that an object with members lacks.
fn refusal(text: &[u8], start: usize, kind: Kind) -> Option<ErrorCode>
    ensures fails { IfSome result (λ code. (q : ℕ)
        → nowhere text.now start q kind ≡ fails_at q code) }
    ensures lacks { IfNone result ((q : ℕ) → nowhere text.now start q kind ≡ lacks q) }
{
    if byte_at(text, start) != kind.opening() {
        let found = type_of(byte_at(text, start));
        let wanted = wanted_of(kind);
        return Some(ErrorCode::Message(Note::Mismatch { found, wanted }));
    }
    if byte_at(text, skip_space(text, start + 1)) == kind.closing() {
        return Some(empty_code(kind));
    }
    match kind {
        Kind::Array => Some(ErrorCode::GetIndexOutOfArray),
        Kind::Object => None,
    }
}

// What is reported of a path that is used up, of the value here.
fn value_here(alloc: Global, text: &[u8], place: usize) -> Result<Reported, AllocError>
    requires { place ≤ length text.now }
    ensures found { (i j : ℕ) → result ≡ Ok (Reported.Found i j) → (rule : KeyRule)
        → EvaluatesBy rule text.now place [] (found i j) }
    ensures cut { (s : Stop) → result ≡ Ok (Reported.Cut s) → (rule : KeyRule)
        → EvaluatesBy rule text.now place [] (cut s) }
    ensures lacks { (q : ℕ) → result ≢ Ok (Reported.Lacks q) }
    ensures fails { (s : Stop) → result ≢ Ok (Reported.Fails s) }
{
    match value_end(alloc, text, place) {
        Ok(end) => Ok(Reported::Found(place, end)),
        Err(Fault::At(stop)) => Ok(Reported::Cut(stop)),
        Err(Fault::OutOfMemory) => Err(AllocError),
    }
}

// What is reported of a path, of the value here, where its next node leads nowhere.
fn miss(
    alloc: Global,
    text: &[u8],
    place: usize,
    node: &PointerNode<'_>,
    rule: KeyRule,
) -> Result<Reported, AllocError>
    requires within { place ≤ length text.now }
    requires nowhere { (v : ℕ) → ¬ LeadsBy rule text.now place (node_of node.now) v }
    requires whole { (end : ℕ) → IsValue strict text.now place end
        → (v : ℕ) → ¬ LeadsOn text.now place (node_of node.now) v }
    ensures found { (i j : ℕ) → result ≢ Ok (Reported.Found i j) }
    ensures lacks { (q : ℕ) → result ≡ Ok (Reported.Lacks q) → (rest : List Node)
        → EvaluatesBy rule text.now place (node_of node.now ∷ rest) (lacks q) }
    ensures fails { (s : Stop) → result ≡ Ok (Reported.Fails s) → (rest : List Node)
        → EvaluatesBy rule text.now place (node_of node.now ∷ rest) (fails s) }
    ensures cut { (s : Stop) → result ≡ Ok (Reported.Cut s) → (rest : List Node)
        → EvaluatesBy rule text.now place (node_of node.now ∷ rest) (cut s) }
{
    match value_end(alloc, text, place) {
        Ok(end) => {
            let last = end - 1;
            match refusal(text, place, kind_of(node)) {
                Some(code) => Ok(Reported::Fails(Stop { place: last, code })),
                None => Ok(Reported::Lacks(last)),
            }
        }
        Err(Fault::At(stop)) => Ok(Reported::Cut(stop)),
        Err(Fault::OutOfMemory) => Err(AllocError),
    }
}

// Where a path leads under a rule in the value at a place.
pub(crate) fn follow(
    alloc: Global,
    text: &[u8],
    place: usize,
    path: &[PointerNode<'_>],
    rule: KeyRule,
) -> Result<Reported, AllocError>
    requires { place ≤ length text.now }
    ensures found { (i j : ℕ) → result ≡ Ok (Reported.Found i j)
        → EvaluatesBy rule text.now place (path_of path.now) (found i j) }
    ensures lacks { (q : ℕ) → result ≡ Ok (Reported.Lacks q)
        → EvaluatesBy rule text.now place (path_of path.now) (lacks q) }
    ensures fails { (s : Stop) → result ≡ Ok (Reported.Fails s)
        → EvaluatesBy rule text.now place (path_of path.now) (fails s) }
    ensures cut { (s : Stop) → result ≡ Ok (Reported.Cut s)
        → EvaluatesBy rule text.now place (path_of path.now) (cut s) }
{
    let Some((node, rest)) = path.split_first() else {
        return value_here(alloc, text, place);
    };
    match step(alloc, text, place, node, rule)? {
        Way::On(next) => follow(alloc, text, next, rest, rule),
        Way::Twice(quote) => {
            let code = ErrorCode::DuplicateKey;
            Ok(Reported::Fails(Stop { place: quote, code }))
        }
        Way::Nowhere => miss(alloc, text, place, node, rule),
    }
}

// Where each path leads under a rule, in order.
pub(crate) fn follow_all(
    alloc: Global,
    text: &[u8],
    paths: &[&[PointerNode<'_>]],
    rule: KeyRule,
) -> Result<Vec<Reported>, AllocError> {
    let start = skip_space(text, 0);
    let mut all = Vec::new(alloc);
    for path in paths {
        all.push(follow(alloc, text, start, path, rule)?)?;
    }
    Ok(all)
}

// The least place at which a path fails, and of those that fail there the first path's reason.
fn nearest(all: &[Reported]) -> Option<Stop> {
    let mut nearest: Option<Stop> = None;
    for reported in all {
        if let Reported::Fails(stop) = reported {
            match nearest {
                Some(before) if before.place <= stop.place => {}
                _ => nearest = Some(*stop),
            }
        }
    }
    nearest
}

// Whether a path asks for the whole root, as it is cut or lacks its key.
fn needs_root(reported: &Reported) -> bool {
    matches!(reported, Reported::Cut(_) | Reported::Lacks(_))
}

// The furthest end of the spans that were found.
fn furthest(all: &[Reported]) -> usize {
    let mut reach = 0;
    for reported in all {
        if let Reported::Found(_, end) = reported {
            reach = reach.max(*end);
        }
    }
    reach
}

// The span that was found, if one was.
fn span(reported: &Reported) -> Option<Span> {
    match *reported {
        Reported::Found(start, end) => Some(Span { start, end }),
        _ => None,
    }
}

// The spans that paths are answered with, or the one stop.
type Answered = Result<Vec<Option<Span>>, Stop>;

// What paths are answered over bytes, under a rule.
fn plain_answer(
    alloc: Global,
    text: &[u8],
    paths: &[&[PointerNode<'_>]],
    rule: KeyRule,
) -> Result<Answered, AllocError> {
    if paths.is_empty() {
        return Ok(Ok(Vec::new(alloc)));
    }
    let all = follow_all(alloc, text, paths, rule)?;
    if let Some(stop) = nearest(&all) {
        return Ok(Err(stop));
    }
    let mut reach = furthest(&all);
    if all.iter().any(needs_root) {
        reach = match value_end(alloc, text, skip_space(text, 0)) {
            Ok(end) => end,
            Err(Fault::At(stop)) => return Ok(Err(stop)),
            Err(Fault::OutOfMemory) => return Err(AllocError),
        };
    }
    if let Err(error) = std::str::from_utf8(&text[..reach.min(text.len())]) {
        let place = error.valid_up_to();
        let code = ErrorCode::InvalidUTF8;
        return Ok(Err(Stop { place, code }));
    }
    Ok(Ok(all.iter().map(span).collect(alloc)?))
}

// Checks that an error has the plain program's code and place. At the end of a text the offset of
// an error is that of the last byte.
pub(crate) fn check_error(rt: &impl Abort, text: &[u8], paths: Paths, error: Error, stop: Stop) {
    let last = text.len().saturating_sub(1);
    same_at(rt, error.code(), stop.code, (text, paths));
    same_at(rt, error.offset(), stop.place.min(last), (text, paths));
}

const LISTS: [Paths; 11] = [
    &[],
    &[&[]],
    &[&[Key("a")]],
    &[&[Index(0)]],
    &[&[Key("a")], &[Key("")]],
    &[&[Index(1)], &[Index(0)]],
    &[&[Key("a"), Index(0)], &[Key("a")], &[Key("a")]],
    &[&[Index(0), Key("a")], &[Index(0)], &[Index(1)]],
    &[&[Index(0), Key("a")], &[Index(0), Key("")]],
    &[&[Key("a"), Key("a")], &[Key("")]],
    &[&[Key(""), Index(0)], &[], &[Key("a")]],
];

const LETTERS: [&[u8]; 10] = [
    b"[", b"]", b"{", b"}", b",", b":", b"\"", b"a", b"1", b"\xFF",
];

// Longer pieces, of which a few make objects with some members.
const PIECES: [&[u8]; 10] = [
    b"[",
    b"]",
    b"{\"a\":",
    b"{\"\":",
    b"}",
    b",",
    b",\"a\":",
    b",\"\":",
    b"1",
    b"\"\xFF\"",
];

// The text number `n` among all those of `length` pieces.
fn text_of_number(
    alloc: Global,
    pieces: &[&[u8]; 10],
    mut n: usize,
    length: u8,
) -> Result<Vec<u8>, Fail> {
    let mut text = Vec::new(alloc);
    for _ in 0..length {
        text.extend_from_slice(pieces[n % 10])?;
        n /= 10;
    }
    Ok(text)
}

// Checks that the walk finds in a text what the plain program finds, or the same error.
fn check_text(
    rt: &impl Abort,
    alloc: Global,
    text: &[u8],
    paths: Paths,
    tree: &PointerTree,
) -> Result<(), Fail> {
    let mut found = vec![in alloc; None; tree.size()]?;
    match (
        find_many(alloc, text, tree, &mut found),
        plain_answer(alloc, text, paths, KeyRule::First)?,
    ) {
        (Ok(()), Ok(spans)) => assert!(rt; found == spans, "{text:?} {paths:?}"),
        (Err(error), Err(stop)) => check_error(rt, text, paths, error, stop),
        (Ok(()), Err(_)) => panic!(rt; "no error in {text:?} for {paths:?}"),
        (Err(_), Ok(_)) => panic!(rt; "an error in {text:?} for {paths:?}"),
    }
    Ok(())
}

// Checks all texts of `length` pieces, which are `count`.
fn check_texts(
    rt: &impl Abort,
    alloc: Global,
    pieces: &[&[u8]; 10],
    length: u8,
    count: usize,
    paths: Paths,
    tree: &PointerTree,
) -> Result<(), Fail> {
    for n in 0..count {
        let text = text_of_number(alloc, pieces, n, length)?;
        check_text(rt, alloc, &text, paths, tree)?;
    }
    Ok(())
}

// Checks all texts of up to six pieces.
fn check_paths(
    rt: &impl Abort,
    alloc: Global,
    pieces: &[&[u8]; 10],
    paths: Paths,
) -> Result<(), Fail> {
    let tree = tree_of(rt, alloc, paths);
    check_texts(rt, alloc, pieces, 0, 1, paths, &tree)?;
    check_texts(rt, alloc, pieces, 1, 10, paths, &tree)?;
    check_texts(rt, alloc, pieces, 2, 100, paths, &tree)?;
    check_texts(rt, alloc, pieces, 3, 1_000, paths, &tree)?;
    check_texts(rt, alloc, pieces, 4, 10_000, paths, &tree)?;
    check_texts(rt, alloc, pieces, 5, 100_000, paths, &tree)?;
    check_texts(rt, alloc, pieces, 6, 1_000_000, paths, &tree)
}

#[test]
fn finds_in_all_short_texts_what_the_plain_program_finds(rt: HostRuntime) -> Result<(), Fail> {
    for &paths in &LISTS {
        check_paths(&rt, rt.alloc(), &LETTERS, paths)?;
    }
    Ok(())
}

#[test]
fn finds_in_all_texts_of_few_pieces_what_the_plain_program_finds(
    rt: HostRuntime,
) -> Result<(), Fail> {
    for &paths in &LISTS {
        check_paths(&rt, rt.alloc(), &PIECES, paths)?;
    }
    Ok(())
}

// Lists for texts with equal keys.
pub(crate) const RULED: [Paths; 4] = [
    &[&[Key("a")]],
    &[&[Key("a"), Key("a")], &[Key("b")]],
    &[&[Key("a")], &[Key("a"), Index(0)]],
    &[&[Index(0), Key("a")], &[Index(1), Key("a")]],
];

// The bytes that make containers, with keys of one letter.
pub(crate) const TOKENS: [&[u8]; 7] = [b"{", b"}", b"[", b"]", b",", b"\"a\":", b"\"b\":"];

// Longer pieces, of which a few make objects in objects with equal keys.
pub(crate) const MEMBERS: [&[u8]; 7] = [b"{\"a\":", b",\"a\":", b",\"b\":", b"}", b"[", b"]", b","];

// And lists for what is below them.
pub(crate) const BELOW: [Paths; 3] = [
    &[&[Key("a"), Key("a")], &[Key("a"), Key("b")]],
    &[&[Key("a"), Key("a")], &[Key("b"), Key("b")]],
    &[&[Key("a"), Index(0)], &[Key("a")], &[Key("b")]],
];

// Pieces that hold whole values too, so that a member with one of equal keys hides another.
pub(crate) const VALUES: [&[u8]; 7] = [
    b"{\"a\":",
    b",\"a\":",
    b",\"b\":",
    b"}",
    b"{\"b\":0}",
    b"[0]",
    b"{}",
];

// The eighth piece is a number: that of its place among the pieces, so that no two are equal.
const NUMBERS: [&[u8]; 7] = [b"1", b"2", b"3", b"4", b"5", b"6", b"7"];

// How many texts of eight pieces there are of each length.
pub(crate) const COUNTS: [usize; 8] = [1, 8, 64, 512, 4_096, 32_768, 262_144, 2_097_152];

// The text number `n` among all those of `length` pieces and numbers.
pub(crate) fn numbered_text(
    alloc: Global,
    pieces: &[&[u8]; 7],
    mut n: usize,
    length: usize,
) -> Result<Vec<u8>, Fail> {
    let mut text = Vec::new(alloc);
    for number in NUMBERS.iter().take(length) {
        match pieces.get(n % 8) {
            Some(piece) => text.extend_from_slice(piece)?,
            None => text.extend_from_slice(number)?,
        }
        n /= 8;
    }
    Ok(text)
}

// Whether a value is what stands in the text at a span, or neither is there.
pub(crate) fn stands_at(text: &[u8], value: &Option<LazyValue<'_>>, span: &Option<Span>) -> bool {
    match (value, span) {
        (Some(value), Some(Span { start, end })) => {
            text.get(*start..*end) == Some(value.as_raw_str().as_bytes())
        }
        (None, None) => true,
        _ => false,
    }
}

// Checks that values are what stands in the text at the spans.
fn check_spans(
    rt: &impl Abort,
    text: &[u8],
    paths: Paths,
    values: &[Option<LazyValue<'_>>],
    spans: &[Option<Span>],
) {
    same_at(rt, values.len(), spans.len(), (text, paths));
    for (value, span) in values.iter().zip(spans) {
        let stands = stands_at(text, value, span);
        assert!(rt; stands, "{text:?} {paths:?} {span:?}");
    }
}

// Checks that a look-up under a rule answers what the plain program does.
fn check_rule(
    rt: &impl Abort,
    alloc: Global,
    text: &[u8],
    (paths, tree): (Paths, &PointerTree),
    rule: KeyRule,
) -> Result<(), Fail> {
    match (
        get_many_with(alloc, text, tree, rule),
        plain_answer(alloc, text, paths, rule)?,
    ) {
        (Ok(values), Ok(spans)) => check_spans(rt, text, paths, &values, &spans),
        (Err(error), Err(stop)) => check_error(rt, text, paths, error, stop),
        (Ok(_), Err(_)) => panic!(rt; "no error in {text:?} for {paths:?} under {rule:?}"),
        (Err(_), Ok(_)) => panic!(rt; "an error in {text:?} for {paths:?} under {rule:?}"),
    }
    Ok(())
}

// Checks all texts of up to seven pieces and numbers under each rule.
fn check_rules(
    rt: &impl Abort,
    alloc: Global,
    pieces: &[&[u8]; 7],
    paths: Paths,
) -> Result<(), Fail> {
    let tree = tree_of(rt, alloc, paths);
    for (length, count) in COUNTS.iter().enumerate() {
        for n in 0..*count {
            let text = numbered_text(alloc, pieces, n, length)?;
            check_rule(rt, alloc, &text, (paths, &tree), KeyRule::First)?;
            check_rule(rt, alloc, &text, (paths, &tree), KeyRule::Last)?;
            check_rule(rt, alloc, &text, (paths, &tree), KeyRule::Refuse)?;
        }
    }
    Ok(())
}

// Each test goes over half of the lists, so that a slow machine ends it in its time.
#[test]
fn answers_all_texts_of_few_tokens_under_each_rule(rt: HostRuntime) -> Result<(), Fail> {
    for &paths in &RULED[..2] {
        check_rules(&rt, rt.alloc(), &TOKENS, paths)?;
    }
    Ok(())
}

#[test]
fn answers_all_texts_of_few_tokens_with_indexes(rt: HostRuntime) -> Result<(), Fail> {
    for &paths in &RULED[2..] {
        check_rules(&rt, rt.alloc(), &TOKENS, paths)?;
    }
    Ok(())
}

#[test]
fn answers_all_texts_of_few_members_under_each_rule(rt: HostRuntime) -> Result<(), Fail> {
    for &paths in &RULED[..2] {
        check_rules(&rt, rt.alloc(), &MEMBERS, paths)?;
    }
    Ok(())
}

#[test]
fn answers_all_texts_of_few_members_with_indexes(rt: HostRuntime) -> Result<(), Fail> {
    for &paths in &RULED[2..] {
        check_rules(&rt, rt.alloc(), &MEMBERS, paths)?;
    }
    Ok(())
}

#[test]
fn answers_all_texts_of_few_values_under_each_rule(rt: HostRuntime) -> Result<(), Fail> {
    for &paths in &BELOW[..2] {
        check_rules(&rt, rt.alloc(), &VALUES, paths)?;
    }
    Ok(())
}

#[test]
fn answers_all_texts_of_few_values_with_indexes(rt: HostRuntime) -> Result<(), Fail> {
    for &paths in &BELOW[2..] {
        check_rules(&rt, rt.alloc(), &VALUES, paths)?;
    }
    Ok(())
}
