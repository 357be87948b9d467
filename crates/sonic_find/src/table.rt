// Tables: for each item of a container, where each path leads inside that item.
ghost use Rattle.std.specs.Prelude.{◌≡◌, ◌≢◌, ◌-◌, ◌≤◌, ◌∷◌, [], length, IfOk, IfErr, IfSome, OnOk, ℕ, List, IsTrue, IsFalse};
ghost use Rattle.sonic_error.specs.Errors.{IsPlainError};
ghost use Rattle.sonic_text.specs.Paths.{Path};
ghost use Rattle.sonic_text.specs.Places.{byte};
ghost use Rattle.sonic_text.specs.Strings.{strict};
ghost use Rattle.sonic_text.specs.Values.{opening, type_at, IsValue};
ghost use Rattle.sonic_text.specs.Faults.{IsFault, IsKeyFault};
ghost use Rattle.sonic_parser.specs.Faults.{IsStopFor};
ghost use Rattle.sonic_parser.specs.Honest.{IsHonest};
ghost use Rattle.sonic_pointer.specs.Nodes.{path_of};
ghost use Rattle.sonic_pointer.specs.Paths.{IsShort};
ghost use Rattle.sonic_find.specs.Found.{slots_of, told_at};
ghost use Rattle.sonic_find.specs.Internal.Columns.{AreFor, AreReady, HasRows, HasRowsUpTo};
ghost use Rattle.sonic_find.specs.Internal.Marks.{KeepsMarks};
ghost use Rattle.sonic_find.specs.Internal.Table.{AreFilledFrom, FaultsItem, IsAdded, IsContainerAt, IsHeadFrom, IsItemFrom, IsTableStop, IsUnread};
ghost use Rattle.sonic_find.specs.Internal.View.{marking_at};
ghost use Rattle.sonic_find.specs.Internal.Walk.{IsEachError};
ghost use Rattle.sonic_find.specs.Outcomes.{EachAnswer, IsEachAnswerBy};
ghost use Rattle.sonic_find.specs.Tables.{HasTable, IsTable, IsTableOf, IsTableRefusal};

use crate::answer::Memory;
use crate::columns::Columns;
use crate::cursor::Cursor;
use crate::each::{locate_each_in, span_of, tell};
use crate::outcome::PathOutcome;
use crate::path::follow;
use crate::span::Span;
use crate::state::Walk;
use crate::utf8::check;
use crate::walk::follow as follow_paths;
use sonic_error::{Error, ErrorCode, Note, Wanted};
use sonic_input::{JsonInput, Read};
use sonic_parser::{Fault, ValueSpan};
use sonic_pointer::{KeyRule, PathError, PointerNode, PointerTree, TreeView};
use sonic_text::{Kind, Stop, byte_at, type_of};
use std::alloc::{AllocError, Global};

/// An item of a container: an element of an array, or a member of an object.
///
/// In `{"a": 1}` the item has the key from 1 to 4, and the value from 6 to 7.
#[derive(Clone, Copy, Debug, PartialEq, Eq)]
pub struct TableItem {
    /// Where the key of a member is, quotes included. An element has none.
    pub key: Option<Span>,
    /// Where the value is.
    pub value: Span,
}

/// The items of a container, and for each of them where some paths lead inside it.
#[derive(Drop)]
pub struct Table {
    /// The items, in order.
    pub items: Vec<TableItem>,
    /// The outcomes of the paths inside the first item, in the order of the paths, then those inside the
    /// second, and so on.
    pub outcomes: Vec<PathOutcome<Span>>,
}

impl Table {
    // A table without a row.
    fn new(alloc: Global) -> Table
        ensures items { result.items.items ≡ [] }
        ensures outcomes { result.outcomes.items ≡ [] }
    {
        Table {
            items: Vec::new(alloc),
            outcomes: Vec::new(alloc),
        }
    }

    // Adds a row, which tells what the slots do.
    fn push(&mut self, item: TableItem, slots: &[PathOutcome<ValueSpan>]) -> Result<(), AllocError>
        ensures { OnOk result (IsAdded self.old self.new item (slots_of slots.now)) }
    {
        self.items.push(item)?;
        for slot in slots {
            self.outcomes.push(tell(span_of(*slot)))?;
        }
        Ok(())
    }
}

// A container of a text, by its kind and the place where it begins.
#[derive(Clone, Copy)]
struct Container {
    kind: Kind,
    start: usize,
}

/// For each item of the array or the object to which a path leads in an input, where each path of a tree
/// leads inside that item, under a rule.
///
/// The outcomes of an item are those that [`find_each`](crate::find_each) tells of the item's value, with
/// places in the whole input: a path that leads nowhere there is told so in its place. The error is what
/// `find_each` tells of the container's path alone, or the mismatch with an array where it leads to a value
/// that is neither an array nor an object. The container is read whole, and what follows it plays no part.
///
/// With the container's path `["a"]` and the paths `["x"]` and `["y"]` over `{"a":[{"x":1},{"x":2,"y":3}]}` the
/// table has two rows: `Found` from 11 to 12 and `Missing` at 12, then `Found` from 19 to 20 and from 25 to 26.
pub fn find_table<'de, I: JsonInput<'de>>(
    alloc: Global,
    json: I,
    container: &[PointerNode<'_>],
    tree: &PointerTree,
    rule: KeyRule,
) -> Result<Table, Error>
    requires short { IsShort (path_of container.now) }
    ensures ok { IfOk result (IsTable rule (I.JsonInput.content json) I.JsonInput.is_bytes
        (path_of container.now) tree.now) }
    ensures err { IfErr result (IsTableRefusal rule (I.JsonInput.content json) I.JsonInput.is_bytes
        (path_of container.now)) }
    ensures complete { HasTable rule (I.JsonInput.content json) I.JsonInput.is_bytes (path_of container.now)
        → IfErr result (λ error. IsPlainError error ErrorCode.NoMemory) }
    ensures honest { IfErr result (IsHonest strict (I.JsonInput.content json) 0) }
{
    let text = json.to_u8_slice();
    match table_at(alloc, json, container, tree, rule) {
        Ok(table) => Ok(table),
        Err(fault) => Err(fault.error(text)),
    }
}

// The table of the container to which a path leads.
fn table_at<'de, I: JsonInput<'de>>(
    alloc: Global,
    json: I,
    path: &[PointerNode<'_>],
    tree: &PointerTree,
    rule: KeyRule,
) -> Result<Table, Fault>
    requires short { IsShort (path_of path.now) }
    ensures ok { IfOk result (IsTable rule (I.JsonInput.content json) I.JsonInput.is_bytes
        (path_of path.now) tree.now) }
    ensures err { IfErr result (IsStopFor (IsTableStop rule (I.JsonInput.content json)
        I.JsonInput.is_bytes (path_of path.now))) }
{
    if let KeyRule::First = rule
        && let Some(container) = lead_to(alloc, &json, path)
    {
        return first_table(alloc, json, path, container, tree);
    }
    let read = Read::unscanned(json.to_json_slice());
    let container = locate_container(alloc, json, path, rule)?;
    let (table, _) = rows(alloc, read, container, tree, rule)?;
    Ok(table)
}

// The container to which a path leads by the first of equal keys, of which no item was looked at. Where
// there is none, nothing is said of the text.
fn lead_to<'de, I: JsonInput<'de>>(
    alloc: Global,
    json: &I,
    path: &[PointerNode<'_>],
) -> Option<Container>
    ensures { IfSome result (IsUnread (I.JsonInput.content json.now) (path_of path.now)) }
{
    let mut cursor = Cursor::checked(alloc, Read::unscanned(json.to_json_slice()));
    let Ok(true) = follow(&mut cursor, path) else {
        return None;
    };
    let start = cursor.place();
    let kind = Kind::opened_by(byte_at(cursor.text(), start))?;
    Some(Container { kind, start })
}

// The table of a container, which is read by this alone: its fault is the path's.
fn first_table<'de, I: JsonInput<'de>>(
    alloc: Global,
    json: I,
    path: &[PointerNode<'_>],
    container: Container,
    tree: &PointerTree,
) -> Result<Table, Fault>
    requires { IsUnread (I.JsonInput.content json) (path_of path.now) container }
    ensures ok { IfOk result (IsTable KeyRule.First (I.JsonInput.content json) I.JsonInput.is_bytes
        (path_of path.now) tree.now) }
    ensures err { IfErr result (IsStopFor (IsTableStop KeyRule.First (I.JsonInput.content json)
        I.JsonInput.is_bytes (path_of path.now))) }
{
    let read = Read::unscanned(json.to_json_slice());
    let (table, end) = rows(alloc, read, container, tree, KeyRule::First)?;
    if json.need_utf8_valid() {
        check(json.to_u8_slice(), end)?;
    }
    Ok(table)
}

// The table of a container of the reader's text, and where the container ends.
fn rows(
    alloc: Global,
    read: Read<'_>,
    container: Container,
    tree: &PointerTree,
    rule: KeyRule,
) -> Result<(Table, usize), Fault>
    requires { byte read.text container.start ≡ opening container.kind }
    ensures table { IfOk result (λ x. IsTableOf rule read.entry.text tree.now
        (record { start = container.start; end = x.1 }) x.0) }
    ensures value { IfOk result (λ x. IsValue strict read.entry.text container.start x.1) }
    ensures err { IfErr result (IsStopFor (IsFault strict read.entry.text container.start)) }
{
    let mut read = read;
    read.set_index(container.start);
    let view = tree.view();
    let mut slots = Vec::new(alloc);
    slots.resize(tree.size(), PathOutcome::none())?;
    let mut walk = Walk::new(alloc, read, slots, rule, true, view.prefixes())?;
    let mut table = Table::new(alloc);
    let columns = Columns::new(alloc, &view, rule, tree.size())?;
    add_rows(&mut walk, columns, container.kind, &view, &mut table)?;
    Ok((table, walk.place()))
}

// The container to which a path leads.
fn locate_container<'de, I: JsonInput<'de>>(
    alloc: Global,
    json: I,
    path: &[PointerNode<'_>],
    rule: KeyRule,
) -> Result<Container, Fault>
    requires short { IsShort (path_of path.now) }
    ensures ok { IfOk result (IsContainerAt rule (I.JsonInput.content json) I.JsonInput.is_bytes
        (path_of path.now)) }
    ensures err { IfErr result (IsStopFor (IsTableStop rule (I.JsonInput.content json)
        I.JsonInput.is_bytes (path_of path.now))) }
{
    let text = json.to_u8_slice();
    match locate_alone(alloc, json, path, rule)? {
        PathOutcome::Found(value) => Ok(open(text, value)?),
        PathOutcome::Missing(place) => {
            let code = ErrorCode::GetUnknownKeyInObject;
            Err(Fault::At(Stop { place, code }))
        }
        PathOutcome::Fails(stop) => Err(Fault::At(stop)),
    }
}

// The container that a value is, or that it is none.
fn open(text: &[u8], value: ValueSpan) -> Result<Container, Stop>
    requires { IsValue strict text.now value.start value.end }
    ensures ok { IfOk result (λ found. (found.start ≡ value.start)
        × (byte text.now value.start ≡ opening found.kind)) }
    ensures err { IfErr result (λ s. ((kind : Kind) → byte text.now value.start ≢ opening kind)
        × (s ≡ record {
          place = value.end - 1;
          code = ErrorCode.Message
              (Note.Mismatch (type_at text.now value.start) Wanted.Array);
        })) }
{
    let ValueSpan { start, end, .. } = value;
    let first = byte_at(text, start);
    if let Some(kind) = Kind::opened_by(first) {
        return Ok(Container { kind, start });
    }
    let place = end - 1;
    let code = ErrorCode::Message(Note::Mismatch {
        found: type_of(first),
        wanted: Wanted::Array,
    });
    Err(Stop { place, code })
}

// What a path alone is told.
fn locate_alone<'de, I: JsonInput<'de>>(
    alloc: Global,
    json: I,
    path: &[PointerNode<'_>],
    rule: KeyRule,
) -> Result<PathOutcome<ValueSpan>, Fault>
    requires short { IsShort (path_of path.now) }
    ensures ok { IfOk result (λ told. IsEachAnswerBy rule (I.JsonInput.content json) I.JsonInput.is_bytes
        (path_of path.now ∷ []) (EachAnswer.outcomes (told_at told ∷ []))) }
    ensures err { IfErr result (IsStopFor (IsEachError rule (I.JsonInput.content json)
        I.JsonInput.is_bytes (path_of path.now ∷ []))) }
{
    let mut tree = PointerTree::new(alloc);
    match tree.add_path(alloc, path) {
        Ok(()) => {}
        Err(PathError::NoMemory) => return Err(Fault::OutOfMemory),
        Err(PathError::TooLong | PathError::Mixed) => unreachable!(),
    }
    let mut memory = Memory {
        found: Vec::new(alloc),
        opened: None,
    };
    locate_each_in(alloc, &mut memory, json, &tree, rule)?;
    Ok(memory.found[0])
}

// Adds a row for each item of the container of this kind at the walk.
fn add_rows(
    walk: &mut Walk<'_>,
    columns: Option<Columns<'_>>,
    kind: Kind,
    view: &TreeView<'_>,
    table: &mut Table,
) -> Result<(), Fault>
    requires bracket { byte walk.old.text walk.old.place ≡ opening kind }
    requires each { IsTrue walk.old.each }
    requires root { view.now.prefix ≡ [] }
    requires slots { length walk.old.findings.slots ≡ length view.now.paths }
    requires marks { KeepsMarks (marking_at walk.old view.now) walk.old.place }
    requires columns { IfSome columns (AreFor walk.old.rule walk.old.text view.now.paths) }
    requires empty { (table.old.items.items ≡ []) × (table.old.outcomes.items ≡ []) }
    ensures ok { OnOk result (IsTableOf walk.old.rule walk.old.text view.now.paths
        (record { start = walk.old.place; end = walk.new.place }) table.new) }
    ensures err { IfErr result (IsStopFor (IsFault strict walk.old.text walk.old.place)) }
{
    if !walk.enter(kind) {
        return Ok(());
    }
    let mut columns = columns;
    'items: loop {
        pass_rows(walk, &mut columns, kind, view, table)?;
        if !walk.next_item(kind)? {
            return Ok(());
        }
    }
}

// Adds a row for the item at the walk, of a container of this kind, and for those behind it that are passed
// by a quick look.
fn pass_rows(
    walk: &mut Walk<'_>,
    columns: &mut Option<Columns<'_>>,
    kind: Kind,
    view: &TreeView<'_>,
    table: &mut Table,
) -> Result<(), Fault>
    requires each { IsTrue walk.old.each }
    requires root { view.now.prefix ≡ [] }
    requires slots { length walk.old.findings.slots ≡ length view.now.paths }
    requires marks { KeepsMarks (marking_at walk.old view.now) walk.old.place }
    requires columns { IfSome columns.old (AreFor walk.old.rule walk.old.text view.now.paths) }
    ensures rows { OnOk result ((i : ℕ)
        → HasRows walk.old.rule walk.old.text view.now.paths kind i table.old walk.old.place
        → HasRowsUpTo walk.old.rule walk.old.text view.now.paths kind i table.new walk.new.place) }
    ensures later { OnOk result (walk.old.place ≤ walk.new.place) }
    ensures slots { OnOk result (length walk.new.findings.slots ≡ length view.now.paths) }
    ensures marks { OnOk result (KeepsMarks (marking_at walk.new view.now) walk.new.place) }
    ensures columns { OnOk result
        (IfSome columns.new (AreFor walk.old.rule walk.old.text view.now.paths)) }
    ensures moved { OnOk result (walk.new ≡ record walk.old {
      place = walk.new.place;
      findings = walk.new.findings;
      root = walk.new.root;
      marks = walk.new.marks;
    }) }
    ensures err { IfErr result (IsStopFor (λ s. (i : ℕ)
        → HasRows walk.old.rule walk.old.text view.now.paths kind i table.old walk.old.place
        → IsFault strict walk.old.text i s)) }
{
    if look_ahead(walk, columns, kind, table)? {
        return Ok(());
    }
    let item = pass_item(walk, kind, view)?;
    table.push(item, walk.slots())?;
    Ok(())
}

// Adds rows for the items of a container of this kind from the one on at which the walk is, as far as a
// quick look passes them: whether the walk is then behind an item, or where one is expected.
fn look_ahead(
    walk: &mut Walk<'_>,
    columns: &mut Option<Columns<'_>>,
    kind: Kind,
    table: &mut Table,
) -> Result<bool, AllocError>
    requires { IfSome columns.old (AreReady walk.old.text) }
    ensures columns { OnOk result ((paths : List Path)
        → IfSome columns.old (AreFor walk.old.rule walk.old.text paths)
        → IfSome columns.new (AreFor walk.old.rule walk.old.text paths)) }
    ensures moved { walk.new ≡ record walk.old { place = walk.new.place } }
    ensures later { OnOk result (walk.old.place ≤ walk.new.place) }
    ensures behind { IfOk result (λ behind. (paths : List Path) (i : ℕ)
        → IfSome columns.old (AreFor walk.old.rule walk.old.text paths)
        → HasRows walk.old.rule walk.old.text paths kind i table.old walk.old.place
        → IsTrue behind → HasRowsUpTo walk.old.rule walk.old.text paths kind i table.new walk.new.place) }
    ensures expected { IfOk result (λ behind. (paths : List Path) (i : ℕ)
        → IfSome columns.old (AreFor walk.old.rule walk.old.text paths)
        → HasRows walk.old.rule walk.old.text paths kind i table.old walk.old.place
        → IsFalse behind → HasRows walk.old.rule walk.old.text paths kind i table.new walk.new.place) }
{
    match (kind, columns) {
        (Kind::Array, Some(columns)) => columns.add_rows(walk, table),
        _ => Ok(false),
    }
}

// Passes the item at the walk, whose slots tell then where each path leads inside it.
fn pass_item(walk: &mut Walk<'_>, kind: Kind, view: &TreeView<'_>) -> Result<TableItem, Fault>
    requires each { IsTrue walk.old.each }
    requires root { view.now.prefix ≡ [] }
    requires slots { length walk.old.findings.slots ≡ length view.now.paths }
    requires marks { KeepsMarks (marking_at walk.old view.now) walk.old.place }
    ensures item { IfOk result (IsItemFrom walk.old.text kind walk.old.place walk.new.place) }
    ensures filled { IfOk result (λ item. AreFilledFrom walk.old.rule walk.old.text item.value.start
        view.now.paths walk.new.findings.slots) }
    ensures marks { OnOk result (KeepsMarks (marking_at walk.new view.now) walk.new.place) }
    ensures moved { OnOk result (walk.new ≡ record walk.old {
      place = walk.new.place;
      findings = walk.new.findings;
      root = walk.new.root;
      marks = walk.new.marks;
    }) }
    ensures err { IfErr result (IsStopFor (FaultsItem walk.old.text kind walk.old.place)) }
{
    let key = pass_key(walk, kind)?;
    walk.begin();
    let start = walk.place();
    pass_value(walk, view)?;
    let end = walk.place();
    Ok(TableItem {
        key,
        value: Span { start, end },
    })
}

// Passes what comes before the value of the item at the walk: the key, if it has one.
fn pass_key(walk: &mut Walk<'_>, kind: Kind) -> Result<Option<Span>, Stop>
    ensures key { IfOk result (IsHeadFrom walk.old.text kind walk.old.place walk.new.place) }
    ensures moved { walk.new ≡ record walk.old { place = walk.new.place } }
    ensures later { OnOk result (walk.old.place ≤ walk.new.place) }
    ensures err { IfErr result (λ s. (kind ≡ Kind.Object)
        × IsKeyFault strict walk.old.text walk.old.place s) }
{
    match kind {
        Kind::Array => Ok(None),
        Kind::Object => {
            let ValueSpan { start, end, .. } = walk.key()?;
            Ok(Some(Span { start, end }))
        }
    }
}

// Follows all paths of the view in the value at the walk, and passes it.
fn pass_value(walk: &mut Walk<'_>, view: &TreeView<'_>) -> Result<(), Fault>
    requires each { IsTrue walk.old.each }
    requires root { view.now.prefix ≡ [] }
    requires begins { (walk.old.root ≡ walk.old.place) × IsFalse walk.old.findings.lacking }
    requires slots { length walk.old.findings.slots ≡ length view.now.paths }
    requires marks { KeepsMarks (marking_at walk.old view.now) walk.old.place }
    ensures value { OnOk result (IsValue strict walk.old.text walk.old.place walk.new.place) }
    ensures filled { OnOk result (AreFilledFrom walk.old.rule walk.old.text walk.old.place view.now.paths
        walk.new.findings.slots) }
    ensures marks { OnOk result (KeepsMarks (marking_at walk.new view.now) walk.new.place) }
    ensures moved { OnOk result (walk.new ≡ record walk.old {
      place = walk.new.place;
      findings = walk.new.findings;
      marks = walk.new.marks;
    }) }
    ensures err { IfErr result (IsStopFor (IsFault strict walk.old.text walk.old.place)) }
{
    if walk.slots().is_empty() {
        walk.skip()?;
        return Ok(());
    }
    follow_paths(walk, view, true)?;
    Ok(())
}
