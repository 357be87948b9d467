// Objects in which another member than the first may count. What a key leads to counts once the object
// is whole: each prefix is marked with what it had last, and what the marks come to is collected then.
ghost use Rattle.std.specs.Prelude.{◌≡◌, ◌≢◌, ◌<◌, ◌≤◌, ◌⊎◌, ℕ, List, Some, None, false, length, slice_get, IfErr, IfOk, IfSome, OnOk, IsTrue, IsFalse};
ghost use Rattle.sonic_error.specs.declared.code.ErrorCode.TheVariants.{GetIndexOutOfArray, Message};
ghost use Rattle.sonic_error.specs.declared.json_type.Note.TheVariants.{Mismatch};
ghost use Rattle.sonic_text.specs.declared.kind.Kind.{Kind};
ghost use Rattle.sonic_text.specs.Paths.{Node};
ghost use Rattle.sonic_text.specs.declared.stop.Stop.{Stop};
ghost use Rattle.sonic_find.specs.declared.marks.Mark.{Mark};
ghost use Rattle.sonic_text.specs.Places.{byte};
ghost use Rattle.sonic_text.specs.Strings.{strict};
ghost use Rattle.sonic_text.specs.Values.{opening, type_of, IsValue};
ghost use Rattle.sonic_text.specs.Faults.{IsFault};
ghost use Rattle.sonic_pointer.specs.Nodes.{node_of};
ghost use Rattle.sonic_pointer.specs.Paths.{IsChildren};
ghost use Rattle.sonic_pointer.specs.declared.rule.KeyRule.TheVariants.{First, Refuse};
ghost use Rattle.sonic_parser.specs.Faults.{IsStopFor};
ghost use Rattle.sonic_find.specs.Internal.Collected.{AllCollected, NodeCollected, IsFailBelow, IsNoted};
ghost use Rattle.sonic_find.specs.Internal.Follow.{IsDeadNode, LacksNode};
ghost use Rattle.sonic_find.specs.Internal.Marks.{AreMarks, IsClosed, IsWholeLevel, IsMarked, IsMarkedItem, IsMarking, IsPassedBy, IsWholeMark, KeptBeside, NodeSays, SaysAll, IsLive};
ghost use Rattle.sonic_find.specs.Internal.View.{asked_at, container_at, marked_at, marking_at, point_at};
ghost use Rattle.sonic_find.specs.Internal.Walk.{AllSettled, AreFindings, ComesTo, IsLater, IsStop};
ghost use Rattle.sonic_find.specs.Paths.{empty_code, kind_of, wanted_of};

use crate::cursor::{empty_code, wanted_of};
use crate::marks::Mark;
use crate::outcome::PathOutcome;
use crate::path::kind_of_node;
use crate::state::Walk;
use crate::walk::{Level, head, kind_of_children};
use sonic_error::{ErrorCode, Note};
use sonic_parser::{Fault, ValueSpan};
use sonic_pointer::{PointerNode, TreeView};
use sonic_text::{Kind, Stop, byte_at, type_of};

// Follows the paths that begin with the prefix of the level's view in the value at the cursor, which
// has to be whole.
pub(crate) fn follow_whole(walk: &mut Walk<'_>, level: &Level<'_, '_>) -> Result<(), Fault>
    requires start { level.now.start ≡ walk.old.place }
    requires level { IsWholeLevel (container_at walk.old level.now) }
    requires object { level.now.kind ≡ Kind.Object }
    requires some { level.now.view.now.children ≢ List.[] }
    requires comes { ComesTo (point_at walk.old level.now.view.now) }
    requires findings { AreFindings (asked_at walk.old level.now.view.now) walk.old.findings }
    requires marks { AreMarks (marking_at walk.old level.now.view.now) walk.old.place }
    ensures later { OnOk result (IsLater (asked_at walk.old level.now.view.now)
        walk.old.findings walk.new.findings) }
    ensures settled { OnOk result (AllSettled (point_at walk.old level.now.view.now) walk.new.findings) }
    ensures whole { OnOk result (IsValue strict walk.old.text walk.old.place walk.new.place) }
    ensures marks { OnOk result (AreMarks (marking_at walk.new level.now.view.now) walk.new.place) }
    ensures moved { OnOk result (walk.new ≡ record walk.old {
      place = walk.new.place;
      findings = walk.new.findings;
      marks = walk.new.marks;
    }) }
    ensures err { IfErr result (IsStopFor (IsStop (point_at walk.old level.now.view.now) false)) }
{
    mark_value(walk, level.view)?;
    let mark = walk.mark(level.view.number());
    let nearest = collect(walk, level.view, mark);
    if walk.goes_on() {
        return Ok(());
    }
    match nearest {
        None => Ok(()),
        Some(stop) => Err(Fault::At(stop)),
    }
}

// Passes the value at the cursor, and marks what the prefixes from the view's on have in it.
//
// Nothing but a fault of the value stops it.
#[cycle(mark_value)]
fn mark_value(walk: &mut Walk<'_>, view: &TreeView<'_>) -> Result<(), Fault>
    requires rule { walk.old.rule ≢ First }
    requires marks { AreMarks (marking_at walk.old view.now) walk.old.place }
    ensures marked { OnOk result (IsMarked (marking_at walk.new view.now) view.now.prefix
        walk.old.place walk.new.place) }
    ensures beside { OnOk result (KeptBeside (marking_at walk.old view.now) walk.new.marks view.now.prefix) }
    ensures moved { OnOk result (walk.new ≡ record walk.old {
      place = walk.new.place;
      marks = walk.new.marks;
    }) }
    ensures err { IfErr result (IsStopFor (λ s. IsFault strict walk.old.text walk.old.place s)) }
{
    let mark = mark_of(walk, view)?;
    walk.set_mark(view.number(), mark);
    Ok(())
}

// The same, with the mark of the view's own prefix as its answer.
#[cycle(mark_value)]
fn mark_of(walk: &mut Walk<'_>, view: &TreeView<'_>) -> Result<Mark, Fault>
    requires rule { walk.old.rule ≢ First }
    requires marks { AreMarks (marking_at walk.old view.now) walk.old.place }
    ensures passed { IfOk result (IsPassedBy (marking_at walk.new view.now) view.now.prefix
        view.now.children walk.old.place walk.new.place) }
    ensures beside { OnOk result (KeptBeside (marking_at walk.old view.now) walk.new.marks view.now.prefix) }
    ensures moved { OnOk result (walk.new ≡ record walk.old {
      place = walk.new.place;
      marks = walk.new.marks;
    }) }
    ensures err { IfErr result (IsStopFor (λ s. IsFault strict walk.old.text walk.old.place s)) }
{
    let count = view.count();
    let level = Level {
        view,
        start: walk.place(),
        kind: kind_of_children(view),
        needs: true,
    };
    if !begins(walk, &level, count) {
        let value = walk.skip()?;
        return Ok(Mark::passed(value, false));
    }
    if !walk.enter(level.kind) {
        let empty = ValueSpan::plain(level.start, walk.place());
        return Ok(Mark::passed(empty, false));
    }
    members(walk, &level)?;
    let whole = ValueSpan::plain(level.start, walk.place());
    Ok(Mark::passed(whole, true))
}

// Whether there are children, and a container of their kind begins at the cursor.
fn begins(walk: &Walk<'_>, level: &Level<'_, '_>, count: usize) -> bool
    ensures begins { IsTrue result → byte walk.now.text walk.now.place ≡ opening level.now.kind }
    ensures other { IsFalse result → (count ≡ 0)
        ⊎ (byte walk.now.text walk.now.place ≢ opening level.now.kind) }
{
    count != 0 && byte_at(walk.text(), walk.place()) == level.kind.opening()
}

// Passes the items of the level's container, from the first one on, up to its end.
#[cycle(mark_value)]
fn members(walk: &mut Walk<'_>, level: &Level<'_, '_>) -> Result<(), Fault>
    requires level { IsWholeLevel (container_at walk.old level.now) }
    requires marking { IsMarking (marking_at walk.old level.now.view.now)
        (container_at walk.old level.now) 0 walk.old.place }
    ensures closed { OnOk result (IsClosed (marking_at walk.new level.now.view.now)
        (container_at walk.old level.now) walk.new.place) }
    ensures beside { OnOk result (KeptBeside (marking_at walk.old level.now.view.now) walk.new.marks
        level.now.view.now.prefix) }
    ensures moved { OnOk result (walk.new ≡ record walk.old {
      place = walk.new.place;
      marks = walk.new.marks;
    }) }
    ensures err { IfErr result (IsStopFor (λ s. IsFault strict walk.old.text level.now.start s)) }
{
    let mut passed = 0;
    'items: loop {
        member(walk, level, passed)?;
        if !walk.next_item(level.kind)? {
            break 'items;
        }
        passed += 1;
    }
    Ok(())
}

// Passes the item at the cursor, and gathers it where it is a child that may count.
#[cycle(mark_value)]
fn member(walk: &mut Walk<'_>, level: &Level<'_, '_>, passed: usize) -> Result<(), Fault>
    requires level { IsWholeLevel (container_at walk.old level.now) }
    requires marking { IsMarking (marking_at walk.old level.now.view.now)
        (container_at walk.old level.now) passed walk.old.place }
    ensures marked { OnOk result (IsMarkedItem (marking_at walk.new level.now.view.now)
        (container_at walk.old level.now) passed walk.old.place walk.new.place) }
    ensures beside { OnOk result (KeptBeside (marking_at walk.old level.now.view.now) walk.new.marks
        level.now.view.now.prefix) }
    ensures moved { OnOk result (walk.new ≡ record walk.old {
      place = walk.new.place;
      marks = walk.new.marks;
    }) }
    ensures err { IfErr result (IsStopFor (λ s. IsFault strict walk.old.text level.now.start s)) }
{
    let quote = walk.place();
    let Some(child) = head(walk, level, passed, 0, &mut 0)? else {
        walk.skip()?;
        return Ok(());
    };
    let (_, below) = level.view.child(child);
    let number = below.number();
    let mark = walk.mark(number);
    if is_repeated(walk, level.start, mark) {
        walk.set_mark(number, mark.repeated_at(quote));
        walk.skip()?;
        return Ok(());
    }
    mark_value(walk, &below)?;
    Ok(())
}

// Whether a prefix with this mark had a value in the container at `start` before, and may have no other.
fn is_repeated(walk: &Walk<'_>, start: usize, mark: Mark) -> bool
    ensures repeated { IsTrue result → (walk.now.rule ≡ Refuse) × (start < mark.value.start) }
    ensures counts { IsFalse result → (walk.now.rule ≢ Refuse) ⊎ (mark.value.start ≤ start) }
{
    walk.refuses() && start < mark.value.start
}

// Keeps what the paths found that begin with the prefix of the view, whose value is that of the mark:
// the nearest stop of those that fail. It reads of the text the first bytes of values alone.
#[cycle(collect)]
fn collect(walk: &mut Walk<'_>, view: &TreeView<'_>, mark: Mark) -> Option<Stop>
    requires says { SaysAll (marking_at walk.old view.now) view.now.prefix mark }
    requires whole { IsWholeMark walk.old.text mark }
    requires marks { AreMarks (marking_at walk.old view.now) walk.old.place }
    requires comes { ComesTo (marked_at walk.old view.now mark) }
    requires findings { AreFindings (asked_at walk.old view.now) walk.old.findings }
    ensures later { IsLater (asked_at walk.old view.now) walk.old.findings
        walk.new.findings }
    ensures fails { IfSome result (IsFailBelow (marked_at walk.old view.now mark)) }
    ensures all { AllCollected (marked_at walk.old view.now mark) walk.new.findings result }
    ensures kept { walk.new ≡ record walk.old { findings = walk.new.findings } }
{
    let mut nearest = None;
    for i in 0..view.count() {
        let stop = collect_child(walk, view, mark, i);
        nearest = nearer(nearest, stop);
    }
    walk.keep(view.orders(), mark.value);
    nearest
}

// The same for those of the paths that go on by the view's child of this number.
#[cycle(collect)]
fn collect_child(walk: &mut Walk<'_>, view: &TreeView<'_>, mark: Mark, i: usize) -> Option<Stop>
    requires child { i < length view.now.children }
    requires children { IsChildren view.now.paths view.now.prefix view.now.children }
    requires says { SaysAll (marking_at walk.old view.now) view.now.prefix mark }
    requires whole { IsWholeMark walk.old.text mark }
    requires marks { AreMarks (marking_at walk.old view.now) walk.old.place }
    requires comes { ComesTo (marked_at walk.old view.now mark) }
    requires findings { AreFindings (asked_at walk.old view.now) walk.old.findings }
    ensures later { IsLater (asked_at walk.old view.now) walk.old.findings
        walk.new.findings }
    ensures fails { IfSome result (IsFailBelow (marked_at walk.old view.now mark)) }
    ensures all { (node : Node) → slice_get view.now.children i ≡ Some node
        → NodeCollected (marked_at walk.old view.now mark) walk.new.findings result node }
    ensures kept { walk.new ≡ record walk.old { findings = walk.new.findings } }
{
    let (node, below) = view.child(i);
    match live_child(walk, mark, &node, &below) {
        PathOutcome::Found(child) => collect(walk, &below, child),
        PathOutcome::Missing(brace) => {
            walk.lack(&below, brace);
            None
        }
        PathOutcome::Fails(stop) => {
            walk.fail(&below, stop);
            Some(stop)
        }
    }
}

// What the value of a mark has of a node, to whose prefix `below` belongs: the mark of the value to
// which it leads, or nothing, as it is a key that is lacked, or why it fails.
fn live_child(
    walk: &Walk<'_>,
    mark: Mark,
    node: &PointerNode<'_>,
    below: &TreeView<'_>,
) -> PathOutcome<Mark>
    requires says { NodeSays (marking_at walk.now below.now) mark below.now.prefix (node_of node.now) (λ x. Unit) }
    requires whole { IsWholeMark walk.now.text mark }
    requires marks { AreMarks (marking_at walk.now below.now) walk.now.place }
    ensures live { (child : Mark) → result ≡ PathOutcome.Found child
        → IsLive (marking_at walk.now below.now) mark below.now.prefix child }
    ensures lacks { (q : ℕ) → result ≡ PathOutcome.Missing q
        → LacksNode walk.now.rule walk.now.text mark.value.start (node_of node.now) q }
    ensures fails { (s : Stop) → result ≡ PathOutcome.Fails s
        → IsDeadNode walk.now.rule walk.now.text mark.value.start (node_of node.now) s }
{
    let place = mark.value.end - 1;
    let kind = kind_of_node(node);
    if !mark.has_items {
        let code = code_of_no_items(byte_at(walk.text(), mark.value.start), kind);
        return PathOutcome::Fails(Stop { place, code });
    }
    let child = walk.mark(below.number());
    if child.value.start <= mark.value.start {
        return past_items(kind, place);
    }
    match child.again {
        None => PathOutcome::Found(child),
        Some(quote) => PathOutcome::Fails(Stop {
            place: quote,
            code: ErrorCode::DuplicateKey,
        }),
    }
}

// What comes of a node that names none of the items of a whole container of its kind, which ends with
// the byte at this place.
fn past_items(kind: Kind, place: usize) -> PathOutcome<Mark>
    ensures found { (child : Mark) → result ≢ PathOutcome.Found child }
    ensures lacks { (q : ℕ) → result ≡ PathOutcome.Missing q → (kind ≡ Kind.Object) × (q ≡ place) }
    ensures fails { (s : Stop) → result ≡ PathOutcome.Fails s → (kind ≡ Kind.Array)
        × (s ≡ record { place = place; code = GetIndexOutOfArray }) }
{
    match kind {
        Kind::Object => PathOutcome::Missing(place),
        Kind::Array => PathOutcome::Fails(Stop {
            place,
            code: ErrorCode::GetIndexOutOfArray,
        }),
    }
}

// Why no item is in a value with this first byte, which isn't a container of the kind with items.
fn code_of_no_items(first: u8, kind: Kind) -> ErrorCode
    ensures empty { first ≡ opening kind → result ≡ empty_code kind }
    ensures other { first ≢ opening kind
        → result ≡ Message (Mismatch (type_of first) (wanted_of kind)) }
{
    if first == kind.opening() {
        return empty_code(kind);
    }
    let found = type_of(first);
    let wanted = wanted_of(kind);
    ErrorCode::Message(Note::Mismatch { found, wanted })
}

// The nearer of two stops, if there is one.
pub(crate) fn nearer(one: Option<Stop>, other: Option<Stop>) -> Option<Stop>
    ensures one { (q : ℕ) → IsNoted one q → IsNoted result q }
    ensures other { (q : ℕ) → IsNoted other q → IsNoted result q }
    ensures either { (result ≡ one) ⊎ (result ≡ other) }
{
    match (one, other) {
        (Some(near), Some(far)) if far.place < near.place => other,
        (None, _) => other,
        _ => one,
    }
}
