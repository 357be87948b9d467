// One walk through a text, which finds what all paths of a tree lead to.
ghost use Rattle.std.specs.Prelude.{◌≡◌, ◌≢◌, ◌⊎◌, ◌<◌, ◌≤◌, ◌-◌, ℕ, List, Some, true, length, slice_get, IfOk, IfErr, IfSome, IfNone, OnOk, IsTrue, IsFalse};
ghost use Rattle.sonic_error.specs.declared.code.ErrorCode.TheVariants.{GetIndexOutOfArray};
ghost use Rattle.sonic_text.specs.Strings.{strict};
ghost use Rattle.sonic_text.specs.Paths.{Node};
ghost use Rattle.sonic_text.specs.Values.{IsValue};
ghost use Rattle.sonic_text.specs.Faults.{IsKeyFault};
ghost use Rattle.sonic_pointer.specs.Paths.{HasPrefix, IsChildren};
ghost use Rattle.sonic_parser.specs.Faults.{IsStopFor};
ghost use Rattle.sonic_find.specs.declared.outcome.PathOutcome.TheVariants.{Fails};
ghost use Rattle.sonic_find.specs.Paths.{kind_of, past_end};
ghost use Rattle.sonic_find.specs.Internal.Walk.{IsStop, ComesTo, AreFindings, IsLater, AllSettled, BelowSettled, IsContainer, IsFollowed, IsItemPassed, IsPassedValue, IsWanted, IsChildItem, SomeOpen, AreSet, slot_of};
ghost use Rattle.sonic_find.specs.Internal.Marks.{KeepsMarks};
ghost use Rattle.sonic_find.specs.Internal.View.{asked_at, point_at, container_at, marking_at, progress_at, progress_of, is_open, NoneBefore};

use crate::provisional::follow_whole;
use crate::state::Walk;
use crate::visited::Visited;
use sonic_error::ErrorCode;
use sonic_parser::{Fault, ValueSpan};
use sonic_pointer::{Branch, TreeView};
use sonic_text::{Kind, Stop};

// A container in which the children of a vertex of the tree are looked for.
#[derive(Drop)]
pub(crate) struct Level<'l, 't> {
    pub(crate) view: &'l TreeView<'t>,
    // The place of its bracket.
    pub(crate) start: usize,
    pub(crate) kind: Kind,
    // Whether it has to be read to its end.
    pub(crate) needs: bool,
}

// Follows the paths that begin with the prefix of the view in the value at the cursor.
//
// It is read to its end where `finish` asks for it, where some path lacks its key, or where a path
// ends here.
#[cycle(walk)]
#[inline(always)]
pub(crate) fn follow(walk: &mut Walk<'_>, view: &TreeView<'_>, finish: bool) -> Result<(), Fault>
    requires comes { ComesTo (point_at walk.old view.now) }
    requires some { HasPrefix view.now.paths view.now.prefix }
    requires are { AreFindings (asked_at walk.old view.now) walk.old.findings }
    requires marks { KeepsMarks (marking_at walk.old view.now) walk.old.place }
    ensures later { OnOk result (IsLater (asked_at walk.old view.now) walk.old.findings
        walk.new.findings) }
    ensures settled { OnOk result (AllSettled (point_at walk.old view.now) walk.new.findings) }
    ensures whole { OnOk result ((IsTrue finish) ⊎ IsTrue walk.new.findings.lacking
        → IsValue strict walk.old.text walk.old.place walk.new.place) }
    ensures marks { OnOk result (KeepsMarks (marking_at walk.new view.now) walk.new.place) }
    ensures moved { OnOk result (walk.new ≡ record walk.old {
      place = walk.new.place;
      findings = walk.new.findings;
      marks = walk.new.marks;
    }) }
    ensures err { IfErr result (IsStopFor (IsStop (point_at walk.old view.now) finish)) }
{
    if view.count() == 0 {
        let value = walk.skip()?;
        walk.keep(view.orders(), value);
        return Ok(());
    }
    follow_children(walk, view, finish)
}

// The same of a prefix that goes on.
#[cycle(walk)]
fn follow_children(walk: &mut Walk<'_>, view: &TreeView<'_>, finish: bool) -> Result<(), Fault>
    requires comes { ComesTo (point_at walk.old view.now) }
    requires some { HasPrefix view.now.paths view.now.prefix }
    requires are { AreFindings (asked_at walk.old view.now) walk.old.findings }
    requires marks { KeepsMarks (marking_at walk.old view.now) walk.old.place }
    requires children { IsChildren view.now.paths view.now.prefix view.now.children }
    requires goes_on { view.now.children ≢ List.[] }
    ensures later { OnOk result (IsLater (asked_at walk.old view.now) walk.old.findings
        walk.new.findings) }
    ensures settled { OnOk result (AllSettled (point_at walk.old view.now) walk.new.findings) }
    ensures whole { OnOk result ((IsTrue finish) ⊎ IsTrue walk.new.findings.lacking
        → IsValue strict walk.old.text walk.old.place walk.new.place) }
    ensures marks { OnOk result (KeepsMarks (marking_at walk.new view.now) walk.new.place) }
    ensures moved { OnOk result (walk.new ≡ record walk.old {
      place = walk.new.place;
      findings = walk.new.findings;
      marks = walk.new.marks;
    }) }
    ensures err { IfErr result (IsStopFor (IsStop (point_at walk.old view.now) finish)) }
{
    let start = walk.place();
    let orders = view.orders();
    let level = Level {
        view,
        start,
        kind: kind_of_children(view),
        needs: is_asked(finish, orders),
    };
    if walk.gathers(level.kind) {
        return follow_whole(walk, &level);
    }
    let Some(value) = items(walk, &level)? else {
        return Ok(());
    };
    walk.keep(orders, value);
    Ok(())
}

// Whether a value has to be read to its end, as it is asked for or as a path ends at it.
fn is_asked(finish: bool, orders: &[usize]) -> bool
    ensures asked { IsTrue result → IsTrue finish ⊎ (orders.now ≢ List.[]) }
    ensures unasked { IsFalse result → IsFalse finish × (orders.now ≡ List.[]) }
{
    finish || !orders.is_empty()
}

// The kind of container that the children of the view ask for.
#[inline(always)]
pub(crate) fn kind_of_children(view: &TreeView<'_>) -> Kind
    requires { IsChildren view.now.paths view.now.prefix view.now.children }
    ensures { (c : ℕ) (node : Node) → slice_get view.now.children c ≡ Some node → kind_of node ≡ result }
{
    match view.branch() {
        Branch::Keys => Kind::Object,
        Branch::Leaf => Kind::Array,
        Branch::Indexes => Kind::Array,
    }
}

// Follows the children of a level in the items of the container at the cursor: where it is, if it was
// read to its end.
#[cycle(walk)]
fn items(walk: &mut Walk<'_>, level: &Level<'_, '_>) -> Result<Option<ValueSpan>, Fault>
    requires start { level.now.start ≡ walk.old.place }
    requires container { IsContainer (container_at walk.old level.now) }
    requires some { level.now.view.now.children ≢ List.[] }
    requires are { AreFindings (asked_at walk.old level.now.view.now) walk.old.findings }
    requires marks { KeepsMarks (marking_at walk.old level.now.view.now) walk.old.place }
    ensures later { OnOk result (IsLater (asked_at walk.old level.now.view.now) walk.old.findings
        walk.new.findings) }
    ensures settled { OnOk result (BelowSettled (container_at walk.old level.now).point walk.new.findings) }
    ensures whole { IfOk result (λ value. IfSome value
        (IsPassedValue walk.old.text walk.old.place walk.new.place)) }
    ensures unneeded { IfOk result (λ value. IfNone value
        (IsFalse level.now.needs × IsFalse walk.new.findings.lacking)) }
    ensures marks { OnOk result (KeepsMarks (marking_at walk.new level.now.view.now) walk.new.place) }
    ensures moved { OnOk result (walk.new ≡ record walk.old {
      place = walk.new.place;
      findings = walk.new.findings;
      marks = walk.new.marks;
    }) }
    ensures err { IfErr result (IsStopFor (IsStop (container_at walk.old level.now).point level.now.needs)) }
{
    let mut visited = Visited::new(walk.alloc(), level.view.count())?;
    if let Some(dead) = walk.enter_or_pass(level.kind)? {
        fail(walk, level, &visited, dead.stop)?;
        return Ok(Some(dead.value));
    }
    let mut passed = 0;
    let mut next_child = 0;
    'items: loop {
        item(walk, level, &mut visited, passed, &mut next_child)?;
        if !is_wanted(walk, level, &visited) {
            return Ok(None);
        }
        if !walk.next_item(level.kind)? {
            break 'items;
        }
        passed += 1;
    }
    close(walk, level, &visited)?;
    Ok(Some(ValueSpan::plain(level.start, walk.place())))
}

// Passes the item at the cursor, and follows the child that it is.
#[cycle(walk)]
fn item(
    walk: &mut Walk<'_>,
    level: &Level<'_, '_>,
    visited: &mut Visited,
    passed: usize,
    next_child: &mut usize,
) -> Result<(), Fault>
    requires none { NoneBefore level.now.view.now passed next_child.old }
    requires before { IsFollowed (container_at walk.old level.now) (progress_of walk.old passed visited.old) }
    requires wanted { IsWanted (container_at walk.old level.now) (progress_of walk.old passed visited.old) }
    requires marks { KeepsMarks (marking_at walk.old level.now.view.now) walk.old.place }
    ensures passed { OnOk result (IsItemPassed (container_at walk.old level.now)
        (progress_at passed walk.old.place visited.new walk.new.findings) walk.new.place) }
    ensures none { OnOk result (NoneBefore level.now.view.now passed next_child.new) }
    ensures later { OnOk result (IsLater (asked_at walk.old level.now.view.now) walk.old.findings
        walk.new.findings) }
    ensures marks { OnOk result (KeepsMarks (marking_at walk.new level.now.view.now) walk.new.place) }
    ensures moved { OnOk result (walk.new ≡ record walk.old {
      place = walk.new.place;
      findings = walk.new.findings;
      marks = walk.new.marks;
    }) }
    ensures err { IfErr result (IsStopFor (IsStop (container_at walk.old level.now).point level.now.needs)) }
{
    let child = head(walk, level, passed, visited.count(), next_child)?;
    let Some(unvisited) = visited.unvisited(child) else {
        walk.skip()?;
        return Ok(());
    };
    visited.visit(unvisited);
    let more = is_wanted(walk, level, visited);
    let (_, below) = level.view.child(unvisited);
    follow(walk, &below, more)?;
    Ok(())
}

// Whether more is needed of a level: its end, or a child.
fn is_wanted(walk: &Walk<'_>, level: &Level<'_, '_>, visited: &Visited) -> bool
    ensures more { IsTrue result
        → IsTrue level.now.needs ⊎ IsTrue walk.now.findings.lacking ⊎ SomeOpen visited.now }
    ensures done { IsFalse result → IsFalse level.now.needs
        × IsFalse walk.now.findings.lacking × (SomeOpen visited.now → ⊥) }
{
    level.needs || walk.lacks_key() || !visited.is_done()
}

// Passes what comes before the value of the item at the cursor: the number of the child that it is. An
// element is found at once where `near` children have a lesser index, and none is looked for before the
// next child.
#[inline(always)]
pub(crate) fn head(
    walk: &mut Walk<'_>,
    level: &Level<'_, '_>,
    passed: usize,
    near: usize,
    next_child: &mut usize,
) -> Result<Option<usize>, Stop>
    requires none { NoneBefore level.now.view.now passed next_child.old }
    ensures item { IfOk result (λ child. IsChildItem (container_at walk.old level.now) passed
        walk.old.place walk.new.place child) }
    ensures moved { OnOk result (walk.new ≡ record walk.old { place = walk.new.place }) }
    ensures later { OnOk result (walk.old.place ≤ walk.new.place) }
    ensures none { NoneBefore level.now.view.now passed next_child.new }
    ensures err { IfErr result (λ s. (level.now.kind ≡ Kind.Object)
        × IsKeyFault strict walk.old.text walk.old.place s) }
{
    let Kind::Object = level.kind else {
        if passed < *next_child {
            return Ok(None);
        }
        let found = level.view.index_from(passed, near);
        if let Err(next) = found {
            *next_child = next;
        }
        return Ok(found.ok());
    };
    let key = walk.key()?;
    if key.escaped {
        return Ok(level.view.of_key(walk.text(), key.start, key.end));
    }
    Ok(level.view.of_plain_key(walk.text(), key.start, key.end))
}

// Notes what the children that were not visited lead to, after the closing bracket.
fn close(walk: &mut Walk<'_>, level: &Level<'_, '_>, visited: &Visited) -> Result<(), Stop>
    requires after { 0 < walk.old.place }
    requires slots { length walk.old.findings.slots ≡ length level.now.view.now.paths }
    requires visited { length visited.now ≡ length level.now.view.now.children }
    ensures kept { OnOk result (walk.new ≡ record walk.old { findings = walk.new.findings }) }
    ensures filled { OnOk result (AreSet (is_open level.now visited.now) walk.old.findings.slots
        walk.new.findings.slots (slot_of true (past_end level.now.kind (walk.old.place - 1)))) }
    ensures noted { OnOk result (SomeOpen visited.now → level.now.kind ≡ Kind.Object
        → IsTrue walk.new.findings.lacking) }
    ensures still { OnOk result (IsTrue walk.old.findings.lacking → IsTrue walk.new.findings.lacking) }
    ensures lack { OnOk result (IsTrue walk.new.findings.lacking → IsTrue walk.old.findings.lacking
        ⊎ SomeOpen visited.now × (level.now.kind ≡ Kind.Object)) }
    ensures goes { OnOk result (SomeOpen visited.now → level.now.kind ≡ Kind.Array
        → IsTrue walk.old.each) }
    ensures err { IfErr result (λ s. IsFalse walk.old.each × SomeOpen visited.now
        × (level.now.kind ≡ Kind.Array)
        × (s ≡ record { place = walk.old.place - 1; code = GetIndexOutOfArray })) }
{
    if visited.is_done() {
        return Ok(());
    }
    let place = walk.place() - 1;
    match level.kind {
        Kind::Object => {
            walk.lack_open(level.view, visited, place);
            Ok(())
        }
        Kind::Array => {
            let code = ErrorCode::GetIndexOutOfArray;
            fail(walk, level, visited, Stop { place, code })
        }
    }
}

// Notes why the children that were not visited fail, unless the walk stops there.
fn fail(
    walk: &mut Walk<'_>,
    level: &Level<'_, '_>,
    visited: &Visited,
    stop: Stop,
) -> Result<(), Stop>
    requires slots { length walk.old.findings.slots ≡ length level.now.view.now.paths }
    requires visited { length visited.now ≡ length level.now.view.now.children }
    ensures filled { OnOk result (AreSet (is_open level.now visited.now) walk.old.findings.slots
        walk.new.findings.slots (Fails stop)) }
    ensures kept { OnOk result (walk.new ≡ record walk.old {
      findings =
          record walk.old.findings { slots = walk.new.findings.slots };
    }) }
    ensures goes { OnOk result (IsTrue walk.old.each) }
    ensures err { IfErr result (λ s. IsFalse walk.old.each × (s ≡ stop)) }
{
    walk.fail_open(level.view, visited, stop);
    if walk.goes_on() { Ok(()) } else { Err(stop) }
}
