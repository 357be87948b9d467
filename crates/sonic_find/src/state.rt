// What a walk through a text has come to.
ghost use Rattle.std.specs.Prelude.{◌≡◌, ◌≢◌, ◌⊎◌, ◌<◌, ◌≤◌, ◌^◌, ◌+◌, ℕ, Some, true, false, length, set, slice_get, IfOk, IfErr, IfSome, IfNone, OnOk, IsTrue, IsFalse};
ghost use Rattle.std.specs.List.{Contains};
ghost use Rattle.sonic_text.specs.Places.{after_space, byte};
ghost use Rattle.sonic_text.specs.Strings.{strict};
ghost use Rattle.sonic_text.specs.Values.{opening, IsValue, ItemsFit};
ghost use Rattle.sonic_text.specs.Faults.{IsFault, IsKeyFault};
ghost use Rattle.sonic_parser.specs.Containers.{IsEnd, IsSeparated, IsSeparatorFault};
ghost use Rattle.sonic_parser.specs.Faults.{IsStopFor};
ghost use Rattle.sonic_pointer.specs.declared.rule.KeyRule.TheVariants.{First, Refuse};
ghost use Rattle.sonic_find.specs.declared.marks.Mark.{Mark};
ghost use Rattle.sonic_parser.specs.ValueSpans.{FlagsEscape, IsKeyAt};
ghost use Rattle.sonic_find.specs.Found.{FlagEscapes, slot_at, slots_of};
ghost use Rattle.sonic_find.specs.Internal.Walk.{IsPassedDead, IsUnopened, AreSet, Begins, GoesBy, IsOpen};
ghost use Rattle.sonic_find.specs.declared.outcome.PathOutcome.TheVariants.{Found, Missing, Fails};

use crate::cursor::{Cursor, Dead};
use crate::marks::Mark;
use crate::outcome::PathOutcome;
use crate::settle;
use crate::visited::Visited;
use sonic_input::Read;
use sonic_parser::{Fault, ValueSpan};
use sonic_pointer::{KeyRule, TreeView};
use sonic_text::{Kind, Stop};
use std::alloc::{AllocError, Global};
use std::marker::Model;

// The cursor of a walk, and what its paths have found so far.
#[derive(Drop)]
pub(crate) struct Walk<'de> {
    alloc: Global,
    cursor: Cursor<'de>,
    // Where each path leads, once that is known.
    slots: Vec<PathOutcome<ValueSpan>>,
    // Whether some path lacks its key.
    lacking: bool,
    // Whether it goes on after a path that fails.
    each: bool,
    // Which of several equal keys counts.
    rule: KeyRule,
    // The place of the value at which the paths begin.
    root: usize,
    // What each prefix of the tree had last, unless the first of equal keys counts.
    marks: Vec<Mark>,
}

impl<'de> Model for Walk<'de> {
    ghost use Rattle.sonic_find.specs.Internal.Walk.{WalkState};

    ghost Value = { WalkState };

    ghost use Rattle.sonic_find.specs.Internal.View.{walk_state_of, IsWalk};

    ghost view = { walk_state_of };

    ghost invariant = { IsWalk };
}

impl<'de> Walk<'de> {
    // A walk that begins at the reader's place, after white space, for paths with so many prefixes, in
    // their slots.
    #[inline(always)]
    pub(crate) fn new(
        alloc: Global,
        read: Read<'de>,
        slots: Vec<PathOutcome<ValueSpan>>,
        rule: KeyRule,
        each: bool,
        prefixes: usize,
    ) -> Result<Walk<'de>, AllocError>
        requires escaped { FlagEscapes read.text slots.items }
        ensures text { IfOk result (λ walk. walk.text ≡ read.entry.text) }
        ensures place { IfOk result (λ walk. walk.place
            ≡ after_space read.entry.text read.entry.place) }
        ensures findings { IfOk result (λ walk.
            walk.findings ≡ record { slots = slots_of slots.items; lacking = false }) }
        ensures rule { IfOk result (λ walk. walk.rule ≡ rule) }
        ensures root { IfOk result (λ walk. walk.root ≡ walk.place) }
        ensures each { IfOk result (λ walk. walk.each ≡ each) }
        ensures marked { IfOk result (λ walk. rule ≢ First → length walk.marks ≡ prefixes) }
        ensures unmarked { IfOk result (λ walk. (n : ℕ) (m : Mark)
            → slice_get walk.marks n ≡ Some m → m.value.start ≡ 0) }
    {
        let cursor = Cursor::checked(alloc, read);
        let root = cursor.place();
        let lacking = false;
        let marks = marks(alloc, rule, prefixes)?;
        Ok(Walk {
            alloc,
            cursor,
            slots,
            lacking,
            each,
            rule,
            root,
            marks,
        })
    }

    // Begins anew with the value that is expected at the place that it has come to.
    pub(crate) fn begin(&mut self)
        ensures { self.new ≡ record self.old {
          root = self.old.place;
          findings = record self.old.findings { lacking = false };
        } }
    {
        self.root = self.cursor.place();
        self.lacking = false;
    }

    // Exchanges the memory in which values are skipped with that of another walk.
    pub(crate) fn swap_memory(&mut self, opened: &mut Option<Vec<Kind>>)
        ensures { self.new ≡ self.old }
    {
        self.cursor.swap_memory(opened);
    }

    // Whether a container of this kind has to be whole before a node leads on in it.
    pub(crate) fn gathers(&self, kind: Kind) -> bool
        ensures whole { IsTrue result → (self.now.rule ≢ First) × (kind ≡ Kind.Object) }
        ensures plain { IsFalse result → (self.now.rule ≡ First) ⊎ (kind ≡ Kind.Array) }
    {
        match (self.rule, kind) {
            (KeyRule::First, _) | (_, Kind::Array) => false,
            (_, Kind::Object) => true,
        }
    }

    // Whether a second member with the key of another is refused.
    pub(crate) fn refuses(&self) -> bool
        ensures refuses { IsTrue result → self.now.rule ≡ Refuse }
        ensures counts { IsFalse result → self.now.rule ≢ Refuse }
    {
        match self.rule {
            KeyRule::Refuse => true,
            KeyRule::First | KeyRule::Last => false,
        }
    }

    // What the prefix of this number had last.
    pub(crate) fn mark(&self, number: usize) -> Mark
        requires { number < length self.now.marks }
        ensures { slice_get self.now.marks number ≡ Some result }
    {
        self.marks[number]
    }

    // Marks what the prefix of this number has.
    pub(crate) fn set_mark(&mut self, number: usize, mark: Mark)
        requires { number < length self.old.marks }
        ensures { self.new ≡ record self.old { marks = set self.old.marks number mark } }
    {
        self.marks[number] = mark;
    }

    // The place that the walk has come to.
    pub(crate) fn place(&self) -> usize
        ensures place { result ≡ self.now.place }
        ensures inside { result ≤ length self.now.text }
    {
        self.cursor.place()
    }

    // Moves the walk to a place.
    pub(crate) fn set_place(&mut self, place: usize)
        requires { place ≤ length self.old.text }
        ensures { self.new ≡ record self.old { place = place } }
    {
        self.cursor.set_place(place);
    }

    // Skips the value at a place: its end, or `None` where there is a fault, or no memory.
    pub(crate) fn skip_at(&mut self, place: usize) -> Option<usize>
        requires { place ≤ length self.old.text }
        ensures end { IfSome result (λ end. IsValue strict self.old.text place end × (end ≤ length self.old.text)) }
        ensures moved { self.new ≡ record self.old { place = self.new.place } }
    {
        self.cursor.set_place(place);
        match self.cursor.skip() {
            Ok(_) => Some(self.cursor.place()),
            Err(_) => None,
        }
    }

    // The whole text.
    pub(crate) fn text(&self) -> &'de [u8]
        ensures { result.now ≡ self.now.text }
    {
        self.cursor.text()
    }

    // The allocator that its memory comes from.
    pub(crate) fn alloc(&self) -> Global {
        self.alloc
    }

    // Whether some path lacks its key.
    pub(crate) fn lacks_key(&self) -> bool
        ensures { result ≡ self.now.findings.lacking }
    {
        self.lacking
    }

    // Skips the value at the cursor, and gives where it is.
    #[inline(always)]
    pub(crate) fn skip(&mut self) -> Result<ValueSpan, Fault>
        ensures value { OnOk result (IsValue strict self.old.text self.old.place self.new.place) }
        ensures span { IfOk result (λ value. (value.start ≡ self.old.place) × (value.end ≡ self.new.place)) }
        ensures escaped { IfOk result (FlagsEscape self.old.text) }
        ensures moved { OnOk result (self.new ≡ record self.old { place = self.new.place }) }
        ensures err { IfErr result (IsStopFor (λ s. IsFault strict self.old.text self.old.place s)) }
    {
        self.cursor.skip()
    }

    // Enters the container of this kind at the cursor, up to its first item, or passes the value that
    // is no such container, or an empty one.
    #[inline(always)]
    pub(crate) fn enter_or_pass(&mut self, kind: Kind) -> Result<Option<Dead>, Fault>
        ensures entered { IfOk result (λ dead. IfNone dead
            (ItemsFit strict self.old.text kind self.old.place 0 self.new.place)) }
        ensures passed { IfOk result (λ dead. IfSome dead
            (IsPassedDead self.old.text kind self.old.place self.new.place)) }
        ensures moved { OnOk result (self.new ≡ record self.old { place = self.new.place }) }
        ensures err { IfErr result (IsStopFor (IsUnopened self.old.text kind self.old.place)) }
    {
        self.cursor.enter_or_pass(kind)
    }

    // Goes past the bracket of the container of this kind at the cursor: whether an item is expected,
    // at which the cursor then is, or after the closing bracket.
    #[inline(always)]
    pub(crate) fn enter(&mut self, kind: Kind) -> bool
        requires { byte self.old.text self.old.place ≡ opening kind }
        ensures item { IsTrue result
            → ItemsFit strict self.old.text kind self.old.place 0 self.new.place }
        ensures empty { IsFalse result
            → IsEnd self.old.text kind (self.old.place + 1) self.new.place }
        ensures moved { self.new ≡ record self.old { place = self.new.place } }
    {
        self.cursor.enter(kind)
    }

    // Goes on after an item of a container of this kind: whether another one comes.
    #[inline(always)]
    pub(crate) fn next_item(&mut self, kind: Kind) -> Result<bool, Stop>
        ensures item { IfOk result (λ more. IsTrue more
            → IsSeparated self.old.text self.old.place self.new.place) }
        ensures end { IfOk result (λ more. IsFalse more
            → IsEnd self.old.text kind self.old.place self.new.place) }
        ensures moved { self.new ≡ record self.old { place = self.new.place } }
        ensures fits { OnOk result (self.new.place < 2 ^ 64) }
        ensures err { IfErr result (λ s. IsSeparatorFault self.old.text kind self.old.place s) }
    {
        self.cursor.next_item(kind)
    }

    // Passes the key at the cursor, up to the member's value, and gives where the key is.
    #[inline(always)]
    pub(crate) fn key(&mut self) -> Result<ValueSpan, Stop>
        ensures ok { IfOk result (λ key. IsKeyAt strict self.old.text self.old.place key self.new.place) }
        ensures moved { self.new ≡ record self.old { place = self.new.place } }
        ensures err { IfErr result (λ s. IsKeyFault strict self.old.text self.old.place s) }
    {
        self.cursor.key()
    }

    // Keeps a value for the paths of these numbers.
    #[inline(always)]
    pub(crate) fn keep(&mut self, orders: &[usize], value: ValueSpan)
        requires known { (k : ℕ) → Contains orders.now k → k < length self.old.findings.slots }
        requires escaped { FlagsEscape self.old.text value }
        ensures filled { AreSet (Contains orders.now) self.old.findings.slots self.new.findings.slots
            (Found (slot_at value)) }
        ensures kept { self.new ≡ record self.old {
          findings =
              record self.old.findings { slots = self.new.findings.slots };
        } }
    {
        settle::keep(&mut self.slots, orders, PathOutcome::Found(value));
    }

    // Keeps for all paths that begin with the prefix of the view why they fail.
    pub(crate) fn fail(&mut self, view: &TreeView<'_>, stop: Stop)
        requires { length self.old.findings.slots ≡ length view.now.paths }
        ensures filled { AreSet (Begins view.now.paths view.now.prefix) self.old.findings.slots
            self.new.findings.slots (Fails stop) }
        ensures kept { self.new ≡ record self.old {
          findings =
              record self.old.findings { slots = self.new.findings.slots };
        } }
    {
        settle::settle(&mut self.slots, view, PathOutcome::Fails(stop));
    }

    // Keeps for them that they lack a key, in the object whose closing brace is at the place.
    pub(crate) fn lack(&mut self, view: &TreeView<'_>, brace: usize)
        requires { length self.old.findings.slots ≡ length view.now.paths }
        ensures filled { AreSet (Begins view.now.paths view.now.prefix) self.old.findings.slots
            self.new.findings.slots (Missing brace) }
        ensures kept { self.new ≡ record self.old {
          findings =
              record { slots = self.new.findings.slots; lacking = true };
        } }
    {
        settle::settle(&mut self.slots, view, PathOutcome::Missing(brace));
        self.lacking = true;
    }

    // Keeps for those of them that go on by a child that was not visited why they fail.
    pub(crate) fn fail_open(&mut self, view: &TreeView<'_>, visited: &Visited, stop: Stop)
        requires slots { length self.old.findings.slots ≡ length view.now.paths }
        requires visited { length visited.now ≡ length view.now.children }
        ensures filled { AreSet
            (GoesBy view.now.paths view.now.prefix view.now.children (IsOpen visited.now))
            self.old.findings.slots self.new.findings.slots (Fails stop) }
        ensures kept { self.new ≡ record self.old {
          findings =
              record self.old.findings { slots = self.new.findings.slots };
        } }
    {
        settle::settle_open(&mut self.slots, view, visited, PathOutcome::Fails(stop));
    }

    // Keeps for those that they lack a key.
    pub(crate) fn lack_open(&mut self, view: &TreeView<'_>, visited: &Visited, brace: usize)
        requires slots { length self.old.findings.slots ≡ length view.now.paths }
        requires visited { length visited.now ≡ length view.now.children }
        ensures filled { AreSet
            (GoesBy view.now.paths view.now.prefix view.now.children (IsOpen visited.now))
            self.old.findings.slots self.new.findings.slots (Missing brace) }
        ensures kept { self.new ≡ record self.old {
          findings =
              record { slots = self.new.findings.slots; lacking = true };
        } }
    {
        settle::settle_open(&mut self.slots, view, visited, PathOutcome::Missing(brace));
        self.lacking = true;
    }

    // Whether it goes on after a path that fails.
    pub(crate) fn goes_on(&self) -> bool
        ensures { result ≡ self.now.each }
    {
        self.each
    }

    // Where each path leads, as far as that is known.
    pub(crate) fn slots(&self) -> &[PathOutcome<ValueSpan>]
        ensures { slots_of result.now ≡ self.now.findings.slots }
    {
        &self.slots
    }

    // Where each path leads.
    pub(crate) fn into_slots(self) -> Vec<PathOutcome<ValueSpan>>
        ensures slots { slots_of result.items ≡ self.entry.findings.slots }
        ensures escaped { FlagEscapes self.entry.text result.items }
    {
        let Walk { slots, cursor, .. } = self;
        slots
    }
}

// A mark for each prefix, where the rule asks for them.
fn marks(alloc: Global, rule: KeyRule, prefixes: usize) -> Result<Vec<Mark>, AllocError>
    ensures marked { IfOk result (λ marks. rule ≢ First → length marks.items ≡ prefixes) }
    ensures unmarked { IfOk result (λ marks. (n : ℕ) (m : Mark)
        → slice_get marks.items n ≡ Some m → m.value.start ≡ 0) }
{
    match rule {
        KeyRule::First => Ok(Vec::new(alloc)),
        KeyRule::Last | KeyRule::Refuse => vec![in alloc; Mark::none(); prefixes],
    }
}
