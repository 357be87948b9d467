// What many paths find in an input that is known to begin with a value in UTF-8.
ghost use Rattle.std.specs.Prelude.{◌≡◌, ◌<◌, ℕ, Bool, Some, None, length, replicate, slice_get, IfErr, IfSome, IfNone, OnOk, OnErr, IsOk};
ghost use Rattle.sonic_text.specs.Documents.{StartsWithUtf8Value};
ghost use Rattle.sonic_text.specs.Paths.{Node};
ghost use Rattle.sonic_text.specs.Places.{after_space};
ghost use Rattle.sonic_text.specs.Strings.{strict};
ghost use Rattle.sonic_text.specs.Values.{IsValue};
ghost use Rattle.sonic_pointer.specs.Nodes.{node_of};
ghost use Rattle.sonic_pointer.specs.Paths.{IsChildren};
ghost use Rattle.sonic_find.specs.Answers.{IsAnswer, Answer};
ghost use Rattle.sonic_find.specs.Causes.{IsAnswerable, IsAnswerError};
ghost use Rattle.sonic_find.specs.Internal.Collected.{AllCollected, NodeCollected, IsFailBelow};
ghost use Rattle.sonic_find.specs.Internal.Fill.{AreFilled, origin_at, settled_in, slots_question};
ghost use Rattle.sonic_find.specs.Internal.Follow.{IsDeadNode, LacksNode};
ghost use Rattle.sonic_parser.specs.ValueSpans.{FlagsEscape};
ghost use Rattle.sonic_find.specs.Cursors.{HasWhole};
ghost use Rattle.sonic_find.specs.Internal.Walk.{ComesTo, IsError, Keeps};
ghost use Rattle.sonic_find.specs.declared.many_unchecked.Origin.{Origin};
ghost use Rattle.sonic_text.specs.declared.stop.Stop.{Stop};
ghost use Rattle.sonic_find.specs.Paths.{LeadsOn};
ghost use Rattle.sonic_find.specs.Spans.{pairs_of};
ghost use Rattle.sonic_pointer.specs.declared.rule.KeyRule.TheVariants.{First};

use crate::cursor::Cursor;
use crate::outcome::PathOutcome;
use crate::path::lead_on;
use crate::provisional::nearer;
use crate::settle::{keep, settle};
use crate::slot::Slot;
use crate::span::Span;
use sonic_error::Error;
use sonic_input::{JsonInput, JsonSlice, Read};
use sonic_parser::{Fault, Parser, ValueSpan};
use sonic_pointer::{PointerNode, PointerTree, TreeView};
use sonic_text::{Stop, byte_at, skip_space};

// A whole value of a text, by the place where it begins.
#[derive(Clone, Copy)]
struct Origin<'de> {
    text: &'de [u8],
    place: usize,
}

impl<'de> Origin<'de> {
    // The first value of the text.
    fn root(text: &'de [u8]) -> Origin<'de>
        ensures text { result.text.now ≡ text.now }
        ensures place { result.place ≡ after_space text.now 0 }
    {
        let place = skip_space(text, 0);
        Origin { text, place }
    }

    // A cursor at the value.
    fn read(self) -> Read<'de>
        requires { HasWhole self.text.now self.place }
        ensures text { result.text ≡ self.entry.text.now }
        ensures place { result.place ≡ self.entry.place }
    {
        let mut read = Read::unscanned(JsonSlice::Raw(self.text));
        read.set_index(self.place);
        read
    }

    // Where the value is.
    #[inline(never)]
    fn span(self) -> ValueSpan
        requires { HasWhole self.text.now self.place }
        ensures start { result.start ≡ self.entry.place }
        ensures value { IsValue strict self.entry.text.now self.entry.place result.end }
        ensures escaped { FlagsEscape self.entry.text.now result }
    {
        Parser::new(self.read()).skip_value_unchecked()
    }

    // The value of the first item that the node names, if there is one. Out of line it takes none of the
    // stack that `fill` holds for each prefix.
    #[inline(never)]
    fn child(self, node: &PointerNode<'_>) -> PathOutcome<Origin<'de>>
        requires { HasWhole self.text.now self.place }
        ensures text { (x : Origin) → result ≡ PathOutcome.Found x
            → x.text.now ≡ self.entry.text.now }
        ensures leads { (x : Origin) → result ≡ PathOutcome.Found x
            → LeadsOn self.entry.text.now self.entry.place (node_of node.now) x.place }
        ensures lacks { (q : ℕ) → result ≡ PathOutcome.Missing q
            → LacksNode First self.entry.text.now self.entry.place (node_of node.now) q }
        ensures fails { (s : Stop) → result ≡ PathOutcome.Fails s
            → IsDeadNode First self.entry.text.now self.entry.place (node_of node.now) s }
    {
        let mut cursor = Cursor::unchecked(self.read());
        match lead_on(&mut cursor, node) {
            Ok(true) => {
                let place = cursor.place();
                PathOutcome::Found(Origin { place, ..self })
            }
            Ok(false) => PathOutcome::Missing(cursor.place() - 1),
            Err(Fault::At(stop)) => PathOutcome::Fails(stop),
            Err(Fault::OutOfMemory) => unreachable!(),
        }
    }
}

// Fills the slots of the paths that begin with the prefix of the view, which leads to the value: the
// nearest stop of those that fail.
#[cycle(fill)]
fn fill<S: Slot>(origin: Origin<'_>, view: &TreeView<'_>, slots: &mut [S]) -> Option<Stop>
    requires whole { HasWhole origin.text.now origin.place }
    requires comes { ComesTo (origin_at S.tells origin view.now) }
    requires long { length slots.old ≡ length view.now.paths }
    ensures long { length slots.new ≡ length slots.old }
    ensures kept { Keeps (slots_question S.tells origin.entry.text.now view.now.paths)
        (settled_in S.told slots.old) (settled_in S.told slots.new) }
    ensures fails { IfSome result (IsFailBelow (origin_at S.tells origin.entry view.now)) }
    ensures all { AllCollected (origin_at S.tells origin.entry view.now) (settled_in S.told slots.new)
        result }
{
    let mut nearest = None;
    for i in 0..view.count() {
        let stop = fill_child(origin, view, i, slots);
        nearest = nearer(nearest, stop);
    }
    let orders = view.orders();
    if orders.is_empty() {
        return nearest;
    }
    let ValueSpan { start, end, .. } = origin.span();
    keep(slots, orders, S::found(Span { start, end }));
    nearest
}

// The same for those of the paths that go on by the view's child of this number.
#[cycle(fill)]
fn fill_child<S: Slot>(
    origin: Origin<'_>,
    view: &TreeView<'_>,
    i: usize,
    slots: &mut [S],
) -> Option<Stop>
    requires child { i < length view.now.children }
    requires children { IsChildren view.now.paths view.now.prefix view.now.children }
    requires whole { HasWhole origin.text.now origin.place }
    requires comes { ComesTo (origin_at S.tells origin view.now) }
    requires long { length slots.old ≡ length view.now.paths }
    ensures long { length slots.new ≡ length slots.old }
    ensures kept { Keeps (slots_question S.tells origin.entry.text.now view.now.paths)
        (settled_in S.told slots.old) (settled_in S.told slots.new) }
    ensures fails { IfSome result (IsFailBelow (origin_at S.tells origin.entry view.now)) }
    ensures all { (node : Node) → slice_get view.now.children i ≡ Some node
        → NodeCollected (origin_at S.tells origin.entry view.now) (settled_in S.told slots.new) result
        node }
{
    let (node, below) = view.child(i);
    match origin.child(&node) {
        PathOutcome::Found(child) => fill(child, &below, slots),
        PathOutcome::Missing(brace) => {
            settle(slots, &below, S::missing(brace));
            None
        }
        PathOutcome::Fails(stop) => {
            settle(slots, &below, S::fails(stop));
            Some(stop)
        }
    }
}

// Empties the slots.
pub(crate) fn clear(slots: &mut [Option<Span>])
    ensures { slots.new ≡ replicate (length slots.old) None }
{
    slots.fill(None);
}

// Fills the empty slots of the paths of a tree, or gives the stop that is their answer.
fn fill_all(text: &[u8], tree: &PointerTree, slots: &mut [Option<Span>]) -> Option<Stop>
    requires starts { StartsWithUtf8Value text.now }
    requires empty { slots.old ≡ replicate (length tree.now) None }
    ensures none { IfNone result ((is_bytes : Bool) → IsAnswer text.now is_bytes tree.now
        (Answer.spans (pairs_of slots.new))) }
    ensures some { IfSome result (λ s. (is_bytes : Bool) → IsError First text.now is_bytes tree.now s) }
    ensures long { length slots.new ≡ length slots.old }
{
    fill(Origin::root(text), &tree.view(), slots)
}

// Fills the slots of the paths of a tree, each with where its path leads.
pub(crate) fn fill_each(text: &[u8], tree: &PointerTree, slots: &mut [PathOutcome<Span>])
    requires starts { StartsWithUtf8Value text.now }
    requires long { length slots.old ≡ length tree.now }
    ensures { AreFilled text.now tree.now slots.new }
{
    fill(Origin::root(text), &tree.view(), slots);
}

/// The spans of the values to which the paths of a tree lead, without memory, in an input that
/// begins with a value in UTF-8.
///
/// It fills one slot for each path with what `get_many` of `sonic_lazy` answers: the span of its
/// value in bytes of the input, or `None` where its key is lacked. After an error each slot is
/// `None`. What follows the input's value may be anything; an input that was taken by
/// [`validate`](crate::validate) begins so. Each node that follows a prefix is looked up by itself
/// from the prefix's value, which `n` nodes so read `n` times.
///
/// With the paths `["a", 1]` and `["z"]` over `{"a":[1,2]} x` the slots are the span from 8 to 9
/// and `None`. With `["z"]` and `["a", "x"]` the error is the mismatch at 9, and both are `None`.
pub fn find_many_unchecked<'de, I: JsonInput<'de>>(
    json: I,
    tree: &PointerTree,
    out: &mut [Option<Span>],
) -> Result<(), Error>
    requires starts { StartsWithUtf8Value (I.JsonInput.content json) }
    requires long { length out.old ≡ length tree.now }
    ensures ok { OnOk result (IsAnswer (I.JsonInput.content json) I.JsonInput.is_bytes tree.now
        (Answer.spans (pairs_of out.new))) }
    ensures err { IfErr result (IsAnswerError (I.JsonInput.content json) I.JsonInput.is_bytes
        tree.now) }
    ensures cleared { OnErr result (out.new ≡ replicate (length out.old) None) }
    ensures complete { IsAnswerable (I.JsonInput.content json) I.JsonInput.is_bytes tree.now
        → IsOk result }
{
    let text = json.to_u8_slice();
    clear(out);
    let Some(stop) = fill_all(text, tree, out) else {
        return Ok(());
    };
    clear(out);
    Err(Error::syntax(stop.code, text, stop.place))
}

/// Where the value of a span is, and whether it is a string with a backslash, for which a string
/// alone is read: what `get_many_unchecked` of `sonic_lazy` makes of a span.
///
/// In `["a\n"]` the value from 1 to 6 is such a string, and that from 0 to 7 is none.
pub fn value_span(text: &[u8], span: Span) -> ValueSpan
    requires { IsValue strict text.now span.start span.end }
    ensures start { result.start ≡ span.start }
    ensures end { result.end ≡ span.end }
    ensures escaped { FlagsEscape text.now result }
{
    let Span { start, end } = span;
    match byte_at(text, start) {
        b'"' => Origin { text, place: start }.span(),
        _ => ValueSpan::plain(start, end),
    }
}
