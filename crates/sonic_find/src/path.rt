// Where one path leads in a text.
ghost use Rattle.std.specs.Prelude.{◌≡◌, ◌≢◌, ◌-◌, ◌<◌, ◌≤◌, ◌∷◌, [], Some, length, IfOk, IfErr, IsErrOf, OnOk, IsTrue, IsFalse};
ghost use Rattle.sonic_text.specs.declared.kind.Kind.{Kind};
ghost use Rattle.sonic_text.specs.Faults.{IsKeyFault};
ghost use Rattle.sonic_text.specs.Strings.{strict};
ghost use Rattle.sonic_text.specs.Values.{IsValue};
ghost use Rattle.sonic_pointer.specs.Nodes.{node_of, path_of};
ghost use Rattle.sonic_parser.specs.Faults.{IsStopFor};
ghost use Rattle.sonic_parser.specs.ValueSpans.{FlagsEscape};
ghost use Rattle.sonic_find.specs.Answers.{Answer, IsGetAnswer};
ghost use Rattle.sonic_find.specs.Internal.Follow.{IsDeadNode, LacksNode, IsTried, IsRest};
ghost use Rattle.sonic_find.specs.DeadEnds.{IsPathStop, IsDeadEnd};
ghost use Rattle.sonic_find.specs.Cursors.{IsAtKey, IsSkippable};
ghost use Rattle.sonic_find.specs.Paths.{found, lacks, kind_of, Evaluates, LeadsOn};
ghost use Rattle.sonic_pointer.specs.declared.rule.KeyRule.TheVariants.{First};

use crate::cursor::Cursor;
use sonic_error::ErrorCode;
use sonic_input::Read;
use sonic_parser::{Fault, ValueSpan};
use sonic_pointer::PointerNode;
use sonic_text::{Kind, Stop, same_key};
use std::alloc::Global;

/// Where the value is to which a path leads from the value at the cursor.
///
/// The cursor is then after that value. Else the stop is where it leads nowhere, or the fault of the
/// text before that. A cursor that looks at nothing takes no memory, and gives no `Fault::OutOfMemory`.
/// Over `[5,{"a":7}]` the path `[1, "a"]` leads to the `7`, from 8 to 9.
pub fn locate(cursor: &mut Cursor<'_>, path: &[PointerNode<'_>]) -> Result<ValueSpan, Fault>
    requires { IsSkippable cursor.old }
    ensures ok { IfOk result (λ x.
        Evaluates cursor.old.text cursor.old.place (path_of path.now) (found x.start x.end)) }
    ensures value { IfOk result (λ x. IsValue strict cursor.old.text x.start x.end) }
    ensures escaped { IfOk result (FlagsEscape cursor.old.text) }
    ensures end { IfOk result (λ x. cursor.new.place ≡ x.end) }
    ensures moved { cursor.new ≡ record cursor.old { place = cursor.new.place } }
    ensures err { IfErr result (IsStopFor (IsDeadEnd First cursor.old.text cursor.old.place
        (path_of path.now))) }
    ensures memory { IsErrOf result Fault.OutOfMemory → IsTrue cursor.old.checks }
{
    if !follow(cursor, path)? {
        let place = cursor.place() - 1;
        let code = ErrorCode::GetUnknownKeyInObject;
        return Err(Fault::At(Stop { place, code }));
    }
    cursor.skip()
}

/// Where the value is to which a path leads from the start of a text, up to whose end this is UTF-8,
/// where it came as bytes.
///
/// Else the stop is where it leads nowhere, or the fault of the text before that, or, where it leads to
/// a value, the first byte up to its end that isn't UTF-8. What follows the value plays no part. It is
/// what `get` of `sonic_lazy` makes its lazy value of, and [`find`](crate::find) its span.
///
/// The path `["a", 1]` over `{"a":[2,3]` leads to the `3`, from 8 to 9.
pub fn locate_from(
    alloc: Global,
    read: Read<'_>,
    is_bytes: bool,
    path: &[PointerNode<'_>],
) -> Result<ValueSpan, Fault>
    requires { read.place ≡ 0 }
    ensures ok { IfOk result (λ x. IsGetAnswer read.entry.text is_bytes (path_of path.now)
        (Answer.spans (Some (x.start, x.end) ∷ []))) }
    ensures value { IfOk result (λ x. IsValue strict read.entry.text x.start x.end) }
    ensures escaped { IfOk result (FlagsEscape read.entry.text) }
    ensures within { IfErr result (IsStopFor (λ s. s.place ≤ length read.entry.text)) }
    ensures err { IfErr result (IsStopFor (λ s.
        IsGetAnswer read.entry.text is_bytes (path_of path.now) (Answer.error s))) }
{
    let mut cursor = Cursor::new(read, Some(alloc), is_bytes);
    let found = locate(&mut cursor, path)?;
    if is_bytes {
        cursor.check_utf8(found.end)?;
    }
    Ok(found)
}

// Follows a path from the value at the cursor: up to the value to which it leads, or after the
// closing brace of the object that lacks its key.
pub(crate) fn follow(cursor: &mut Cursor<'_>, path: &[PointerNode<'_>]) -> Result<bool, Fault>
    requires { IsSkippable cursor.old }
    ensures leads { IfOk result (λ on. IsTrue on
        → IsRest First cursor.old.text cursor.old.place (path_of path.now) cursor.new.place []) }
    ensures skippable { IfOk result (λ on. IsTrue on → IsSkippable cursor.new) }
    ensures lacks { IfOk result (λ on. IsFalse on → (0 < cursor.new.place)
        × Evaluates cursor.old.text cursor.old.place (path_of path.now) (lacks (cursor.new.place - 1))) }
    ensures moved { cursor.new ≡ record cursor.old { place = cursor.new.place } }
    ensures err { IfErr result (IsStopFor (IsPathStop First cursor.old.text cursor.old.place
        (path_of path.now))) }
    ensures memory { IsErrOf result Fault.OutOfMemory → IsTrue cursor.old.checks }
{
    for node in path {
        if !lead_on(cursor, node)? {
            return Ok(false);
        }
    }
    Ok(true)
}

// Goes from the value at the cursor to the first item that the node names, up to its value: whether
// there is one. If an object with members has none, the cursor is after its closing brace.
pub(crate) fn lead_on(cursor: &mut Cursor<'_>, node: &PointerNode<'_>) -> Result<bool, Fault>
    requires { IsSkippable cursor.old }
    ensures leads { IfOk result (λ on. IsTrue on
        → LeadsOn cursor.old.text cursor.old.place (node_of node.now) cursor.new.place) }
    ensures lacks { IfOk result (λ on. IsFalse on → (0 < cursor.new.place)
        × LacksNode First cursor.old.text cursor.old.place (node_of node.now) (cursor.new.place - 1)) }
    ensures moved { cursor.new ≡ record cursor.old { place = cursor.new.place } }
    ensures err { IfErr result (IsStopFor (IsDeadNode First cursor.old.text cursor.old.place
        (node_of node.now))) }
    ensures memory { IsErrOf result Fault.OutOfMemory → IsTrue cursor.old.checks }
{
    let kind = kind_of_node(node);
    cursor.enter_or_explain(kind)?;
    let mut passed = 0;
    'items: loop {
        if try_item(cursor, node, passed)? {
            return Ok(true);
        }
        cursor.skip()?;
        if !cursor.next_item(kind)? {
            break 'items;
        }
        passed += 1;
    }
    match kind {
        Kind::Object => Ok(false),
        Kind::Array => {
            let place = cursor.place() - 1;
            let code = ErrorCode::GetIndexOutOfArray;
            Err(Fault::At(Stop { place, code }))
        }
    }
}

// The kind of container that a node asks for.
pub(crate) fn kind_of_node(node: &PointerNode<'_>) -> Kind
    ensures { result ≡ kind_of (node_of node.now) }
{
    match node {
        PointerNode::Key(_) => Kind::Object,
        PointerNode::Index(_) => Kind::Array,
    }
}

// Passes what comes before the value of the item at the cursor: whether the node names it.
fn try_item(cursor: &mut Cursor<'_>, node: &PointerNode<'_>, passed: usize) -> Result<bool, Stop>
    requires { kind_of (node_of node.now) ≡ Kind.Object → IsAtKey cursor.old }
    ensures item { IfOk result (IsTried cursor.old.text (node_of node.now) passed cursor.old.place
        cursor.new.place) }
    ensures moved { cursor.new ≡ record cursor.old { place = cursor.new.place } }
    ensures later { OnOk result (cursor.old.place ≤ cursor.new.place) }
    ensures err { IfErr result (λ s. (kind_of (node_of node.now) ≡ Kind.Object)
        × IsKeyFault strict cursor.old.text cursor.old.place s) }
{
    match node {
        PointerNode::Key(text) => {
            let key = cursor.key()?;
            Ok(same_key(cursor.text(), key.start, key.end, *text))
        }
        PointerNode::Index(number) => Ok(passed == *number),
    }
}
