// What is at a place of a text, for a walk that keeps its own stack.
ghost use Rattle.std.specs.Prelude.{◌≡◌, ◌≢◌, ◌+◌, ◌<◌, ◌≤◌, ◌↔◌, Bool, true, length, IfOk, IfErr, IsTrue};
ghost use Rattle.sonic_text.specs.Places.{byte};
ghost use Rattle.sonic_text.specs.declared.kind.Kind.{Kind};
ghost use Rattle.sonic_text.specs.Faults.{IsFault, IsKeyFault};
ghost use Rattle.sonic_text.specs.Values.{opening, ItemsFit};
ghost use Rattle.sonic_parser.specs.Parts.{IsItem, IsValueAt};

use crate::begin::{ValueStart, begin};
use crate::container::{AfterItem, first_item};
use crate::skip::item_value;
use sonic_text::{Kind, Stop, byte_at};

/// What a value is for a walk through the text.
#[derive(Clone, Copy, Debug, PartialEq, Eq)]
pub enum ValueAt {
    /// It has no parts, and ends here.
    Ends(usize),
    /// It is a container of this kind, whose first item is expected here.
    Opens(Kind, usize),
}

/// What the value is that is expected at a place, or why there is none (RFC 8259, section 3).
///
/// A value without parts is passed: at the start of `1`, `"a"` and `[ ]` it ends at 1, 3 and 3. Of
/// `[ 1]` the first item is expected at 2. It takes no memory.
pub fn value_at(text: &[u8], place: usize, lossy: bool) -> Result<ValueAt, Stop>
    requires { place ≤ length text.now }
    ensures ok { IfOk result (IsValueAt lossy text.now place) }
    ensures err { IfErr result (λ s. IsFault lossy text.now place s) }
{
    match Kind::opened_by(byte_at(text, place)) {
        Some(kind) => Ok(container_at(text, place, kind)),
        None => other_at(text, place, lossy),
    }
}

// The same of a container of this kind.
#[inline(always)]
fn container_at(text: &[u8], place: usize, kind: Kind) -> ValueAt
    requires within { place ≤ length text.now }
    requires bracket { byte text.now place ≡ opening kind }
    ensures { (m : Bool) → IsValueAt m text.now place result }
{
    match first_item(text, place, kind) {
        AfterItem::Item(first) => ValueAt::Opens(kind, first),
        AfterItem::End(end) => ValueAt::Ends(end),
    }
}

// The same where no bracket opens.
#[inline(never)]
fn other_at(text: &[u8], place: usize, lossy: bool) -> Result<ValueAt, Stop>
    requires within { place ≤ length text.now }
    requires other { (kind : Kind) → byte text.now place ≢ opening kind }
    ensures ok { IfOk result (IsValueAt lossy text.now place) }
    ensures err { IfErr result (λ s. IsFault lossy text.now place s) }
{
    match begin(text, place, lossy)? {
        ValueStart::Complete(value) => Ok(ValueAt::Ends(value.end)),
        ValueStart::Inside(kind, first) => Ok(ValueAt::Opens(kind, first)),
    }
}

/// The place where the value is expected of the item that is expected at a place, in a container of
/// this kind: the same of an element, and after the key and its colon of a member; or why a key
/// doesn't fit.
///
/// At the start of `"a" : 1` it is 6.
pub fn item_at(text: &[u8], place: usize, kind: Kind, lossy: bool) -> Result<usize, Stop>
    requires { place ≤ length text.now }
    ensures ok { IfOk result (λ value. IsItem lossy text.now kind place value) }
    ensures err { IfErr result (λ s. IsKeyFault lossy text.now place s) }
    ensures object { IfErr result (λ s. kind ≡ Kind.Object) }
{
    item_value(text, place, kind, lossy)
}

/// Whether an array begins at a place whose first item is expected directly after the bracket, and
/// begins with a bracket itself.
///
/// At the start of `[[1]]` one does. Brackets one after the other are what a text can have as many
/// of as it has bytes, so a walk may ask for them first.
#[inline(always)]
pub fn opens_nested_array(text: &[u8], place: usize) -> bool
    ensures brackets { IsTrue result
        ↔ (byte text.now place ≡ 91) × (byte text.now (place + 1) ≡ 91) }
    ensures nested { IsTrue result → (place + 1 < length text.now)
        × ((m : Bool) → ItemsFit m text.now Kind.Array place 0 (place + 1)) }
{
    byte_at(text, place) == b'[' && byte_at(text, place + 1) == b'['
}
