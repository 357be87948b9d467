// A way through the items of a container, in the caller's memory.
ghost use Rattle.std.specs.Prelude.{◌≡◌, ◌≢◌, ◌≤◌, ℕ, Bool, None, length, IfSome, IsTrue};
ghost use Rattle.sonic_text.specs.Places.{byte, after_space};
ghost use Rattle.sonic_text.specs.Values.{opening};
ghost use Rattle.sonic_text.specs.declared.kind.Kind.{Kind};
ghost use Rattle.sonic_c.specs.Containers.{state_number, HasEnded, HasTold, IsBeginCall, IsNextCall};
ghost use Rattle.sonic_c.specs.Internal.Items.{TellsClosing};
ghost use Rattle.sonic_c.specs.Statuses.{status_end};

use crate::begun::{Expected, expect, kind_begun, pass_rest, refuse};
use crate::fault::{Fault, tell_stop};
use crate::status::{END, NO_MEMORY, OK};
use crate::walk::{Item, cursor_at, pass_item};
use sonic_find::internal::check;
use sonic_text::{Kind, byte_at, skip_space};
use std::alloc::Global;

/// How far a caller has gone through the items of a container.
#[repr(C)]
#[derive(Clone, Copy)]
pub struct Items {
    /// The index of the bracket before the first item, or after the last item that was told.
    pub place: usize,
    /// 1 or 2 in an array, before the first element and after one, 3 or 4 in an object, and any other
    /// number where no item is left to tell.
    pub state: u32,
}

impl Items {
    // The cursor where no item is left.
    fn ended(self) -> Items
        ensures { result ≡ record self { state = 0 } }
    {
        Items {
            place: self.place,
            state: 0,
        }
    }
}

// Whether the first item is told next, of a container of this kind.
type Going = (Kind, bool);

/// Begins to go through the items of the array or the object that begins the text, which is UTF-8: tells
/// a cursor.
///
/// A value of another type is `WRONG_TYPE`. No memory is taken.
#[unsafe(no_mangle)]
pub extern "C" fn jihluka_items_begin(json: &[u8], items: &mut Items, error: &mut Fault) -> u32
    ensures { IsBeginCall json.now (record { items = items.old; error = error.old })
        (record { items = items.new; error = error.new }) result }
{
    let place = match expect(json, Expected::Container) {
        Ok(start) => start,
        Err(refusal) => return refuse(error, json, refusal),
    };
    match check(json, json.len()) {
        Ok(()) => {
            let kind = kind_begun(json, place);
            let state = state_of(kind, true);
            *items = Items { place, state };
            OK
        }
        Err(stop) => tell_stop(error, json, stop),
    }
}

/// The item that comes next, if one does, for which the cursor moves on.
///
/// After the last one it is `END`, where nothing but white space follows the container. An error of the
/// text is told after all items before it, and the cursor ends with it. A cursor that has ended is `END`,
/// and nothing is written then. Memory is taken only where more than 64 containers are open at once inside
/// the item, or one has a fault: a byte for each, by 64 to 65,536 bytes at a time. Where it runs out, the
/// cursor stays.
#[unsafe(no_mangle)]
pub extern "C" fn jihluka_items_next(
    alloc: Global,
    json: &[u8],
    items: &mut Items,
    item: &mut Item,
    error: &mut Fault,
) -> u32
    ensures call { IsNextCall json.now (record { items = items.old; item = item.old; error = error.old })
        (record { items = items.new; item = item.new; error = error.new }) result }
    ensures ended { HasEnded items.old → (result ≡ status_end) × (items.new ≡ items.old)
        × (item.new ≡ item.old) × (error.new ≡ error.old) }
{
    let Some((kind, first)) = going(json, *items) else {
        return END;
    };
    let mut cursor = cursor_at(alloc, json, items.place);
    match pass_item(&mut cursor, kind, first) {
        Ok(Some(found)) => {
            let place = found.value.end;
            let state = state_of(kind, false);
            *items = Items { place, state };
            *item = found;
            OK
        }
        Ok(None) => close(json, cursor.place(), items, error),
        Err(sonic_parser::Fault::OutOfMemory) => NO_MEMORY,
        Err(sonic_parser::Fault::At(stop)) => {
            *items = items.ended();
            tell_stop(error, json, stop)
        }
    }
}

// Ends a cursor after the container that ended at a place.
fn close(text: &[u8], end: usize, items: &mut Items, error: &mut Fault) -> u32
    requires { end ≤ length text.now }
    ensures tells { TellsClosing text.now end error.old error.new result }
    ensures ended { items.new ≡ record items.old { state = 0 } }
{
    *items = items.ended();
    match pass_rest(text, end) {
        Ok(()) => END,
        Err(stop) => tell_stop(error, text, stop),
    }
}

// The state of a cursor in a container of this kind, before the first item or after one.
fn state_of(kind: Kind, first: bool) -> u32
    ensures { result ≡ state_number kind first }
{
    match (kind, first) {
        (Kind::Array, true) => 1,
        (Kind::Array, false) => 2,
        (Kind::Object, true) => 3,
        (Kind::Object, false) => 4,
    }
}

// In what a cursor goes on, by its state alone.
fn going_by(state: u32) -> Option<Going>
    ensures some { IfSome result (λ found. state ≡ state_number found.0 found.1) }
    ensures none { result ≡ None → (kind : Kind) (first : Bool) → state ≢ state_number kind first }
{
    match state {
        1 => Some((Kind::Array, true)),
        2 => Some((Kind::Array, false)),
        3 => Some((Kind::Object, true)),
        4 => Some((Kind::Object, false)),
        _ => None,
    }
}

// In what a cursor goes on, if it goes on, which no call told may be at any place.
fn going(text: &[u8], items: Items) -> Option<Going>
    ensures state { IfSome result (λ found. items.state ≡ state_number found.0 found.1) }
    ensures within { IfSome result (λ found. items.place ≤ length text.now) }
    ensures bracket { IfSome result (λ found. IsTrue found.1
        → byte text.now (after_space text.now items.place) ≡ opening found.0) }
    ensures none { result ≡ None → (kind : Kind) (n : ℕ) → ¬ HasTold text.now kind n items }
{
    let Some((kind, first)) = going_by(items.state) else {
        return None;
    };
    if items.place > text.len() {
        return None;
    }
    let place = skip_space(text, items.place);
    if first && byte_at(text, place) != kind.opening() {
        return None;
    }
    Some((kind, first))
}
