// How many items a container has.
ghost use Rattle.std.specs.Prelude.{◌≡◌, ◌≤◌, true, length, IfOk, IfErr, OnOk, IsTrue};
ghost use Rattle.std.specs.Str.{IsUtf8};
ghost use Rattle.sonic_find.specs.Documents.{IsInvalid};
ghost use Rattle.sonic_text.specs.Documents.{IsRootFault};
ghost use Rattle.sonic_text.specs.Places.{byte, after_space};
ghost use Rattle.sonic_text.specs.Values.{opening};
ghost use Rattle.sonic_parser.specs.Faults.{IsStopFor};
ghost use Rattle.sonic_c.specs.Containers.{HasItemCount, IsContainerAlone, IsCountCall};
ghost use Rattle.sonic_c.specs.Internal.Begun.{HasBegun};
ghost use Rattle.sonic_c.specs.Internal.Items.{TellsCount};
ghost use Rattle.sonic_c.specs.declared.begun.Expected.{Expected};

use crate::begun::{Expected, expect, kind_begun, pass_rest, refuse};
use crate::fault;
use crate::fault::tell_stop;
use crate::status::{NO_MEMORY, OK};
use crate::walk::{cursor_at, pass_item};
use sonic_find::internal::{Cursor, check};
use sonic_parser::Fault;
use sonic_text::Kind;
use std::alloc::Global;

/// How many elements or members the array or the object has that the text is, with nothing but white
/// space round it.
///
/// All of it is looked at, once. A value of another type is `WRONG_TYPE`. Memory is taken only where more
/// than 64 containers are open at once inside an item, or one has a fault: a byte for each, by 64 to 65,536
/// bytes at a time.
#[unsafe(no_mangle)]
pub extern "C" fn jihluka_count(
    alloc: Global,
    json: &[u8],
    count: &mut usize,
    error: &mut fault::Fault,
) -> u32
    ensures { IsCountCall json.now (record { value = count.old; error = error.old })
        (record { value = count.new; error = error.new }) result }
{
    let start = match expect(json, Expected::Container) {
        Ok(start) => start,
        Err(refusal) => return refuse(error, json, refusal),
    };
    let found = count_alone(alloc, json, start);
    tell_count(json, found, count, error)
}

// Tells how many items there are, or the error.
fn tell_count(
    text: &[u8],
    found: Result<usize, Fault>,
    count: &mut usize,
    error: &mut fault::Fault,
) -> u32
    requires { IfErr found (IsStopFor (λ s. s.place ≤ length text.now)) }
    ensures { TellsCount text.now found (record { value = count.old; error = error.old })
        (record { value = count.new; error = error.new }) result }
{
    match found {
        Ok(number) => {
            *count = number;
            OK
        }
        Err(Fault::OutOfMemory) => NO_MEMORY,
        Err(Fault::At(stop)) => tell_stop(error, text, stop),
    }
}

// How many items the container has that begins a text, and is all of it but white space.
fn count_alone(alloc: Global, text: &[u8], start: usize) -> Result<usize, Fault>
    requires start { start ≡ after_space text.now 0 }
    requires begun { HasBegun Expected.Container text.now }
    ensures ok { IfOk result (IsContainerAlone text.now) }
    ensures utf8 { OnOk result (IsUtf8 text.now) }
    ensures err { IfErr result (IsStopFor (IsInvalid text.now true)) }
    ensures stop { IfErr result (IsStopFor (λ s. s.place ≤ length text.now)) }
{
    let kind = kind_begun(text, start);
    let mut cursor = cursor_at(alloc, text, 0);
    let count = count_items(&mut cursor, kind)?;
    pass_rest(text, cursor.place())?;
    check(text, text.len())?;
    Ok(count)
}

// How many items the container of this kind at the cursor has, which begins the text.
fn count_items(cursor: &mut Cursor<'_>, kind: Kind) -> Result<usize, Fault>
    requires checks { IsTrue cursor.old.checks }
    requires start { cursor.old.place ≡ after_space cursor.old.text 0 }
    requires bracket { byte cursor.old.text cursor.old.place ≡ opening kind }
    ensures ok { IfOk result (λ count. HasItemCount cursor.old.text count cursor.new.place) }
    ensures moved { cursor.new ≡ record cursor.old { place = cursor.new.place } }
    ensures err { IfErr result (IsStopFor (IsRootFault cursor.old.text)) }
{
    let mut count = 0;
    let mut first = true;
    'items: loop {
        let found = pass_item(cursor, kind, first)?;
        let Some(_) = found else {
            return Ok(count);
        };
        count += 1;
        first = false;
    }
}
