// The text of a string.
ghost use Rattle.std.specs.Prelude.{IfOk, IfErr, OnOk};
ghost use Rattle.std.specs.Str.{IsUtf8};
ghost use Rattle.sonic_find.specs.Documents.{IsAlone};
ghost use Rattle.sonic_parser.specs.ValueSpans.{IsStringSpan, DenotesUtf8};
ghost use Rattle.sonic_c.specs.declared.begun.Expected.{Expected};
ghost use Rattle.sonic_c.specs.Internal.Begun.{RefusesText, IsStopIn};
ghost use Rattle.sonic_c.specs.Values.{IsStringCall};

use crate::begun::{Expected, Refusal, expect, pass_rest, refuse};
use crate::fault::Fault;
use crate::room::write_text;
use crate::status::NO_MEMORY;
use sonic_find::internal::check;
use sonic_parser::ValueSpan;
use sonic_text::{StringEnd, string_end};
use std::alloc::Global;

/// The text of the string that a text is, with nothing but white space round it: writes as much of it as
/// the room takes to the start of the room, and tells the length of the whole, in bytes.
///
/// It is in UTF-8, with escapes undone (RFC 8259, section 7). A value of another type is `WRONG_TYPE`.
#[unsafe(no_mangle)]
pub extern "C" fn jihluka_string_text(
    alloc: Global,
    json: &[u8],
    room: &mut [u8],
    wanted: &mut usize,
    error: &mut Fault,
) -> u32
    ensures { IsStringCall json.now (record { room = room.old; wanted = wanted.old; error = error.old })
        (record { room = room.new; wanted = wanted.new; error = error.new }) result }
{
    let string = match string_alone(json) {
        Ok(string) => string,
        Err(refusal) => return refuse(error, json, refusal),
    };
    match string.text(alloc, json) {
        Ok(text) => write_text(text.as_str(), room, wanted),
        Err(_) => NO_MEMORY,
    }
}

// The string that a text is, with nothing but white space round it.
fn string_alone(text: &[u8]) -> Result<ValueSpan, Refusal>
    ensures alone { IfOk result (λ string. IsAlone text.now string.start string.end) }
    ensures string { IfOk result (IsStringSpan text.now) }
    ensures utf8 { OnOk result (IsUtf8 text.now) }
    ensures denotes { IfOk result (λ string. DenotesUtf8 text.now string.start string.end) }
    ensures err { IfErr result (RefusesText Expected.Text text.now) }
    ensures stop { IfErr result (IsStopIn text.now) }
{
    let start = expect(text, Expected::Text)?;
    let StringEnd { end, escaped } = string_end(text, start, false)?;
    pass_rest(text, end)?;
    check(text, text.len())?;
    Ok(ValueSpan {
        start,
        end,
        escaped,
    })
}
