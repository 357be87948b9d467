// The entries of a line, where they are short: they are put together from the end to the start.
ghost use Rattle.std.specs.Prelude.{◌≡◌, ◌+◌, ◌<◌, ◌≤◌, ◌++◌, codes, drop, length, IfSome};
ghost use Rattle.sonic_error.specs.Names.{name_of_code};
ghost use Rattle.sonic_lines.specs.Internal.Rows.{AreWithin, IsWithin, tab_before};
ghost use Rattle.sonic_lines.specs.LineRows.{outcomes_text};
ghost use Rattle.sonic_lines.specs.LineTexts.{outcome_text};

use crate::from_end::{put, put_counted};
use sonic_error::ErrorCode;
use sonic_find::{PathOutcome, Span, WalkBuffers};

// How many bytes there is room for.
pub(crate) const SHORT: usize = 128;

// What an entry takes beside its text, at most: a tab, a blank, and 20 digits.
const BESIDE: usize = 22;

// Puts the entries of a line with a tab between two of them, and a line feed, so that they end with
// the room: where they start, or `None` where they may need more room.
pub(crate) fn put_entries(
    short: &mut [u8; SHORT],
    line: &[u8],
    buffers: &WalkBuffers,
) -> Option<usize>
    requires { AreWithin line.now buffers.now }
    ensures within { IfSome result (λ start. start ≤ 128) }
    ensures text { IfSome result (λ start. drop start short.new
        ≡ outcomes_text line.now buffers.now ++ codes "\n") }
{
    let mut at = put(short, SHORT, b"\n");
    let mut number = buffers.len();
    while 0 < number {
        at = put_tab(short, at, buffers.len() - number);
        number -= 1;
        match put_entry(short, at, line, buffers.at(number)) {
            Some(start) => at = start,
            None => return None,
        }
    }
    Some(at)
}

// Puts a tab before a place, unless no entry follows.
#[inline(always)]
fn put_tab(room: &mut [u8], end: usize, following: usize) -> usize
    requires room { 0 < end }
    requires inside { end ≤ length room.old }
    ensures start { result ≤ end }
    ensures text { drop result room.new ≡ tab_before following ++ drop end room.old }
{
    if following == 0 {
        return end;
    }
    put(room, end, b"\t")
}

// Puts one entry before a place: where it starts, or `None` where it may not fit with a tab before it.
#[inline(always)]
fn put_entry(room: &mut [u8], end: usize, line: &[u8], outcome: PathOutcome<Span>) -> Option<usize>
    requires inside { end ≤ length room.old }
    requires within { IsWithin line.now outcome }
    ensures start { IfSome result (λ start. (0 < start) × (start ≤ end)) }
    ensures text { IfSome result (λ start. drop start room.new
        ≡ outcome_text line.now outcome ++ drop end room.old) }
{
    match outcome {
        PathOutcome::Found(Span { start, end: stop })
            if BESIDE <= end && stop - start <= end - BESIDE => {
            Some(put_counted(room, end, &line[start..stop]))
        }
        PathOutcome::Missing(_) if 1 < end => Some(put(room, end, b"-")),
        PathOutcome::Fails(stop) => put_fail(room, end, stop.code),
        _ => None,
    }
}

// Puts an exclamation mark and the code before a place, likewise.
#[inline(never)]
fn put_fail(room: &mut [u8], end: usize, code: ErrorCode) -> Option<usize>
    requires { end ≤ length room.old }
    ensures start { IfSome result (λ start. (0 < start) × (start ≤ end)) }
    ensures text { IfSome result (λ start. drop start room.new
        ≡ codes "!" ++ name_of_code code ++ drop end room.old) }
{
    let name = code.name().as_bytes();
    if end < 2 || end - 2 < name.len() {
        return None;
    }
    let at = put(room, end, name);
    Some(put(room, at, b"!"))
}
