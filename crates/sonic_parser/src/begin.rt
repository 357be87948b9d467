ghost use Rattle.std.specs.Prelude.{◌≡◌, ◌≤◌, ◌⊎◌, Bool, false, length, IfOk, IfErr};
ghost use Rattle.sonic_text.specs.Places.{byte, IsDigit};
ghost use Rattle.sonic_text.specs.Values.{opening};
ghost use Rattle.sonic_text.specs.Faults.{IsFault};
ghost use Rattle.sonic_parser.specs.Internal.Skipping.{IsBegun};

use crate::container::{AfterItem, first_item};
use crate::value_span::ValueSpan;
use sonic_error::ErrorCode;
use sonic_text::internal::stop_at;
use sonic_text::{Kind, Stop, byte_at, literal_end, number_end, string_end};

// How far the beginning of a value leads.
#[derive(Clone, Copy)]
pub(crate) enum ValueStart {
    // The value is read.
    Complete(ValueSpan),
    // It is a container of this kind, whose first item is expected here.
    Inside(Kind, usize),
}

// A value that is no string with a backslash.
#[inline]
fn plain(start: usize, end: usize) -> ValueStart
    ensures { result ≡ ValueStart.Complete (record { start = start; end = end; escaped = false }) }
{
    ValueStart::Complete(ValueSpan::plain(start, end))
}

// Begins the string whose quote is at a place.
#[inline]
#[tactic(auto, using(crate::proofs::BeginningLemmas::beginnings))]
fn begin_string(text: &[u8], place: usize, lossy: bool) -> Result<ValueStart, Stop>
    requires { byte text.now place ≡ 34 }
    ensures ok { IfOk result (λ begun. IsBegun lossy text.now place begun) }
    ensures err { IfErr result (λ s. IsFault lossy text.now place s) }
{
    let string = string_end(text, place, lossy)?;
    Ok(ValueStart::Complete(ValueSpan::of_string(place, string)))
}

// Begins the number at a place.
#[inline]
#[tactic(auto, using(crate::proofs::BeginningLemmas::beginnings))]
fn begin_number(text: &[u8], place: usize, lossy: bool) -> Result<ValueStart, Stop>
    requires within { place ≤ length text.now }
    requires begins { (byte text.now place ≡ 45) ⊎ IsDigit (byte text.now place) }
    ensures ok { IfOk result (λ begun. IsBegun lossy text.now place begun) }
    ensures err { IfErr result (λ s. IsFault lossy text.now place s) }
{
    match number_end(text, place) {
        Ok(end) => Ok(plain(place, end)),
        Err(stop) => Err(stop),
    }
}

// Begins the container whose bracket is at a place.
#[inline]
#[tactic(auto, using(crate::proofs::BeginningLemmas::beginnings))]
fn begin_container(text: &[u8], place: usize, kind: Kind) -> ValueStart
    requires within { place ≤ length text.now }
    requires bracket { byte text.now place ≡ opening kind }
    ensures { (m : Bool) → IsBegun m text.now place result }
{
    match first_item(text, place, kind) {
        AfterItem::Item(first) => ValueStart::Inside(kind, first),
        AfterItem::End(end) => plain(place, end),
    }
}

// Begins the value that is expected at a place.
#[inline(always)]
#[tactic(auto, using(crate::proofs::BeginningLemmas::beginnings))]
pub(crate) fn begin(text: &[u8], place: usize, lossy: bool) -> Result<ValueStart, Stop>
    requires { place ≤ length text.now }
    ensures ok { IfOk result (λ begun. IsBegun lossy text.now place begun) }
    ensures err { IfErr result (λ s. IsFault lossy text.now place s) }
{
    match byte_at(text, place) {
        b'"' => begin_string(text, place, lossy),
        b'{' => Ok(begin_container(text, place, Kind::Object)),
        b'[' => Ok(begin_container(text, place, Kind::Array)),
        b'-' | b'0'..=b'9' => begin_number(text, place, lossy),
        b'n' => Ok(plain(place, literal_end(text, place, "null")?)),
        b't' => Ok(plain(place, literal_end(text, place, "true")?)),
        b'f' => Ok(plain(place, literal_end(text, place, "false")?)),
        _ => Err(stop_at(text, place, ErrorCode::InvalidJsonValue)),
    }
}
