// What begins a text, and why it is refused.
ghost use Rattle.std.specs.Prelude.{◌≡◌, ◌≤◌, length, None, IfSome, IfOk, IfErr, OnOk, IsTrue, IsFalse};
ghost use Rattle.sonic_text.specs.Faults.{BeginsNone};
ghost use Rattle.sonic_text.specs.Places.{byte, after_space};
ghost use Rattle.sonic_text.specs.Values.{opening, type_of};
ghost use Rattle.sonic_c.specs.declared.begun.Expected.TheVariants.{Container};
ghost use Rattle.sonic_c.specs.Begun.{BeginsWith, first_byte, Begins, no_begin, IsExpected};
ghost use Rattle.sonic_c.specs.Internal.Begun.{HasBegun, Misses, TellsRefusal, IsStopIn, IsTrailing};

use crate::fault::{Fault, tell_stop};
use crate::status::WRONG_TYPE;
use sonic_error::{ErrorCode, JsonType};
use sonic_text::internal::stop_at;
use sonic_text::{Kind, Stop, byte_at, skip_space, type_of};

// The types of which one is expected.
#[derive(Clone, Copy)]
pub(crate) enum Expected {
    // A number.
    Numeral,
    // A string.
    Text,
    // An array or an object.
    Container,
}

impl Expected {
    // Whether the type is one of these.
    fn has(self, kind: JsonType) -> bool
        ensures yes { IsTrue result → IsExpected self kind }
        ensures no { IsFalse result → ¬ IsExpected self kind }
    {
        match (self, kind) {
            (Expected::Numeral, JsonType::Number) => true,
            (Expected::Text, JsonType::String) => true,
            (Expected::Container, JsonType::Array | JsonType::Object) => true,
            _ => false,
        }
    }
}

// Why a text is refused.
#[derive(Clone, Copy)]
pub(crate) enum Refusal {
    // A value of another type begins it.
    WrongType,
    // It has an error.
    At(Stop),
}

impl From<Stop> for Refusal {
    ghost use Rattle.std.specs.Prelude.{◌≡◌};
    ghost use Rattle.sonic_c.specs.declared.begun.Refusal.TheVariants.{At};

    ghost from_gives = { λ stop refusal. refusal ≡ At stop };

    fn from(stop: Stop) -> Refusal {
        Refusal::At(stop)
    }
}

// The type of the value that begins with a byte.
fn type_begun(first: u8) -> Option<JsonType>
    ensures some { IfSome result (λ kind. BeginsWith kind first) }
    ensures same { IfSome result (λ kind. kind ≡ type_of first) }
    ensures none { result ≡ None → BeginsNone first }
{
    match first {
        b'n' | b't' | b'f' | b'"' | b'[' | b'{' | b'-' | b'0'..=b'9' => Some(type_of(first)),
        _ => None,
    }
}

// The type of the value that begins a text, and the place where it begins.
pub(crate) fn begun(text: &[u8]) -> Result<(usize, JsonType), Stop>
    ensures place { IfOk result (λ found. found.0 ≡ after_space text.now 0) }
    ensures kind { IfOk result (λ found. Begins text.now found.1) }
    ensures same { IfOk result (λ found. found.1 ≡ type_of (first_byte text.now)) }
    ensures within { IfOk result (λ found. found.0 ≤ length text.now) }
    ensures none { IfErr result (λ s. BeginsNone (first_byte text.now) × (s ≡ no_begin text.now)) }
    ensures stop { IfErr result (λ s. s.place ≤ length text.now) }
{
    let place = skip_space(text, 0);
    match type_begun(byte_at(text, place)) {
        Some(kind) => Ok((place, kind)),
        None => Err(stop_at(text, place, ErrorCode::InvalidJsonValue)),
    }
}

// The place where a value of an expected type begins a text.
pub(crate) fn expect(text: &[u8], expected: Expected) -> Result<usize, Refusal>
    ensures place { IfOk result (λ start. start ≡ after_space text.now 0) }
    ensures within { IfOk result (λ start. start ≤ length text.now) }
    ensures begun { OnOk result (HasBegun expected text.now) }
    ensures err { IfErr result (Misses expected text.now) }
    ensures stop { IfErr result (IsStopIn text.now) }
{
    let (start, kind) = begun(text)?;
    if !expected.has(kind) {
        return Err(Refusal::WrongType);
    }
    Ok(start)
}

// Tells why a text is refused, and gives the status.
pub(crate) fn refuse(told: &mut Fault, text: &[u8], refusal: Refusal) -> u32
    requires { IsStopIn text.now refusal }
    ensures { TellsRefusal text.now refusal told.old told.new result }
{
    match refusal {
        Refusal::WrongType => WRONG_TYPE,
        Refusal::At(stop) => tell_stop(told, text, stop),
    }
}

// Passes what follows the value that begins a text and ends at a place: nothing but white space.
pub(crate) fn pass_rest(text: &[u8], end: usize) -> Result<(), Stop>
    requires { end ≤ length text.now }
    ensures ok { OnOk result (after_space text.now end ≡ length text.now) }
    ensures err { IfErr result (IsTrailing text.now end) }
    ensures stop { IfErr result (λ s. s.place ≤ length text.now) }
{
    let place = skip_space(text, end);
    if place < text.len() {
        let code = ErrorCode::TrailingCharacters;
        return Err(Stop { place, code });
    }
    Ok(())
}

// The kind of the container that begins a text.
pub(crate) fn kind_begun(text: &[u8], start: usize) -> Kind
    requires start { start ≡ after_space text.now 0 }
    requires begun { HasBegun Container text.now }
    ensures { byte text.now start ≡ opening result }
{
    if byte_at(text, start) == b'{' {
        Kind::Object
    } else {
        Kind::Array
    }
}
