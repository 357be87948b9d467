// The integer that a number is.
ghost use Rattle.std.specs.Prelude.{◌≡◌, length, IfOk, IfErr};
ghost use Rattle.std.specs.Str.{IsUtf8};
ghost use Rattle.sonic_text.specs.Numbers.{IsNumber};
ghost use Rattle.sonic_c.specs.declared.begun.Expected.{Expected};
ghost use Rattle.sonic_c.specs.Internal.Begun.{RefusesText, IsStopIn};
ghost use Rattle.sonic_c.specs.Values.{IsNumberAlone, IsU64Call, IsI64Call};

use crate::begun::{Expected, Refusal, expect, pass_rest, refuse};
use crate::fault::Fault;
use crate::status::{NO_INTEGER, OK};
use sonic_text::{number_end, whole_i64, whole_u64};

/// The integer without a sign that the text is, with nothing but white space round it.
///
/// A number that has a fraction, an exponent or a minus sign is `NO_INTEGER`, whatever its value is, as
/// one is that 64 bits don't hold. A value of another type is `WRONG_TYPE`. No memory is taken.
#[unsafe(no_mangle)]
pub extern "C" fn jihluka_u64(json: &[u8], value: &mut u64, error: &mut Fault) -> u32
    ensures { IsU64Call json.now (record { value = value.old; error = error.old })
        (record { value = value.new; error = error.new }) result }
{
    let number = match number_alone(json) {
        Ok(number) => number,
        Err(refusal) => return refuse(error, json, refusal),
    };
    match whole_u64(number) {
        Some(whole) => {
            *value = whole;
            OK
        }
        None => NO_INTEGER,
    }
}

/// The integer that the text is, with nothing but white space round it, where 64 bits hold it with a
/// sign: what `jihluka_u64` tells, with a minus sign too.
#[unsafe(no_mangle)]
pub extern "C" fn jihluka_i64(json: &[u8], value: &mut i64, error: &mut Fault) -> u32
    ensures { IsI64Call json.now (record { value = value.old; error = error.old })
        (record { value = value.new; error = error.new }) result }
{
    let number = match number_alone(json) {
        Ok(number) => number,
        Err(refusal) => return refuse(error, json, refusal),
    };
    match whole_i64(number) {
        Some(whole) => {
            *value = whole;
            OK
        }
        None => NO_INTEGER,
    }
}

// The number that a text is, with nothing but white space round it.
fn number_alone(text: &[u8]) -> Result<&str, Refusal>
    ensures ok { IfOk result (λ number. IsNumberAlone text.now number.now) }
    ensures number { IfOk result (λ number. IsNumber number.now 0 (length number.now)) }
    ensures err { IfErr result (RefusesText Expected.Numeral text.now) }
    ensures stop { IfErr result (IsStopIn text.now) }
{
    let start = expect(text, Expected::Numeral)?;
    let end = number_end(text, start)?;
    pass_rest(text, end)?;
    Ok(number_text(&text[start..end]))
}

// The text of a number.
fn number_text(bytes: &[u8]) -> &str
    requires { IsUtf8 bytes.now }
    ensures { result.now ≡ bytes.now }
{
    // SAFETY: the bytes are UTF-8.
    unsafe { std::str::from_utf8_unchecked(bytes) }
}
