ghost use Rattle.std.specs.Prelude.{◌≡◌, ◌≤◌, length, None, IfOk, IfErr, IfSome};
ghost use Rattle.sonic_text.specs.declared.stop.Stop.{Stop};
ghost use Rattle.sonic_text.specs.Literals.{IsLiteral, IsLiteralFault};

use crate::stop::Stop;
use sonic_error::ErrorCode;

/// The place after the word at `start`, or the first place where a letter of it
/// is missing or differs.
///
/// After the word anything may follow: `literal_end(b"nullx", 0, "null")` is `Ok(4)`.
/// `literal_end(b"nul", 0, "null")` stops at 3 with `EofWhileParsing`, and
/// `literal_end(b"nx", 0, "null")` at 1 with `InvalidLiteral`.
pub fn literal_end(text: &[u8], start: usize, literal: &str) -> Result<usize, Stop>
    requires { start ≤ length text.now }
    ensures ok { IfOk result (λ j. IsLiteral literal.now text.now start j) }
    ensures err { IfErr result (λ s. IsLiteralFault literal.now text.now start s) }
{
    let mut place = start;
    for letter in literal.as_bytes() {
        if place == text.len() {
            let code = ErrorCode::EofWhileParsing;
            return Err(Stop { place, code });
        }
        if text[place] != *letter {
            let code = ErrorCode::InvalidLiteral;
            return Err(Stop { place, code });
        }
        place += 1;
    }
    Ok(place)
}

/// The place after the word at `start`, or `None` where it isn't there: what [`literal_end`]
/// answers, without the reason.
///
/// `skip_literal(b"nullx", 0, "null")` is `Some(4)`, and `skip_literal(b"nul", 0, "null")` is `None`.
#[inline(always)]
pub fn skip_literal(text: &[u8], start: usize, literal: &str) -> Option<usize>
    requires { start ≤ length text.now }
    ensures some { IfSome result (λ j. IsLiteral literal.now text.now start j) }
    ensures none { result ≡ None → (s : Stop) × IsLiteralFault literal.now text.now start s }
{
    match literal_end(text, start, literal) {
        Ok(end) => Some(end),
        Err(_) => None,
    }
}
