// Whether the bytes of a text are UTF-8.
ghost use Rattle.std.specs.Prelude.{◌≡◌, ◌≤◌, length, take, IfErr, OnOk};
ghost use Rattle.std.specs.Str.{IsUtf8};
ghost use Rattle.sonic_error.specs.declared.code.ErrorCode.TheVariants.{InvalidUTF8};
ghost use Rattle.sonic_error.specs.Texts.{valid_up_to};

use sonic_error::ErrorCode;
use sonic_text::Stop;

/// Looks at the first `reach` bytes of a text, whether they are UTF-8.
///
/// Else the stop is `ErrorCode::InvalidUTF8` at the first byte that isn't. Walks look at no more
/// than an answer needs, and so they do it last. In `b"[1]\xFF"` the first 3 bytes are UTF-8, and of
/// 4 the stop is at 3.
pub fn check(text: &[u8], reach: usize) -> Result<(), Stop>
    requires { reach ≤ length text.now }
    ensures ok { OnOk result (IsUtf8 (take reach text.now)) }
    ensures err { IfErr result (λ s. (IsUtf8 (take reach text.now) → ⊥)
        × (s ≡ record { place = valid_up_to (take reach text.now); code = InvalidUTF8 })
        × (s.place ≤ length text.now)) }
{
    check_from(text, 0, reach)
}

// The same where the first `known` bytes were looked at before.
pub(crate) fn check_from(text: &[u8], known: usize, reach: usize) -> Result<(), Stop>
    requires order { (known ≤ reach) × (reach ≤ length text.now) }
    requires known { IsUtf8 (take known text.now) }
    ensures ok { OnOk result (IsUtf8 (take reach text.now)) }
    ensures err { IfErr result (λ s. (IsUtf8 (take reach text.now) → ⊥)
        × (s ≡ record { place = valid_up_to (take reach text.now); code = InvalidUTF8 })
        × (s.place ≤ length text.now)) }
{
    let text = &text[..reach];
    match simdutf8::compat::from_utf8(&text[known..]) {
        Ok(_) => Ok(()),
        Err(error) => {
            let place = known + error.valid_up_to();
            let code = ErrorCode::InvalidUTF8;
            Err(Stop { place, code })
        }
    }
}
