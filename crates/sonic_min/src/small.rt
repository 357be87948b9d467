// The text of a document without white space outside strings.
ghost use Rattle.std.specs.Prelude.{◌≡◌, ◌<◌, length, string_bytes, IfOk, IfErr, OnOk};
ghost use Rattle.sonic_error.specs.Errors.{IsPlainError};
ghost use Rattle.sonic_text.specs.Strings.{strict};
ghost use Rattle.sonic_parser.specs.Honest.{IsHonest};
ghost use Rattle.sonic_find.specs.Documents.{IsInvalidError, IsValidDocument};
ghost use Rattle.sonic_min.specs.Internal.Kept.{kept};
ghost use Rattle.sonic_min.specs.Texts.{IsSmallText};

use crate::keep::keep;
use sonic_blocks::{Steps, Tape, get_string_bits};
use sonic_error::{ErrorCode, Result};
use sonic_find::validate;
use sonic_input::JsonInput;
use std::alloc::{AllocError, Global};
use std::marker::Brand;
use std::sync::ledger::{Blank, Ledger};

// The bytes of a text that are no white space, and all in strings.
fn kept_over<L: Ledger>(
    alloc: Global,
    text: &[u8],
    blank: Blank,
) -> std::result::Result<Vec<u8>, AllocError>
    requires name { blank.name ≡ L.name }
    requires parts { blank.parts ≡ L.parts }
    requires some { 0 < L.parts }
    ensures { IfOk result (λ bytes. bytes.items ≡ kept text.now (length text.now)) }
{
    let tape = Tape::new(text);
    let mut steps = Steps::<L>::new(blank);
    let mut bytes = vec![in alloc; 0u8; text.len()]?;
    let room = bytes.as_mut_slice();
    let (mut in_string, mut in_escape) = (0, 0);
    let (mut place, mut at) = (0, 0);
    while place < text.len() {
        let masks = tape.masks_at(place, &mut steps);
        let inside = get_string_bits(masks.backslash, masks.quote, &mut in_string, &mut in_escape);
        let rest = &text[place..];
        let count = rest.len().min(64);
        at = keep(room, at, rest, count, masks.nonspace | inside);
        place += count;
    }
    bytes.truncate(at);
    Ok(bytes)
}

/// The text of a document without white space outside strings (RFC 8259, section 2).
///
/// Scalars and keys keep their bytes, escapes with them, members their order and their repeats. It
/// refuses as `validate` does: the error is the reason why the text is no valid document, or that
/// memory ran out. Of `[ 1 , "a b" ]` it is `[1,"a b"]`.
///
/// It takes room once, of the length of the text in bytes.
pub fn minify<'de, I: JsonInput<'de>>(alloc: Global, json: I) -> Result<String>
    ensures ok { IfOk result (λ made. IsSmallText (I.JsonInput.content json) (string_bytes made)) }
    ensures valid { OnOk result (IsValidDocument (I.JsonInput.content json)) }
    ensures err { IfErr result (λ error.
        IsInvalidError (I.JsonInput.content json) I.JsonInput.is_bytes error) }
    ensures complete { IsValidDocument (I.JsonInput.content json)
        → IfErr result (λ error. IsPlainError error ErrorCode.NoMemory) }
    ensures honest { IfErr result (IsHonest strict (I.JsonInput.content json) 0) }
{
    validate(alloc, json)?;
    let bytes = kept_over::<Brand>(alloc, json.to_u8_slice(), Blank::new(1))?;
    // SAFETY: the small text of a valid document is UTF-8.
    Ok(unsafe { String::from_utf8_unchecked(bytes) })
}
