ghost use Rattle.std.specs.Prelude.{◌≡◌, ◌+◌, ◌*◌, ◌<◌, ◌≤◌, ◌++◌, ℕ, Bool, List, length, slice_get, unwrap_or};
ghost use Rattle.sonic_text.specs.Places.{byte};
ghost use Rattle.sonic_text.specs.Quoting.{quoted, quote_entry};
ghost use Rattle.sonic_text.specs.Strings.{strict, escaped, IsString, IsStringFault};
ghost use Rattle.sonic_text.specs.Laws.{HasOneOutcome};

use crate::quote::QUOTE_TAB;
use crate::unescape::ESCAPED_TAB;

/// The law of strings (RFC 8259, section 7), for both ways of reading, every text and every quote
/// in it: a string ends at exactly one place, or there is none for exactly one reason, and never
/// both. So `"a"x` has the one end 3, and `"\x"` the one fault, at 2.
pub fn string_has_one_outcome()
    ensures { (m : Bool) (t : List ℕ) (i : ℕ) → byte t i ≡ 34
        → HasOneOutcome (λ j. (b : List ℕ) × IsString m t i j b) (IsStringFault m t i) }
{}

/// A string (RFC 8259, section 7) denotes one list of bytes: `"\u0041"` for `A` and for nothing
/// else.
pub fn string_denotes_one_text()
    ensures { (m : Bool) (t : List ℕ) (i j k : ℕ) (b c : List ℕ)
        → IsString m t i j b → IsString m t i k c → (j ≡ k) × (b ≡ c) }
{}

/// The law of quoting, for all bytes and wherever they are written: what [`format_string`] writes
/// of them is a string of a strict reader (RFC 8259, section 7) that denotes these bytes, of at most
/// six times their length and two.
///
/// So what is quoted and read again is what it was.
///
/// [`format_string`]: crate::format_string
pub fn quoted_text_is_a_string()
    ensures string { (front b back : List ℕ)
        → IsString strict (front ++ quoted b ++ back) (length front) (length front + length (quoted b)) b }
    ensures short { (b : List ℕ) → length (quoted b) ≤ 6 * length b + 2 }
{}

/// The law of the two tables, at each byte: [`ESCAPED_TAB`] has what it denotes after a backslash
/// (RFC 8259, section 7), or 0 where that is nothing, and [`QUOTE_TAB`] the escape that
/// [`format_string`] writes of it, or none.
///
/// So at `n` the first has a line feed, and at a line feed the second has 2 and `\n`.
///
/// [`format_string`]: crate::format_string
pub fn tables_have_the_escapes()
    ensures escaped { (b : ℕ) → b < 256 → slice_get ESCAPED_TAB b ≡ Some (unwrap_or (escaped b) 0) }
    ensures quoted { (b : ℕ) → b < 256 → slice_get QUOTE_TAB b ≡ Some (quote_entry b) }
{}
