ghost use Rattle.std.specs.Prelude.{◌≡◌, ℕ, Bool, List};
ghost use Rattle.sonic_text.specs.declared.kind.Kind.{Kind};
ghost use Rattle.sonic_text.specs.Brackets.{Closes, IsLevel, KeepsBackslashes, LeavesString};
ghost use Rattle.sonic_text.specs.Places.{byte};
ghost use Rattle.sonic_text.specs.Strings.{IsString};
ghost use Rattle.sonic_text.specs.Values.{opening, IsValue};

/// The law of brackets, for both ways of reading: outside the strings of an array or an object
/// (RFC 8259, sections 4 and 5), more brackets of its kind are opened than closed up to its last
/// byte, and with that as many are. So `[[]{"]":1}]` ends at 11, where the brackets `[` and `]`
/// outside strings first balance.
///
/// A reader that knows a whole value to be there finds its end by counting, without memory.
pub fn value_balances()
    ensures { (m : Bool) (kind : Kind) (t : List ℕ) (i j : ℕ) → IsValue m t i j
        → byte t i ≡ opening kind → Closes kind t i j }
{}

/// The law of levels: in every value the quotes that aren't escaped are even in number, no escape is
/// open at its end, and outside strings the brackets of each kind balance, and never more are closed
/// than opened.
pub fn value_is_level()
    ensures { (m : Bool) (kind : Kind) (t : List ℕ) (i j : ℕ) → IsValue m t i j → IsLevel kind t i j }
{}

/// The law of backslashes: in every value they are inside strings (RFC 8259, section 7).
///
/// So a reader that passes strings whole never comes to an escape outside of them.
pub fn value_keeps_backslashes()
    ensures { (m : Bool) (t : List ℕ) (i j : ℕ) → IsValue m t i j → KeepsBackslashes t i i j }
{}

/// Brackets balance for the first time at one place: what ends where they do has one end.
pub fn container_ends_once()
    ensures { (kind : Kind) (t : List ℕ) (i j k : ℕ) → Closes kind t i j → Closes kind t i k → j ≡ k }
{}

/// The law of strings (RFC 8259, section 7): every place after a string's first quote is inside it, up to
/// its end, which is not. So a string ends after the first quote that no backslash escapes.
pub fn string_is_inside()
    ensures { (m : Bool) (t : List ℕ) (i j : ℕ) (b : List ℕ) → IsString m t i j b → LeavesString t i i j }
{}
