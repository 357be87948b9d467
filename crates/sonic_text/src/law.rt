ghost use Rattle.std.specs.Prelude.{◌≡◌, ◌≢◌, ◌↔◌, ℕ, ◌-◌, ◌≤◌, Bool, List, false, length};
ghost use Rattle.sonic_error.specs.declared.code.ErrorCode.TheVariants.{EofWhileParsing};
ghost use Rattle.sonic_text.specs.declared.stop.Stop.{Stop};
ghost use Rattle.sonic_text.specs.Places.{after_space, byte, is_space};
ghost use Rattle.sonic_text.specs.Faults.{IsFault};
ghost use Rattle.sonic_text.specs.Laws.{HasOneOutcome, IsFinal, MayGoOn};
ghost use Rattle.sonic_text.specs.Literals.{IsLiteral, IsLiteralFault};
ghost use Rattle.sonic_text.specs.Numbers.{IsNumber, IsNumberFault};
ghost use Rattle.sonic_text.specs.Strings.{strict};
ghost use Rattle.sonic_text.specs.Trees.{Tree, Means, type_of_tree};
ghost use Rattle.sonic_text.specs.Values.{type_at, IsValue};

/// A law of the numbers, for every text and every place: either a number is there and ends at
/// exactly one place, or none does for exactly one reason, and never both.
///
/// The reason is a place and a code. So what `number_end` answers is the only answer that its
/// clauses allow.
pub fn number_has_one_outcome()
    ensures { (t : List ℕ) (i : ℕ) → HasOneOutcome (IsNumber t i) (IsNumberFault t i) }
{}

/// A law of the literals, for every word, every text and every place in it: either the word is
/// there and ends at exactly one place, or it doesn't for exactly one reason, and never both.
///
/// The reason is a place and a code. So what `literal_end` answers is the only answer that its
/// clauses allow.
pub fn literal_has_one_outcome()
    ensures { (word t : List ℕ) (i : ℕ) → i ≤ length t
        → HasOneOutcome (IsLiteral word t i) (IsLiteralFault word t i) }
{}

/// The law of values (RFC 8259, section 3), for both ways of reading, every text and every place:
/// either a value is there and ends at exactly one place, or there is none for exactly one reason,
/// and never both. So `[1,2]x` has the one end 5, and `{"a":}` the one fault, at 5.
///
/// The reason is a place and a code. So a reader whose clauses speak of these two has only one
/// answer that they allow.
pub fn value_has_one_outcome()
    ensures { (m : Bool) (t : List ℕ) (i : ℕ) → HasOneOutcome (IsValue m t i) (IsFault m t i) }
{}

/// The law of what values mean, for every text: each value means a tree, only values do, and a
/// place has only one. So `[1, {"a":1,"a":2}]` means the list of the numeral `1` and of an object
/// with two members, in their order.
pub fn value_means_one_tree()
    ensures means { (t : List ℕ) (i j : ℕ) → IsValue strict t i j ↔ ((x : Tree) × Means t i j x) }
    ensures one_tree { (t : List ℕ) (i j k : ℕ) (x y : Tree) → Means t i j x → Means t i k y
        → x ≡ y }
{}

/// The law of a value's ends, for both ways of reading and every text: a value begins and ends with a
/// byte that is no white space (RFC 8259, section 2). So from ` 1 ` comes `1`, with neither blank.
pub fn value_has_no_space_at_its_ends()
    ensures { (m : Bool) (t : List ℕ) (i j : ℕ) → IsValue m t i j
        → (is_space (byte t i) ≡ false) × (is_space (byte t (j - 1)) ≡ false) }
{}

/// The law of types, for every text: where a value means a tree, the type that its first byte says is
/// the type of the tree. So `-1` begins with a minus sign and means a number.
///
/// The type that an error names is told by the first byte alone ([`type_of`](crate::type_of)).
pub fn first_byte_says_the_type()
    ensures { (t : List ℕ) (i j : ℕ) (x : Tree) → Means t i j x → type_at t i ≡ type_of_tree x }
{}

/// The law of the honest end, for both ways of reading and every text that no value begins.
///
/// Where the reason is the end of the input, some longer text that begins with this one is a value
/// after white space. Where it is another one, every text with the same bytes up to its place, and
/// with the byte there, has that very reason: no other bytes after it help. So `{"a":tru` may go
/// on, and `{"a":trx` may not.
pub fn end_is_honest()
    ensures goes_on { (m : Bool) (t : List ℕ) (s : Stop) → IsFault m t (after_space t 0) s
        → s.code ≡ EofWhileParsing → MayGoOn m t }
    ensures is_final { (m : Bool) (t : List ℕ) (s : Stop) → IsFault m t (after_space t 0) s
        → s.code ≢ EofWhileParsing → IsFinal m t s }
{}
