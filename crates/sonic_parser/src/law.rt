ghost use Rattle.std.specs.Prelude.{◌≡◌, ◌≢◌, ℕ, Bool, List};
ghost use Rattle.sonic_error.specs.declared.code.ErrorCode.TheVariants.{EofWhileParsing};
ghost use Rattle.sonic_error.specs.declared.error.Error.{Error};
ghost use Rattle.sonic_error.specs.Errors.{error_code};
ghost use Rattle.sonic_text.specs.declared.stop.Stop.{Stop};
ghost use Rattle.sonic_text.specs.Faults.{IsFault};
ghost use Rattle.sonic_text.specs.Places.{after_space};
ghost use Rattle.sonic_text.specs.Values.{IsValue};
ghost use Rattle.sonic_parser.specs.Descents.{DescentState, IsMoved, KeepsTo, FailsAs};
ghost use Rattle.sonic_parser.specs.Honest.{IsHonest, IsOfValue, stop_of};

/// The law of honest errors, for both ways of reading, every text and every place: whatever other
/// clauses say, such an error says nothing else than what is wrong with the value there.
///
/// Where the fault isn't the end of the input, no honest error says the end. One that is a syntax
/// error of the value shows the place and the code of the fault, and where there is a value, none
/// is. So of `{"a":trx` the only honest syntax error is the one at the `x`, and none says the end.
pub fn honest_error_shows_the_fault()
    ensures not_end { (m : Bool) (t : List ℕ) (p : ℕ) (s : Stop) (e : Error)
        → IsFault m t (after_space t p) s → IsHonest m t p e → s.code ≢ EofWhileParsing
        → error_code e ≢ EofWhileParsing }
    ensures fault { (m : Bool) (t : List ℕ) (p : ℕ) (s : Stop) (e : Error)
        → IsFault m t (after_space t p) s → IsHonest m t p e → IsOfValue (error_code e)
        → stop_of e ≡ s }
    ensures value { (m : Bool) (t : List ℕ) (p j : ℕ) (e : Error)
        → IsValue m t (after_space t p) j → IsHonest m t p e → ¬ IsOfValue (error_code e) }
{}

/// The law of walks, for every text and every value in it: what the steps of a `Descent` pass and
/// enter is what belongs to the value, and where a step stops, that is the value's one fault.
///
/// A walk begins at the value's first byte with nothing open. Each step leads from a place in the
/// value to the next: after `value` to an item or to the end of a value, after `head` to a value,
/// after `next` to an item or to the end of a value. At an end with nothing open the whole value
/// ends, as `IsValue` says. So whoever walks in this order needs no other proof of an end or a fault.
pub fn a_walk_keeps_to_its_value()
    ensures keeps { (i : ℕ) (before now : DescentState) → IsMoved before now → KeepsTo i before now }
    ensures fails { (i : ℕ) (walk : DescentState) (s : Stop) → FailsAs i walk s }
{}
