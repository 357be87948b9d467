ghost use Rattle.std.specs.Prelude.{◌≡◌, ◌⊎◌, ◌↔◌, ℕ, Bool, List, false, true};
ghost use Rattle.std.specs.Str.{IsUtf8};
ghost use Rattle.sonic_text.specs.declared.kind.Kind.{Kind};
ghost use Rattle.sonic_text.specs.Documents.{StartsWithUtf8Value};
ghost use Rattle.sonic_text.specs.Places.{after_space};
ghost use Rattle.sonic_lazy.specs.Items.{Listing, IsListing, closed, stopped, stop_with, code_of_start};
ghost use Rattle.sonic_find.specs.Laws.{ExactlyOne, HoldsOrHasOneReason};
ghost use Rattle.sonic_lazy.specs.RawNumbers.{IsNumberDocument, IsNoNumber};

/// The law of numbers by their text, for every text in UTF-8: it is the document of one number, or
/// of none for exactly one reason, and never both.
///
/// So `"1.10"`, with its quotes or without, is that of `1.10` alone, and `[1]` of none as it is an
/// array.
pub fn document_is_one_number_or_has_one_reason()
    ensures reason { (t : List ℕ) → IsUtf8 t
        → HoldsOrHasOneReason ((n : List ℕ) × IsNumberDocument t n) (IsNoNumber t) }
    ensures one { (t n m : List ℕ) → IsNumberDocument t n → IsNumberDocument t m → n ≡ m }
{}

/// The law of items, for every text, whether it came as bytes or not, and each kind of container:
/// they are one list with one ending, and no other.
///
/// So the members of `{"a":1,"b":x}` are the first one, and then the `x` is no value. The elements of
/// that text are none, as no array begins it.
pub fn container_has_one_listing()
    ensures { (t : List ℕ) (is_bytes : Bool) (kind : Kind) → ExactlyOne (IsListing t is_bytes kind) }
{}

/// The law of the look at UTF-8: over a text in UTF-8 it changes neither the items nor their ending.
///
/// So an unchecked iterator, which takes no look, gives what the checked one gives.
pub fn utf8_has_the_same_items()
    ensures { (t : List ℕ) (kind : Kind) (listing : Listing) → IsUtf8 t
        → (IsListing t true kind listing ↔ IsListing t false kind listing) }
{}

/// The law of items of a text that starts with a value in UTF-8: they end with the closing bracket,
/// unless the value is no container of the kind.
///
/// So over `[1] x` an unchecked iterator has one error only, and that where it asks for an object.
pub fn items_of_a_value_are_closed()
    ensures { (t : List ℕ) (kind : Kind) (listing : Listing) → StartsWithUtf8Value t
        → IsListing t false kind listing → (listing.ending ≡ closed)
        ⊎ (listing.ending ≡ stopped (stop_with (after_space t 0) (code_of_start kind))) }
{}
