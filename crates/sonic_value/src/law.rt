// Laws of values.
ghost use Rattle.std.specs.Prelude.{◌≡◌, ℕ, Bool, List, length, IsFalse};
ghost use Rattle.std.specs.Str.{IsUtf8};
ghost use Rattle.sonic_find.specs.Documents.{IsValidDocument};
ghost use Rattle.sonic_text.specs.Trees.{Tree, Means};
ghost use Rattle.sonic_value.specs.CompactTexts.{HasNumbers, compact};
ghost use Rattle.sonic_value.specs.Filling.{fill};
ghost use Rattle.sonic_value.specs.Laws.{HasOneTreeOrReason};
ghost use Rattle.sonic_value.specs.Reading.{IsRead, IsUnread};
ghost use Rattle.sonic_value.specs.Schemas.{IsFilledAt, IsUnfilled};
ghost use Rattle.sonic_value.specs.Views.{tree, array_in, object_in, IsContainerOf};
ghost use Rattle.sonic_value.specs.declared.value.Value.{Value};

use sonic_owned::text_is_a_document;

/// The law of texts: where each number of a value has the text of one number, what
/// [`Value::to_string`] writes is a valid document (RFC 8259, section 2), and means the value's tree.
///
/// [`Value::to_string`]: crate::Value::to_string
pub fn compact_text_is_a_document()
    ensures means { (value : Value) → HasNumbers (tree value)
        → Means (compact (tree value)) 0 (length (compact (tree value))) (tree value) }
    ensures valid { (value : Value) → HasNumbers (tree value)
        → IsValidDocument (compact (tree value)) }
{
    // The law of the form that is opened all the way.
    text_is_a_document();
}

/// The law of numbers: each number of a tree that a text means has the text of one number (RFC 8259,
/// section 6).
///
/// So what is read is written as a document.
pub fn what_is_read_has_numbers()
    ensures { (t : List ℕ) (i j : ℕ) (x : Tree) → Means t i j x → HasNumbers x }
{}

/// The law of filled numbers: where each number of a schema has the text of one number, and each of the
/// data too, so has each of the filled schema.
///
/// So what is filled is written as a document.
pub fn what_is_filled_has_numbers()
    ensures { (schema values : Tree) → HasNumbers schema → HasNumbers values
        → HasNumbers (fill schema values) }
{}

/// The law of levels: the array or the object that `as_array` or `as_object` gives has the items of
/// the value's tree, and there is none exactly where the tree is no container.
pub fn level_is_that_of_the_tree()
    ensures { (value : Value) → IsContainerOf (tree value) (array_in value) (object_in value) }
{}

/// The law of readings: a text is read as one tree, or it isn't for exactly one reason, and never
/// both.
pub fn text_is_read_or_has_one_reason()
    ensures { (t : List ℕ) (is_bytes : Bool) → (IsFalse is_bytes → IsUtf8 t)
        → HasOneTreeOrReason (IsRead t) (IsUnread t is_bytes) }
{}

/// The law of schemas: a schema is filled from the value that is expected at a place to one tree, or
/// it isn't for exactly one reason, and never both.
pub fn schema_is_filled_or_has_one_reason()
    ensures { (t : List ℕ) (is_bytes : Bool) (schema : Tree) (i : ℕ) → (IsFalse is_bytes → IsUtf8 t)
        → HasOneTreeOrReason (λ made. IsFilledAt t schema made i) (IsUnfilled t is_bytes schema i) }
{}
