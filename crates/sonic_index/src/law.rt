ghost use Rattle.std.specs.Prelude.{◌≡◌, ◌<◌, ◌≤◌, ℕ, List};
ghost use Rattle.sonic_text.specs.Strings.{strict};
ghost use Rattle.sonic_text.specs.Values.{IsValue};
ghost use Rattle.sonic_find.specs.Documents.{IsValidDocument};
ghost use Rattle.sonic_find.specs.Laws.{ExactlyOne};
ghost use Rattle.sonic_index.specs.declared.entry.Entry.{Entry};
ghost use Rattle.sonic_index.specs.Entries.{AreEntries};
ghost use Rattle.sonic_index.specs.Nodes.{Part, AreNested, IsNode, IsPartAt};

/// A law of parts: each lies inside its value, between the brackets, and holds at least a byte.
pub fn parts_lie_inside()
    ensures { (t : List ℕ) (i j n : ℕ) (x : Part) → IsValue strict t i j → IsPartAt t i n x
        → (i < x.item) × (x.item ≤ x.start) × (x.start < x.end) × (x.end < j) }
{}

/// A law of parts: one ends before a later one of the same value is expected, so they are in order
/// and apart.
pub fn parts_are_in_order()
    ensures { (t : List ℕ) (i n m : ℕ) (x y : Part) → IsPartAt t i n x → IsPartAt t i m y → n < m
        → x.end < y.item }
{}

/// A law of parts: after as many others there is one, with one kind of container, one key, and one
/// value.
pub fn part_is_one()
    ensures { (t : List ℕ) (i n : ℕ) (x y : Part) → IsPartAt t i n x → IsPartAt t i n y → x ≡ y }
{}

/// The law of the values of a document: those that begin at one place are one, and of two that
/// begin at different places the later one is in a direct part of the other, or after it.
pub fn nodes_nest()
    ensures one { (t : List ℕ) (i j k : ℕ) → IsNode t i j → IsNode t i k → j ≡ k }
    ensures nest { (t : List ℕ) (i j p q : ℕ) → IsNode t i j → IsNode t p q → i < p → AreNested t i j p q }
{}

/// A law of indexes: a text has at most one list of entries.
pub fn entries_are_one()
    ensures { (t : List ℕ) (es fs : List Entry) → AreEntries t es → AreEntries t fs → es ≡ fs }
{}

/// The law of indexes: a valid document has exactly one list of entries, whose order, numbers and
/// labels leave no choice.
pub fn document_has_one_index()
    ensures { (t : List ℕ) → IsValidDocument t → ExactlyOne (AreEntries t) }
{}
