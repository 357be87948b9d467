ghost use Rattle.std.specs.Prelude.{◌≡◌, ◌↔◌, ◌<◌, ℕ, true, List, length};
ghost use Rattle.sonic_blocks.specs.Outside.{is_inside_at};
ghost use Rattle.sonic_text.specs.Places.{byte, is_space};
ghost use Rattle.sonic_text.specs.Strings.{strict};
ghost use Rattle.sonic_text.specs.Trees.{Tree, Means};
ghost use Rattle.sonic_text.specs.Values.{IsValue};
ghost use Rattle.sonic_find.specs.Documents.{IsValidDocument};
ghost use Rattle.sonic_find.specs.Laws.{ExactlyOne};
ghost use Rattle.sonic_min.specs.Spellings.{Spelling, IsSpelled};
ghost use Rattle.sonic_min.specs.Texts.{Gaps, AreSpace, IsDocumentSpelled, DocumentMeans, small, spread, wide};

/// The law of spellings, for every text: each value is spelled, only values are, and what is spelled at a
/// place has one end and one spelling there.
pub fn value_has_one_spelling()
    ensures spelled { (t : List ℕ) (i j : ℕ) → IsValue strict t i j ↔ ((x : Spelling) × IsSpelled t i j x) }
    ensures one { (t : List ℕ) (i j k : ℕ) (x y : Spelling) → IsSpelled t i j x → IsSpelled t i k y
        → (j ≡ k) × (x ≡ y) }
{}

/// A law of spellings: values that are spelled alike mean the same tree.
pub fn spelling_means_one_tree()
    ensures { (t u : List ℕ) (i j p q : ℕ) (x : Spelling) (v : Tree) → IsSpelled t i j x → IsSpelled u p q x
        → Means t i j v → Means u p q v }
{}

/// A law of the texts of a spelling: with white space for the gaps, each is spelled so.
pub fn spread_text_is_spelled()
    ensures { (t : List ℕ) (i j : ℕ) (x : Spelling) (g : Gaps) → AreSpace g → IsSpelled t i j x
        → IsSpelled (spread g 0 x) 0 (length (spread g 0 x)) x }
{}

/// A law of the texts of a document's spelling: each is a document that is spelled so.
///
/// So it means the same tree.
pub fn spread_text_is_a_document()
    ensures { (t : List ℕ) (x : Spelling) (g : Gaps) → AreSpace g → IsDocumentSpelled t x
        → IsDocumentSpelled (spread g 0 x) x }
{}

/// The law of documents: a valid one has exactly one spelling.
pub fn document_has_one_spelling()
    ensures { (t : List ℕ) → IsValidDocument t → ExactlyOne (IsDocumentSpelled t) }
{}

/// A law of the small and the wide text of a valid document: each is a valid document, and means the
/// same tree.
pub fn document_means_the_same()
    ensures small { (t : List ℕ) (x : Spelling) (v : Tree) → IsValidDocument t → IsDocumentSpelled t x
        → DocumentMeans t v → IsValidDocument (small x) × DocumentMeans (small x) v }
    ensures wide { (t : List ℕ) (width : ℕ) (x : Spelling) (v : Tree) → IsValidDocument t
        → IsDocumentSpelled t x → DocumentMeans t v
        → IsValidDocument (wide width x) × DocumentMeans (wide width x) v }
{}

/// A law of the small text of a document: what white space it has is inside strings, after an odd number
/// of quotes that no backslash escapes.
pub fn small_has_no_space()
    ensures { (t : List ℕ) (x : Spelling) (k : ℕ) → IsDocumentSpelled t x → k < length (small x)
        → is_space (byte (small x) k) ≡ true → is_inside_at (small x) 0 k ≡ true }
{}

/// A law of the small and the wide text of a document: each has that spelling alone, so that the small text of
/// either is the small one.
pub fn small_is_small_again()
    ensures small { (t : List ℕ) (x y : Spelling) → IsDocumentSpelled t x → IsDocumentSpelled (small x) y
        → small y ≡ small x }
    ensures wide { (t : List ℕ) (width : ℕ) (x y : Spelling) → IsDocumentSpelled t x
        → IsDocumentSpelled (wide width x) y → small y ≡ small x }
{}
