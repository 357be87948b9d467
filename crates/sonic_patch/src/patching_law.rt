// Laws of patches.
ghost use Rattle.std.specs.Prelude.{◌≡◌, ◌⊎◌, codes, [], ◌∷◌, Some, None, List, ℕ, length};
ghost use Rattle.sonic_find.specs.Documents.{IsValidDocument};
ghost use Rattle.sonic_owned.specs.Forms.{Form, FormMeans, IsSound, text as form_text};
ghost use Rattle.sonic_patch.specs.Operations.{Operation, add, remove, replace, move, copy, test};
ghost use Rattle.sonic_patch.specs.Patches.{OperationsMake, MeansPatch};
ghost use Rattle.sonic_patch.specs.Patching.{patched, done, refused, Cause, missing, test_failed, into_child};
ghost use Rattle.sonic_patch.specs.Resolution.{index_of, path_in};
ghost use Rattle.sonic_text.specs.Trees.{Tree, Means, numeral, container, null, text};
ghost use Rattle.sonic_text.specs.Trees.Items.{no_item, item};
ghost use Rattle.sonic_text.specs.declared.kind.Kind.TheVariants.{Array, Object};

/// The law of patches: what operations in order make of a value means what they make of its tree, and
/// is determined, and they are made, or one of them is the first that isn't, for one cause. What is
/// sound stays so, and its text is a valid document that means the patched tree.
///
/// So of `{"a":[1,2]}` an `add` of `9` at `/a/1` and a `move` from `/a/0` to `/b` make what means what
/// `{"a":[9,2],"b":1}` does, and a `remove` at `/b` is refused, as it leads to nothing.
pub fn patching_means_the_patched_tree()
    ensures made { (ops : List (Operation Form)) (os : List (Operation Tree)) (f h : Form) (x : Tree)
        → MeansPatch ops f os x → OperationsMake ops f h
        → (y : Tree) × (patched 0 os x ≡ done y) × FormMeans h y }
    ensures refused { (ops : List (Operation Form)) (os : List (Operation Tree)) (f h : Form) (x : Tree)
        (n : ℕ) (cause : Cause) → MeansPatch ops f os x → patched 0 os x ≡ refused n cause
        → ¬ OperationsMake ops f h }
    ensures some { (ops : List (Operation Form)) (os : List (Operation Tree)) (f : Form) (x : Tree)
        → MeansPatch ops f os x → ((h : Form) × OperationsMake ops f h)
        ⊎ ((n : ℕ) × (cause : Cause) × (patched 0 os x ≡ refused n cause)) }
    ensures one { (ops : List (Operation Form)) (os : List (Operation Tree)) (f g h : Form) (x : Tree)
        → MeansPatch ops f os x → OperationsMake ops f g → OperationsMake ops f h → g ≡ h }
    ensures sound { (ops : List (Operation Form)) (os : List (Operation Tree)) (f h : Form) (x : Tree)
        → MeansPatch ops f os x → OperationsMake ops f h → IsSound h }
    ensures text { (ops : List (Operation Form)) (os : List (Operation Tree)) (f h : Form) (x : Tree)
        → MeansPatch ops f os x → OperationsMake ops f h → IsValidDocument (form_text h)
        × ((y : Tree) × (patched 0 os x ≡ done y) × Means (form_text h) 0 (length (form_text h)) y) }
{}

/// Which tokens are an index (RFC 6901, section 4): `0`, and digits that don't begin with one, up to
/// 64 bits.
pub fn index_examples()
    ensures zero { index_of (codes "0") ≡ Some 0 }
    ensures ten { index_of (codes "10") ≡ Some 10 }
    ensures none { index_of [] ≡ None }
    ensures led { index_of (codes "01") ≡ None }
    ensures after { index_of (codes "-") ≡ None }
    ensures signed { index_of (codes "+1") ≡ None }
    ensures last { index_of (codes "18446744073709551615") ≡ Some 18446744073709551615 }
    ensures past { index_of (codes "18446744073709551616") ≡ None }
{}

/// What a patch of no operation and an `add` make of trees (compare RFC 6902, appendix A).
pub fn add_examples()
    ensures empty { (v : Tree) → patched 0 [] v ≡ done v }
    ensures whole { (v w : Tree) → patched 0 (add [] w ∷ []) v ≡ done w }
    ensures member { patched 0 (add (codes "b" ∷ []) null ∷ []) (container Object (item (Some (codes "a")) null no_item))
        ≡ done (container Object (item (Some (codes "a")) null (item (Some (codes "b")) null no_item))) }
    ensures in_place { patched 0 (add (codes "a" ∷ []) (numeral (codes "1")) ∷ []) (container Object (item (Some (codes "a")) null no_item))
        ≡ done (container Object (item (Some (codes "a")) (numeral (codes "1")) no_item)) }
    ensures element { patched 0 (add (codes "0" ∷ []) (numeral (codes "1")) ∷ []) (container Array (item None null no_item))
        ≡ done (container Array (item None (numeral (codes "1")) (item None null no_item))) }
    ensures last { patched 0 (add (codes "1" ∷ []) (numeral (codes "1")) ∷ []) (container Array (item None null no_item))
        ≡ done (container Array (item None null (item None (numeral (codes "1")) no_item))) }
    ensures dash { patched 0 (add (codes "-" ∷ []) (numeral (codes "1")) ∷ []) (container Array (item None null no_item))
        ≡ done (container Array (item None null (item None (numeral (codes "1")) no_item))) }
    ensures below { patched 0 (add (codes "0" ∷ codes "b" ∷ []) null ∷ []) (container Array (item None (container Object no_item) no_item))
        ≡ done (container Array (item None (container Object (item (Some (codes "b")) null no_item)) no_item)) }
    ensures past { patched 0 (add (codes "2" ∷ []) null ∷ []) (container Array (item None null no_item)) ≡ refused 0 missing }
{}

/// What the other operations make of trees, and which is refused for what (compare RFC 6902, appendix A).
pub fn patch_examples()
    ensures gone { (v : Tree) → patched 0 (remove [] ∷ []) v ≡ done null }
    ensures removed { patched 0 (remove (codes "a" ∷ []) ∷ []) (container Object (item (Some (codes "a")) null no_item))
        ≡ done (container Object no_item) }
    ensures replaced { patched 0 (replace (codes "0" ∷ []) (text (codes "x")) ∷ []) (container Array (item None null no_item))
        ≡ done (container Array (item None (text (codes "x")) no_item)) }
    ensures moved { patched 0 (move (codes "1" ∷ []) (codes "0" ∷ []) ∷ []) (container Array (item None null (item None (numeral (codes "1")) no_item)))
        ≡ done (container Array (item None (numeral (codes "1")) (item None null no_item))) }
    ensures copied { patched 0 (copy (codes "a" ∷ []) (codes "b" ∷ []) ∷ []) (container Object (item (Some (codes "a")) null no_item))
        ≡ done (container Object (item (Some (codes "a")) null (item (Some (codes "b")) null no_item))) }
    ensures into_child { (v : Tree) → patched 0 (move [] (codes "a" ∷ []) ∷ []) v ≡ refused 0 into_child }
    ensures second { patched 0 (test [] null ∷ test [] (text []) ∷ []) null ≡ refused 1 test_failed }
    ensures missing { patched 0 (remove (codes "a" ∷ []) ∷ []) null ≡ refused 0 missing }
    ensures dash_leads_nowhere { (xs : List ℕ) → path_in (codes "-" ∷ []) (container Array (item None null no_item)) ≡ None }
{}
