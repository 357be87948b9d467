ghost use Rattle.std.specs.Prelude.{◌≡◌, codes, Some, None, IsTrue, IsFalse};
ghost use Rattle.sonic_text.specs.declared.kind.Kind.TheVariants.{Array, Object};
ghost use Rattle.sonic_text.specs.Trees.{Tree, numeral, container, null, text};
ghost use Rattle.sonic_text.specs.Trees.Items.{no_item, item};
ghost use Rattle.sonic_patch.specs.Sameness.{same};

/// Sameness is an equivalence: every tree is the same as itself, the order of two trees has no part
/// in it, and two trees that are the same as a third are the same.
pub fn same_is_an_equivalence()
    ensures reflexive { (x : Tree) → IsTrue (same x x) }
    ensures symmetric { (x y : Tree) → IsTrue (same x y) → IsTrue (same y x) }
    ensures transitive { (x y z : Tree) → IsTrue (same x y) → IsTrue (same y z) → IsTrue (same x z) }
{}

/// Which trees are the same: members in any order, elements in theirs, numbers by their text, and a
/// member that comes twice is no member that comes once.
pub fn same_examples()
    ensures order { IsTrue (same (container Object (item (Some (codes "a")) null (item (Some (codes "b")) (numeral (codes "1")) no_item)))
        (container Object (item (Some (codes "b")) (numeral (codes "1")) (item (Some (codes "a")) null no_item)))) }
    ensures elements { IsFalse (same (container Array (item None null (item None (numeral (codes "1")) no_item)))
        (container Array (item None (numeral (codes "1")) (item None null no_item)))) }
    ensures numbers { IsFalse (same (numeral (codes "1")) (numeral (codes "1.0"))) }
    ensures kinds { IsFalse (same (container Object no_item) (container Array no_item)) }
    ensures strings { IsFalse (same (text (codes "1")) (numeral (codes "1"))) }
    ensures count { IsFalse (same (container Object (item (Some (codes "a")) null (item (Some (codes "a")) null no_item)))
        (container Object (item (Some (codes "a")) null no_item))) }
{}
