// Laws of forms.
ghost use Rattle.std.specs.Prelude.{◌≡◌, ◌↔◌, ◌⊎◌, ℕ, List, ◌∷◌, ◌++◌, length, Some, None};
ghost use Rattle.sonic_find.specs.Documents.{IsValidDocument};
ghost use Rattle.sonic_lazy.specs.Scalars.{scalar_of_tree};
ghost use Rattle.sonic_owned.specs.Edits.{IsSoundChange, IsEdit, IsRefused, AreEdits, IsFirstRefused, EditMeans, EditsMean, AreSoundEdits};
ghost use Rattle.sonic_owned.specs.Forms.{Form, raw, IsSound, FormMeans, scalar_of_form, text};
ghost use Rattle.sonic_owned.specs.Leading.{LeadsTo, StandsIn};
ghost use Rattle.sonic_owned.specs.Opened.{IsOpened};
ghost use Rattle.sonic_owned.specs.Puts.{IsPut};
ghost use Rattle.sonic_owned.specs.Reached.{MeansStill};
ghost use Rattle.sonic_owned.specs.TreeEdits.{Edit, edit_tree, edit_tree_all};
ghost use Rattle.sonic_owned.specs.TreePuts.{put};
ghost use Rattle.sonic_owned.specs.Untouched.{IsNamedAfter, PartsFrom};
ghost use Rattle.sonic_owned.specs.Views.{form, array_in, object_in, IsLevelOf};
ghost use Rattle.sonic_owned.specs.declared.value.OwnedLazyValue.{OwnedLazyValue};
ghost use Rattle.sonic_text.specs.Paths.{Path, Node};
ghost use Rattle.sonic_text.specs.TreePaths.{leads};
ghost use Rattle.sonic_text.specs.Trees.{Tree, Means};

/// The law of what values mean: the form of each value is sound, and a sound form means exactly one
/// tree. What a form's first level says of it is what it says of the tree.
///
/// So `[1,2]` means the list of the numerals `1` and `2`, whether it is opened or not.
pub fn form_means_one_tree()
    ensures sound { (value : OwnedLazyValue) → IsSound (form value) }
    ensures means { (f : Form) → IsSound f → (x : Tree) × FormMeans f x }
    ensures one_tree { (f : Form) (x y : Tree) → FormMeans f x → FormMeans f y → x ≡ y }
    ensures scalar { (f : Form) (x : Tree) → FormMeans f x → scalar_of_form f ≡ scalar_of_tree x }
{}

/// The law of texts: the text of a sound form is a valid document (RFC 8259, section 2), and means
/// what the form means.
///
/// So what [`OwnedLazyValue::to_string`] writes is read as an equal value.
///
/// [`OwnedLazyValue::to_string`]: crate::OwnedLazyValue::to_string
pub fn text_is_a_document()
    ensures means { (f : Form) (x : Tree) → IsSound f → FormMeans f x
        → Means (text f) 0 (length (text f)) x }
    ensures valid { (f : Form) → IsSound f → IsValidDocument (text f) }
{}

/// The law of closing: the text of a sound form is itself the text of a value that isn't opened, which
/// means what the form means.
///
/// So what [`OwnedView::closed`] gives can be put in the place of the value.
///
/// [`OwnedView::closed`]: crate::OwnedView::closed
pub fn closing_keeps_the_value()
    ensures sound { (f : Form) → IsSound f → IsSound (raw (text f)) }
    ensures means { (f : Form) → IsSound f → MeansStill f (raw (text f)) }
{}

/// The law of parts: the text of what a path leads to stands in the text of the whole, byte for byte.
///
/// So a value that was never opened is written as it was read, wherever it is.
pub fn part_stands_in_the_text()
    ensures { (path : Path) (f g : Form) → LeadsTo path f g → StandsIn (text g) (text f) }
{}

/// The law of opening: what is opened means the tree that it meant, and each path by a node leads
/// where it led, to the same text.
///
/// So only the container's own white space and the spelling of its keys are lost.
pub fn opening_keeps_the_value()
    ensures tree { (f g : Form) (x : Tree) → IsOpened f g → FormMeans f x → FormMeans g x }
    ensures paths { (f g h : Form) (node : Node) (rest : Path) → IsOpened f g
        → (LeadsTo (node ∷ rest) f h ↔ LeadsTo (node ∷ rest) g h) }
{}

/// The law of paths: a path leads in a form to what means the tree to which it leads in the form's
/// tree, and it leads nowhere in the one where it leads nowhere in the other.
///
/// So what [`OwnedLazyValue::pointer`] answers doesn't depend on what is opened.
///
/// [`OwnedLazyValue::pointer`]: crate::OwnedLazyValue::pointer
pub fn path_leads_as_in_the_tree()
    ensures some { (path : Path) (f g : Form) (x : Tree) → FormMeans f x → LeadsTo path f g
        → (y : Tree) × FormMeans g y × (leads x path ≡ Some y) }
    ensures all { (path : Path) (f : Form) (x y : Tree) → FormMeans f x → leads x path ≡ Some y
        → (g : Form) × LeadsTo path f g × FormMeans g y }
{}

/// The law of levels: the array or the object that a value is opened to, and that `as_array` or
/// `as_object` gives, has the items of the value's form, and there is none exactly where the form is
/// no level.
pub fn level_is_that_of_the_form()
    ensures { (value : OwnedLazyValue)
        → IsLevelOf (form value) (array_in value) (object_in value) }
{}

/// The law of putting: where a path leads to a part of a value, and another value is put in its
/// place, the whole means the tree that it meant with the other's tree put there. A value can be
/// put wherever the path leads in the tree, and the part and the whole that comes out are
/// determined.
///
/// So with `3` put where `["a", 0]` leads, `{"a":[1,2],"b":true}` means what `{"a":[3,2],"b":true}`
/// does.
pub fn putting_means_the_tree()
    ensures means { (path : Path) (f m g h : Form) (x y : Tree) → IsPut path f m g h
        → FormMeans f x → FormMeans g y → FormMeans h (put path y x)
        × ((z : Tree) × (leads x path ≡ Some z) × FormMeans m z) }
    ensures all { (path : Path) (f : Form) (x y : Tree) → FormMeans f x → leads x path ≡ Some y
        → (m : Form) × FormMeans m y × ((g : Form) → (h : Form) × IsPut path f m g h) }
    ensures one { (path : Path) (f m n g h k : Form) → IsPut path f m g h → IsPut path f n g k
        → (m ≡ n) × (h ≡ k) }
{}

/// The law of edits: what an edit makes of a value means the edited tree and is determined, and the
/// edit is refused exactly where the tree has no such part, or one of another kind. What is sound
/// stays so. Edits in order make what they make of the tree in order, or one of them is refused, and
/// where each puts what is sound, what they make of a sound value is sound.
///
/// So `4` appended where `["a"]` leads makes `{"a":[1,2],"a":3}` mean what `{"a":[1,2,4],"a":3}`
/// does, and where `["b"]` leads it is refused.
pub fn edit_means_the_edited_tree()
    ensures means { (e : Edit Form) (d : Edit Tree) (f h : Form) (x : Tree) → EditMeans e d
        → FormMeans f x → IsEdit e f h
        → (y : Tree) × (edit_tree d x ≡ Some y) × FormMeans h y }
    ensures refused { (e : Edit Form) (d : Edit Tree) (f : Form) (x : Tree) → EditMeans e d
        → FormMeans f x → (IsRefused e f ↔ (edit_tree d x ≡ None)) }
    ensures one { (e : Edit Form) (f g h : Form) → IsEdit e f g → IsEdit e f h → g ≡ h }
    ensures sound { (e : Edit Form) (f h : Form) → IsEdit e f h → IsSoundChange e.change
        → IsSound f → IsSound h }
    ensures all { (es : List (Edit Form)) (ds : List (Edit Tree)) (f h : Form) (x : Tree)
        → EditsMean es ds → FormMeans f x → AreEdits es f h
        → (y : Tree) × (edit_tree_all ds x ≡ Some y) × FormMeans h y }
    ensures none { (es : List (Edit Form)) (ds : List (Edit Tree)) (f : Form) (n : ℕ) (x : Tree)
        → EditsMean es ds → FormMeans f x → IsFirstRefused es f n → edit_tree_all ds x ≡ None }
    ensures some { (es : List (Edit Form)) (ds : List (Edit Tree)) (f : Form) (x : Tree)
        → EditsMean es ds → FormMeans f x
        → ((h : Form) × AreEdits es f h) ⊎ ((n : ℕ) × IsFirstRefused es f n) }
    ensures all_sound { (es : List (Edit Form)) (f h : Form) → AreEdits es f h → AreSoundEdits es
        → IsSound f → IsSound h }
{}

/// The law of what an edit leaves: a path that parts from the edit's path leads where it led, to the
/// same text. So does one to an item of the container to which an item is added, or of which one is
/// removed, where elements behind that one move by one.
///
/// So what the path of no edit enters keeps its bytes. `4` put before the first element where `["a"]`
/// leads in `{"a":[1, 2],"b":[ 3 ]}` leaves `[ 3 ]` at `["b"]`, and the `2` of `["a",1]` at `["a",2]`.
pub fn edit_leaves_the_rest()
    ensures beside { (e : Edit Form) (path : Path) (f h k : Form) → IsEdit e f h
        → PartsFrom path e.path → (LeadsTo path f k ↔ LeadsTo path h k) }
    ensures below { (e : Edit Form) (before after : Node) (rest : Path) (f h k : Form)
        → IsEdit e f h → IsNamedAfter e.change before after
        → LeadsTo (e.path ++ (before ∷ rest)) f k → LeadsTo (e.path ++ (after ∷ rest)) h k }
{}
