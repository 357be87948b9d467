// The laws of heads.
ghost use Rattle.std.specs.Prelude.{ℕ, List};
ghost use Rattle.sonic_edits.specs.Heads.{SaysEditsOf};
ghost use Rattle.sonic_edits.specs.Laws.{SaysOneListOfEdits};
ghost use Rattle.sonic_owned.specs.Edits.{AreSoundEdits, EditsMean};
ghost use Rattle.sonic_owned.specs.Forms.{Form};
ghost use Rattle.sonic_owned.specs.TreeEdits.{Edit};
ghost use Rattle.sonic_text.specs.Trees.{Tree};

/// A law of heads, for every input: its lines say their edits, or one is the first that says none,
/// and they say nothing else.
pub fn head_says_edits_or_a_bad_line()
    ensures { (input : List ℕ) → SaysOneListOfEdits input }
{}

/// A law of heads: what each edit puts is a value, with a key in UTF-8, and the edits mean edits of
/// trees. So `edit_means_the_edited_tree` of `sonic_owned` speaks of every head.
pub fn head_says_sound_edits()
    ensures sound { (input : List ℕ) (es : List (Edit Form)) (d : ℕ) → SaysEditsOf input es d
        → AreSoundEdits es }
    ensures mean { (input : List ℕ) (es : List (Edit Form)) (d : ℕ) → SaysEditsOf input es d
        → (ds : List (Edit Tree)) × EditsMean es ds }
{}
