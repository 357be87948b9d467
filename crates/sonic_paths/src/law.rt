ghost use Rattle.std.specs.Prelude.{ℕ, List};
ghost use Rattle.sonic_paths.specs.Laws.{SaysOneListOfPaths};

/// A law of heads, for every input: its lines say their paths, or one is the first that is bad, and
/// they say nothing else.
pub fn head_says_one_thing()
    ensures { (input : List ℕ) → SaysOneListOfPaths input }
{}
