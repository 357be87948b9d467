// The laws of what a text says.
ghost use Rattle.std.specs.Prelude.{ℕ, List};
ghost use Rattle.std.specs.List.{All};
ghost use Rattle.std.specs.Str.{IsUtf8};
ghost use Rattle.sonic_owned.specs.Forms.{Form};
ghost use Rattle.sonic_patch.specs.Laws.{SaysOneThing};
ghost use Rattle.sonic_patch.specs.Operations.{Operation};
ghost use Rattle.sonic_patch.specs.Patches.{AreSoundOperations, HasFewTokens, OperationsMean};
ghost use Rattle.sonic_patch.specs.Reading.{SaysPatch};
ghost use Rattle.sonic_patch.specs.Views.{operations_of};
ghost use Rattle.sonic_patch.specs.declared.read.Patch.{Patch};
ghost use Rattle.sonic_text.specs.Trees.{Tree};

/// The law of patches, for every text in UTF-8: it says one list of operations, or it says none for
/// one reason, and never both.
///
/// So of `[{"op":"copy","path":"~"}]` the reason is that its first element has no `from`, and not
/// that its `path` is no pointer.
pub fn patch_says_one_thing()
    ensures { (t : List ℕ) → IsUtf8 t → SaysOneThing t }
{}

/// What a text in UTF-8 says as a patch is sound, and means operations of trees: each value is one, and
/// each token may be a key. So `patching_means_the_patched_tree` speaks of every patch that is read.
pub fn patch_says_sound_operations()
    ensures sound { (t : List ℕ) (ops : List (Operation Form)) → IsUtf8 t → SaysPatch t ops
        → AreSoundOperations ops }
    ensures mean { (t : List ℕ) (ops : List (Operation Form)) → IsUtf8 t → SaysPatch t ops
        → (os : List (Operation Tree)) × OperationsMean ops os }
{}

/// The same of each `Patch`, whatever text it was read from: its operations are sound, and mean
/// operations of trees. No pointer in it has more than 255 tokens.
pub fn patch_has_sound_operations()
    ensures sound { (patch : Patch) → AreSoundOperations (operations_of patch) }
    ensures mean { (patch : Patch)
        → (os : List (Operation Tree)) × OperationsMean (operations_of patch) os }
    ensures few { (patch : Patch) → All HasFewTokens (operations_of patch) }
{}
