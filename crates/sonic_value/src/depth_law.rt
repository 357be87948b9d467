// The laws of depths.
ghost use Rattle.std.specs.Prelude.{◌<◌, ℕ, List};
ghost use Rattle.sonic_text.specs.Faults.{IsFault};
ghost use Rattle.sonic_text.specs.Strings.{strict};
ghost use Rattle.sonic_text.specs.Trees.{Tree};
ghost use Rattle.sonic_text.specs.declared.stop.Stop.{Stop};
ghost use Rattle.sonic_value.specs.Depths.{IsTooDeep};
ghost use Rattle.sonic_value.specs.Schemas.{IsTooDeepIn};

/// The law of depths: the first container inside so many others comes before the place where the
/// value has a fault.
///
/// So a reader that goes from left to right and stops at either stops where it should. Of `[[[1x` the
/// third bracket is the first inside two, at 2, and the fault is at 4.
pub fn too_deep_comes_before_the_fault()
    ensures { (t : List ℕ) (n i p : ℕ) (s : Stop) → IsTooDeep t n i p → IsFault strict t i s
        → p < s.place }
{}

/// The law of depths in what fills a schema: the first container that is too deep comes before the
/// place where the value has a fault.
pub fn filling_too_deep_comes_before_the_fault()
    ensures { (t : List ℕ) (n : ℕ) (schema : Tree) (i p : ℕ) (s : Stop) → IsTooDeepIn t n schema i p
        → IsFault strict t i s → p < s.place }
{}
