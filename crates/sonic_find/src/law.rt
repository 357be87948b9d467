ghost use Rattle.std.specs.Prelude.{◌≡◌, ◌⊎◌, ◌<◌, ◌+◌, ◌++◌, ◌↔◌, ℕ, Bool, List, Option, map, slice_range, IsFalse};
ghost use Rattle.std.specs.List.{Contains};
ghost use Rattle.std.specs.Str.{IsUtf8};
ghost use Rattle.sonic_text.specs.declared.stop.Stop.{Stop};
ghost use Rattle.sonic_text.specs.Documents.{IsRootFault, StartsWithUtf8Value};
ghost use Rattle.sonic_text.specs.Paths.{Node, Path};
ghost use Rattle.sonic_find.specs.Answers.{AllLeadBy, IsAnswer, IsAnswerBy, IsGetAnswer, IsNearest, Span, spans, error, span_text};
ghost use Rattle.sonic_find.specs.Documents.{IsValidDocument, IsInvalid};
ghost use Rattle.sonic_find.specs.FirstPaths.{EvaluatesFirst};
ghost use Rattle.sonic_find.specs.Laws.{AreGetAnswers, ExactlyOne, HoldsOrHasOneReason, Finds, LeadsInPart, outcome_in_whole};
ghost use Rattle.sonic_find.specs.Outcomes.{EachAnswer, IsEachAnswerBy, told_span};
ghost use Rattle.sonic_find.specs.declared.outcome.PathOutcome.{PathOutcome};
ghost use Rattle.sonic_find.specs.declared.span.Span.{Span as Slot};
ghost use Rattle.sonic_find.specs.Paths.{Outcome, EvaluatesBy, Leads, LeadsUnder, found, lacks, fails, cut};
ghost use Rattle.sonic_pointer.specs.Paths.{IsUnmixed};
ghost use Rattle.sonic_pointer.specs.declared.rule.KeyRule.{KeyRule};
ghost use Rattle.sonic_pointer.specs.declared.rule.KeyRule.TheVariants.{First, Refuse};

/// The law of paths, for every rule for equal keys, every text, every place and every path: it leads
/// to an outcome, and there is no other.
///
/// So in `{"a":1,"a":2}` the path `["a"]` finds the `1` under `First` and the `2` under `Last`, and
/// under `Refuse` it fails at the second `"a"`, and there is nothing else.
pub fn path_has_one_outcome()
    ensures { (r : KeyRule) (t : List ℕ) (i : ℕ) (path : List Node) → ExactlyOne (EvaluatesBy r t i path) }
{}

/// The law of first equal keys, for every text, every place and every path: under `First` it leads to
/// what the five clauses that know no rule say, and to nothing else.
pub fn first_is_the_plain_rule()
    ensures { (t : List ℕ) (i : ℕ) (path : List Node) (o : Outcome)
        → (EvaluatesBy First t i path o ↔ EvaluatesFirst t i path o) }
{}

/// A law of rules for equal keys: what a path finds under `Refuse` it finds under each rule, and where
/// it lacks a key under `Refuse` it lacks it under each.
///
/// So over `{"a":1,"b":2,"b":3}` all rules find the `1` by `["a"]`, and all lack `["c"]`.
pub fn refuse_agrees_with_each_rule()
    ensures finds { (r : KeyRule) (t : List ℕ) (i a b : ℕ) (path : List Node)
        → EvaluatesBy Refuse t i path (found a b) → EvaluatesBy r t i path (found a b) }
    ensures lacks { (r : KeyRule) (t : List ℕ) (i q : ℕ) (path : List Node)
        → EvaluatesBy Refuse t i path (lacks q) → EvaluatesBy r t i path (lacks q) }
{}

/// A law of paths: where one is cut, it is by the fault of the whole text, the same for all.
///
/// So in `[1,{"a":2,]` both `[1, "b"]` and `[2]` are cut at the closing bracket, where a key is expected.
#[tactic(auto, using(crate::proofs::PathLemmas::Outcome::cut_is_fault))]
pub fn a_cut_is_the_root_fault()
    ensures { (r : KeyRule) (t : List ℕ) (path : List Node) (s : Stop) → LeadsUnder r t path (cut s)
        → IsRootFault t s }
{}

/// A law of paths: one that fails, or lacks its key, does so before the fault of the text, if there
/// is one.
///
/// So in `[{},1` the path `[0, "a"]` fails at the closing brace, and the end of the text, where a
/// comma or a bracket is expected, plays no part.
pub fn outcomes_come_before_the_fault()
    ensures fails { (r : KeyRule) (t : List ℕ) (path : List Node) (s f : Stop) → IsRootFault t f
        → LeadsUnder r t path (fails s) → s.place < f.place }
    ensures lacks { (r : KeyRule) (t : List ℕ) (path : List Node) (q : ℕ) (f : Stop) → IsRootFault t f
        → LeadsUnder r t path (lacks q) → q < f.place }
{}

/// A law of two paths of a list in which the nodes that follow one prefix have one kind, as those of a
/// tree are (the clause `unmixed` of `PointerTree::view`): where both fail at one place, they fail for
/// one reason.
///
/// Of `["a"]` and `[0]`, which no tree has both, the first fails in `7` as no object is there, and the
/// second as no array is, both at the `7`.
pub fn fails_at_one_place_agree()
    ensures { (r : KeyRule) (t : List ℕ) (paths : List Path) (p q : Path) (s f : Stop) → IsUnmixed paths
        → Contains paths p → Contains paths q
        → LeadsUnder r t p (fails s) → LeadsUnder r t q (fails f) → s.place ≡ f.place → s ≡ f }
{}

/// The law of answers, for every rule for equal keys, every text, whether it came as bytes or not, and
/// every list of paths: they have an answer, and no other.
///
/// So `["b"]` and `["a"]` over `{"a":1}x` are answered by nothing and by the `1`. The `x` plays no
/// part, as the object ends before it.
pub fn paths_have_one_answer()
    ensures { (r : KeyRule) (t : List ℕ) (is_bytes : Bool) (paths : List (List Node))
        → ExactlyOne (IsAnswerBy r t is_bytes paths) }
{}

/// The law of outcomes, for every rule for equal keys, every text, whether it came as bytes or not, and
/// every list of paths: they have an answer each by itself, and no other.
///
/// So `["b"]` and `["a", "x"]` over `{"a":1}` are told that the key is missing, at 6, and the mismatch at 5,
/// and nothing else.
pub fn paths_have_one_answer_each()
    ensures { (r : KeyRule) (t : List ℕ) (is_bytes : Bool) (paths : List Path)
        → ExactlyOne (IsEachAnswerBy r t is_bytes paths) }
{}

/// The law of `find_each` beside `find_many`: where all paths have spans together, each is told the same,
/// and where they have an error, `find_each` has it, too, or it is the nearest fail of a path.
///
/// So over `{"a":1,"b":2}` the paths `["b"]` and `["a"]` are told the same by both. The paths `["b", "x"]`
/// and `["a", "x"]` together have the mismatch at the `1` alone, which is the nearest of what each is told.
pub fn find_each_agrees_with_find_many()
    ensures spans { (r : KeyRule) (t : List ℕ) (is_bytes : Bool) (paths : List Path)
        (entries : List (Option Span)) → IsAnswerBy r t is_bytes paths (spans entries)
        → (told : List (PathOutcome Slot)) × IsEachAnswerBy r t is_bytes paths (EachAnswer.outcomes told)
        × (entries ≡ map told_span told) }
    ensures error { (r : KeyRule) (t : List ℕ) (is_bytes : Bool) (paths : List Path)
        (os : List Outcome) (s : Stop) → AllLeadBy r t paths os
        → IsAnswerBy r t is_bytes paths (error s)
        → IsEachAnswerBy r t is_bytes paths (EachAnswer.error s) ⊎ IsNearest os s }
{}

/// The law of the answer of one path, for every text, whether it came as bytes or not, and every
/// path: it has an answer, and no other.
///
/// So `["b"]` over `{"a":1}x` is answered by the lack of the key, at the closing brace.
pub fn path_has_one_answer()
    ensures { (t : List ℕ) (is_bytes : Bool) (path : List Node) → ExactlyOne (IsGetAnswer t is_bytes path) }
{}

/// The law of documents, for every text, whether it came as bytes or not: it is a valid document,
/// or it is none for exactly one reason, and never both.
///
/// The reason is a place and a code. So `[1] x` is none for the `x` alone, and a broken byte after
/// that has no part in it.
pub fn document_is_valid_or_has_one_reason()
    ensures { (t : List ℕ) (is_bytes : Bool) → (IsFalse is_bytes → IsUtf8 t)
        → HoldsOrHasOneReason (IsValidDocument t) (IsInvalid t is_bytes) }
{}

/// The law of the two calls, for every text that starts with a value in UTF-8, whether it came as
/// bytes or not, and every list of paths: `get_many` answers values exactly where `get` of each path
/// answers its value or that an object lacks its key, and then its entries are theirs, in order.
///
/// So over `{"a":{"b":1}}x` the paths `["a", "c"]` and `["a", "b"]` together are answered by nothing
/// and by the `1`, and alone by the lack of the key and by the `1`. Over `{"a":{"b":1},`, whose first
/// value has no end, they are so alone, but together they are answered by the end of the text, where
/// a key is expected.
pub fn get_many_agrees_with_get()
    ensures { (t : List ℕ) (is_bytes : Bool) (paths : List Path) (entries : List (Option Span))
        → StartsWithUtf8Value t
        → (IsAnswer t is_bytes paths (spans entries) ↔ AreGetAnswers t is_bytes paths entries) }
{}

/// The law of paths in parts: where a path finds a value, a further path leads in that value's own
/// text to what the joined path leads to in the whole text, and to nothing else.
///
/// Places of the part count from where the value begins (`on`, `back`), and the bytes of what is
/// found are the same (`text`). So over ` {"a":[5,{"b":7}]}` the path `["a"]` finds `[5,{"b":7}]`, from
/// 6 to 17. In that text `[1, "b"]` finds the `7`, from 8 to 9, which `["a", 1, "b"]` finds from 14 to
/// 15 in the whole, and `[2]` fails at 10, as `["a", 2]` does at 16.
pub fn a_path_goes_on_in_its_value()
    ensures on { (t : List ℕ) (a b : Path) (part : Span) (o : Outcome) → LeadsInPart t a b part o
        → Leads t (a ++ b) (outcome_in_whole part.0 o) }
    ensures back { (t : List ℕ) (a b : Path) (part : Span) (whole : Outcome) → Finds t a part
        → Leads t (a ++ b) whole
        → (o : Outcome) × LeadsInPart t a b part o × (whole ≡ outcome_in_whole part.0 o) }
    ensures text { (t : List ℕ) (a b : Path) (part : Span) (i j : ℕ) → LeadsInPart t a b part (found i j)
        → slice_range (span_text t part) i j ≡ slice_range t (part.0 + i) (part.0 + j) }
{}
