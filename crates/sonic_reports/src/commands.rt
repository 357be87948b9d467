//! The commands, and the words of a command line that ask for them.
ghost use Rattle.std.specs.Prelude.{◌≡◌, ◌≢◌, ◌<◌, ◌≤◌, ◌^◌, ℕ, ◌∷◌, [], map, string_bytes, IfSome, IfNone};
ghost use Rattle.std.specs.Fmt.{decimal};
ghost use Rattle.sonic_reports.specs.Commands.{Asks, IsListed, rule_word, most_objects, most_blanks};

// What `edit` writes: what the edits of an input's head make of its document.
pub(crate) mod edit;
// What `fast` writes: where the paths of an input's head lead in a document that is valid as a whole.
pub(crate) mod fast;
// What `fill` writes: the schema in an input's first line, filled from the rest.
pub(crate) mod fill;
// What `gen` writes: a report over a document that it makes itself.
pub(crate) mod generated;
// What `get` writes: where the paths of an input's head lead in its document.
pub(crate) mod get;
// What `index` writes: where each value of the document is, that an input is.
pub(crate) mod index;
// What `lines` writes: the rows of the lines after an input's head, each a document of its own.
pub(crate) mod lines;
// What `list` writes: the items of the container that an input is.
pub(crate) mod list;
// What `patch` writes: what the patch in an input's first line makes of the rest.
pub(crate) mod patch;
// What `min` and `indent` write: a text of the document that an input is.
pub(crate) mod texts;

use sonic_pointer::KeyRule;

/// What a run is asked to write of its input.
#[derive(Clone, Copy, Debug, PartialEq, Eq)]
pub enum Command {
    /// Where the paths of the head lead in the document, under a rule for equal keys. No word and the
    /// word `get` ask for it by the first ones, and `get --keys` with the rule's name by another.
    Get(KeyRule),
    /// The elements of an array or the members of an object. The word `list` asks for it.
    List,
    /// The document as the edits of the head make it. The word `edit` asks for it.
    Edit,
    /// The schema in the first line, filled from the rest. The word `fill` asks for it.
    Fill,
    /// As `get`, of a document that is valid as a whole. The word `fast` asks for it.
    Fast,
    /// The document over lines, with so many blanks for each level of depth. The word `indent` and their
    /// number ask for it.
    Indent(usize),
    /// A line for each value of the document: where it is, and in which one. The word `index` asks for
    /// it.
    Index,
    /// A row for each line after the head that isn't blank: where the paths lead in it. The word
    /// `lines` asks for it.
    Lines,
    /// The document without white space outside strings. The word `min` asks for it.
    Min,
    /// The document in the rest as the patch in the first line makes it. The word `patch` asks for it.
    Patch,
    /// Counts over a document of so many objects, which it makes itself. The word `gen` and their
    /// number ask for it, and no input is read.
    Gen(u32),
}

/// The most objects that `gen` makes.
pub const MOST: u32 = 1_000_000;

/// The most blanks for each level of depth that `indent` writes.
pub const MOST_BLANKS: u32 = 8;

// The command that the words ask for.
pub(crate) fn asked_command(words: &[String]) -> Option<Command>
    ensures asked { IfSome result (λ command. Asks (map string_bytes words.now) command) }
    ensures unlisted { IfNone result (¬ IsListed (map string_bytes words.now)) }
{
    match words {
        [] => Some(Command::Get(KeyRule::First)),
        [word] => named_command(word.as_str()),
        [word, count] => counted_command(word.as_str(), count.as_str()),
        [word, option, rule] => ruled_command(word.as_str(), option.as_str(), rule.as_str()),
        _ => None,
    }
}

// The command that one word asks for.
fn named_command(word: &str) -> Option<Command>
    ensures asked { IfSome result (λ command. Asks (word.now ∷ []) command) }
    ensures unlisted { IfNone result (¬ IsListed (word.now ∷ [])) }
{
    match word {
        "get" => Some(Command::Get(KeyRule::First)),
        "list" => Some(Command::List),
        "edit" => Some(Command::Edit),
        "fill" => Some(Command::Fill),
        "fast" => Some(Command::Fast),
        "index" => Some(Command::Index),
        "lines" => Some(Command::Lines),
        "min" => Some(Command::Min),
        "patch" => Some(Command::Patch),
        _ => None,
    }
}

// The command that a word, an option and the name of a rule ask for.
fn ruled_command(word: &str, option: &str, rule: &str) -> Option<Command>
    ensures asked { IfSome result (λ command.
        Asks (word.now ∷ option.now ∷ rule.now ∷ []) command) }
    ensures unlisted { IfNone result (¬ IsListed (word.now ∷ option.now ∷ rule.now ∷ [])) }
{
    if word != "get" {
        return None;
    }
    if option != "--keys" {
        return None;
    }
    match named_rule(rule) {
        Some(rule) => Some(Command::Get(rule)),
        None => None,
    }
}

// The rule for equal keys that has this name.
fn named_rule(word: &str) -> Option<KeyRule>
    ensures some { IfSome result (λ rule. word.now ≡ rule_word rule) }
    ensures none { IfNone result ((rule : KeyRule) → word.now ≢ rule_word rule) }
{
    match word {
        "first" => Some(KeyRule::First),
        "last" => Some(KeyRule::Last),
        "refuse" => Some(KeyRule::Refuse),
        _ => None,
    }
}

// The command that a word and a number ask for.
fn counted_command(word: &str, count: &str) -> Option<Command>
    ensures asked { IfSome result (λ command. Asks (word.now ∷ count.now ∷ []) command) }
    ensures unlisted { IfNone result (¬ IsListed (word.now ∷ count.now ∷ [])) }
{
    match word {
        "gen" => Some(Command::Gen(asked_count(count)?)),
        "indent" => Some(Command::Indent(asked_width(count)?)),
        _ => None,
    }
}

// The number of objects that a text asks for.
fn asked_count(text: &str) -> Option<u32>
    ensures some { IfSome result (λ n. (text.now ≡ decimal n) × (1 ≤ n) × (n ≤ most_objects)) }
    ensures none { IfNone result ((n : ℕ) → text.now ≡ decimal n → 1 ≤ n → ¬ (n ≤ most_objects)) }
{
    let count = decimal_number(text)?;
    if count == 0 {
        return None;
    }
    if MOST < count {
        return None;
    }
    Some(count)
}

// The number of blanks for each level of depth that a text asks for.
fn asked_width(text: &str) -> Option<usize>
    ensures some { IfSome result (λ n. (text.now ≡ decimal n) × (n ≤ most_blanks)) }
    ensures none { IfNone result ((n : ℕ) → text.now ≡ decimal n → ¬ (n ≤ most_blanks)) }
{
    let width = decimal_number(text)?;
    if MOST_BLANKS < width {
        return None;
    }
    Some(width as usize)
}

// The number whose decimal a text is: it has no sign and no zero before it.
fn decimal_number(text: &str) -> Option<u32>
    ensures some { IfSome result (λ n. text.now ≡ decimal n) }
    ensures none { IfNone result ((n : ℕ) → text.now ≡ decimal n → ¬ (n < 2 ^ 32)) }
{
    let Ok(number) = text.parse::<u32>() else {
        return None;
    };
    let mut digits = itoa::Buffer::new();
    if digits.format(number) != text {
        return None;
    }
    Some(number)
}
