// Which member counts of those with equal keys.

/// The rule for equal keys: to which member a key of a path leads where several members of one object
/// have it.
///
/// Keys are compared as the texts that they denote, so `"a"` and `"\u0061"` are equal. An array has no
/// two elements with one index, so the rule says nothing of indexes.
#[derive(Clone, Copy, PartialEq, Eq, Debug)]
pub enum KeyRule {
    /// The first one counts. What follows it in the object plays no part.
    First,
    /// The last one counts, so the object has to be whole.
    Last,
    /// There may be one alone, so the object has to be whole. A second one is refused.
    Refuse,
}
