// What follows a prefix.

/// What follows a prefix of the paths in a tree: nothing, or nodes of one kind.
#[derive(Clone, Copy, PartialEq, Eq, Debug)]
pub enum Branch {
    /// No path goes on after the prefix.
    Leaf,
    /// Keys follow.
    Keys,
    /// Indexes follow.
    Indexes,
}
