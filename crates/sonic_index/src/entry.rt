use sonic_error::JsonType;

/// How a value is labelled in the one whose part it is.
#[derive(Clone, Copy, Debug, PartialEq, Eq)]
pub enum Label {
    /// It is the root.
    Root,
    /// It is the value of a member, whose key is from `start` to `end`, the quotes with it.
    Key { start: usize, end: usize },
    /// It is the element of an array after so many others.
    At(usize),
}

/// A value of a document.
#[derive(Clone, Copy, Debug, PartialEq, Eq)]
pub struct Entry {
    /// Where it begins.
    pub start: usize,
    /// Where it ends: the place after its last byte.
    pub end: usize,
    /// The number of the value whose part it is, and 0 for the root.
    pub parent: usize,
    /// Its type.
    pub kind: JsonType,
    /// How it is labelled in the value whose part it is.
    pub label: Label,
}
