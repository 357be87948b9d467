// A part of an input.

/// A part of an input, from its first byte to after its last: indexes of bytes, from 0.
///
/// In `[1, 20]` the value `20` is `Span { start: 4, end: 6 }`.
#[derive(Clone, Copy, Debug, PartialEq, Eq)]
pub struct Span {
    /// The index of the first byte.
    pub start: usize,
    /// The index after the last byte.
    pub end: usize,
}
