use sonic_error::ErrorCode;

/// Where the reading of a text stopped, and why.
///
/// At the end of the text the place is the text's length, and the code `EofWhileParsing`.
#[derive(Clone, Copy, Debug, PartialEq, Eq)]
pub struct Stop {
    /// The place of the first byte that doesn't fit, counted from 0.
    pub place: usize,
    pub code: ErrorCode,
}
