ghost use Rattle.std.specs.Prelude.{◌≡◌, ◌↔◌, IsTrue};

/// What a skipped value needs before its text can be used.
#[derive(Clone, Copy, Debug, PartialEq, Eq)]
pub enum ParseStatus {
    /// Nothing: the value is no string, or a string that denotes the bytes between its quotes.
    None,
    /// It is a string with a backslash, which denotes other bytes than those between its quotes.
    HasEscaped,
}

impl ParseStatus {
    /// Whether it is `ParseStatus::HasEscaped`.
    #[inline]
    pub fn has_escaped(self) -> bool
        ensures { IsTrue result ↔ (self ≡ ParseStatus.HasEscaped) }
    {
        match self {
            ParseStatus::None => false,
            ParseStatus::HasEscaped => true,
        }
    }
}
