ghost use Rattle.std.specs.Prelude.{◌≡◌, ◌≢◌, MatchOption};
ghost use Rattle.sonic_text.specs.Values.{opening, closing};
ghost use Rattle.sonic_text.specs.Faults.{code_after_item};

use sonic_error::ErrorCode;

/// The two kinds of container: an array (RFC 8259, section 5), and an object (section 4).
#[derive(Clone, Copy, Debug, PartialEq, Eq)]
pub enum Kind {
    /// Elements between `[` and `]`.
    Array,
    /// Members, each with a key, between `{` and `}`.
    Object,
}

impl Kind {
    /// The kind of container that begins with a byte, as `Kind::Array` for `[`, and `None` where the
    /// byte is no opening bracket.
    #[inline(always)]
    pub fn opened_by(byte: u8) -> Option<Kind>
        ensures { MatchOption result ((kind : Kind) → byte ≢ opening kind) (λ kind. byte ≡ opening kind) }
    {
        if byte == b'[' || byte == b'{' {
            Some(if byte == b'{' {
                Kind::Object
            } else {
                Kind::Array
            })
        } else {
            None
        }
    }

    /// The bracket with which a container of this kind begins, as `[` for `Kind::Array`.
    #[inline]
    pub fn opening(self) -> u8
        ensures { result ≡ opening self }
    {
        match self {
            Kind::Array => b'[',
            Kind::Object => b'{',
        }
    }

    /// The bracket with which a container of this kind ends, as `]` for `Kind::Array`.
    #[inline]
    pub fn closing(self) -> u8
        ensures { result ≡ closing self }
    {
        match self {
            Kind::Array => b']',
            Kind::Object => b'}',
        }
    }

    /// The code where neither a comma nor the closing bracket comes after an item, as
    /// `ErrorCode::ExpectedArrayCommaOrEnd` at the `2` of `[1 2]`.
    #[inline]
    pub fn code_after_item(self) -> ErrorCode
        ensures { result ≡ code_after_item self }
    {
        match self {
            Kind::Array => ErrorCode::ExpectedArrayCommaOrEnd,
            Kind::Object => ErrorCode::ExpectedObjectCommaOrEnd,
        }
    }
}
