ghost use Rattle.std.specs.Prelude.{◌≡◌};
ghost use Rattle.sonic_text.specs.Places.{is_space};

/// Whether the byte is white space: a blank, a tab, a line feed or a carriage return
/// (RFC 8259, section 2). Other bytes that Unicode calls white space aren't.
#[inline]
pub fn is_whitespace(ch: u8) -> bool
    ensures { result ≡ is_space ch }
{
    matches!(ch, b' ' | b'\t' | b'\n' | b'\r')
}
