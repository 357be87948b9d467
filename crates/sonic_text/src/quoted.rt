// Text that is written as a string without a buffer.
ghost use Rattle.std.specs.Prelude.{◌≡◌};
ghost use Rattle.std.specs.Fmt.{WritesOnOk};
ghost use Rattle.sonic_text.specs.Quoting.{quoted};

use crate::quote::escape_of;
use sonic_blocks::internal::plain_end;
use std::fmt;
use std::fmt::Write;

/// Writes text as a string (RFC 8259, section 7) with its quotes, as [`format_string`] does, but
/// piece by piece, and so without room for all of it.
///
/// Of `a"b` it writes `"a\"b"`.
///
/// [`format_string`]: crate::format_string
pub fn write_quoted<W: Write>(text: &str, f: &mut fmt::Formatter<W>) -> fmt::Result
    ensures { WritesOnOk W.Write.write_str_gives f.old result (quoted text.now) f.new }
{
    f.write_str("\"")?;
    let bytes = text.as_bytes();
    let mut read = 0;
    'runs: loop {
        let stop = plain_end(bytes, read);
        f.write_str(&text[read..stop])?;
        if stop == bytes.len() {
            return f.write_str("\"");
        }
        f.write_str(escape_of(bytes[stop]))?;
        read = stop + 1;
    }
}
