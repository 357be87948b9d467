// The lines of short texts, put together from their end to their start.
ghost use Rattle.std.specs.Prelude.{◌≡◌, ◌≤◌, ◌++◌, ◌↔◌, codes, drop, length, IsTrue};
ghost use Rattle.sonic_lines.specs.LineTexts.{counted};
ghost use Rattle.sonic_reports.specs.Lines.{line_of_text};

use crate::entry_line::SHORT;
use sonic_lines::from_end::{put, put_counted};

// Room for a line with a key and a text of at most `SHORT` bytes, at its end. Two of these with their lengths
// take less.
pub(crate) type Line = [u8; 192];

// Whether a text is short.
#[inline(always)]
pub(crate) fn is_short(text: &[u8]) -> bool
    ensures { IsTrue result ↔ (length text.now ≤ 63) }
{
    text.len() <= SHORT
}

// Puts the line of a value whose text is short, so that it ends with the room: where it starts.
pub(crate) fn value_line(room: &mut Line, text: &[u8]) -> usize
    requires { length text.now ≤ 63 }
    ensures within { result ≤ 192 }
    ensures text { drop result room.new ≡ line_of_text text.now }
{
    let at = put(room, 192, b"\n");
    put_counted(room, at, text)
}

// Puts the line of a member whose key and text are short, in the same way.
pub(crate) fn member_line(room: &mut Line, key: &[u8], text: &[u8]) -> usize
    requires key { length key.now ≤ 63 }
    requires text { length text.now ≤ 63 }
    ensures within { result ≤ 192 }
    ensures text { drop result room.new ≡ counted key.now ++ codes " " ++ line_of_text text.now }
{
    let at = put(room, 192, b"\n");
    let at = put_counted(room, at, text);
    let at = put(room, at, b" ");
    put_counted(room, at, key)
}
