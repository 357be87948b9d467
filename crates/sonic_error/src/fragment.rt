// The bytes round a place: which they are, and how they are shown.
ghost use Rattle.std.specs.Prelude.{◌≡◌, ◌+◌, ◌≤◌, length, take, Some};
ghost use Rattle.sonic_error.specs.Places.{is_continuation, fragment_start, fragment_end};
ghost use Rattle.sonic_error.specs.Texts.{lossy};
ghost use Rattle.sonic_error.specs.declared.fragment.TheConstants.{FRAGMENT_ROOM};

use std::fmt;

/// How many bytes are shown at most: 17 before the place, and 17 from there on.
pub(crate) const FRAGMENT_ROOM: usize = 34;

// Whether the byte goes on with a character that an earlier byte begins.
fn continues(byte: u8) -> bool
    ensures { result ≡ is_continuation byte }
{
    (0x80..0xC0).contains(&byte)
}

/// Where the bytes that are shown begin.
pub(crate) fn start_of_fragment(json: &[u8], offset: usize) -> usize
    requires { offset ≤ length json.now }
    ensures start { result ≡ fragment_start json.now offset }
    ensures before { result ≤ offset }
    ensures near { offset ≤ result + 17 }
{
    let mut start = offset.saturating_sub(8);
    while start > 0 && offset - start <= 16 && continues(json[start]) {
        start -= 1;
    }
    start
}

/// Where the bytes that are shown end.
pub(crate) fn end_of_fragment(json: &[u8], offset: usize) -> usize
    requires { offset ≤ length json.now }
    ensures end { result ≡ fragment_end json.now offset }
    ensures after { offset ≤ result }
    ensures near { result ≤ offset + 17 }
    ensures inside { result ≤ length json.now }
{
    let mut end = json.len().min(offset + 8);
    while end < json.len() && end - offset <= 16 && continues(json[end - 1]) {
        end += 1;
    }
    end
}

/// The bytes, and after them zeros.
pub(crate) fn fragment_of(bytes: &[u8]) -> [u8; FRAGMENT_ROOM]
    requires { length bytes.now ≤ FRAGMENT_ROOM }
    ensures { take (length bytes.now) result ≡ bytes.now }
{
    let mut fragment = [0; FRAGMENT_ROOM];
    fragment[..bytes.len()].copy_from_slice(bytes);
    fragment
}

/// Bytes that are shown as text, with U+FFFD for what isn't UTF-8.
#[derive(Clone, Copy)]
pub(crate) struct Lossy<'a>(pub(crate) &'a [u8]);

impl fmt::Display for Lossy<'_> {
    ghost output = { λ shown. Some (lossy shown.0.now) };

    fn fmt<W: fmt::Write>(&self, f: &mut fmt::Formatter<W>) -> fmt::Result {
        for chunk in self.0.utf8_chunks() {
            f.write_str(chunk.valid())?;
            if !chunk.invalid().is_empty() {
                f.write_str("\u{FFFD}")?;
            }
        }
        Ok(())
    }
}
