// Strings as they are written (RFC 8259, section 7).
ghost use Rattle.std.specs.Prelude.{◌≡◌, ◌+◌, ◌*◌, ◌≤◌, ◌++◌, false, length, take, drop, if◌then◌else◌};
ghost use Rattle.sonic_blocks.specs.Runs.{is_plain};
ghost use Rattle.sonic_text.specs.Quoting.{quoted, quoted_bytes, quoted_byte};

use sonic_blocks::internal::plain_end;

// The entry of a byte that stays as it is.
const KEPT: (u8, [u8; 8]) = (0, [0; 8]);

/// How each byte stands between the quotes of a string (RFC 8259, section 7): of how many bytes its
/// escape is and which, filled up with zeros; and no bytes for one that stays as it is.
///
/// At a line feed it is 2 and `\n`, at 0 it is 6 and `\u0000`, with lower-case digits, and at `a`
/// it is 0.
#[rattlefmt::skip]
pub const QUOTE_TAB: [(u8, [u8; 8]); 256] = [
    (6, [0x5c, 0x75, 0x30, 0x30, 0x30, 0x30, 0, 0]), (6, [0x5c, 0x75, 0x30, 0x30, 0x30, 0x31, 0, 0]),
    (6, [0x5c, 0x75, 0x30, 0x30, 0x30, 0x32, 0, 0]), (6, [0x5c, 0x75, 0x30, 0x30, 0x30, 0x33, 0, 0]),
    (6, [0x5c, 0x75, 0x30, 0x30, 0x30, 0x34, 0, 0]), (6, [0x5c, 0x75, 0x30, 0x30, 0x30, 0x35, 0, 0]),
    (6, [0x5c, 0x75, 0x30, 0x30, 0x30, 0x36, 0, 0]), (6, [0x5c, 0x75, 0x30, 0x30, 0x30, 0x37, 0, 0]),
    (2, [0x5c, 0x62, 0, 0, 0, 0, 0, 0]), (2, [0x5c, 0x74, 0, 0, 0, 0, 0, 0]),
    (2, [0x5c, 0x6e, 0, 0, 0, 0, 0, 0]), (6, [0x5c, 0x75, 0x30, 0x30, 0x30, 0x62, 0, 0]),
    (2, [0x5c, 0x66, 0, 0, 0, 0, 0, 0]), (2, [0x5c, 0x72, 0, 0, 0, 0, 0, 0]),
    (6, [0x5c, 0x75, 0x30, 0x30, 0x30, 0x65, 0, 0]), (6, [0x5c, 0x75, 0x30, 0x30, 0x30, 0x66, 0, 0]),
    (6, [0x5c, 0x75, 0x30, 0x30, 0x31, 0x30, 0, 0]), (6, [0x5c, 0x75, 0x30, 0x30, 0x31, 0x31, 0, 0]),
    (6, [0x5c, 0x75, 0x30, 0x30, 0x31, 0x32, 0, 0]), (6, [0x5c, 0x75, 0x30, 0x30, 0x31, 0x33, 0, 0]),
    (6, [0x5c, 0x75, 0x30, 0x30, 0x31, 0x34, 0, 0]), (6, [0x5c, 0x75, 0x30, 0x30, 0x31, 0x35, 0, 0]),
    (6, [0x5c, 0x75, 0x30, 0x30, 0x31, 0x36, 0, 0]), (6, [0x5c, 0x75, 0x30, 0x30, 0x31, 0x37, 0, 0]),
    (6, [0x5c, 0x75, 0x30, 0x30, 0x31, 0x38, 0, 0]), (6, [0x5c, 0x75, 0x30, 0x30, 0x31, 0x39, 0, 0]),
    (6, [0x5c, 0x75, 0x30, 0x30, 0x31, 0x61, 0, 0]), (6, [0x5c, 0x75, 0x30, 0x30, 0x31, 0x62, 0, 0]),
    (6, [0x5c, 0x75, 0x30, 0x30, 0x31, 0x63, 0, 0]), (6, [0x5c, 0x75, 0x30, 0x30, 0x31, 0x64, 0, 0]),
    (6, [0x5c, 0x75, 0x30, 0x30, 0x31, 0x65, 0, 0]), (6, [0x5c, 0x75, 0x30, 0x30, 0x31, 0x66, 0, 0]),
    KEPT, KEPT, (2, [0x5c, 0x22, 0, 0, 0, 0, 0, 0]), KEPT, KEPT, KEPT, KEPT, KEPT, KEPT, KEPT, KEPT, KEPT, KEPT, KEPT, KEPT, KEPT,
    KEPT, KEPT, KEPT, KEPT, KEPT, KEPT, KEPT, KEPT, KEPT, KEPT, KEPT, KEPT, KEPT, KEPT, KEPT, KEPT,
    KEPT, KEPT, KEPT, KEPT, KEPT, KEPT, KEPT, KEPT, KEPT, KEPT, KEPT, KEPT, KEPT, KEPT, KEPT, KEPT,
    KEPT, KEPT, KEPT, KEPT, KEPT, KEPT, KEPT, KEPT, KEPT, KEPT, KEPT, KEPT, (2, [0x5c, 0x5c, 0, 0, 0, 0, 0, 0]), KEPT, KEPT, KEPT,
    KEPT, KEPT, KEPT, KEPT, KEPT, KEPT, KEPT, KEPT, KEPT, KEPT, KEPT, KEPT, KEPT, KEPT, KEPT, KEPT,
    KEPT, KEPT, KEPT, KEPT, KEPT, KEPT, KEPT, KEPT, KEPT, KEPT, KEPT, KEPT, KEPT, KEPT, KEPT, KEPT,
    KEPT, KEPT, KEPT, KEPT, KEPT, KEPT, KEPT, KEPT, KEPT, KEPT, KEPT, KEPT, KEPT, KEPT, KEPT, KEPT,
    KEPT, KEPT, KEPT, KEPT, KEPT, KEPT, KEPT, KEPT, KEPT, KEPT, KEPT, KEPT, KEPT, KEPT, KEPT, KEPT,
    KEPT, KEPT, KEPT, KEPT, KEPT, KEPT, KEPT, KEPT, KEPT, KEPT, KEPT, KEPT, KEPT, KEPT, KEPT, KEPT,
    KEPT, KEPT, KEPT, KEPT, KEPT, KEPT, KEPT, KEPT, KEPT, KEPT, KEPT, KEPT, KEPT, KEPT, KEPT, KEPT,
    KEPT, KEPT, KEPT, KEPT, KEPT, KEPT, KEPT, KEPT, KEPT, KEPT, KEPT, KEPT, KEPT, KEPT, KEPT, KEPT,
    KEPT, KEPT, KEPT, KEPT, KEPT, KEPT, KEPT, KEPT, KEPT, KEPT, KEPT, KEPT, KEPT, KEPT, KEPT, KEPT,
    KEPT, KEPT, KEPT, KEPT, KEPT, KEPT, KEPT, KEPT, KEPT, KEPT, KEPT, KEPT, KEPT, KEPT, KEPT, KEPT,
    KEPT, KEPT, KEPT, KEPT, KEPT, KEPT, KEPT, KEPT, KEPT, KEPT, KEPT, KEPT, KEPT, KEPT, KEPT, KEPT,
];

/// Writes text as a string (RFC 8259, section 7), with its quotes where `need_quote`, and answers of
/// how many bytes it is; what is behind them stays.
///
/// Each byte has its entry of [`QUOTE_TAB`], or is itself. There must be room for six times the
/// bytes of the text and two.
///
/// Of `a"b` it is the six bytes `"a\"b"`, and without quotes the four bytes `a\"b`.
pub fn format_string(value: &str, dst: &mut [u8], need_quote: bool) -> usize
    requires { 6 * length value.now + 2 ≤ length dst.now }
    ensures written { take result dst.new
        ≡ (if need_quote then quoted value.now else quoted_bytes value.now) }
    ensures within { result ≤ length dst.new }
    ensures behind { drop result dst.new ≡ drop result dst.old }
{
    let text = value.as_bytes();
    if !need_quote {
        return put_contents(dst, 0, text);
    }
    let place = put(dst, 0, b"\"");
    let place = put_contents(dst, place, text);
    put(dst, place, b"\"")
}

// Writes text at a place as it stands between quotes: the place after it.
fn put_contents(dst: &mut [u8], start: usize, text: &[u8]) -> usize
    requires { start + 6 * length text.now ≤ length dst.now }
    ensures written { take result dst.new ≡ take start dst.old ++ quoted_bytes text.now }
    ensures behind { drop result dst.new ≡ drop result dst.old }
    ensures within { result ≤ start + 6 * length text.now }
{
    let mut read = 0;
    let mut place = start;
    'runs: loop {
        let stop = plain_end(text, read);
        place = put(dst, place, &text[read..stop]);
        if stop == text.len() {
            return place;
        }
        place = put(dst, place, escape_of(text[stop]).as_bytes());
        read = stop + 1;
    }
}

/// The escape of a byte that has one.
pub(crate) fn escape_of(byte: u8) -> &'static str
    requires { is_plain byte ≡ false }
    ensures { result.now ≡ quoted_byte byte }
{
    let len = QUOTE_TAB[byte as usize].0 as usize;
    // SAFETY: each byte of an escape is ASCII.
    unsafe { std::str::from_utf8_unchecked(&QUOTE_TAB[byte as usize].1[..len]) }
}

// Writes bytes at a place: the place after them.
fn put(dst: &mut [u8], place: usize, bytes: &[u8]) -> usize
    requires { place + length bytes.now ≤ length dst.now }
    ensures end { result ≡ place + length bytes.now }
    ensures written { take result dst.new ≡ take place dst.old ++ bytes.now }
    ensures behind { drop result dst.new ≡ drop result dst.old }
{
    let end = place + bytes.len();
    dst[place..end].copy_from_slice(bytes);
    end
}
