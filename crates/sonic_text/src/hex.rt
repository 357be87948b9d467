// Hexadecimal digits of either case, four of which follow `\u` (RFC 8259, section 7).
ghost use Rattle.std.specs.Prelude.{◌≡◌, ℕ, ◌<◌, ◌≤◌, length, None, Some, IfSome};
ghost use Rattle.sonic_text.specs.Strings.{hex_digit, IsHex4};

// What each hexadecimal digit denotes, and 255 for any other byte.
#[rattlefmt::skip]
const HEX_TAB: [u8; 256] = [
    255, 255, 255, 255, 255, 255, 255, 255, 255, 255, 255, 255, 255, 255, 255, 255,
    255, 255, 255, 255, 255, 255, 255, 255, 255, 255, 255, 255, 255, 255, 255, 255,
    255, 255, 255, 255, 255, 255, 255, 255, 255, 255, 255, 255, 255, 255, 255, 255,
    0, 1, 2, 3, 4, 5, 6, 7, 8, 9, 255, 255, 255, 255, 255, 255, // 0 to 9
    255, 10, 11, 12, 13, 14, 15, 255, 255, 255, 255, 255, 255, 255, 255, 255, // A to F
    255, 255, 255, 255, 255, 255, 255, 255, 255, 255, 255, 255, 255, 255, 255, 255,
    255, 10, 11, 12, 13, 14, 15, 255, 255, 255, 255, 255, 255, 255, 255, 255, // a to f
    255, 255, 255, 255, 255, 255, 255, 255, 255, 255, 255, 255, 255, 255, 255, 255,
    255, 255, 255, 255, 255, 255, 255, 255, 255, 255, 255, 255, 255, 255, 255, 255,
    255, 255, 255, 255, 255, 255, 255, 255, 255, 255, 255, 255, 255, 255, 255, 255,
    255, 255, 255, 255, 255, 255, 255, 255, 255, 255, 255, 255, 255, 255, 255, 255,
    255, 255, 255, 255, 255, 255, 255, 255, 255, 255, 255, 255, 255, 255, 255, 255,
    255, 255, 255, 255, 255, 255, 255, 255, 255, 255, 255, 255, 255, 255, 255, 255,
    255, 255, 255, 255, 255, 255, 255, 255, 255, 255, 255, 255, 255, 255, 255, 255,
    255, 255, 255, 255, 255, 255, 255, 255, 255, 255, 255, 255, 255, 255, 255, 255,
    255, 255, 255, 255, 255, 255, 255, 255, 255, 255, 255, 255, 255, 255, 255, 255,
];

// What the byte denotes as a hexadecimal digit, and more than 15 if it is none.
#[inline]
pub(crate) fn digit_of(byte: u8) -> u8
    ensures digit { result < 16 → hex_digit byte ≡ Some result }
    ensures other { 15 < result → hex_digit byte ≡ None }
{
    HEX_TAB[byte as usize]
}

// The number of the four hexadecimal digits at `place`, if four are there.
#[inline]
pub(crate) fn hex4_at(text: &[u8], place: usize) -> Option<u32>
    requires { place ≤ length text.now }
    ensures some { IfSome result (λ n. IsHex4 text.now place n) }
    ensures small { IfSome result (λ n. n ≤ 0xFFFF) }
    ensures none { result ≡ None → ¬ ((n : ℕ) × IsHex4 text.now place n) }
{
    if text.len() - place < 4 {
        return None;
    }
    let a = digit_of(text[place]);
    let b = digit_of(text[place + 1]);
    let c = digit_of(text[place + 2]);
    let d = digit_of(text[place + 3]);
    if (a | b | c | d) > 15 {
        return None;
    }
    Some(((a as u32 * 16 + b as u32) * 16 + c as u32) * 16 + d as u32)
}

/// The number of four hexadecimal digits of either case (RFC 8259, section 7), if they are digits.
///
/// `hex4(b"00e9")` and `hex4(b"00E9")` are `Some(0xe9)`, and `hex4(b"00g0")` is `None`.
pub fn hex4(src: &[u8; 4]) -> Option<u16>
    ensures some { IfSome result (λ n. IsHex4 src.now 0 n) }
    ensures none { result ≡ None → ¬ ((n : ℕ) × IsHex4 src.now 0 n) }
{
    let number = hex4_at(src, 0)?;
    Some(number as u16)
}
