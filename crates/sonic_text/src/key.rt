// Keys compared as they are read (RFC 8259, section 8.3: names are equal if their chars are).
ghost use Rattle.std.specs.Prelude.{◌≡◌, ◌≢◌, ℕ, ◌+◌, ◌<◌, ◌≤◌, ◌∷◌, ◌++◌, List, length, take, false, IsTrue, ◌↔◌};
ghost use Rattle.std.specs.Bool.{OnTrue};
ghost use Rattle.std.specs.Ordering.{nat_cmp};
ghost use Rattle.std.specs.Cmp.Lexicographic.{slice_cmp};
ghost use Rattle.sonic_text.specs.Places.{byte};
ghost use Rattle.sonic_text.specs.Strings.{IsString, strict};

use crate::unescape::escape_at;
use crate::utf8::codepoint_to_utf8;
use std::cmp::Ordering;

/// Whether the piece is in the key after the bytes that are done.
fn goes_on(key: &[u8], done: usize, piece: &[u8]) -> bool
    requires { done ≤ length key.now }
    ensures yes { OnTrue result ((done + length piece.now ≤ length key.now)
        × (take (done + length piece.now) key.now ≡ take done key.now ++ piece.now)) }
    ensures no { result ≡ false → (rest : List ℕ) → key.now ≢ take done key.now ++ piece.now ++ rest }
{
    key[done..].starts_with(piece)
}

// How a text that goes on with the piece, where the key doesn't, compares with the key.
fn piece_order(key: &[u8], done: usize, piece: &[u8]) -> Ordering
    requires inside { done ≤ length key.now }
    requires differs { (rest : List ℕ) → key.now ≢ take done key.now ++ piece.now ++ rest }
    ensures { (rest : List ℕ)
        → result ≡ slice_cmp nat_cmp (take done key.now ++ piece.now ++ rest) key.now }
{
    let left = &key[done..];
    piece.cmp(&left)
}

// How many bytes the two begin with in common, before the first backslash.
#[inline]
fn common_len(text: &[u8], key: &[u8]) -> usize
    ensures within { (result ≤ length text.now) × (result ≤ length key.now) }
    ensures same { take result key.now ≡ take result text.now }
    ensures plain { (k : ℕ) → k < result → byte text.now k ≢ 92 }
    ensures differs { result < length text.now → byte text.now result ≢ 92
        → result < length key.now → byte key.now result ≢ byte text.now result }
{
    let most = text.len().min(key.len());
    let mut n = 0;
    while n < most && text[n] == key[n] && text[n] != b'\\' {
        n += 1;
    }
    n
}

// How a text that goes on with the byte, where the key doesn't, compares with the key.
#[inline]
fn byte_order(key: &[u8], done: usize, next: u8) -> Ordering
    requires inside { done ≤ length key.now }
    requires differs { done < length key.now → byte key.now done ≢ next }
    ensures { (rest : List ℕ)
        → result ≡ slice_cmp nat_cmp (take done key.now ++ next ∷ rest) key.now }
{
    if done < key.len() {
        next.cmp(&key[done])
    } else {
        Ordering::Greater
    }
}

/// How the text that the string from `start` to `end`, both quotes included, denotes compares
/// with the key, byte by byte.
///
/// `"b"`, `"\u0062"` and `"ab"` are `Greater` than the key `a`, and `""` is `Less`. It takes no
/// memory.
pub fn compare_key(text: &[u8], start: usize, end: usize, key: &str) -> Ordering
    requires { (b : List ℕ) × IsString strict text.now start end b }
    ensures { (b : List ℕ) → IsString strict text.now start end b
        → result ≡ slice_cmp nat_cmp b key.now }
{
    let key = key.as_bytes();
    let mut place = start + 1;
    let mut done = 0;
    'chars: loop {
        let same = common_len(&text[place..end - 1], &key[done..]);
        place += same;
        done += same;
        if place + 1 == end {
            return done.cmp(&key.len());
        }
        let byte = text[place];
        if byte != b'\\' {
            return byte_order(key, done, byte);
        }
        let (code, next) = escape_at(text, place);
        let mut buffer = [0; 4];
        let count = codepoint_to_utf8(code, &mut buffer);
        if !goes_on(key, done, &buffer[..count]) {
            return piece_order(key, done, &buffer[..count]);
        }
        done += count;
        place = next;
    }
}

/// Whether the string from `start` to `end`, both quotes included, denotes the key.
///
/// Chars are compared, and not how they are written (RFC 8259, section 8.3): both `"a"` and
/// `"\u0061"` are the same key as `a`. It takes no memory.
pub fn same_key(text: &[u8], start: usize, end: usize, key: &str) -> bool
    requires { (b : List ℕ) × IsString strict text.now start end b }
    ensures { IsTrue result ↔ IsString strict text.now start end key.now }
{
    compare_key(text, start, end, key).is_eq()
}
