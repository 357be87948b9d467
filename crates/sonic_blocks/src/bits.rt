// Escapes and strings in a block of 64 bytes, and what carries over to the next block.
ghost use Rattle.std.specs.Prelude.{◌≡◌, ℕ, ◌+◌, ◌<◌, ◌≤◌, ◌⊎◌, ◌%◌, if◌then◌else◌, false, MatchOption};
ghost use Rattle.sonic_blocks.specs.Bits.{is_set, is_odd, count_below, is_escaped, is_inside, IsNextBit};

// The bits with an even number.
const EVEN_BITS: u64 = 0x5555_5555_5555_5555;

/// The parity of all bits up to each bit: bit k is set exactly where an odd number of the bits 0 to
/// k are.
///
/// Where the bits are the quotes of a text, the answer is the bytes that are inside a string, the
/// opening quote with it: `prefix_xor(18)`, of the bits 1 and 4, is 14.
#[inline(always)]
pub fn prefix_xor(bitmask: u64) -> u64
    ensures { (k : ℕ) → k < 64 → is_set result k ≡ is_odd (count_below (is_set bitmask) 0 (k + 1)) }
{
    let mut parity = bitmask;
    parity ^= parity << 1;
    parity ^= parity << 2;
    parity ^= parity << 4;
    parity ^= parity << 8;
    parity ^= parity << 16;
    parity ^= parity << 32;
    parity
}

/// The bytes that a backslash escapes, where the bits are the backslashes of 64 bytes (RFC 8259,
/// section 7): a byte is escaped where an odd number of backslashes comes directly before it.
///
/// `prev_escaped` is 1 where the first of the bytes is escaped by the block before, and becomes 1
/// exactly where the first byte of the next block is. Of the backslashes 7, the first three bytes,
/// the bytes 1 and 3 are escaped: the answer is 10.
#[inline(always)]
pub fn get_escaped(prev_escaped: &mut u64, backslash: u64) -> u64
    requires { prev_escaped.old < 2 }
    ensures bits { (k : ℕ) → k < 64
        → is_set result k ≡ is_escaped (is_set backslash) prev_escaped.old k }
    ensures carry { prev_escaped.new
        ≡ (if is_escaped (is_set backslash) prev_escaped.old 64 then 1 else 0) }
{
    if backslash == 0 {
        return std::mem::replace(prev_escaped, 0);
    }
    // A backslash that is itself escaped by the block before escapes nothing.
    let live = backslash & !*prev_escaped;
    let follows = (live << 1) | *prev_escaped;
    // Adding the first backslash of each run that begins at an odd bit clears that run, and sets
    // the bit after it.
    let odd_starts = live & !EVEN_BITS & !follows;
    let (runs_from_even_bits, overflow) = odd_starts.overflowing_add(live);
    *prev_escaped = overflow as u64;
    (EVEN_BITS ^ (runs_from_even_bits << 1)) & follows
}

/// The bytes that are inside a string, the opening quote with it and the closing one not, where the
/// bits are the backslashes and the quotes of 64 bytes.
///
/// `prev_instring` is `u64::MAX` where the bytes before end inside a string, and 0 otherwise;
/// `prev_escaped` is as in [`get_escaped`]. Both become what the next block is to be given. Of the
/// quotes 34, the bytes 1 and 5, the answer is 30.
#[inline(always)]
pub fn get_string_bits(
    backslash: u64,
    quote: u64,
    prev_instring: &mut u64,
    prev_escaped: &mut u64,
) -> u64
    requires instring { (prev_instring.old ≡ 0) ⊎ (prev_instring.old ≡ u64.MAX) }
    requires escaped { prev_escaped.old < 2 }
    ensures bits { (k : ℕ) → k < 64 → is_set result k
        ≡ is_inside (is_set backslash) (is_set quote) prev_escaped.old (prev_instring.old % 2) k }
    ensures instring { prev_instring.new
        ≡ (if is_inside (is_set backslash) (is_set quote) prev_escaped.old (prev_instring.old % 2) 63
        then u64.MAX else 0) }
    ensures escaped { prev_escaped.new
        ≡ (if is_escaped (is_set backslash) prev_escaped.old 64 then 1 else 0) }
{
    let escaped = get_escaped(prev_escaped, backslash);
    let inside = prefix_xor(quote & !escaped) ^ *prev_instring;
    *prev_instring = 0u64.wrapping_sub(inside >> 63);
    inside
}

/// The lowest bit from `from` on that is set, or `None` where there is none.
///
/// Of 34, the bits 1 and 5, the next one from 2 on is 5.
#[inline(always)]
pub fn next_bit(bits: u64, from: usize) -> Option<usize>
    requires { from < 64 }
    ensures { MatchOption result ((k : ℕ) → from ≤ k → k < 64 → is_set bits k ≡ false) (IsNextBit bits from) }
{
    let left = bits & (u64::MAX << from);
    if left == 0 {
        None
    } else {
        Some(left.trailing_zeros() as usize)
    }
}
