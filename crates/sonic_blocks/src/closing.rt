// Where a container ends among the brackets of a block.
ghost use Rattle.std.specs.Prelude.{◌≡◌, ℕ, ◌^◌, ◌<◌, true, false, MatchOption};
ghost use Rattle.sonic_blocks.specs.Bits.{is_set};
ghost use Rattle.sonic_blocks.specs.Closings.{StaysOpen, IsClosingBit};

/// The lowest bit of `closes` at which all is closed: up to it `closes` has as many bits as `opens`,
/// and `depth` more. `None` where no bit does so.
///
/// The bits are the brackets that open and those that close, and `depth` tells how many are open
/// before them. In `}[{}]}}` the braces open at 2 and close at 0, 3, 5 and 6; where two are open
/// before, all are closed at 5: `closing_bit(4, 0x69, 2)` is 5.
#[inline(always)]
pub fn closing_bit(opens: u64, closes: u64, depth: usize) -> Option<u32>
    requires apart { (k : ℕ) → k < 64 → is_set opens k ≡ true → is_set closes k ≡ false }
    requires room { depth < 2 ^ 63 }
    ensures { MatchOption result
        ((k : ℕ) → k < 64 → StaysOpen opens closes depth k)
        (λ z. IsClosingBit opens closes depth z) }
{
    if (closes.count_ones() as usize) < depth {
        return None;
    }
    let mut rest = closes;
    let mut closed = 0;
    while rest != 0 {
        closed += 1;
        let opened = depth + (opens & (rest - 1)).count_ones() as usize;
        if opened == closed {
            return Some(rest.trailing_zeros());
        }
        rest &= rest - 1;
    }
    None
}
