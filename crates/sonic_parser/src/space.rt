// White space by blocks, of which the last one is kept.
ghost use Rattle.std.specs.Prelude.{◌≡◌, ℕ, ◌+◌, ◌^◌, ◌<◌, ◌≤◌, List, length, MatchOption, IfSome, IfNone};
ghost use Rattle.sonic_text.specs.Places.{byte, after_space, is_space};
ghost use Rattle.sonic_parser.specs.Internal.Spaces.{AreWords, IsKeptBlock};

use sonic_blocks::{get_nonspace_bits, next_bit};
use sonic_text::skip_space;

// The bytes of 64 that are no white space, and where these bytes begin.
#[derive(Clone, Copy, Drop)]
pub(crate) struct SpaceBlock {
    start: usize,
    words: u64,
}

// The block that begins at a place, where there are 64 bytes.
fn block_at(text: &[u8], start: usize) -> Option<SpaceBlock>
    requires { start ≤ length text.now }
    ensures is { IfSome result (AreWords text.now) }
    ensures start { IfSome result (λ block. block.start ≡ start) }
{
    let bytes = text[start..].first_chunk::<64>()?;
    let words = get_nonspace_bits(bytes);
    Some(SpaceBlock { start, words })
}

impl SpaceBlock {
    // The first place from a place in the block on that holds no white space, if it is in the block.
    fn next_word(self, place: usize) -> Option<usize>
        requires inside { (self.start ≤ place) × (place < self.start + 64) }
        requires room { self.start < 2 ^ 63 }
        ensures end { (t : List ℕ) → AreWords t self → MatchOption result
            (after_space t place ≡ after_space t (self.start + 64))
            (λ word. word ≡ after_space t place) }
        ensures within { IfSome result (λ word. word < self.start + 64) }
    {
        let word = next_bit(self.words, place - self.start)?;
        Some(self.start + word)
    }
}

// The first place from a place on that holds no white space, or the end. The block that is kept is
// used where the place is in it, and else the last whole one that is looked at is kept.
pub(crate) fn words_from(text: &[u8], place: usize, kept: &mut Option<SpaceBlock>) -> usize
    requires place { place ≤ length text.now }
    requires kept { IsKeptBlock text.now kept.old }
    ensures end { result ≡ after_space text.now place }
    ensures within { result ≤ length text.now }
    ensures kept { IsKeptBlock text.now kept.new }
{
    let mut at = place;
    if let Some(block) = *kept
        && block.start <= at
        && at - block.start < 64
    {
        if let Some(word) = block.next_word(at) {
            return word;
        }
        at = block.start + 64;
    }
    while let Some(block) = block_at(text, at) {
        *kept = Some(block);
        if let Some(word) = block.next_word(at) {
            return word;
        }
        at += 64;
    }
    skip_space(text, at)
}
