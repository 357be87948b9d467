// Strings, each a text by itself.
ghost use Rattle.std.specs.Prelude.{◌≡◌, ℕ, List, Option, IfOk, IsTrue};
ghost use Rattle.sonic_patch.specs.Internal.Walks.{IsKeyLabel, IsWord};

use sonic_text::unescape_into;
use std::alloc::{AllocError, Global};

// The bytes that a string denotes.
pub(crate) fn denoted(alloc: Global, word: &[u8]) -> Result<Vec<u8>, AllocError>
    requires { (b : List ℕ) × IsWord word.now b }
    ensures { IfOk result (λ bytes. IsWord word.now bytes.items) }
{
    let mut bytes = Vec::new(alloc);
    match unescape_into(&mut bytes, word, 0, word.len(), false) {
        Ok(_) => Ok(bytes),
        Err(_) => Err(AllocError),
    }
}

// Whether two strings denote the same bytes.
pub(crate) fn same_words(alloc: Global, one: &[u8], other: &[u8]) -> Result<bool, AllocError>
    requires one { (b : List ℕ) × IsWord one.now b }
    requires other { (b : List ℕ) × IsWord other.now b }
    ensures { IfOk result (λ same. IsTrue same → (b d : List ℕ) → IsWord one.now b → IsWord other.now d → b ≡ d) }
{
    if one == other {
        return Ok(true);
    }
    let bytes = denoted(alloc, one)?;
    let others = denoted(alloc, other)?;
    Ok(bytes == others)
}

// Whether two labels are equal: the same key, or none.
pub(crate) fn same_keys(
    alloc: Global,
    one: Option<&[u8]>,
    other: Option<&[u8]>,
) -> Result<bool, AllocError>
    requires one { (l : Option (List ℕ)) × IsKeyLabel one l }
    requires other { (l : Option (List ℕ)) × IsKeyLabel other l }
    ensures { IfOk result (λ same. IsTrue same → (l k : Option (List ℕ)) → IsKeyLabel one.entry l → IsKeyLabel other.entry k → l ≡ k) }
{
    match one {
        None => Ok(other.is_none()),
        Some(one) => match other {
            None => Ok(false),
            Some(other) => same_words(alloc, one, other),
        },
    }
}
