// The text of a document without white space outside strings, as plain as it gets: byte by byte.
use std::alloc::{AllocError, Global};

// Where a byte is.
#[derive(Clone, Copy, PartialEq, Eq)]
enum At {
    Outside,
    Inside,
    Escaped,
}

// Where the byte after this one is.
fn after(at: At, byte: u8) -> At {
    match (at, byte) {
        (At::Outside, b'"') => At::Inside,
        (At::Outside, _) => At::Outside,
        (At::Inside, b'"') => At::Outside,
        (At::Inside, b'\\') => At::Escaped,
        (At::Inside, _) => At::Inside,
        (At::Escaped, _) => At::Inside,
    }
}

// The bytes of a text but white space outside strings.
pub(crate) fn plain_small(alloc: Global, text: &[u8]) -> Result<Vec<u8>, AllocError> {
    let mut small = Vec::new(alloc);
    let mut at = At::Outside;
    for &byte in text {
        if at != At::Outside || !b" \t\r\n".contains(&byte) {
            small.push(byte)?;
        }
        at = after(at, byte);
    }
    Ok(small)
}
