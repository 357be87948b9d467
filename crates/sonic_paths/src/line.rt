// One path line.
ghost use Rattle.std.specs.Prelude.{◌≡◌, ◌⊎◌, ℕ, List, string_bytes, None, IfOk, IfSome, IsUtf8};
ghost use Rattle.sonic_text.specs.Places.{byte, IsDigit};
ghost use Rattle.sonic_text.specs.Paths.{Path};
ghost use Rattle.sonic_text.specs.Strings.{IsString, strict};
ghost use Rattle.sonic_parser.specs.Parsers.{moved};
ghost use Rattle.sonic_paths.specs.Lines.{IsNodeLine};
ghost use Rattle.sonic_paths.specs.Internal.Reading.{IsNodeRead, IsArrayRead};

use sonic_input::Read;
use sonic_parser::{Fault, Parser};
use sonic_pointer::{MAX_NODES, OwnedNode, OwnedPath};
use sonic_text::{Kind, byte_at, whole_u64};
use std::alloc::{AllocError, Global};

/// The path that a line says, or `None` where it says none. A line ends before its line feed.
///
/// A line is a JSON text in UTF-8 (RFC 8259, section 2): an array of at most 255 strings and
/// numbers, with white space around it. A string is a key, unescaped; surrogate escapes are in
/// pairs (RFC 7493, section 2.1). A number is an index, and has no sign, no fraction and no
/// exponent, and fits in a `usize`.
///
/// So `["a", 12]` says the path of the key `a` and the index 12, and `[]` the path of no node.
/// `[-0]`, `[1.0]`, `[[1]]` and `[1] x` say none. The only error is that memory ran out, and only
/// the path takes any.
pub fn path_of_line(alloc: Global, line: &[u8]) -> Result<Option<OwnedPath>, AllocError>
    ensures some { IfOk result (λ found. IfSome found (λ path. IsNodeLine line.now path)) }
    ensures none { IfOk result (λ found. found ≡ None → (path : Path) → ¬ IsNodeLine line.now path) }
{
    let Ok(text) = simdutf8::compat::from_utf8(line) else {
        return Ok(None);
    };
    let mut parser = Parser::new(Read::from(text));
    parser.skip_space_peek();
    if byte_at(parser.text(), parser.offset()) != b'[' {
        return Ok(None);
    }
    let Some(path) = node_array(alloc, &mut parser)? else {
        return Ok(None);
    };
    match parser.skip_space_peek() {
        None => Ok(Some(path)),
        Some(_) => Ok(None),
    }
}

// Passes the array at the cursor, if it says a path of at most `MAX_NODES` nodes.
#[tactic(auto, using(crate::proofs::LineNodes::nodes))]
fn node_array(alloc: Global, parser: &mut Parser<'_>) -> Result<Option<OwnedPath>, AllocError>
    requires utf8 { IsUtf8 parser.old.text }
    requires strictly { parser.old.lossy ≡ strict }
    requires bracket { byte parser.old.text parser.old.place ≡ 91 }
    ensures path { IfOk result (λ found. IsArrayRead parser.old parser.new found) }
    ensures moved { parser.new ≡ moved parser.old parser.new.place }
{
    let mut path = OwnedPath::new(alloc);
    if !parser.enter(Kind::Array) {
        return Ok(Some(path));
    }
    'nodes: while path.len() < MAX_NODES {
        let Some(node) = node(alloc, parser)? else {
            return Ok(None);
        };
        path.push(node)?;
        match parser.next_item(Kind::Array) {
            Ok(true) => {}
            Ok(false) => return Ok(Some(path)),
            Err(_) => return Ok(None),
        }
    }
    Ok(None)
}

// Passes the value at the cursor, if it says a node.
#[tactic(auto, using(crate::proofs::LineNodes::node_kinds))]
fn node(alloc: Global, parser: &mut Parser<'_>) -> Result<Option<OwnedNode>, AllocError>
    requires utf8 { IsUtf8 parser.old.text }
    requires strictly { parser.old.lossy ≡ strict }
    ensures node { IfOk result (λ found. IsNodeRead parser.old parser.new found) }
    ensures moved { parser.new ≡ moved parser.old parser.new.place }
{
    match byte_at(parser.text(), parser.offset()) {
        b'"' => key(alloc, parser),
        b'-' | b'0'..=b'9' => Ok(index(parser)),
        _ => Ok(None),
    }
}

// Passes the string at the cursor, if one is there, and gives its key.
fn key(alloc: Global, parser: &mut Parser<'_>) -> Result<Option<OwnedNode>, AllocError>
    requires utf8 { IsUtf8 parser.old.text }
    requires strictly { parser.old.lossy ≡ strict }
    requires quote { byte parser.old.text parser.old.place ≡ 34 }
    ensures node { IfOk result (λ found. IsNodeRead parser.old parser.new found) }
    ensures moved { parser.new ≡ moved parser.old parser.new.place }
{
    let string = match parser.skip_value(alloc) {
        Ok(string) => string,
        Err(Fault::OutOfMemory) => return Err(AllocError),
        Err(Fault::At(_)) => return Ok(None),
    };
    let key = string.owned_text(alloc, parser.text())?;
    Ok(Some(OwnedNode::Key(key)))
}

// Passes the number at the cursor, if one is there that is an index, and gives the index.
fn index(parser: &mut Parser<'_>) -> Option<OwnedNode>
    requires begins { (byte parser.old.text parser.old.place ≡ 45)
        ⊎ IsDigit (byte parser.old.text parser.old.place) }
    ensures node { IsNodeRead parser.old parser.new result }
    ensures moved { parser.new ≡ moved parser.old parser.new.place }
{
    let first = parser.skip_space()?;
    let Ok(word) = parser.skip_number(first) else {
        return None;
    };
    let number = whole_u64(word)?;
    Some(OwnedNode::Index(number as usize))
}
