// Pointers (RFC 6901).
ghost use Rattle.std.specs.Prelude.{◌≡◌, ◌<◌, ◌≤◌, ◌^◌, ℕ, List, IfOk, IfSome, None, length, string_bytes, IsTrue, IsFalse};
ghost use Rattle.std.proofs.Props.{props};
ghost use Rattle.std.specs.List.{All};
ghost use Rattle.std.specs.Str.{IsUtf8};
ghost use Rattle.sonic_patch.specs.Pointers.{pieces, Token, SaysToken, AreTokens, SaysTokens, SaysFewTokens};
ghost use Rattle.sonic_patch.specs.Internal.Pieces.{IsTokenText, IsReadBy, SayTokens};
ghost use Rattle.sonic_patch.specs.Internal.Judged.{IsBeginning, IsFirstPiece, IsFit};

use sonic_input::FastStr;
use std::alloc::{AllocError, Global};

// The most tokens of a pointer.
const MAX_TOKENS: usize = 255;

// What a text is as a pointer.
#[derive(Clone, Copy, PartialEq, Eq, Debug)]
pub(crate) enum Fit {
    Fits,
    TooLong,
    Bad,
}

// How the rest of a piece begins.
#[derive(Clone, Copy)]
pub(crate) enum Beginning<'t> {
    // No escape is in it.
    Plain,
    // Up to the first escape it is plain, the escape stands for a char, and more follows.
    Escape(&'t str, char, &'t str),
    // A tilde comes that begins no escape.
    Bad,
}

pub(crate) fn begins(rest: &str) -> Beginning<'_>
    ensures { IsBeginning rest.now result }
{
    let Some((plain, behind)) = rest.split_once('~') else {
        return Beginning::Plain;
    };
    if let Some(more) = behind.strip_prefix('1') {
        return Beginning::Escape(plain, '/', more);
    }
    match behind.strip_prefix('0') {
        Some(more) => Beginning::Escape(plain, '~', more),
        None => Beginning::Bad,
    }
}

// Whether a piece is a token.
pub(crate) fn is_token(piece: &str) -> bool
    ensures yes { IsTrue result → IsTokenText piece.now }
    ensures no { IsFalse result → ¬ IsTokenText piece.now }
{
    let mut rest = piece;
    'escapes: loop {
        match begins(rest) {
            Beginning::Plain => return true,
            Beginning::Escape(_, _, more) => rest = more,
            Beginning::Bad => return false,
        }
    }
}

// The token that a piece says.
pub(crate) fn token(alloc: Global, piece: &str) -> Result<String, AllocError>
    requires { IsTokenText piece.now }
    ensures { IfOk result (λ made. SaysToken piece.now (string_bytes made)) }
{
    let mut made = String::new(alloc);
    let mut rest = piece;
    'escapes: while let Beginning::Escape(plain, c, more) = begins(rest) {
        made.push_str(plain)?;
        made.push(c)?;
        rest = more;
    }
    made.push_str(rest)?;
    Ok(made)
}

// The piece that a text begins with, up to the first slash.
#[derive(Clone, Copy)]
pub(crate) enum Piece<'t> {
    // No slash comes: it is all of the text.
    Last,
    // One comes, and then more.
    Before(&'t str, &'t str),
}

fn first_piece(rest: &str) -> Piece<'_>
    ensures { IsFirstPiece rest.now result }
{
    match rest.split_once('/') {
        Some((piece, behind)) => Piece::Before(piece, behind),
        None => Piece::Last,
    }
}

// How many tokens the pieces between slashes say, if each says one.
fn token_count(text: &str) -> Option<usize>
    requires { length text.now < 2 ^ 63 }
    ensures some { IfSome result (SayTokens (pieces text.now)) }
    ensures none { result ≡ None → (tokens : List Token) → ¬ AreTokens (pieces text.now) tokens }
{
    let mut rest = text;
    let mut count = 0;
    'pieces: while let Piece::Before(piece, behind) = first_piece(rest) {
        if !is_token(piece) {
            return None;
        }
        count += 1;
        rest = behind;
    }
    if is_token(rest) {
        Some(count + 1)
    } else {
        None
    }
}

// What a text is as a pointer. No memory is taken.
pub(crate) fn fit_of(text: &str) -> Fit
    ensures { IsFit text.now result }
{
    let Some(behind) = text.strip_prefix('/') else {
        return if text.is_empty() { Fit::Fits } else { Fit::Bad };
    };
    match token_count(behind) {
        None => Fit::Bad,
        Some(count) if count > MAX_TOKENS => Fit::TooLong,
        Some(_) => Fit::Fits,
    }
}

// The token that a piece says, shared.
fn shared(alloc: Global, piece: &str) -> Result<FastStr, AllocError>
    requires { IsTokenText piece.now }
    ensures { IfOk result (SaysToken piece.now) }
{
    let made = token(alloc, piece)?;
    match FastStr::new(alloc, made.as_str()) {
        Ok(shared) => Ok(shared),
        Err(_) => Err(AllocError),
    }
}

// The tokens that a text between slashes says.
fn tokens_between(alloc: Global, text: &str) -> Result<Vec<FastStr>, AllocError>
    requires { (tokens : List Token) × AreTokens (pieces text.now) tokens }
    ensures { IfOk result (λ made. AreTokens (pieces text.now) made.items) }
{
    let mut tokens = Vec::new(alloc);
    let mut rest = text;
    'pieces: while let Piece::Before(piece, behind) = first_piece(rest) {
        tokens.push(shared(alloc, piece)?)?;
        rest = behind;
    }
    tokens.push(shared(alloc, rest)?)?;
    Ok(tokens)
}

// The tokens that a pointer says.
fn tokens_said(alloc: Global, text: &str) -> Result<Vec<FastStr>, AllocError>
    requires { IsReadBy SaysTokens text.now }
    ensures { IfOk result (λ made. SaysTokens text.now made.items) }
{
    match text.strip_prefix('/') {
        Some(behind) => tokens_between(alloc, behind),
        None => Ok(Vec::new(alloc)),
    }
}

/// A pointer (RFC 6901): a list of tokens, unescaped. It has at most 255 of them.
#[derive(Drop)]
pub struct Pointer {
    pub(crate) tokens: Vec<FastStr>,
    ghost few: { length tokens.items ≤ 255 },
    ghost keys: { All IsUtf8 tokens.items } by { Prim.hlevel props },
}

impl Pointer {
    ghost use Rattle.sonic_patch.specs.Views.{tokens_of};

    // The pointer that a text says, which fits.
    pub(crate) fn read(alloc: Global, text: &str) -> Result<Pointer, AllocError>
        requires { IsReadBy SaysFewTokens text.now }
        ensures { IfOk result (λ pointer. SaysFewTokens text.now (tokens_of pointer)) }
    {
        let tokens = tokens_said(alloc, text)?;
        Ok(Pointer { tokens })
    }
}
