// The text of a document over lines, from mark to mark, in room for as many bytes as it has.
ghost use Rattle.std.specs.Prelude.{◌≡◌, ◌⊎◌, ℕ, ◌+◌, ◌-◌, ◌<◌, ◌≤◌, [], length, true, false, slice_range, string_bytes, IfOk, IfErr, OnOk};
ghost use Rattle.sonic_error.specs.Errors.{IsPlainError};
ghost use Rattle.sonic_text.specs.Places.{byte, is_space, after_space};
ghost use Rattle.sonic_text.specs.Strings.{strict};
ghost use Rattle.sonic_text.specs.Values.{opening};
ghost use Rattle.sonic_parser.specs.Honest.{IsHonest};
ghost use Rattle.sonic_find.specs.Documents.{IsInvalidError, IsValidDocument};
ghost use Rattle.sonic_min.specs.Internal.Lines.{IsLaidTo, IsWideOutput};
ghost use Rattle.sonic_min.specs.Internal.Marks.{AreMarksAt, HasNoMark, IsNextMark, IsNoSpace, IsToken};
ghost use Rattle.sonic_min.specs.Internal.Outputs.{Adds, IsMade};
ghost use Rattle.sonic_min.specs.Texts.{IsWideText};

use crate::marks::block_at;
use crate::output::{Output, SLACK, sum};
use crate::room::wide_length;
use sonic_blocks::{get_string_bits, next_bit};
use sonic_error::{Error, ErrorCode, Result};
use sonic_find::validate;
use sonic_input::JsonInput;
use sonic_parser::Fault;
use sonic_text::{Kind, byte_at, skip_space};
use std::alloc::Global;

// How far the text of a document is made.
#[derive(Clone, Copy)]
struct Progress {
    // The place from which on it isn't.
    start: usize,
    // How many blanks a line begins with there.
    blanks: usize,
}

// The marks of a block of 64 bytes: its brackets, commas and colons outside strings.
#[derive(Clone, Copy)]
struct Marks {
    place: usize,
    bits: u64,
}

// Whether a byte is white space.
#[inline(always)]
fn is_blank(byte: u8) -> bool
    ensures { result ≡ is_space byte }
{
    byte <= b' ' && matches!(byte, b' ' | b'\t' | b'\n' | b'\r')
}

// The end of what is from one place to another without the white space after it.
#[inline(always)]
fn token_end(text: &[u8], first: usize, end: usize) -> usize
    requires order { first ≤ end }
    requires within { end ≤ length text.now }
    ensures order { (first ≤ result) × (result ≤ end) }
    ensures spaces { (k : ℕ) → result ≤ k → k < end → is_space (byte text.now k) ≡ true }
    ensures last { first < result → is_space (byte text.now (result - 1)) ≡ false }
{
    let mut last = end;
    while first < last && is_blank(text[last - 1]) {
        last -= 1;
    }
    last
}

// Makes the text of what is from one place to another without the white space round it.
#[inline(always)]
fn put_token(
    text: &[u8],
    start: usize,
    end: usize,
    out: &mut Output,
) -> std::result::Result<(), Fault>
    requires order { start ≤ end }
    requires within { end ≤ length text.now }
    requires stop { IsNoSpace text.now end }
    ensures ok { OnOk result ((i j : ℕ) → IsToken text.now start end i j
        → Adds out.old (slice_range text.now i j) out.new) }
    ensures memory { IfErr result (λ fault. fault ≡ Fault.OutOfMemory) }
{
    let first = skip_space(text, start);
    let last = token_end(text, first, end);
    out.span(&text[first..], last - first)?;
    Ok(())
}

// The kind of the container that begins at a place.
#[inline(always)]
fn opened_at(text: &[u8], place: usize) -> Kind
    requires { (byte text.now place ≡ 91) ⊎ (byte text.now place ≡ 123) }
    ensures { byte text.now place ≡ opening result }
{
    if byte_at(text, place) == b'[' {
        Kind::Array
    } else {
        Kind::Object
    }
}

// Makes what begins with the bracket that opens a container at a place: of an empty one it is its two
// brackets, and else the bracket, and a line for the first part.
#[inline(always)]
fn open(
    text: &[u8],
    place: usize,
    so_far: Progress,
    out: &mut Output,
    width: usize,
) -> std::result::Result<Progress, Fault>
    requires next { IsNextMark text.now so_far.start place }
    requires bracket { (byte text.now place ≡ 91) ⊎ (byte text.now place ≡ 123) }
    requires laid { IsLaidTo text.now width out.old so_far }
    ensures laid { IfOk result (IsLaidTo text.now width out.new) }
    ensures later { IfOk result (λ reached. place < reached.start) }
    ensures memory { IfErr result (λ fault. fault ≡ Fault.OutOfMemory) }
{
    let kind = opened_at(text, place);
    let first = skip_space(text, place + 1);
    if byte_at(text, first) == kind.closing() {
        out.pair(kind.opening(), kind.closing())?;
        return Ok(Progress {
            start: first + 1,
            blanks: so_far.blanks,
        });
    }
    let blanks = sum(so_far.blanks, width)?;
    out.byte_line(kind.opening(), blanks)?;
    Ok(Progress {
        start: place + 1,
        blanks,
    })
}

// Makes the text up to the mark at a place, and that of the mark.
#[inline(always)]
fn mark(
    text: &[u8],
    place: usize,
    so_far: Progress,
    out: &mut Output,
    width: usize,
) -> std::result::Result<Progress, Fault>
    requires next { IsNextMark text.now so_far.start place }
    requires laid { IsLaidTo text.now width out.old so_far }
    ensures laid { IfOk result (IsLaidTo text.now width out.new) }
    ensures later { IfOk result (λ reached. place < reached.start) }
    ensures memory { IfErr result (λ fault. fault ≡ Fault.OutOfMemory) }
{
    let byte = text[place];
    // Most marks are commas.
    if byte == b',' {
        let blanks = so_far.blanks;
        put_token(text, so_far.start, place, out)?;
        out.byte_line(b',', blanks)?;
        return Ok(Progress {
            start: place + 1,
            blanks,
        });
    }
    if byte == b'[' || byte == b'{' {
        return open(text, place, so_far, out, width);
    }
    put_token(text, so_far.start, place, out)?;
    let start = place + 1;
    if byte == b':' {
        let blanks = so_far.blanks;
        out.pair(b':', b' ')?;
        return Ok(Progress { start, blanks });
    }
    let blanks = so_far.blanks - width;
    out.line_byte(blanks, byte)?;
    Ok(Progress { start, blanks })
}

// Makes the text up to the last mark of a block.
#[inline(always)]
fn pass_block(
    text: &[u8],
    marks: Marks,
    so_far: Progress,
    out: &mut Output,
    width: usize,
) -> std::result::Result<Progress, Fault>
    requires place { marks.place < length text.now }
    requires marks { AreMarksAt text.now marks.place marks.bits }
    requires none { HasNoMark text.now so_far.start marks.place }
    requires laid { IsLaidTo text.now width out.old so_far }
    ensures laid { IfOk result (IsLaidTo text.now width out.new) }
    ensures none { IfOk result (λ reached. HasNoMark text.now reached.start (marks.place + 64)) }
    ensures memory { IfErr result (λ fault. fault ≡ Fault.OutOfMemory) }
{
    let mut so_far = so_far;
    'marks: while so_far.start < marks.place + 64 {
        let from = so_far.start.saturating_sub(marks.place);
        let Some(k) = next_bit(marks.bits, from) else {
            return Ok(so_far);
        };
        so_far = mark(text, marks.place + k, so_far, out, width)?;
    }
    Ok(so_far)
}

// Makes the text of a document, of which nothing is made yet.
#[inline(always)]
fn lay_out(text: &[u8], out: &mut Output, width: usize) -> std::result::Result<(), Fault>
    requires valid { IsValidDocument text.now }
    requires nothing { IsMade out.old [] }
    ensures ok { OnOk result (IsWideOutput text.now width out.new) }
    ensures memory { IfErr result (λ fault. fault ≡ Fault.OutOfMemory) }
{
    let (mut in_string, mut in_escape) = (0, 0);
    let mut so_far = Progress {
        start: 0,
        blanks: 0,
    };
    let mut place = 0;
    while place < text.len() {
        let block = block_at(text, place);
        let inside = get_string_bits(block.backslash, block.quote, &mut in_string, &mut in_escape);
        let bits = block.structurals & !inside;
        so_far = pass_block(text, Marks { place, bits }, so_far, out, width)?;
        place += 64;
    }
    put_token(text, so_far.start, text.len(), out)?;
    Ok(())
}

// The text of a document: its bytes are counted before there is room for it.
fn text_of(alloc: Global, text: &[u8], width: usize) -> std::result::Result<Vec<u8>, Fault>
    requires valid { IsValidDocument text.now }
    ensures ok { IfOk result (λ bytes. IsWideText text.now width bytes.items) }
    ensures memory { IfErr result (λ fault. fault ≡ Fault.OutOfMemory) }
{
    let room = sum(wide_length(text, width), SLACK)?;
    let mut out = Output {
        bytes: vec![in alloc; 0u8; room]?,
        count: 0,
    };
    lay_out(text, &mut out, width)?;
    out.bytes.truncate(out.count);
    Ok(out.bytes)
}

/// The text of a document over lines: a line for each part of an array or object, `width` blanks further
/// in for each that it is in (RFC 8259, section 2).
///
/// An opening bracket ends its line, and the closing bracket has a line of its own; an empty container is
/// `[]` or `{}`, and after the colon of a key there is one blank. Scalars and keys keep their bytes,
/// members their order and their repeats. No line feed ends the text. It refuses as `validate` does: the
/// error is the reason why the text is no valid document, or that memory ran out.
///
/// Of `{"a":[1,{}],"b":[]}` with a width of 2 it is
///
/// ```text
/// {
///   "a": [
///     1,
///     {}
///   ],
///   "b": []
/// }
/// ```
///
/// The text may have many more bytes than the input: of n arrays in each other some `width` times the
/// square of n. So its bytes are counted first, and room for them is taken once.
pub fn indent<'de, I: JsonInput<'de>>(alloc: Global, json: I, width: usize) -> Result<String>
    requires { width ≤ 8 }
    ensures ok { IfOk result (λ made.
        IsWideText (I.JsonInput.content json) width (string_bytes made)) }
    ensures valid { OnOk result (IsValidDocument (I.JsonInput.content json)) }
    ensures err { IfErr result (λ error.
        IsInvalidError (I.JsonInput.content json) I.JsonInput.is_bytes error) }
    ensures complete { IsValidDocument (I.JsonInput.content json)
        → IfErr result (λ error. IsPlainError error ErrorCode.NoMemory) }
    ensures honest { IfErr result (IsHonest strict (I.JsonInput.content json) 0) }
{
    validate(alloc, json)?;
    match text_of(alloc, json.to_u8_slice(), width) {
        // SAFETY: the wide text of a valid document is UTF-8.
        Ok(bytes) => Ok(unsafe { String::from_utf8_unchecked(bytes) }),
        // A valid document has no fault: memory ran out.
        Err(_) => Err(Error::plain(ErrorCode::NoMemory)),
    }
}
