// The rows of a stream, as plain as it gets: byte by byte, and each line by a walk of its own.
use sonic_error::{Category, Error, ErrorCode};
use sonic_find::{PathOutcome, Span, find_each, find_many};
use sonic_pointer::{KeyRule, PointerTree};
use std::alloc::{AllocError, Global};

// The word of an error's family.
fn word(category: Category) -> &'static str {
    match category {
        Category::Io => "io",
        Category::Syntax => "syntax",
        Category::TypeUnmatched => "type",
        Category::NotFound => "not-found",
        Category::Eof => "eof",
        Category::Memory => "memory",
    }
}

// Whether a line has nothing but white space in it.
fn is_blank(line: &[u8]) -> bool {
    for &byte in line {
        if !b" \t\r".contains(&byte) {
            return false;
        }
    }
    true
}

// The name of a code.
fn name(alloc: Global, code: ErrorCode) -> Result<String, AllocError> {
    match code {
        ErrorCode::Message(_) => format!(in alloc; "Message"),
        code => format!(in alloc; "{code:?}"),
    }
}

// The row of where the paths lead in a line.
fn entries(alloc: Global, line: &[u8], told: &[PathOutcome<Span>]) -> Result<Vec<u8>, AllocError> {
    let mut row = Vec::new(alloc);
    let mut separator = "";
    for outcome in told {
        row.extend_from_slice(separator.as_bytes())?;
        match outcome {
            PathOutcome::Found(span) => {
                let text = line.get(span.start..span.end).unwrap_or(b"");
                row.extend_from_slice(format!(in alloc; "{} ", text.len())?.as_bytes())?;
                row.extend_from_slice(text)?;
            }
            PathOutcome::Missing(_) => row.push(b'-')?,
            PathOutcome::Fails(stop) => {
                row.push(b'!')?;
                row.extend_from_slice(name(alloc, stop.code)?.as_bytes())?;
            }
        }
        separator = "\t";
    }
    row.push(b'\n')?;
    Ok(row)
}

// The row of an error.
fn refusal(alloc: Global, number: usize, error: &Error) -> Result<Vec<u8>, AllocError> {
    let (word, offset) = (word(error.classify()), error.offset());
    let code = name(alloc, error.code())?;
    let row = format!(in alloc; "! {number} {word} {code} {offset}\n")?;
    let mut bytes = Vec::new(alloc);
    bytes.extend_from_slice(row.as_bytes())?;
    Ok(bytes)
}

// What the slots of paths tell of which none fails.
fn told_of(alloc: Global, slots: &[Option<Span>]) -> Result<Vec<PathOutcome<Span>>, AllocError> {
    let mut told = Vec::new(alloc);
    for slot in slots {
        told.push(match slot {
            Some(span) => PathOutcome::Found(*span),
            None => PathOutcome::Missing(0),
        })?;
    }
    Ok(told)
}

// The row of a line.
fn plain_row(
    alloc: Global,
    tree: &PointerTree,
    each: bool,
    number: usize,
    line: &[u8],
) -> Result<Vec<u8>, AllocError> {
    if is_blank(line) {
        return Ok(Vec::new(alloc));
    }
    let mut slots = vec![in alloc; None; tree.size()]?;
    let told = if each {
        find_each(alloc, line, tree, KeyRule::First)
    } else {
        match find_many(alloc, line, tree, slots.as_mut_slice()) {
            Ok(()) => Ok(told_of(alloc, &slots)?),
            Err(error) => Err(error),
        }
    };
    match told {
        Ok(told) => entries(alloc, line, &told),
        Err(error) => refusal(alloc, number, &error),
    }
}

// The rows of a stream, with what the paths are told together or each by itself.
pub(crate) fn plain_rows(
    alloc: Global,
    tree: &PointerTree,
    each: bool,
    stream: &[u8],
) -> Result<Vec<u8>, AllocError> {
    let mut rows = Vec::new(alloc);
    let mut line = Vec::new(alloc);
    let mut number: usize = 1;
    for &byte in stream {
        if byte == b'\n' {
            rows.extend_from_slice(&plain_row(alloc, tree, each, number, &line)?)?;
            line.clear();
            number = number.saturating_add(1);
        } else {
            line.push(byte)?;
        }
    }
    rows.extend_from_slice(&plain_row(alloc, tree, each, number, &line)?)?;
    Ok(rows)
}
