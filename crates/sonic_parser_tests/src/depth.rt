// Values that are deeper than any stack.
use crate::same::same;
use sonic_error::{Error, ErrorCode};
use sonic_input::Read;
use sonic_parser::{ParseStatus, Parser};
use std::alloc::Global;
use std::process::Abort;
use std::test::Fail;

pub(crate) const DEPTH: usize = 100_000;

// So many openings one after the other, then the middle, then so many endings.
pub(crate) fn nested(
    alloc: Global,
    open: &[u8],
    middle: &[u8],
    close: &[u8],
    ends: usize,
) -> Result<Vec<u8>, Fail> {
    let mut text = Vec::new(alloc);
    for _ in 0..DEPTH {
        text.extend_from_slice(open)?;
    }
    text.extend_from_slice(middle)?;
    for _ in 0..ends {
        text.extend_from_slice(close)?;
    }
    Ok(text)
}

fn check_whole(rt: &impl Abort, alloc: Global, text: &[u8]) {
    let mut parser = Parser::new(Read::from(text));
    same(rt, parser.skip_one(alloc), Ok((text, ParseStatus::None)));
    same(rt, parser.offset(), text.len());
}

fn check_stop(rt: &impl Abort, alloc: Global, text: &[u8], back: usize, code: ErrorCode) {
    let mut parser = Parser::new(Read::from(text));
    assert!(rt; back <= text.len());
    let place = text.len() - back;
    same(
        rt,
        parser.skip_one(alloc),
        Err(Error::syntax(code, text, place)),
    );
    same(rt, parser.offset(), place);
}

#[test]
fn skips_deep_arrays(rt: HostRuntime) -> Result<(), Fail> {
    let alloc = rt.alloc();
    check_whole(&rt, alloc, &nested(alloc, b"[", b"", b"]", DEPTH)?);
    check_stop(
        &rt,
        alloc,
        &nested(alloc, b"[", b"", b"", 0)?,
        0,
        ErrorCode::EofWhileParsing,
    );
    check_stop(
        &rt,
        alloc,
        &nested(alloc, b"[", b"]", b"]", DEPTH - 2)?,
        0,
        ErrorCode::EofWhileParsing,
    );
    check_stop(
        &rt,
        alloc,
        &nested(alloc, b"[", b"}", b"]", DEPTH)?,
        DEPTH + 1,
        ErrorCode::InvalidJsonValue,
    );
    check_stop(
        &rt,
        alloc,
        &nested(alloc, b"[", b"1", b"}", 1)?,
        1,
        ErrorCode::ExpectedArrayCommaOrEnd,
    );
    Ok(())
}

#[test]
fn skips_deep_objects(rt: HostRuntime) -> Result<(), Fail> {
    let alloc = rt.alloc();
    check_whole(&rt, alloc, &nested(alloc, b"{\"\":", b"1", b"}", DEPTH)?);
    check_stop(
        &rt,
        alloc,
        &nested(alloc, b"{\"\":", b"", b"", 0)?,
        0,
        ErrorCode::EofWhileParsing,
    );
    check_stop(
        &rt,
        alloc,
        &nested(alloc, b"{\"\":", b"1", b"}", DEPTH - 1)?,
        0,
        ErrorCode::EofWhileParsing,
    );
    check_stop(
        &rt,
        alloc,
        &nested(alloc, b"{\"\":", b"}", b"}", DEPTH)?,
        DEPTH + 1,
        ErrorCode::InvalidJsonValue,
    );
    check_stop(
        &rt,
        alloc,
        &nested(alloc, b"{\"\":", b"1", b"]", 1)?,
        1,
        ErrorCode::ExpectedObjectCommaOrEnd,
    );
    Ok(())
}

#[test]
fn skips_deep_values_of_both_kinds(rt: HostRuntime) -> Result<(), Fail> {
    let alloc = rt.alloc();
    check_whole(&rt, alloc, &nested(alloc, b"[{\"\":", b"{}", b"}]", DEPTH)?);
    check_stop(
        &rt,
        alloc,
        &nested(alloc, b"[{\"\":", b"", b"", 0)?,
        0,
        ErrorCode::EofWhileParsing,
    );
    check_stop(
        &rt,
        alloc,
        &nested(alloc, b"[{\"\":", b"1", b"}]", DEPTH - 1)?,
        0,
        ErrorCode::EofWhileParsing,
    );
    check_stop(
        &rt,
        alloc,
        &nested(alloc, b"[{\"\":", b"1", b"]}", 1)?,
        2,
        ErrorCode::ExpectedObjectCommaOrEnd,
    );
    check_stop(
        &rt,
        alloc,
        &nested(alloc, b"[{\"\":", b"1}", b"}]", 1)?,
        2,
        ErrorCode::ExpectedArrayCommaOrEnd,
    );
    Ok(())
}
