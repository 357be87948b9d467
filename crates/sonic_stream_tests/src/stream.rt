// A stream of records cut into pieces at each place.
use crate::same::same_at;
use sonic_stream::{NextRecord, RecordStream};
use std::alloc::Global;
use std::str;
use std::test::Fail;

// Records of all kinds, and wrong ones among them. Each wrong one ends with its line.
const STREAM: &str = concat!(
    "{\"a\": [1, {\"b\\\"]}\": null}], \"c\": {}}\n",
    "  12 -3.5e+7\ttrue []\"\\ud83d\\ude00 \\\\\"\r\n",
    "01 {\"lost\": 1}\n",
    "\"\\ud800\" 1\n",
    "[1,\n 2]\n",
    "trux 2\n",
    "{\"a\" 1}\n",
    "nullnull\n",
    "\"\u{e9}\" 7",
);

// What is next, until more bytes are needed: a line for each record and for each that is dropped.
fn read(alloc: Global, records: &mut RecordStream, lines: &mut String) -> Result<(), Fail> {
    for _ in 0..=records.held().len() {
        match records.next(alloc)? {
            NextRecord::Record { start, end } => {
                let place = records.before().saturating_add(start);
                let text = records.held().get(start..end).unwrap_or(b"");
                writeln!(
                    lines,
                    "{place} {}",
                    str::from_utf8(text).unwrap_or("no text")
                )?;
            }
            NextRecord::Wrong { place, code } => writeln!(lines, "{place} wrong: {code}")?,
            NextRecord::Cut => writeln!(lines, "cut")?,
            NextRecord::NeedsMore | NextRecord::End => return Ok(()),
        }
    }
    Ok(())
}

// What a stream gives that comes in pieces of so many bytes.
fn read_pieces(alloc: Global, stream: &[u8], size: usize) -> Result<String, Fail> {
    let mut lines = String::new(alloc);
    let mut records = RecordStream::new(alloc);
    for piece in stream.chunks(size.max(1)) {
        records.add(alloc, piece)?;
        read(alloc, &mut records, &mut lines)?;
    }
    records.finish();
    read(alloc, &mut records, &mut lines)?;
    Ok(lines)
}

// What it gives, by places in the whole stream.
const GIVEN: &str = concat!(
    "0 {\"a\": [1, {\"b\\\"]}\": null}], \"c\": {}}\n",
    "39 12\n",
    "42 -3.5e+7\n",
    "50 true\n",
    "55 []\n",
    "57 \"\\ud83d\\ude00 \\\\\"\n",
    "77 wrong: Invalid number\n",
    "98 wrong: Invalid surrogate Unicode code point\n",
    "102 [1,\n 2]\n",
    "113 wrong: Invalid literal (`true`, `false`, or a `null`) while parsing\n",
    "122 wrong: Expected this character to be a ':' while parsing\n",
    "129 wrong: JSON has non-whitespace trailing characters after the value\n",
    "134 \"\u{e9}\"\n",
    "139 7\n",
);

// How many bytes each of its pieces has.
const SIZES: [usize; 5] = [1, 2, 3, 7, STREAM.len()];

#[test]
fn gives_the_same_records_in_pieces_of_any_size(rt: HostRuntime) -> Result<(), Fail> {
    let alloc = rt.alloc();
    for &size in &SIZES {
        let lines = read_pieces(alloc, STREAM.as_bytes(), size)?;
        same_at(&rt, lines.as_str(), GIVEN, size);
    }
    Ok(())
}

// Streams that end inside a record or after one, and what they give.
const ENDED: [(&str, &str); 8] = [
    ("", ""),
    (" \n", ""),
    ("1", "0 1\n"),
    ("[1", "cut\n"),
    ("\"\\ud83d", "cut\n"),
    ("1 -", "0 1\ncut\n"),
    (
        "tru\n[2]",
        "3 wrong: Invalid literal (`true`, `false`, or a `null`) while parsing\n4 [2]\n",
    ),
    ("] [1]\n2", "0 wrong: Invalid JSON value\n6 2\n"),
];

#[test]
fn tells_a_record_that_is_cut_from_a_wrong_one(rt: HostRuntime) -> Result<(), Fail> {
    let alloc = rt.alloc();
    for &(stream, wanted) in &ENDED {
        let lines = read_pieces(alloc, stream.as_bytes(), 1)?;
        same_at(&rt, lines.as_str(), wanted, stream);
    }
    Ok(())
}
