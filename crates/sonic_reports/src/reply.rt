//! A report that is ready to be written.
ghost use Rattle.std.specs.Prelude.{◌≡◌, ◌++◌, IfOk, OnOk, OnErr};
ghost use Rattle.std.specs.Cow.{cow_str_bytes};
ghost use Rattle.std.specs.List.{flat_map};
ghost use Rattle.sonic_lazy.specs.LazyValues.{raw_bytes};
ghost use Rattle.sonic_io.specs.Buffers.{IsWritten};
ghost use Rattle.sonic_reports.specs.Internal.Replies.{text_of, text_of_lines, line_of_value, line_of_shown, line_of_member};
ghost use Rattle.sonic_reports.specs.Commands.Entries.{line_of_value_at, lines_from};
ghost use Rattle.sonic_reports.specs.Internal.EntryLines.{HasKeyWithin};
ghost use Rattle.sonic_lines.specs.LineTexts.{counted};
ghost use Rattle.sonic_reports.specs.Lines.{line_of_text};
ghost use Rattle.sonic_io.specs.Outside.{Rose, Took, TookPrefix};

use crate::entry_line::{Numbered, Room, SHORT, key, line, words};
use crate::status::Status;
use crate::text_line::{Line, is_short, member_line, value_line};
use sonic_index::JsonIndex;
use sonic_io::{Buffer, Failed, Sink};
use sonic_lazy::LazyValue;
use std::alloc::{AllocError, Global};
use std::borrow::CowStr;

// How many bytes a report of many pieces is written by: 64 KiB.
const ROOM: usize = 65_536;

// The lines of a report.
#[derive(Drop)]
pub(crate) enum Lines<'i> {
    // Of values, and a dash where there is none.
    Values(Vec<Option<LazyValue<'i>>>),
    // Of the texts of values.
    Texts(Vec<&'i str>),
    // Of members, each its key and the text of its value.
    Members(Vec<(CowStr<'i>, &'i str)>),
    // Of all values of a document.
    Entries(JsonIndex<'i>),
    // Lines that are made.
    Made(Vec<u8>),
}

// A report that is ready to be written, with the status that goes with it: lines, and a last piece
// after them. Short pieces are put together in the room.
#[derive(Drop)]
pub(crate) struct Reply<'i> {
    pub(crate) status: Status,
    pub(crate) lines: Lines<'i>,
    pub(crate) last: CowStr<'i>,
    pub(crate) room: Vec<u8>,
}

impl<'i> Reply<'i> {
    // A report of one piece. It takes no memory.
    pub(crate) fn one(alloc: Global, status: Status, last: CowStr<'i>) -> Reply<'i>
        ensures text { text_of result ≡ cow_str_bytes last.entry }
        ensures status { result.status ≡ status }
    {
        let lines = Lines::Values(Vec::new(alloc));
        let room = Vec::new(alloc);
        Reply {
            status,
            lines,
            last,
            room,
        }
    }

    // A report of lines that are made. It takes no memory.
    pub(crate) fn of_bytes(alloc: Global, status: Status, bytes: Vec<u8>) -> Reply<'i>
        ensures text { text_of result ≡ bytes.items }
        ensures status { result.status ≡ status }
    {
        let lines = Lines::Made(bytes);
        let last = CowStr::Borrowed("");
        let room = Vec::new(alloc);
        Reply {
            status,
            lines,
            last,
            room,
        }
    }

    // A report of these lines, and a last piece. The only memory that it takes is its room.
    pub(crate) fn of_lines(
        alloc: Global,
        status: Status,
        lines: Lines<'i>,
        last: CowStr<'i>,
    ) -> Result<Reply<'i>, AllocError>
        ensures text { IfOk result (λ reply.
            text_of reply ≡ text_of_lines lines.entry ++ cow_str_bytes last.entry) }
        ensures status { IfOk result (λ reply. reply.status ≡ status) }
    {
        let room = vec![in alloc; 0u8; ROOM]?;
        Ok(Reply {
            status,
            lines,
            last,
            room,
        })
    }
}

// Writes a report, and finishes the sink.
//
// The first fault ends the delivery, and what the sink took before it stays written. Where only the
// finish failed, that is the whole report.
pub(crate) fn deliver<K: Sink>(sink: &mut K, reply: Reply<'_>) -> Result<(), Failed>
    ensures all { OnOk result (Took (K.written sink.old) (K.written sink.new) (text_of reply.entry)) }
    ensures sent { OnOk result (K.sent sink.new ≡ K.written sink.new) }
    ensures prefix { OnErr result (TookPrefix (K.written sink.old) (K.written sink.new) (text_of reply.entry)) }
    ensures calm { OnOk result (K.faults sink.new ≡ K.faults sink.old) }
    ensures cause { OnErr result (Rose (K.faults sink.old) (K.faults sink.new)) }
{
    let mut buffer = Buffer::new(reply.room);
    write_lines(sink, &mut buffer, &reply.lines)?;
    buffer.write(sink, reply.last.as_bytes())?;
    buffer.flush(sink)?;
    sink.finish()
}

// Writes lines, through a buffer.
fn write_lines<K: Sink>(sink: &mut K, buffer: &mut Buffer, lines: &Lines<'_>) -> Result<(), Failed>
    ensures { IsWritten K.Sink (sink.old, buffer.old) (sink.new, buffer.new)
        (text_of_lines lines.now) result }
{
    match lines {
        Lines::Values(values) => write_values(sink, buffer, values),
        Lines::Texts(texts) => write_texts(sink, buffer, texts),
        Lines::Members(members) => write_members(sink, buffer, members),
        Lines::Entries(index) => write_entries(sink, buffer, index),
        Lines::Made(bytes) => buffer.write(sink, bytes),
    }
}

// Writes the lines of the values, through a buffer.
fn write_values<K: Sink>(
    sink: &mut K,
    buffer: &mut Buffer,
    values: &[Option<LazyValue<'_>>],
) -> Result<(), Failed>
    ensures { IsWritten K.Sink (sink.old, buffer.old) (sink.new, buffer.new)
        (flat_map line_of_value values.now) result }
{
    let mut room = [0u8; 192];
    for value in values {
        write_entry(sink, buffer, &mut room, value)?;
    }
    Ok(())
}

// Writes the line of a value, or of none, through a buffer.
fn write_entry<K: Sink>(
    sink: &mut K,
    buffer: &mut Buffer,
    room: &mut Line,
    value: &Option<LazyValue<'_>>,
) -> Result<(), Failed>
    ensures { IsWritten K.Sink (sink.old, buffer.old) (sink.new, buffer.new)
        (line_of_value value.now) result }
{
    match value {
        Some(value) => write_text(sink, buffer, room, value.as_raw_str().as_bytes()),
        None => buffer.write(sink, b"-\n"),
    }
}

// Writes the lines of the texts, through a buffer.
fn write_texts<K: Sink>(sink: &mut K, buffer: &mut Buffer, texts: &[&str]) -> Result<(), Failed>
    ensures { IsWritten K.Sink (sink.old, buffer.old) (sink.new, buffer.new)
        (flat_map line_of_shown texts.now) result }
{
    let mut room = [0u8; 192];
    for text in texts {
        write_text(sink, buffer, &mut room, text.as_bytes())?;
    }
    Ok(())
}

// Writes the lines of all values of a document, through a buffer.
fn write_entries<K: Sink>(
    sink: &mut K,
    buffer: &mut Buffer,
    index: &JsonIndex<'_>,
) -> Result<(), Failed>
    ensures { IsWritten K.Sink (sink.old, buffer.old) (sink.new, buffer.new)
        (lines_from index.now.text 0 index.now.entries) result }
{
    let mut room = Room::new();
    for number in 0..index.len() {
        let Some(entry) = index.entry(number) else {
            unreachable!();
        };
        write_entry_line(
            sink,
            buffer,
            &mut room,
            index.text(),
            &Numbered { number, entry },
        )?;
    }
    Ok(())
}

// Writes the line of a value of a document, through a buffer: as one piece, but for a long key.
fn write_entry_line<K: Sink>(
    sink: &mut K,
    buffer: &mut Buffer,
    room: &mut Room,
    text: &[u8],
    value: &Numbered,
) -> Result<(), Failed>
    requires { HasKeyWithin text.now value.now.entry.label }
    ensures { IsWritten K.Sink (sink.old, buffer.old) (sink.new, buffer.new)
        (line_of_value_at text.now value.now.number value.now.entry) result }
{
    let key = key(text, value.entry.label);
    if key.len() <= SHORT {
        let start = line(room, value, key);
        return buffer.write(sink, &room.line[start..]);
    }
    let start = words(room, value);
    buffer.write(sink, &room.line[start..])?;
    buffer.write(sink, key)?;
    buffer.write(sink, b"\n")
}

// Writes the lines of the members, through a buffer.
fn write_members<K: Sink>(
    sink: &mut K,
    buffer: &mut Buffer,
    members: &[(CowStr<'_>, &str)],
) -> Result<(), Failed>
    ensures { IsWritten K.Sink (sink.old, buffer.old) (sink.new, buffer.new)
        (flat_map line_of_member members.now) result }
{
    let mut room = [0u8; 192];
    for member in members {
        write_member(sink, buffer, &mut room, member)?;
    }
    Ok(())
}

// Writes the line of a member, through a buffer: as one piece, if it is short.
fn write_member<K: Sink>(
    sink: &mut K,
    buffer: &mut Buffer,
    room: &mut Line,
    member: &(CowStr<'_>, &str),
) -> Result<(), Failed>
    ensures { IsWritten K.Sink (sink.old, buffer.old) (sink.new, buffer.new)
        (line_of_member member.now) result }
{
    let (key, text) = (member.0.as_bytes(), member.1.as_bytes());
    if is_short(key) && is_short(text) {
        let start = member_line(room, key, text);
        return buffer.write(sink, &room[start..]);
    }
    write_counted(sink, buffer, key)?;
    buffer.write(sink, b" ")?;
    write_text(sink, buffer, room, text)
}

// Writes the line of a text, through a buffer: as one piece, if it is short.
fn write_text<K: Sink>(
    sink: &mut K,
    buffer: &mut Buffer,
    room: &mut Line,
    text: &[u8],
) -> Result<(), Failed>
    ensures { IsWritten K.Sink (sink.old, buffer.old) (sink.new, buffer.new)
        (line_of_text text.now) result }
{
    if is_short(text) {
        let start = value_line(room, text);
        return buffer.write(sink, &room[start..]);
    }
    write_counted(sink, buffer, text)?;
    buffer.write(sink, b"\n")
}

// Writes a text after its length, through a buffer.
fn write_counted<K: Sink>(sink: &mut K, buffer: &mut Buffer, text: &[u8]) -> Result<(), Failed>
    ensures { IsWritten K.Sink (sink.old, buffer.old) (sink.new, buffer.new) (counted text.now) result }
{
    let mut digits = itoa::Buffer::new();
    buffer.write(sink, digits.format(text.len()).as_bytes())?;
    buffer.write(sink, b" ")?;
    buffer.write(sink, text)
}
