// The line of a value of a document, put together from its end to its start.
ghost use Rattle.std.specs.Prelude.{◌≡◌, ◌+◌, ◌≤◌, ◌++◌, codes, decimal, drop, length};
ghost use Rattle.sonic_reports.specs.Commands.Entries.{word_of_type, words_of_value};
ghost use Rattle.sonic_reports.specs.Internal.EntryLines.{HasKeyWithin, key_of_label, word_of_label};

use itoa::write_digits;
use sonic_error::JsonType;
use sonic_index::{Entry, Label};
use sonic_lines::from_end::{put, put_number};

// A value of a document with its number, from 0.
#[derive(Drop)]
pub(crate) struct Numbered {
    pub(crate) number: usize,
    pub(crate) entry: Entry,
}

// A number with its digits, which end with the room: mostly the next one of its column is the same, or one
// more.
#[derive(Drop)]
pub(crate) struct Digits {
    number: usize,
    room: [u8; 20],
    start: usize,
    ghost within: { start ≤ 20 },
    ghost digits: { drop start room ≡ decimal number },
}

impl Digits {
    // Those of 0.
    fn zero() -> Digits {
        Digits {
            number: 0,
            room: [b'0'; 20],
            start: 19,
        }
    }

    // Goes on to this number. The one after it has the same digits but the last, unless that is a 9.
    #[inline(always)]
    fn set(&mut self, number: usize)
        ensures { self.new.number ≡ number }
    {
        if number == self.number {
            return;
        }
        if number == self.number.saturating_add(1) && self.room[19] < b'9' {
            self.room[19] += 1;
            self.number = number;
            return;
        }
        self.start = write_digits(number as u64, &mut self.room, 20);
        self.number = number;
    }

    // Puts the digits and a blank before a place: where they start.
    #[inline(always)]
    fn put(&self, room: &mut [u8], end: usize) -> usize
        requires room { 21 ≤ end }
        requires inside { end ≤ length room.old }
        ensures start { result ≤ end }
        ensures near { end ≤ result + 21 }
        ensures text { drop result room.new ≡ decimal self.now.number ++ codes " " ++ drop end room.old }
    {
        let at = put(room, end, b" ");
        let first = put(room, at, &self.room);
        first + self.start
    }
}

// Room for a line with a key of at most `SHORT` bytes, at its end, and the numbers of the line before. Five
// numbers of at most 20 digits and the words take less than 128.
#[derive(Drop)]
pub(crate) struct Room {
    pub(crate) line: [u8; 192],
    number: Digits,
    parent: Digits,
}

impl Room {
    // Room in which no line is.
    pub(crate) fn new() -> Room {
        Room {
            line: [0; 192],
            number: Digits::zero(),
            parent: Digits::zero(),
        }
    }
}

pub(crate) const SHORT: usize = 63;

// Puts the line of a value, whose key is short, so that it ends with the room: where it starts.
pub(crate) fn line(room: &mut Room, value: &Numbered, key: &[u8]) -> usize
    requires { length key.now ≤ 63 }
    ensures within { result ≤ 192 }
    ensures text { drop result room.new.line ≡ (words_of_value value.now.number value.now.entry
        ++ word_of_label value.now.entry.label) ++ (key.now ++ codes "\n") }
{
    let at = put(&mut room.line, 192, b"\n");
    let at = put_key(&mut room.line, at, key);
    put_words(room, at, value)
}

// Puts the words of a value's line, up to its key where it has one, so that they end with the room:
// where they start.
pub(crate) fn words(room: &mut Room, value: &Numbered) -> usize
    ensures within { result ≤ 192 }
    ensures text { drop result room.new.line
        ≡ words_of_value value.now.number value.now.entry ++ word_of_label value.now.entry.label }
{
    put_words(room, 192, value)
}

// Puts the words of a value's line, up to its key where it has one, before a place: where they start.
#[inline(always)]
fn put_words(room: &mut Room, end: usize, value: &Numbered) -> usize
    requires room { 128 ≤ end }
    requires inside { end ≤ 192 }
    ensures start { result ≤ end }
    ensures text { drop result room.new.line ≡ (words_of_value value.now.number value.now.entry
        ++ word_of_label value.now.entry.label) ++ drop end room.old.line }
{
    room.number.set(value.number);
    room.parent.set(value.entry.parent);
    let at = put_label(&mut room.line, end, value.entry.label);
    let at = put_number(&mut room.line, at, value.entry.end);
    let at = put_number(&mut room.line, at, value.entry.start);
    let at = put_type(&mut room.line, at, value.entry.kind);
    let at = room.parent.put(&mut room.line, at);
    room.number.put(&mut room.line, at)
}

// Puts the label without the key before a place: where it starts.
#[inline(always)]
fn put_label(room: &mut [u8], end: usize, label: Label) -> usize
    requires room { 23 ≤ end }
    requires inside { end ≤ length room.old }
    ensures start { result ≤ end }
    ensures near { end ≤ result + 23 }
    ensures text { drop result room.new ≡ word_of_label label ++ drop end room.old }
{
    match label {
        Label::Root => put(room, end, b"root"),
        Label::Key { .. } => put(room, end, b"key "),
        Label::At(number) => {
            let at = write_digits(number as u64, room, end);
            put(room, at, b"at ")
        }
    }
}

// Puts the word for a type and a blank before a place: where they start.
#[inline(always)]
fn put_type(room: &mut [u8], end: usize, kind: JsonType) -> usize
    requires room { 8 ≤ end }
    requires inside { end ≤ length room.old }
    ensures start { result ≤ end }
    ensures near { end ≤ result + 8 }
    ensures text { drop result room.new ≡ word_of_type kind ++ codes " " ++ drop end room.old }
{
    match kind {
        JsonType::Null => put(room, end, b"null "),
        JsonType::Boolean => put(room, end, b"boolean "),
        JsonType::Number => put(room, end, b"number "),
        JsonType::String => put(room, end, b"string "),
        JsonType::Object => put(room, end, b"object "),
        JsonType::Array => put(room, end, b"array "),
    }
}

// Puts a key, if there is one, before a place: where it starts. An element has none.
#[inline(always)]
fn put_key(room: &mut [u8], end: usize, key: &[u8]) -> usize
    requires room { length key.now ≤ end }
    requires inside { end ≤ length room.old }
    ensures start { result + length key.now ≡ end }
    ensures text { drop result room.new ≡ key.now ++ drop end room.old }
{
    if key.is_empty() {
        return end;
    }
    put(room, end, key)
}

// The key that is the label, with its quotes, or nothing.
pub(crate) fn key(text: &[u8], label: Label) -> &[u8]
    requires { HasKeyWithin text.now label }
    ensures { result.now ≡ key_of_label text.now label }
{
    match label {
        Label::Key { start, end } => &text[start..end],
        Label::Root | Label::At(_) => b"",
    }
}
