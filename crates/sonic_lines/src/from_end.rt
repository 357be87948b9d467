//! Text that is put together from its end to its start: of what a line is made.
ghost use Rattle.std.specs.Prelude.{◌≡◌, ◌+◌, ◌<◌, ◌≤◌, ◌++◌, codes, decimal, drop, length};
ghost use Rattle.sonic_lines.specs.LineTexts.{counted};

use itoa::write_digits;

/// Puts bytes before a place: where they start.
///
/// In `....\n` the bytes `ab` before the place 4 make `..ab\n`, which starts at 2.
#[inline(always)]
pub fn put(room: &mut [u8], end: usize, piece: &[u8]) -> usize
    requires room { length piece.now ≤ end }
    requires inside { end ≤ length room.old }
    ensures start { result + length piece.now ≡ end }
    ensures text { drop result room.new ≡ piece.now ++ drop end room.old }
{
    let start = end - piece.len();
    room[start..end].copy_from_slice(piece);
    start
}

/// Puts a number and a blank before a place: where they start.
///
/// It takes 21 bytes at most. Mostly the number has one digit.
#[inline(always)]
pub fn put_number(room: &mut [u8], end: usize, number: usize) -> usize
    requires room { 21 ≤ end }
    requires inside { end ≤ length room.old }
    ensures start { result < end }
    ensures near { end ≤ result + 21 }
    ensures text { drop result room.new ≡ decimal number ++ codes " " ++ drop end room.old }
{
    let at = put(room, end, b" ");
    if number < 10 {
        return put(room, at, &[b'0' + number as u8]);
    }
    write_digits(number as u64, room, at)
}

/// Puts a text after its length in bytes and a blank before a place: where they start.
///
/// It takes 21 bytes at most beside the text. Of `ab` it is `2 ab`.
#[inline(always)]
pub fn put_counted(room: &mut [u8], end: usize, text: &[u8]) -> usize
    requires room { length text.now + 21 ≤ end }
    requires inside { end ≤ length room.old }
    ensures start { result < end }
    ensures near { end ≤ result + (length text.now + 21) }
    ensures text { drop result room.new ≡ counted text.now ++ drop end room.old }
{
    let at = put(room, end, text);
    put_number(room, at, text.len())
}
