// The words of an error.
ghost use Rattle.sonic_c.specs.Codes.{IsTextCall};

use crate::code::code_of;
use crate::room::place;
use std::alloc::Global;

/// The text of the code that has this number, as `Expect a quote` for 29: writes as much of it as the
/// room takes to the start of the room, and answers the length of the whole, in bytes.
///
/// It is 0, and the room is kept, where no code has the number, or where memory runs out.
#[unsafe(no_mangle)]
pub extern "C" fn jihluka_code_text(alloc: Global, code: u32, room: &mut [u8]) -> usize
    ensures { IsTextCall code room.old room.new result }
{
    let Some(code) = code_of(code) else {
        return 0;
    };
    let Ok(text) = code.to_string(alloc) else {
        return 0;
    };
    place(room, text.as_bytes());
    text.len()
}
