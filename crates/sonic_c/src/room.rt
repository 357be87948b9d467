// The caller's room for a text.
ghost use Rattle.std.specs.Prelude.{◌≡◌, length};
ghost use Rattle.sonic_c.specs.Codes.{placed};
ghost use Rattle.sonic_c.specs.Statuses.{status_ok};

use crate::status::OK;

// Writes as much of the text as the room takes to its start.
pub(crate) fn place(room: &mut [u8], bytes: &[u8])
    ensures { room.new ≡ placed bytes.now room.old }
{
    let count = room.len().min(bytes.len());
    room[..count].copy_from_slice(&bytes[..count]);
}

// Writes a text so, and tells the length of the whole.
pub(crate) fn write_text(text: &str, room: &mut [u8], wanted: &mut usize) -> u32
    ensures room { room.new ≡ placed text.now room.old }
    ensures wanted { wanted.new ≡ length text.now }
    ensures status { result ≡ status_ok }
{
    write_bytes(text.as_bytes(), room, wanted)
}

// The same of bytes.
pub(crate) fn write_bytes(bytes: &[u8], room: &mut [u8], wanted: &mut usize) -> u32
    ensures room { room.new ≡ placed bytes.now room.old }
    ensures wanted { wanted.new ≡ length bytes.now }
    ensures status { result ≡ status_ok }
{
    place(room, bytes);
    *wanted = bytes.len();
    OK
}
